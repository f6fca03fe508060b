// The steps 2av and 2b of a node: what is answered, and what an accepted one does.
#![tactic(auto)]

ghost use Rattle.std.specs.Prelude.{◌≡◌, IfOk};
ghost use Rattle.rules.specs.Lent.{memory, lent};
ghost use Rattle.rules.specs.Steps.{c2av, c2b};
ghost use Rattle.rules.specs.Replies.{reply, after, number_in};
ghost use Rattle.kept.specs.Kept.{Whole};
ghost use Rattle.judge.specs.Judged.{verdict};
ghost use Rattle.judge.specs.Narrow.{Cast};
ghost use Rattle.vote.specs.Begun.{begun};

use judge::{forms, limits, node};
use rules::{Bid, House, Kind, Lent, Node, Refusal};

// How many pairs a cell and a 1b hold at most.
const PAIRS: u8 = 16;

// The tests that a 2av and a 2b begin with: numbers within limits, a tube on intake, a ballot not below max_bal.
pub fn begin(m: Lent, row: u32, node: u32, ballot: u32, tube: u32) -> Result<(Node, Bid), Refusal>
    requires { Whole (lent m) }
    ensures number { number_in result ≡ begun (lent m.entry) row node ballot tube }
    ensures narrow { IfOk result (Cast row node ballot tube) }
{
    let Some((n, bid)) = limits::vote_in(m.house, row, ballot, node, tube) else {
        return Err(Refusal::OutsideLimits);
    };
    if !limits::on_intake(m.house, tube) {
        return Err(Refusal::NotOnIntake);
    }
    let c = node::own_cell(m, bid.row, n);
    if !node::height_at_most(c.maxbal, bid.ballot.0 + 1) {
        return Err(Refusal::LowBallot);
    }
    Ok((n, bid))
}

pub fn judge_2b(
    m: Lent,
    row: u32,
    node: u32,
    ballot: u32,
    tube: u32,
) -> Result<(Node, Bid), Refusal>
    requires { Whole (lent m) }
    ensures number { number_in result ≡ verdict (lent m.entry) (c2b row node ballot tube) }
    ensures narrow { IfOk result (Cast row node ballot tube) }
{
    let (n, bid) = begin(m, row, node, ballot, tube)?;
    if !board::covered(m.house, m.board, Kind::TwoAv, bid) {
        return Err(Refusal::NoQuorum);
    }
    if !forms::fits(m.house, m.board, board::bare(Kind::TwoB, bid, n)) {
        return Err(Refusal::BoardFull);
    }
    Ok((n, bid))
}

pub fn judge_2av(
    m: Lent,
    row: u32,
    node: u32,
    ballot: u32,
    tube: u32,
) -> Result<(Node, Bid), Refusal>
    requires { Whole (lent m) }
    ensures number { number_in result ≡ verdict (lent m.entry) (c2av row node ballot tube) }
    ensures narrow { IfOk result (Cast row node ballot tube) }
{
    let (n, bid) = begin(m, row, node, ballot, tube)?;
    if !board::has_1c(m.board, m.house.count as usize, bid) {
        return Err(Refusal::NotAsked);
    }
    let c = node::own_cell(m, bid.row, n);
    let pairs = c.pairs; // the check takes an array's field by way of a variable, here and below
    if !pairs::all_below(pairs, c.count, bid.ballot) {
        return Err(Refusal::RelayedAlready);
    }
    if !safe::known_safe(m.house, m.board, m.heard, n, bid) {
        return Err(Refusal::NotKnownSafe);
    }
    if pairs::others(pairs, c.count, bid.tube) >= PAIRS {
        return Err(Refusal::PairsFull);
    }
    if !forms::fits(m.house, m.board, board::bare(Kind::TwoAv, bid, n)) {
        return Err(Refusal::BoardFull);
    }
    Ok((n, bid))
}

// max_bal and max_vbal become the ballot, max_vval the tube. This and the next differ in what they do to the cell, and share the rest by `post` and `set_cell`.
// One function over both would take a closure, and each cell as it is left has its own answer all the same. The areas are lent one by one: two for change, one not.
pub fn act_2b(
    house: &mut House,
    board: &mut [u8],
    cells: &mut [u8],
    heard: &[u8],
    node: Node,
    bid: Bid,
)
    requires whole { Whole (memory house.old board.old cells.old heard.now) }
    requires tube_value { reply (memory house.old board.old cells.old heard.now) (c2b bid.row.0 node.0 bid.ballot.0 bid.tube.0) ≡ 0 }
    ensures { memory house.new board.new cells.new heard.now ≡ after (memory house.old board.old cells.old heard.now) (c2b bid.row.0 node.0 bid.ballot.0 bid.tube.0) }
{
    let k = cell::place(house.rows, bid.row, node);
    board::post(house, board, board::bare(Kind::TwoB, bid, node));
    let mut voted = cell::cell_at(cells, k);
    voted.maxbal = bid.ballot.0;
    voted.maxvbal = bid.ballot.0;
    voted.maxvval = bid.tube.0;
    cell::set_cell(cells, k, voted);
}

// max_bal becomes the ballot; pairs for this tube are removed, the rest close up, and (tube, ballot) is put last.
pub fn act_2av(
    house: &mut House,
    board: &mut [u8],
    cells: &mut [u8],
    heard: &[u8],
    node: Node,
    bid: Bid,
)
    requires whole { Whole (memory house.old board.old cells.old heard.now) }
    requires tube_value { reply (memory house.old board.old cells.old heard.now) (c2av bid.row.0 node.0 bid.ballot.0 bid.tube.0) ≡ 0 }
    ensures { memory house.new board.new cells.new heard.now ≡ after (memory house.old board.old cells.old heard.now) (c2av bid.row.0 node.0 bid.ballot.0 bid.tube.0) }
{
    let k = cell::place(house.rows, bid.row, node);
    board::post(house, board, board::bare(Kind::TwoAv, bid, node));
    let mut sent = cell::cell_at(cells, k);
    let pairs = sent.pairs; // the check takes an array's field by way of a variable, as below
    let held = pairs::moved(pairs, sent.count, bid.tube, bid.ballot);
    sent.maxbal = bid.ballot.0;
    sent.count = held.count;
    let pairs = held.pairs; // as above
    sent.pairs = pairs;
    cell::set_cell(cells, k, sent);
}
