// The calls 2av and 2b of a node. These two, and those of lib.rt, differ in the judge and the act that they name: one function over both would take two
// closures to save two lines, and lend every area for change. The areas and the numbers are parameters of their own, as in lib.rt.
ghost use Rattle.rules.specs.Lent.{memory};
ghost use Rattle.rules.specs.Steps.{c2av, c2b};
ghost use Rattle.rules.specs.Replies.{answer_of, Did};

use rules::{House, Lent, Refusal, Reply};

#[tactic(auto, using(judge::proofs::Call::past, judge::proofs::Call::accepted, judge::proofs::Call::acted), unfolding(rules::specs::Replies::tell))]
pub fn send_2av(
    house: &mut House,
    board: &mut [u8],
    cells: &mut [u8],
    heard: &[u8],
    row: u32,
    node: u32,
    ballot: u32,
    tube: u32,
) -> Result<Reply, Refusal>
    ensures { Did (memory house.old board.old cells.old heard.now) (c2av row node ballot tube) (answer_of result) (memory house.new board.new cells.new heard.now) }
{
    let m = Lent {
        house,
        board,
        cells,
        heard,
    };
    form::gate(m)?;
    let (n, bid) = vote::judge_2av(m, row, node, ballot, tube)?;
    vote::act_2av(house, board, cells, heard, n, bid);
    Ok(Reply::Done)
}

#[tactic(auto, using(judge::proofs::Call::past, judge::proofs::Call::accepted, judge::proofs::Call::acted), unfolding(rules::specs::Replies::tell))]
pub fn send_2b(
    house: &mut House,
    board: &mut [u8],
    cells: &mut [u8],
    heard: &[u8],
    row: u32,
    node: u32,
    ballot: u32,
    tube: u32,
) -> Result<Reply, Refusal>
    ensures { Did (memory house.old board.old cells.old heard.now) (c2b row node ballot tube) (answer_of result) (memory house.new board.new cells.new heard.now) }
{
    let m = Lent {
        house,
        board,
        cells,
        heard,
    };
    form::gate(m)?;
    let (n, bid) = vote::judge_2b(m, row, node, ballot, tube)?;
    vote::act_2b(house, board, cells, heard, n, bid);
    Ok(Reply::Done)
}
