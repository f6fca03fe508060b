// The room's calls: memory is tested at the gate, the call is judged, and then it is done; a refusal changes nothing.
#![tactic(auto)]

ghost use Rattle.rules.specs.Lent.{memory};
ghost use Rattle.rules.specs.Steps as steps;
ghost use Rattle.rules.specs.Steps.{c1a, c1b, c1c};
ghost use Rattle.rules.specs.Replies.{answer_of, Did};
ghost use Rattle.rules.specs.Promises.{CallSettled, OpeningSettled};
ghost use Rattle.tell.specs.Past.{BookSettled};

pub mod asks; // asks.rt: asking a row, and the book
pub mod opening; // opening.rt: opening a room
pub mod posts; // posts.rt: the foreign post
pub mod steps; // steps.rt: a step of any kind
pub mod votes; // votes.rt: 2av and 2b

use judge::{node, other, send};
use rules::{House, Lent, Refusal, Reply};
use write::act;

// Each contract allows one outcome: the answer's number and values, the house record and every lent byte. `Did` is the contract of every
// call here but the book's, `Opened` that of opening, `BookDid` the book's.
pub fn settled()
    ensures calls { CallSettled }
    ensures opening { OpeningSettled }
    ensures book { BookSettled }
{}

// Here and in the other files each area is a parameter of its own: what a call writes is lent by `&mut`, and what is lent by `&` cannot change. The numbers are
// parameters too: a struct of them would be made at each caller and taken apart here, a line more for each.
#[tactic(auto, using(judge::proofs::Call::past, judge::proofs::Call::accepted, judge::proofs::Call::acted), unfolding(rules::specs::Replies::tell))]
pub fn send_1a(
    house: &mut House,
    board: &mut [u8],
    cells: &[u8],
    heard: &[u8],
    row: u32,
    ballot: u32,
) -> Result<Reply, Refusal>
    ensures { Did (memory house.old board.old cells.now heard.now) (c1a row ballot) (answer_of result) (memory house.new board.new cells.now heard.now) }
{
    let m = Lent {
        house,
        board,
        cells,
        heard,
    };
    form::gate(m)?;
    let (r, b) = send::judge_1a(m, row, ballot)?;
    act::act_1a(house, board, cells, heard, r, b);
    Ok(Reply::Done)
}

#[tactic(auto, using(judge::proofs::Call::past, judge::proofs::Call::accepted, judge::proofs::Call::acted), unfolding(rules::specs::Replies::tell))]
pub fn send_1c(
    house: &mut House,
    board: &mut [u8],
    cells: &[u8],
    heard: &[u8],
    row: u32,
    ballot: u32,
    tube: u32,
) -> Result<Reply, Refusal>
    ensures { Did (memory house.old board.old cells.now heard.now) (c1c row ballot tube) (answer_of result) (memory house.new board.new cells.now heard.now) }
{
    let m = Lent {
        house,
        board,
        cells,
        heard,
    };
    form::gate(m)?;
    let bid = send::judge_1c(m, row, ballot, tube)?;
    act::act_1c(house, board, cells, heard, bid);
    Ok(Reply::Done)
}

#[tactic(auto, using(judge::proofs::Call::past, judge::proofs::Call::accepted, judge::proofs::Call::acted), unfolding(rules::specs::Replies::tell))]
pub fn send_1b(
    house: &mut House,
    board: &mut [u8],
    cells: &mut [u8],
    heard: &[u8],
    row: u32,
    node: u32,
    ballot: u32,
) -> Result<Reply, Refusal>
    ensures { Did (memory house.old board.old cells.old heard.now) (c1b row node ballot) (answer_of result) (memory house.new board.new cells.new heard.now) }
{
    let m = Lent {
        house,
        board,
        cells,
        heard,
    };
    form::gate(m)?;
    let (r, b, n) = node::judge_1b(m, row, node, ballot)?;
    act::act_1b(house, board, cells, heard, r, n, b);
    Ok(Reply::Done)
}

#[tactic(auto, using(judge::proofs::Call::past, judge::proofs::Call::accepted, judge::proofs::Call::acted), unfolding(rules::specs::Replies::tell))]
pub fn hear(
    house: &House,
    board: &[u8],
    cells: &[u8],
    heard: &mut [u8],
    node: u32,
    number: u32,
) -> Result<Reply, Refusal>
    ensures { Did (memory house.now board.now cells.now heard.old) (steps.hear node number) (answer_of result) (memory house.now board.now cells.now heard.new) }
{
    let m = Lent {
        house,
        board,
        cells,
        heard,
    };
    form::gate(m)?;
    let (n, k) = other::judge_hear(m, node, number)?;
    act::act_hear(house, board, cells, heard, n, k);
    Ok(Reply::Done)
}

#[tactic(auto, using(judge::proofs::Call::past, judge::proofs::Call::accepted, judge::proofs::Call::acted), unfolding(rules::specs::Replies::tell))]
pub fn scan(
    house: &mut House,
    board: &[u8],
    cells: &[u8],
    heard: &[u8],
    station: u32,
    serial: u32,
) -> Result<Reply, Refusal>
    ensures { Did (memory house.old board.now cells.now heard.now) (steps.scan station serial) (answer_of result) (memory house.new board.now cells.now heard.now) }
{
    let m = Lent {
        house,
        board,
        cells,
        heard,
    };
    form::gate(m)?;
    let (s, tube) = other::judge_scan(m, station, serial)?;
    act::act_scan(house, board, cells, heard, s, serial);
    Ok(Reply::Told(tube))
}
