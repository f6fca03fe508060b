// Opening a room: the tests 1, 5, 2, 3, 4, and memory as opening leaves it.
#![tactic(auto)]

ghost use Rattle.std.specs.Prelude.{◌≡◌};
ghost use Rattle.rules.specs.Lent.{memory};
ghost use Rattle.rules.specs.Replies.{answer_of, number_in, open_reply, Opened};
ghost use Rattle.rules.specs.declared.House as house_record;
ghost use Rattle.open.specs.Room.{planned};

use rules::{House, Refusal, Reply};

mod clear; // clear.rt: cells and heard bits as opening leaves them
mod room; // room.rt: the room's counts and its house record

// The room that opening is asked for: its counts, its quorum list and its weak list, numbers of any size.
#[derive(Clone, Copy)]
pub struct Plan<'a> {
    pub nodes: u32,
    pub faulty: u32,
    pub rows: u32,
    pub capacity: u32,
    pub quorums: &'a [u32],
    pub weaks: &'a [u32],
}

// Opens a room in lent memory; a refusal changes nothing. Each area is a parameter of its own: what is written is lent by `&mut`, and the rest cannot change.
pub fn open(
    house: &mut House,
    board: &[u8],
    cells: &mut [u8],
    heard: &mut [u8],
    plan: Plan,
) -> Result<Reply, Refusal>
    ensures { Opened (planned plan.entry) (memory house.old board.now cells.old heard.old) (answer_of result) (memory house.new board.now cells.new heard.new) }
{
    judge_open(board, cells, heard, plan)?;
    clear::fresh_cells(cells, plan.nodes as usize * plan.rows as usize);
    clear::zeros(heard, 128 * plan.nodes as usize);
    *house = room::house_of(plan);
    Ok(Reply::Done)
}

// What opening replies, whatever house record stood there.
#[tactic(auto, using(crate::proofs::Housed::sizes_of))]
fn judge_open(board: &[u8], cells: &[u8], heard: &[u8], plan: Plan) -> Result<(), Refusal>
    ensures { (h : house_record.House) → number_in result ≡ open_reply (planned plan.entry) (memory h board.now cells.now heard.now) }
{
    if !room::counts_in(plan) {
        return Err(Refusal::CountOutside);
    }
    let nodes = plan.nodes as u8;
    if !tables::lengths_ok(
        nodes,
        plan.rows as u8,
        plan.capacity as u16,
        board,
        cells,
        heard,
    ) {
        return Err(Refusal::ShortArea);
    }
    tables::test_lists(nodes, plan.faulty as u8, plan.quorums, plan.weaks)
}
