// Opening a room in lent memory, as the first of the calls.
ghost use Rattle.rules.specs.Lent.{memory};
ghost use Rattle.rules.specs.Replies.{answer_of, Opened};
ghost use Rattle.open.specs.Room.{planned};

use open::Plan;
use rules::{House, Refusal, Reply};

// The areas are parameters of their own, as in lib.rt.
pub fn open(
    house: &mut House,
    board: &[u8],
    cells: &mut [u8],
    heard: &mut [u8],
    plan: Plan,
) -> Result<Reply, Refusal>
    ensures { Opened (planned plan.entry) (memory house.old board.now cells.old heard.old) (answer_of result) (memory house.new board.now cells.new heard.new) }
{
    open::open(house, board, cells, heard, plan)
}
