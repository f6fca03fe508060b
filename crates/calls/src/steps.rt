// A step of any kind: each goes to its call, and a foreign one takes its post and the pair array beside it.
ghost use Rattle.rules.specs.Lent.{memory};
ghost use Rattle.rules.specs.Replies.{answer_of, Did};
ghost use Rattle.step.specs.Given.{call_of};

use rules::{House, Refusal, Reply};
use step::Step;

// A match on the step, one call an arm: a step is data, from a line or a frame, and each call writes areas of its own.
#[tactic(auto, using(judge::proofs::Call::as_said))]
pub fn take(
    house: &mut House,
    board: &mut [u8],
    cells: &mut [u8],
    heard: &mut [u8],
    step: Step,
    pairs: [u32; 32],
) -> Result<Reply, Refusal>
    ensures { Did (memory house.old board.old cells.old heard.old) (call_of step pairs) (answer_of result) (memory house.new board.new cells.new heard.new) }
{
    match step {
        Step::Scan { station, serial } => crate::scan(house, board, cells, heard, station, serial),
        Step::Send1a { row, ballot } => crate::send_1a(house, board, cells, heard, row, ballot),
        Step::Send1b { row, ballot, node } => {
            crate::send_1b(house, board, cells, heard, row, node, ballot)
        }
        Step::Send1c { row, ballot, tube } => {
            crate::send_1c(house, board, cells, heard, row, ballot, tube)
        }
        Step::Send2av {
            row,
            ballot,
            node,
            tube,
        } => crate::votes::send_2av(house, board, cells, heard, row, node, ballot, tube),
        Step::Send2b {
            row,
            ballot,
            node,
            tube,
        } => crate::votes::send_2b(house, board, cells, heard, row, node, ballot, tube),
        Step::Hear { node, message } => crate::hear(house, board, cells, heard, node, message),
        Step::Foreign(post) => {
            crate::posts::post_foreign(house, board, cells, heard, post, pairs)
        }
    }
}
