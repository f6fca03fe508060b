// A line's turn once the room is open: the step that it asks for is taken, and its answer printed.
#![tactic(auto)]

ghost use Rattle.std.specs.Prelude.{◌+◌, ◌≤◌, length};
ghost use Rattle.rules.specs.Lent.{memory};
ghost use Rattle.page.specs.Sheet.{Heads, sheet_of, stepped};
ghost use Rattle.turn.specs.Given.{Took};

use lines::Line;
use named::Answer;
use rules::{House, Refusal};

// "A bad step line prints `answer=19` and the next is read." Tells where the print ends. Each area is a parameter of its own: what is written is lent by `&mut`, and the rest cannot change.
pub fn take_step(
    house: &mut House,
    board: &mut [u8],
    cells: &mut [u8],
    heard: &mut [u8],
    line: Line,
    pairs: [u32; 32],
    out: &mut [u8],
    at: usize,
) -> usize
    requires { at + 34 ≤ length out.old }
    ensures took { (h : Heads) → Took (stepped h (memory house.old board.old cells.old heard.old) line pairs) (sheet_of h (memory house.new board.new cells.new heard.new)) out.old at result out.new }
    ensures end_bound { result ≤ at + 34 }
{
    let Line::Step(step) = line else {
        return closing::answer_line(out, at, Refusal::Malformed as u8, 0);
    };
    let answer = Answer::from(calls::steps::take(house, board, cells, heard, step, pairs));
    closing::answer_line(out, at, answer.number, answer.value)
}
