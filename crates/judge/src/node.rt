// What is answered to a node's steps, by its cell.
ghost use Rattle.std.specs.Prelude.{◌≡◌, leb, IfOk};
ghost use Rattle.rules.specs.Words.{height_of};
ghost use Rattle.rules.specs.Lent.{lent, place, cell_at};
ghost use Rattle.rules.specs.Steps.{c1b};
ghost use Rattle.rules.specs.Replies.{number_in};
ghost use Rattle.kept.specs.Kept.{Whole};
ghost use Rattle.judge.specs.Judged.{verdict};
ghost use Rattle.judge.specs.Narrow.{Seat, Seated};

use crate::{forms, limits};
use rules::{Ballot, Cell, Lent, Node, Refusal, Row};

// Whether the height of a stored ballot, 0 for none, is at most a number.
pub fn height_at_most(stored: u8, most: u8) -> bool
    ensures { result ≡ leb (height_of stored) most }
{
    if stored == Ballot::NONE {
        return true;
    }
    stored < most
}

// A node's cell in a row.
pub fn own_cell(m: Lent, row: Row, node: Node) -> Cell
    requires whole { Whole (lent m) }
    requires seat { Seated m.house.now row.0 node.0 }
    ensures { result ≡ cell_at m.entry.cells.now (place m.entry.house.now.rows row.0 node.0) }
{
    cell::cell_at(m.cells, cell::place(m.house.rows, row, node))
}

pub fn judge_1b(m: Lent, row: u32, node: u32, ballot: u32) -> Result<(Row, Ballot, Node), Refusal>
    requires { Whole (lent m) }
    ensures number { number_in result ≡ verdict (lent m.entry) (c1b row node ballot) }
    ensures narrow { IfOk result (Seat row ballot node) }
{
    let Some((r, b, n)) = limits::promise_in(m.house, row, ballot, node) else {
        return Err(Refusal::OutsideLimits);
    };
    let c = own_cell(m, r, n);
    if !height_at_most(c.maxbal, b.0) {
        return Err(Refusal::LowBallot);
    }
    if !board::has_1a(m.board, m.house.count as usize, r, b) {
        return Err(Refusal::NotAsked);
    }
    if !forms::fits(m.house, m.board, forms::promise(r, b, n, c)) {
        return Err(Refusal::BoardFull);
    }
    Ok((r, b, n))
}
