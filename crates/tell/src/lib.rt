// What the board tells past the gate: a row that is asked, and the book.
#![tactic(auto)]

ghost use Rattle.std.specs.Prelude.{◌≡◌};
ghost use Rattle.rules.specs.Tests.{first};
ghost use Rattle.rules.specs.Lent.{lent};
ghost use Rattle.rules.specs.Steps.{ask, book};
ghost use Rattle.rules.specs.Replies.{gate, answer_of, values_of, Did};
ghost use Rattle.tell.specs.Chosen.{outcome_of};
ghost use Rattle.tell.specs.Past.{told, BookDid};

pub mod tally; // tally.rt: a row's votes and what it came to
pub mod booking; // booking.rt: the book's rows and the tubes that wait

use rules::{Lent, Refusal, Reply, Stop, Tube};

// What a row came to.
#[derive(Clone, Copy)]
pub enum RowTube {
    Unchosen,
    Agreed(Tube),
    Split,
}

// The tubes of the book's rows, how many rows it has, and why it stopped.
#[derive(Clone, Copy)]
pub struct Rows {
    pub tubes: [u8; 64],
    pub reach: u8,
    pub stop: Stop,
}

// What the book call tells: how many rows, how many waiting tubes, and why it stopped.
#[derive(Clone, Copy)]
pub struct Figures {
    pub rows: u8,
    pub waiting: u8,
    pub stop: Stop,
}

// What an asked row is told as: its tube, 0 for none, or 18. No `From`: it would stand on the result type, and a call by name says more.
fn told_as(o: RowTube) -> Result<Reply, Refusal>
    ensures { answer_of result ≡ told (outcome_of o) }
{
    match o {
        RowTube::Unchosen => Ok(Reply::Told(Tube(Tube::NONE))),
        RowTube::Agreed(t) => Ok(Reply::Told(t)),
        RowTube::Split => Err(Refusal::SplitRow),
    }
}

// What asking a row is answered once memory passed the gate.
pub fn ask_past(m: Lent, row: u32) -> Result<Reply, Refusal>
    requires { first (gate (lent m) (ask row)) ≡ 0 }
    ensures { Did (lent m.entry) (ask row) (answer_of result) (lent m.entry) }
{
    if !m.house.has_row(row) {
        return Err(Refusal::OutsideLimits);
    }
    told_as(tally::row_outcome(m.house, m.board, row as u8))
}

// What the book is answered once memory passed the gate, and what it writes.
pub fn book_past(m: Lent, rows: &mut [u8], waiting: &mut [u8]) -> Reply
    requires { first (gate (lent m) (book rows.old waiting.old)) ≡ 0 }
    ensures { BookDid (lent m.entry) rows.old waiting.old rows.new waiting.new (values_of result) }
{
    let f = booking::write_book(m.house, m.board, rows, waiting);
    Reply::Booked {
        rows: f.rows,
        waiting: f.waiting,
        stop: f.stop,
    }
}
