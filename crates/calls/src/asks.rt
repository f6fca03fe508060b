// The calls that tell and change nothing: asking a row, and the book.
ghost use Rattle.std.specs.Prelude.{◌≡◌, ◌&&◌, leb, length};
ghost use Rattle.rules.specs.Lent.{lent};
ghost use Rattle.rules.specs.Steps as steps;
ghost use Rattle.rules.specs.Replies.{answer_of, Did};
ghost use Rattle.tell.specs.Past.{BookDid};

use rules::{House, Lent, Refusal, Reply};

pub fn ask(m: Lent, row: u32) -> Result<Reply, Refusal>
    ensures { Did (lent m.entry) (steps.ask row) (answer_of result) (lent m.entry) }
{
    form::gate(m)?;
    tell::ask_past(m, row)
}

// The book's own areas are long enough: R bytes for rows, 64 for waiting tubes.
pub fn areas_ok(house: &House, rows: &[u8], waiting: &[u8]) -> bool
    ensures { result ≡ leb house.now.rows (length rows.now) && leb 64 (length waiting.now) }
{
    (house.rows as usize <= rows.len()) & (64 <= waiting.len())
}

pub fn book(m: Lent, rows: &mut [u8], waiting: &mut [u8]) -> Result<Reply, Refusal>
    ensures { BookDid (lent m.entry) rows.old waiting.old rows.new waiting.new (answer_of result) }
{
    form::gate_with(m, areas_ok(m.house, rows, waiting))?;
    Ok(tell::book_past(m, rows, waiting))
}
