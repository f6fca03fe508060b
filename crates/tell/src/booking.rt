// The book: its rows up to the first that is not agreed, their lines, and the tubes that wait.
ghost use Rattle.std.specs.Prelude.{◌≡◌, ◌≤◌, ◌<◌, length};
ghost use Rattle.rules.specs.Lent.{patch};
ghost use Rattle.tell.specs.Votes.{Countable};
ghost use Rattle.tell.specs.Chosen.{Seen};
ghost use Rattle.tell.specs.Lines.{Reached, line_of, lines, Left, Written};

use crate::{Figures, RowTube, Rows};

// The book's rows, from row 1 to just before the first that is not agreed.
pub fn book_rows(h: &rules::House, board: &[u8]) -> Rows
    requires { Countable h.now board.now }
    ensures { Seen h.now board.now (λ ρ s. Reached ρ s result) }
{
    let mut tubes = [0; 64];
    for k in 0..h.rows {
        match crate::tally::row_outcome(h, board, k + 1) {
            RowTube::Agreed(t) => tubes[k as usize] = t.0,
            RowTube::Unchosen => {
                return Rows {
                    tubes,
                    reach: k,
                    stop: rules::Stop::Unchosen,
                };
            }
            RowTube::Split => {
                return Rows {
                    tubes,
                    reach: k,
                    stop: rules::Stop::Split,
                };
            }
        }
    }
    Rows {
        tubes,
        reach: h.rows,
        stop: rules::Stop::RowsEnded,
    }
}

// The line of a row, numbered from 0: its tube, or 0 if the tube stands in an earlier row.
#[tactic(auto, using(crate::proofs::Found::found_below))]
fn line(rows: &[u8], i: usize) -> u8
    requires { i < length rows.now }
    ensures { result ≡ line_of rows.now i }
{
    if rows[..i].contains(&rows[i]) {
        0
    } else {
        rows[i]
    }
}

// The lines of the rows.
#[tactic(auto, using(crate::proofs::Lines::lines_next), unfolding(crate::specs::Lines::lines))]
fn write_lines(rows: &[u8], out: &mut [u8])
    requires { length rows.now ≤ length out.old }
    ensures { out.new ≡ patch out.old 0 (lines rows.now (length rows.now)) }
{
    for i in 0..rows.len() {
        out[i] = line(rows, i);
    }
}

// The tubes from 1 to last that stand in none of the rows, ascending; the answer is how many.
fn write_waiting(rows: &[u8], last: u8, out: &mut [u8]) -> u8
    requires last_bound { last ≤ 64 }
    requires in_bounds { 64 ≤ length out.old }
    ensures { Left rows.now (length rows.now) last out.old out.new result }
{
    let mut w = 0;
    for k in 0..last {
        if !rows.contains(&(k + 1)) {
            out[w as usize] = k + 1;
            w += 1;
        }
    }
    w
}

// The book into one lent area and the waiting tubes into the other.
pub fn write_book(h: &rules::House, board: &[u8], rows: &mut [u8], waiting: &mut [u8]) -> Figures
    requires countable { Countable h.now board.now }
    requires rows_in_bounds { (h.now.rows ≤ length rows.old) × (64 ≤ length waiting.old) }
    ensures { Seen h.now board.now (λ ρ s. Written ρ s rows.old waiting.old rows.new waiting.new result) }
{
    let b = book_rows(h, board);
    let tubes = &b.tubes[..b.reach as usize];
    write_lines(tubes, rows);
    let left = write_waiting(tubes, h.tubes, waiting);
    Figures {
        rows: b.reach,
        waiting: left,
        stop: b.stop,
    }
}
