// The end of a sheet: the closing lines of lent memory, or the number that the gate found.
#![tactic(auto)]

ghost use Rattle.std.specs.Prelude.{◌≡◌, ◌≤◌, eqb, length};
ghost use Rattle.rules.specs.Lent.{lent, patch};
ghost use Rattle.rules.specs.Replies.{stop_of};
ghost use Rattle.page.specs.Sheet.{closes};
ghost use Rattle.ending.specs.Laws.{Closed, OwnLine, AddsUp};

use rules::{Lent, Stop};

// What the end of a sheet promises of memory that passes the gate, carried by a function that does nothing.
pub fn ending_lines()
    ensures closed { Closed }
    ensures own_line { OwnLine }
    ensures adds_up { AddsUp }
{}

// Whether a split row stopped the book.
fn by_split(stop: Stop) -> bool
    ensures { result ≡ eqb (stop_of stop) 2 }
{
    matches!(stop, Stop::Split)
}

// All that the end of the input prints where a room was opened, at the front of a buffer; tells where it ends.
pub fn write_ending(m: Lent, out: &mut [u8]) -> usize
    requires { 8192 ≤ length out.old }
    ensures value { result ≡ length (closes (lent m.entry)) }
    ensures out_after { out.new ≡ patch out.old 0 (closes (lent m.entry)) }
    ensures upper_bound { result ≤ 8192 }
{
    if let Err(refusal) = form::gate(m) {
        return closing::answer_line(out, 0, refusal.into(), 0);
    }
    let h = *m.house;
    let b = tell::booking::book_rows(m.house, m.board);
    closing::write_closing(
        b.tubes,
        b.reach,
        by_split(b.stop),
        h.stations,
        h.serials,
        h.tubes,
        out,
    )
}
