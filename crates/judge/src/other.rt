// What is answered to a scan, and to a node that hears a message.
ghost use Rattle.std.specs.Prelude.{◌≡◌, ◌≤◌, ◌<◌, IfOk};
ghost use Rattle.rules.specs.Lent.{lent};
ghost use Rattle.rules.specs.Steps.{hear, scan, tube_for};
ghost use Rattle.rules.specs.Lent.{read};
ghost use Rattle.rules.specs.Replies.{number_in};
ghost use Rattle.kept.specs.Kept.{Whole};
ghost use Rattle.judge.specs.Judged.{verdict};
ghost use Rattle.judge.specs.Narrow.{Heard};

use crate::limits;
use rules::{Lent, Node, Refusal, Tube};

pub fn judge_hear(m: Lent, node: u32, number: u32) -> Result<(Node, u16), Refusal>
    requires { Whole (lent m) }
    ensures number { number_in result ≡ verdict (lent m.entry) (hear node number) }
    ensures narrow { IfOk result (Heard node number) }
{
    let Some((n, k)) = limits::hear_in(m.house, node, number) else {
        return Err(Refusal::OutsideLimits);
    };
    if !board::is_1b_at(m.board, m.house.count as usize, k as usize) {
        return Err(Refusal::NoPromise);
    }
    Ok((n, k))
}

// A known scan has its old tube, a new one the next: either is a tube, unless intake is full.
pub fn judge_scan(m: Lent, station: u32, serial: u32) -> Result<(u8, Tube), Refusal>
    requires { Whole (lent m) }
    ensures number { number_in result ≡ verdict (lent m.entry) (scan station serial) }
    ensures narrow { IfOk result (λ x. (x.0 ≡ station) × (x.1.0 ≡ tube_for (read (lent m.entry)).intake station serial)) }
{
    if !limits::scan_in(station, serial) {
        return Err(Refusal::OutsideLimits);
    }
    let t = intake::tube_of(m.house, station as u8, serial);
    if t > Tube::MOST as usize {
        return Err(Refusal::IntakeFull);
    }
    Ok((station as u8, Tube(t as u8)))
}
