// What is answered to those who send without a cell: a leader's 1a and 1c.
ghost use Rattle.std.specs.Prelude.{◌≡◌, IfOk};
ghost use Rattle.rules.specs.Lent.{lent};
ghost use Rattle.rules.specs.Steps.{c1a, c1c};
ghost use Rattle.rules.specs.Replies.{number_in};
ghost use Rattle.kept.specs.Kept.{Whole};
ghost use Rattle.judge.specs.Judged.{verdict};
ghost use Rattle.judge.specs.Narrow.{Lead, Offer};

use crate::{forms, limits};
use rules::{Ballot, Bid, Lent, Refusal, Row};

pub fn judge_1a(m: Lent, row: u32, ballot: u32) -> Result<(Row, Ballot), Refusal>
    requires { Whole (lent m) }
    ensures number { number_in result ≡ verdict (lent m.entry) (c1a row ballot) }
    ensures narrow { IfOk result (Lead row ballot) }
{
    let Some((r, b)) = limits::lead_in(m.house, row, ballot) else {
        return Err(Refusal::OutsideLimits);
    };
    if !forms::fits(m.house, m.board, board::lead(r, b)) {
        return Err(Refusal::BoardFull);
    }
    Ok((r, b))
}

pub fn judge_1c(m: Lent, row: u32, ballot: u32, tube: u32) -> Result<Bid, Refusal>
    requires { Whole (lent m) }
    ensures number { number_in result ≡ verdict (lent m.entry) (c1c row ballot tube) }
    ensures narrow { IfOk result (Offer row ballot tube) }
{
    let Some(bid) = limits::offer_in(m.house, row, ballot, tube) else {
        return Err(Refusal::OutsideLimits);
    };
    if !limits::on_intake(m.house, tube) {
        return Err(Refusal::NotOnIntake);
    }
    if !forms::fits(m.house, m.board, board::offer(bid)) {
        return Err(Refusal::BoardFull);
    }
    Ok(bid)
}
