// A foreign 1b: its pair array as bytes, and how it is stored where its fields are within limits.
ghost use Rattle.std.specs.Prelude.{◌≡◌, ◌&&◌, leb};
ghost use Rattle.rules.specs.Tests.{all};
ghost use Rattle.rules.specs.Words.{height_of};
ghost use Rattle.rules.specs.Lent.{room_of, stored, pairs_of, pairs_in};
ghost use Rattle.rules.specs.Steps.{p1b, posted};
ghost use Rattle.rules.specs.Replies.{post_in, pairs_plain};
ghost use Rattle.judge.specs.Narrow.{Tested};
ghost use Rattle.foreign.specs.Bytes.{byte};

use rules::{House, Kind, Message};
use step::OneB;

// Whether every number of the array is a byte.
pub fn all_bytes(pairs: [u32; 32]) -> bool
    ensures { result ≡ all byte pairs }
{
    pairs.iter().all(|x| *x <= 255)
}

// A 1b's mbal: none or a ballot; crate form has the same of a stored byte.
pub fn height_in(mbal: u32) -> bool
    ensures { result ≡ leb (height_of mbal) 16 }
{
    mbal == 255 || mbal < 16
}

// The array and the count are the step's own, as a caller hands them over.
// The pairs as bytes, where they are sixteen at most, within limits and ascending, and every unused one is 0.
#[tactic(auto, using(crate::proofs::Bytes::not_bytes, crate::proofs::Bytes::each_byte, crate::proofs::Bytes::fit_whole, pairs::proofs::Arrays::over))]
pub fn packed(pairs: [u32; 32], count: usize) -> Option<[u8; 32]>
    ensures { Tested (pairs_in (pairs_of count pairs) && pairs_plain count pairs) (λ l. l ≡ pairs) result }
{
    if !(count <= 16 && all_bytes(pairs)) {
        return None;
    }
    let bytes = tables::narrowed(&pairs);
    if !pairs::pairs_in(bytes, count as u8) {
        return None;
    }
    Some(bytes)
}

// A 1b as it is stored, where every field is within its limits.
pub fn message_1b(h: &House, p: OneB, pairs: [u32; 32]) -> Option<Message>
    ensures { Tested (post_in (room_of h.now) (p1b p.row p.ballot p.node p.mbal p.mval p.count pairs)) (λ x. x ≡ stored (posted (p1b p.row p.ballot p.node p.mbal p.mval p.count pairs))) result }
{
    let (row, ballot, node) = judge::limits::promise_in(h, p.row, p.ballot, p.node)?;
    if !(height_in(p.mbal) & (p.mval <= 64)) {
        return None;
    }
    let pairs = packed(pairs, p.count)?;
    Some(Message {
        kind: Kind::OneB.into(),
        row: row.0,
        bal: ballot.0,
        node: node.0,
        tube: 0,
        mbal: p.mbal as u8,
        mval: p.mval as u8,
        count: p.count as u8,
        pairs,
    })
}
