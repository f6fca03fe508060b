// The pairs of a foreign 1b, tube and ballot, up to the end of a line.
ghost use Rattle.std.specs.Prelude.{◌≡◌};
ghost use Rattle.lines.specs.Grammar.{pair_in, pairs_of};
ghost use Rattle.lines.specs.Held.{held_pairs, kept};

use crate::digits::read_number;
use crate::places::has_byte;

// A pair: the whole text is a tube, a colon and a ballot.
fn read_pair(s: &[u8]) -> Option<(u32, u32)>
    ensures { result ≡ pair_in s.now }
{
    let (tube, at) = read_number(s, 0)?;
    if !has_byte(s, at, b':') {
        return None;
    }
    let (ballot, end) = read_number(s, at + 1)?;
    (end == s.len()).then_some((tube, ballot))
}

// The pairs with one more, if it is one of the first sixteen.
fn keep_pair(pairs: &mut [u32; 32], k: usize, tube: u32, ballot: u32)
    ensures { pairs.new ≡ kept pairs.old k tube ballot }
{
    if k < 16 {
        pairs[2 * k] = tube;
        pairs[2 * k + 1] = ballot;
    }
}

// The pairs that a text lists: how many, and the first sixteen.
pub fn read_pairs(s: &[u8]) -> Option<(usize, [u32; 32])>
    ensures { result ≡ held_pairs (pairs_of s.now) }
{
    let mut pairs = [0; 32];
    let mut count = 0;
    if s.is_empty() {
        return Some((count, pairs));
    }
    for part in s.split(|b| *b == b',') {
        let (tube, ballot) = read_pair(part)?;
        keep_pair(&mut pairs, count, tube, ballot);
        count += 1;
    }
    Some((count, pairs))
}
