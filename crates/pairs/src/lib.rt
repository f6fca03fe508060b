// Sixteen (tube, ballot) pairs as an array by value: what is asked of them, a tube's pairs removed, and a pair put last.
#![tactic(auto)]

ghost use Rattle.std.specs.Prelude.{◌≡◌, ◌&&◌, [], ◌∷◌, ◌++◌, ◌*◌, ◌≤◌, ◌<◌, eqb, ltb, length, drop};
ghost use Rattle.rules.specs.Tests.{any, all};
ghost use Rattle.rules.specs.Lent.{pairs_of, below, ascend, pairs_in};
ghost use Rattle.rules.specs.Steps.{without, reaches};
ghost use Rattle.rules.specs.Replies.{pairs_plain};
ghost use Rattle.pairs.specs.Pairs.{passes, Packed};

// What is asked of every pair.
#[derive(Clone, Copy)]
pub enum Ask {
    // A tube and a ballot within their limits.
    Limits,
    // The tube is one of the first so many scanned.
    Scanned(u8),
    // The ballot lies below this one.
    Below(u8),
    // Not a pair of this tube whose ballot reaches above this one.
    Misses(u8, u8),
}

// Whether a pair's ballot k is strictly above c.
pub fn reaches(c: u8, k: u8) -> bool
    ensures { result ≡ reaches c k }
{
    c < k
}

pub fn in_limits(t: u8, b: u8) -> bool
    ensures { result ≡ passes Ask.Limits (t, b) }
{
    1 <= t && t <= rules::Tube::MOST && b <= rules::Ballot::LAST
}

pub fn misses(t: u8, b: u8, tube: u8, c: u8) -> bool
    ensures { result ≡ passes (Ask.Misses tube c) (t, b) }
{
    t != tube || !reaches(c, b)
}

// Whether a pair is as asked. A match and no closure: `passes` of the definitions names what is asked, and a closure would say it a second time in a clause.
pub fn pass(ask: Ask, t: u8, b: u8) -> bool
    ensures { result ≡ passes ask (t, b) }
{
    match ask {
        Ask::Limits => in_limits(t, b),
        Ask::Scanned(k) => t <= k,
        Ask::Below(k) => b < k,
        Ask::Misses(tube, c) => misses(t, b, tube, c),
    }
}

// Whether each of the first count pairs passes. Array and count are two parameters in this file: docs/DECISIONS.md names `removed` and `moved`, arrays by value that are
// passed and returned, and a type that knows count ≤ 16 would ask more of their callers.
pub fn each(pairs: [u8; 32], count: u8, ask: Ask) -> bool
    requires { count ≤ 16 }
    ensures { result ≡ all (passes ask) (pairs_of count pairs) }
{
    for i in 0..usize::from(count) {
        if !pass(ask, pairs[2 * i], pairs[2 * i + 1]) {
            return false;
        }
    }
    true
}

// Whether every pair's ballot lies below this one.
pub fn all_below(pairs: [u8; 32], count: u8, ballot: rules::Ballot) -> bool
    requires { count ≤ 16 }
    ensures { result ≡ all (λ p. ltb p.1 ballot.0) (pairs_of count pairs) }
{
    each(pairs, count, Ask::Below(ballot.0))
}

// Whether some pair of this tube has a ballot strictly above c.
pub fn has_above(pairs: [u8; 32], count: u8, tube: rules::Tube, c: u8) -> bool
    requires { count ≤ 16 }
    ensures { result ≡ any (λ p. eqb p.0 tube.0 && reaches c p.1) (pairs_of count pairs) }
{
    !each(pairs, count, Ask::Misses(tube.0, c))
}

// Whether the pair (t, b) comes before (u, c): by ballot, then tube. Every call asks it of each list, and the tuples compared took twice the instructions.
pub fn comes_before(t: u8, b: u8, u: u8, c: u8) -> bool
    ensures { result ≡ below (t, b) (u, c) }
{
    if b < c {
        true
    } else if b > c {
        false
    } else {
        t < u
    }
}

// Whether the first count pairs ascend strictly.
pub fn ascending(pairs: [u8; 32], count: u8) -> bool
    requires { count ≤ 16 }
    ensures { result ≡ ascend (pairs_of count pairs) }
{
    for i in 1..usize::from(count) {
        if !comes_before(
            pairs[2 * i - 2],
            pairs[2 * i - 1],
            pairs[2 * i],
            pairs[2 * i + 1],
        ) {
            return false;
        }
    }
    true
}

// Whether all bytes are 0: they are added up without a stop, which is the quickest for the many lists that have no pairs.
pub fn no_pairs(pairs: [u8; 32]) -> bool
    ensures { result ≡ all (λ x. eqb x 0) pairs }
{
    pairs.iter().map(|x| u32::from(*x)).sum::<u32>() == 0
}

// Whether the bytes from a place on are 0.
pub fn zero_from(pairs: [u8; 32], at: usize) -> bool
    requires { at ≤ 32 }
    ensures { result ≡ all (λ x. eqb x 0) (drop at pairs) }
{
    if at == 0 {
        return no_pairs(pairs);
    }
    pairs[at..].iter().all(|x| *x == 0)
}

// Whether the pairs are sixteen at most, within limits and ascending, and every unused one is 0.
#[tactic(auto, using(crate::proofs::Arrays::whole))]
pub fn pairs_in(pairs: [u8; 32], count: u8) -> bool
    ensures { result ≡ pairs_in (pairs_of count pairs) && pairs_plain count pairs }
{
    count <= 16
        && each(pairs, count, Ask::Limits)
        && ascending(pairs, count)
        && zero_from(pairs, 2 * usize::from(count))
}

// Pairs and how many they are.
#[derive(Clone, Copy)]
pub struct Held {
    pub pairs: [u8; 32],
    pub count: u8,
}

// The first count pairs without those for the tube, closed up, and zeros after them.
pub fn removed(pairs: [u8; 32], count: u8, tube: rules::Tube) -> Held
    requires { count ≤ 16 }
    ensures { Packed (without tube.0 (pairs_of count pairs)) result.count result.pairs }
{
    let mut out = [0u8; 32];
    let mut n: u8 = 0;
    for i in 0..usize::from(count) {
        let t = pairs[2 * i];
        if t != tube.0 {
            let j = usize::from(n);
            out[2 * j] = t;
            out[2 * j + 1] = pairs[2 * i + 1];
            n += 1;
        }
    }
    Held {
        pairs: out,
        count: n,
    }
}

// How many pairs are for other tubes.
pub fn others(pairs: [u8; 32], count: u8, tube: rules::Tube) -> u8
    requires { count ≤ 16 }
    ensures { result ≡ length (without tube.0 (pairs_of count pairs)) }
{
    removed(pairs, count, tube).count
}

// Pairs for this tube are removed, the rest close up, and (tube, ballot) is put last.
pub fn moved(pairs: [u8; 32], count: u8, tube: rules::Tube, ballot: rules::Ballot) -> Held
    requires count_bound { count ≤ 16 }
    requires pairs_len_bound { length (without tube.0 (pairs_of count pairs)) < 16 }
    ensures { Packed (without tube.0 (pairs_of count pairs) ++ ((tube.0, ballot.0) ∷ [])) result.count result.pairs }
{
    let mut w = removed(pairs, count, tube);
    let n = usize::from(w.count);
    w.pairs[2 * n] = tube.0;
    w.pairs[2 * n + 1] = ballot.0;
    w.count += 1;
    w
}
