// The sheet's lines: what a line says, and how a number is written.
#![tactic(auto)]

ghost use Rattle.std.specs.Prelude.{◌≡◌, ◌+◌, ◌≤◌, length};
ghost use Rattle.rules.specs.Lent.{patch};
ghost use Rattle.lines.specs.Decimal.{decimal};
ghost use Rattle.lines.specs.Grammar.{parsed};

use step::Step;

pub mod places; // places.rt: where a byte stands
pub mod digits; // digits.rt: a decimal read
pub mod couples; // couples.rt: the pairs of a foreign 1b
pub mod trying; // trying.rt: the form that a line has

// A heading line.
#[derive(Clone, Copy)]
pub enum Heading {
    Nodes(u32),
    Faulty(u32),
    Rows(u32),
    Capacity(u32),
    Quorum(u32),
    Weak(u32),
}

// What a line is.
// (a) Bad is no absent value: "any other line is bad" is a kind of line, which page and turn match on.
#[derive(Clone, Copy)]
pub enum Line {
    Heading(Heading),
    Step(Step),
    Bad,
}

// A line, and the pairs of a foreign 1b: the first sixteen, and zeros.
#[derive(Clone, Copy)]
pub struct Parsed {
    pub line: Line,
    pub pairs: [u32; 32],
}

// A number's decimal into a place of a buffer; tells where it ends.
// (a) Written digit by digit, not by `write!`: the clause, which closing cites, says that every other byte stays.
#[tactic(auto, using(crate::proofs::Decimal::written))]
pub fn put_decimal(buf: &mut [u8], at: usize, n: u32) -> usize
    requires { at + length (decimal n) ≤ length buf.old }
    ensures { (result ≡ at + length (decimal n)) × (buf.new ≡ patch buf.old at (decimal n)) }
{
    if n < 10 {
        buf[at] = b'0' + n as u8;
        return at + 1;
    }
    let last = put_decimal(buf, at, n / 10);
    buf[last] = b'0' + (n % 10) as u8;
    last + 1
}

// What a line says.
#[tactic(auto, unfolding(crate::specs::Grammar::fields_of, crate::specs::Grammar::parsed))]
pub fn read_line(s: &[u8]) -> Parsed
    ensures { result ≡ parsed s.now }
{
    let bad = Parsed {
        line: Line::Bad,
        pairs: [0; 32],
    };
    if 200 < s.len() {
        return bad;
    }
    crate::trying::find_form(s).unwrap_or(bad)
}
