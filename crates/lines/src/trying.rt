// The forms that a line may have, tried from the first to the last.
ghost use Rattle.std.specs.Prelude.{◌≡◌, [], ◌≤◌, map};
ghost use Rattle.std.specs.List.{All};
ghost use Rattle.lines.specs.Grammar.{by_form, forms, found};
ghost use Rattle.lines.specs.Held.{marks, line_by};

use crate::couples::read_pairs;
use crate::digits::read_number;
use crate::places::has_byte;
use crate::{Heading, Line, Parsed};
use step::{OneB, Post, Step, Vote};

// What a text has for a form's marks: numbers, how many pairs, and the first sixteen.
// (a) A count stands beside them: memory is fixed, and more may be counted than kept.
#[derive(Clone, Copy)]
struct Fields {
    numbers: [u32; 5],
    count: usize,
    pairs: [u32; 32],
}

// What a text says by a form, if the form fits: # of a form is a number, * pairs up to the end.
#[tactic(auto, using(crate::proofs::Forms::form_steps))]
fn read_form(s: &[u8], form: &[u8]) -> Option<Fields>
    requires { marks form.now ≤ 5 }
    ensures { result ≡ by_form form.now s.now 0 [] }
{
    let mut numbers = [0; 5];
    let mut got = 0;
    let mut at = 0;
    for x in form {
        if *x == b'#' {
            let (n, end) = read_number(s, at)?;
            numbers[got] = n;
            got += 1;
            at = end;
        } else if *x == b'*' {
            let (count, pairs) = read_pairs(&s[at..])?;
            return Some(Fields {
                numbers,
                count,
                pairs,
            });
        } else if has_byte(s, at, *x) {
            at += 1;
        } else {
            return None;
        }
    }
    (at == s.len()).then_some(Fields {
        numbers,
        count: 0,
        pairs: [0; 32],
    })
}

// The forms by name: six headings, seven steps and three foreign lines.
#[derive(Clone, Copy)]
enum Form {
    Nodes,
    Faulty,
    Rows,
    Capacity,
    Quorum,
    Weak,
    Scan,
    Send1a,
    Send1b,
    Send1c,
    Send2av,
    Send2b,
    Hear,
    Foreign1b,
    Foreign2av,
    Foreign2b,
}

const FORMS: [(&[u8], Form); 16] = [
    (b"nodes=#", Form::Nodes),
    (b"faulty=#", Form::Faulty),
    (b"rows=#", Form::Rows),
    (b"capacity=#", Form::Capacity),
    (b"quorum=#", Form::Quorum),
    (b"weak=#", Form::Weak),
    (b"do=scan station=# serial=#", Form::Scan),
    (b"do=1a row=# ballot=#", Form::Send1a),
    (b"do=1b row=# ballot=# node=#", Form::Send1b),
    (b"do=1c row=# ballot=# tube=#", Form::Send1c),
    (b"do=2av row=# ballot=# node=# tube=#", Form::Send2av),
    (b"do=2b row=# ballot=# node=# tube=#", Form::Send2b),
    (b"do=hear node=# message=#", Form::Hear),
    (
        b"do=foreign1b row=# ballot=# node=# mbal=# mval=# pairs=*",
        Form::Foreign1b,
    ),
    (
        b"do=foreign2av row=# ballot=# node=# tube=#",
        Form::Foreign2av,
    ),
    (
        b"do=foreign2b row=# ballot=# node=# tube=#",
        Form::Foreign2b,
    ),
];

// The line that a form makes of its numbers and its count of pairs.
fn line_of(form: Form, n: [u32; 5], count: usize) -> Line
    ensures { result ≡ line_by form n count }
{
    match form {
        Form::Nodes => Line::Heading(Heading::Nodes(n[0])),
        Form::Faulty => Line::Heading(Heading::Faulty(n[0])),
        Form::Rows => Line::Heading(Heading::Rows(n[0])),
        Form::Capacity => Line::Heading(Heading::Capacity(n[0])),
        Form::Quorum => Line::Heading(Heading::Quorum(n[0])),
        Form::Weak => Line::Heading(Heading::Weak(n[0])),
        Form::Scan => Line::Step(Step::Scan {
            station: n[0],
            serial: n[1],
        }),
        Form::Send1a => Line::Step(Step::Send1a {
            row: n[0],
            ballot: n[1],
        }),
        Form::Send1b => Line::Step(Step::Send1b {
            row: n[0],
            ballot: n[1],
            node: n[2],
        }),
        Form::Send1c => Line::Step(Step::Send1c {
            row: n[0],
            ballot: n[1],
            tube: n[2],
        }),
        Form::Send2av => Line::Step(Step::Send2av {
            row: n[0],
            ballot: n[1],
            node: n[2],
            tube: n[3],
        }),
        Form::Send2b => Line::Step(Step::Send2b {
            row: n[0],
            ballot: n[1],
            node: n[2],
            tube: n[3],
        }),
        Form::Hear => Line::Step(Step::Hear {
            node: n[0],
            message: n[1],
        }),
        Form::Foreign1b => Line::Step(Step::Foreign(Post::OneB(OneB {
            row: n[0],
            ballot: n[1],
            node: n[2],
            mbal: n[3],
            mval: n[4],
            count,
        }))),
        Form::Foreign2av => Line::Step(Step::Foreign(Post::Relay(Vote {
            row: n[0],
            ballot: n[1],
            node: n[2],
            tube: n[3],
        }))),
        Form::Foreign2b => Line::Step(Step::Foreign(Post::Accept(Vote {
            row: n[0],
            ballot: n[1],
            node: n[2],
            tube: n[3],
        }))),
    }
}

// What a line says by the first form of a table that fits.
#[tactic(auto, unfolding(crate::specs::Grammar::line_as))]
fn find_in(table: &[(&[u8], Form)], s: &[u8]) -> Option<Parsed>
    requires { All (λ p. marks p.0.now ≤ 5) table.now }
    ensures { result ≡ found (map (λ p. (p.0.now, line_by p.1)) table.now) s.now }
{
    for (text, form) in table {
        if let Some(f) = read_form(s, text) {
            let line = line_of(*form, f.numbers, f.count);
            // (c) `pairs: f.pairs` in the literal, or taken by the pattern, gets no generated proof
            let pairs = f.pairs;
            return Some(Parsed { line, pairs });
        }
    }
    None
}

// What a line says by the first form that fits.
pub fn find_form(s: &[u8]) -> Option<Parsed>
    ensures { result ≡ found forms s.now }
{
    find_in(&FORMS, s)
}
