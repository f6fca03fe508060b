// Which call a frame's number asks for, with which of the eight arguments.
ghost use Rattle.std.specs.Prelude.{◌≡◌};
ghost use Rattle.frame.specs.Frame.{found_of, step_of, foreign_of};

use crate::Asked;
use step::{OneB, Post, Step, Vote};

// A foreign post by its kind; another kind has no fields to hand over.
fn post(a: [u32; 8]) -> Post
    ensures { result ≡ foreign_of a }
{
    let vote = Vote {
        row: a[1],
        ballot: a[2],
        node: a[3],
        tube: a[4],
    };
    match a[0] {
        2 => Post::OneB(OneB {
            row: a[1],
            ballot: a[2],
            node: a[3],
            mbal: a[5],
            mval: a[6],
            count: a[7] as usize,
        }),
        4 => Post::Relay(vote),
        5 => Post::Accept(vote),
        _ => Post::Other,
    }
}

// A step by its number, 1 to 8.
fn step(number: u8, a: [u32; 8]) -> Step
    ensures { result ≡ step_of number a }
{
    match number {
        1 => Step::Send1a {
            row: a[0],
            ballot: a[1],
        },
        2 => Step::Send1b {
            row: a[0],
            ballot: a[1],
            node: a[2],
        },
        3 => Step::Send1c {
            row: a[0],
            ballot: a[1],
            tube: a[2],
        },
        4 => Step::Send2av {
            row: a[0],
            ballot: a[1],
            node: a[2],
            tube: a[3],
        },
        5 => Step::Send2b {
            row: a[0],
            ballot: a[1],
            node: a[2],
            tube: a[3],
        },
        6 => Step::Hear {
            node: a[0],
            message: a[1],
        },
        7 => Step::Scan {
            station: a[0],
            serial: a[1],
        },
        _ => Step::Foreign(post(a)),
    }
}

// The call that a number asks for; there is none above 10. The numbers are those of docs/FRAMES.md, and this function and `step` are what turns them into words.
pub fn found(number: u8, a: [u32; 8]) -> Option<Asked>
    ensures { result ≡ found_of number a }
{
    match number {
        0 => Some(Asked::Opening {
            nodes: a[0],
            faulty: a[1],
            rows: a[2],
            capacity: a[3],
        }),
        1..=8 => Some(Asked::Step(step(number, a))),
        9 => Some(Asked::Row(a[0])),
        10 => Some(Asked::Book),
        _ => None,
    }
}
