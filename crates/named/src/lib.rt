// A reply in the paper's numbers.
#![tactic(auto)]

ghost use Rattle.std.specs.Prelude.{◌≡◌};
ghost use Rattle.rules.specs.Replies.{answer_of};
ghost use Rattle.named.specs.Told.{told};

use rules::{Refusal, Reply};

// A reply's number and values: the paper's own numbers, for what prints them or sends them on:
// `told` of the definitions and the frames have numbers.
#[derive(Clone, Copy, PartialEq, Eq)]
pub struct Answer {
    pub number: u8,
    pub value: u8,
    pub waiting: u8,
    pub stopped: u8,
}

impl From<Result<Reply, Refusal>> for Answer {
    ghost from_gives = { λ x r. told r ≡ answer_of x };

    fn from(reply: Result<Reply, Refusal>) -> Answer {
        let bare = Answer {
            number: 0,
            value: 0,
            waiting: 0,
            stopped: 0,
        };
        match reply {
            Ok(Reply::Done) => bare,
            Ok(Reply::Told(t)) => Answer { value: t.0, ..bare },
            Ok(
                Reply::Booked {
                    rows,
                    waiting,
                    stop,
                },
            ) => Answer {
                value: rows,
                waiting,
                stopped: stop.into(),
                ..bare
            },
            Err(x) => Answer {
                number: x.into(),
                ..bare
            },
        }
    }
}
