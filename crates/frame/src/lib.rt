// Frames: one call on one memory image, from the request's bytes to the reply's.
#![tactic(auto)]

ghost use Rattle.rules.specs.Lent.{memory};
ghost use Rattle.named.specs.Told as numbers;
ghost use Rattle.frame.specs.Frame.{loan, CallDid};

use named::Answer;
use open::Plan;
use rules::{House, Lent};
use step::Step;

pub mod reading; // reading.rt: the request's bytes
pub mod which; // which.rt: the call that a number asks for
pub mod writing; // writing.rt: the reply's bytes

// The length of a request's front, and of a reply's.
pub const REQUEST: usize = 552;

pub const REPLY: usize = 472;

// The front of a request: all but the lists and the areas, and how long those are.
#[derive(Clone, Copy)]
pub struct Request {
    // A number: which call it names, docs/FRAMES.md says and `which::found` tells.
    pub call: u8,
    pub arguments: [u32; 8],
    pub pairs: [u32; 32],
    pub house: House,
    pub quorums: u32,
    pub weaks: u32,
    pub board: u32,
    pub cells: u32,
    pub heard: u32,
    pub book: u32,
    pub waiting: u32,
}

// A call and its numbers; lists, pairs and areas travel beside it.
#[derive(Clone, Copy)]
pub enum Asked {
    Opening {
        nodes: u32,
        faulty: u32,
        rows: u32,
        capacity: u32,
    },
    Step(Step),
    Row(u32),
    Book,
}

// One call on the memory that a frame lends; what it is answered, in numbers. Each area is a parameter of its own, lent by `&mut` since some call writes it; one match
// on what is asked, since each call writes areas of its own.
pub fn serve(
    house: &mut House,
    board: &mut [u8],
    cells: &mut [u8],
    heard: &mut [u8],
    book: &mut [u8],
    waiting: &mut [u8],
    quorums: &[u32],
    weaks: &[u32],
    call: Asked,
    pairs: [u32; 32],
) -> Answer
    ensures { CallDid call pairs quorums.now weaks.now (loan (memory house.old board.old cells.old heard.old) book.old waiting.old) (numbers.told result) (loan (memory house.new board.new cells.new heard.new) book.new waiting.new) }
{
    match call {
        Asked::Opening {
            nodes,
            faulty,
            rows,
            capacity,
        } => {
            let plan = Plan {
                nodes,
                faulty,
                rows,
                capacity,
                quorums,
                weaks,
            };
            open::open(house, board, cells, heard, plan).into()
        }
        Asked::Step(step) => calls::steps::take(house, board, cells, heard, step, pairs).into(),
        Asked::Row(row) => {
            let m = Lent {
                house,
                board,
                cells,
                heard,
            };
            calls::asks::ask(m, row).into()
        }
        Asked::Book => {
            let m = Lent {
                house,
                board,
                cells,
                heard,
            };
            calls::asks::book(m, book, waiting).into()
        }
    }
}
