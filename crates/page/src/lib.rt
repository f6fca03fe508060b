// The sheet's headings as they are read, line by line, and the opening of the room that they ask for.
#![tactic(auto)]

ghost use Rattle.std.specs.Prelude.{◌≡◌, []};
ghost use Rattle.rules.specs.Lent.{memory};
ghost use Rattle.page.specs.Sheet as sheet;
ghost use Rattle.page.specs.Held.{due_of, sets_of, heads_of, Started};

use lines::{Heading, Line};
use named::Answer;
use open::Plan;
use rules::House;

// What is due next. `headed`, and `take_byte` and `finish` above it, which docs/ name, take any number here: `Later` has those past the nine in use.
#[derive(Clone, Copy, PartialEq, Eq)]
pub enum Due {
    Nodes,
    Faulty,
    Rows,
    Capacity,
    Quorum,
    Weak, // a weak set, or one more quorum
    Weaks, // one more weak set, or the line that begins the steps
    Step, // the room is open, and a step is due
    Nothing, // the sheet has ended
    Later(u8), // the number 9 and so many more, which no sheet comes to
}

// The sets of one list, in fixed memory. Its fields are open, as `headed`, which docs/SLIPS.md names, took them before: a count above 65 holds 65.
#[derive(Clone, Copy)]
pub struct Listed {
    pub sets: [u32; 65],
    pub count: usize,
}

impl Listed {
    // 64 may be listed; of a longer list one set more is held, so that opening refuses it.
    const HELD: usize = 65;

    fn none() -> Self
        ensures { sets_of result ≡ [] }
    {
        Listed {
            sets: [0; 65],
            count: 0,
        }
    }

    // One set more, if there is room.
    fn put(&mut self, set: u32)
        ensures { sets_of self.new ≡ sheet.added set (sets_of self.old) }
    {
        if self.count < Self::HELD {
            self.sets[self.count] = set;
            self.count += 1;
        }
    }

    // The sets that are held.
    fn held(&self) -> &[u32]
        ensures { result.now ≡ sets_of self.now }
    {
        &self.sets[..self.count.min(Self::HELD)]
    }
}

// The headings as far as they were read: what is due next, the four counts, and the sets of either list.
#[derive(Clone, Copy)]
pub struct Heads {
    pub due: Due,
    pub nodes: u32,
    pub faulty: u32,
    pub rows: u32,
    pub capacity: u32,
    pub quorums: Listed,
    pub weaks: Listed,
}

// Before the first line.
pub fn unread() -> Heads
    ensures { heads_of result ≡ sheet.unread }
{
    Heads {
        due: Due::Nodes,
        nodes: 0,
        faulty: 0,
        rows: 0,
        capacity: 0,
        quorums: Listed::none(),
        weaks: Listed::none(),
    }
}

// The headings after a line while a heading is due: one that ends the headings is not kept.
// After a weak set any line of another form begins the steps, and before that it is bad.
#[tactic(auto, unfolding(crate::specs::Sheet::headed, crate::specs::Sheet::kept, crate::specs::Sheet::next))]
pub fn headed(heads: &mut Heads, line: Line)
    ensures { heads_of heads.new ≡ sheet.headed (heads_of heads.old) line }
{
    let Line::Heading(heading) = line else {
        heads.due = match heads.due {
            Due::Weaks => Due::Step,
            Due::Later(0..=1) => Due::Later(1), // 9, the sort of no heading, is followed by the next
            _ => Due::Nothing,
        };
        return;
    };
    match (heads.due, heading) {
        (Due::Nodes, Heading::Nodes(n)) => {
            heads.nodes = n;
            heads.due = Due::Faulty;
        }
        (Due::Faulty, Heading::Faulty(n)) => {
            heads.faulty = n;
            heads.due = Due::Rows;
        }
        (Due::Rows, Heading::Rows(n)) => {
            heads.rows = n;
            heads.due = Due::Capacity;
        }
        (Due::Capacity, Heading::Capacity(n)) => {
            heads.capacity = n;
            heads.due = Due::Quorum;
        }
        (Due::Quorum, Heading::Quorum(n)) => {
            heads.quorums.put(n);
            heads.due = Due::Weak;
        }
        (Due::Weak, Heading::Quorum(n)) => heads.quorums.put(n),
        (Due::Weak, Heading::Weak(n)) => {
            heads.weaks.put(n);
            heads.due = Due::Weaks;
        }
        (Due::Weaks, Heading::Weak(n)) => heads.weaks.put(n),
        (Due::Weaks, _) => heads.due = Due::Step,
        _ => heads.due = Due::Nothing,
    }
}

// Opens the room that the headings ask for, and tells the number that is printed; a refusal changes no memory and ends the sheet.
// The areas are parameters of their own: it lends two of the four for change.
pub fn open_room(
    heads: &mut Heads,
    house: &mut House,
    board: &[u8],
    cells: &mut [u8],
    heard: &mut [u8],
) -> u8
    ensures { Started (heads_of heads.old) (memory house.old board.now cells.old heard.old) (heads_of heads.new) (memory house.new board.now cells.new heard.new) result }
{
    let plan = Plan {
        nodes: heads.nodes,
        faulty: heads.faulty,
        rows: heads.rows,
        capacity: heads.capacity,
        quorums: heads.quorums.held(),
        weaks: heads.weaks.held(),
    };
    let reply = open::open(house, board, cells, heard, plan);
    heads.due = match reply {
        Ok(_) => Due::Step,
        Err(_) => Due::Nothing,
    };
    Answer::from(reply).number
}
