// The words of the room as types: node, ballot, row and tube, a stored message, a stored cell and the house record.
#![tactic(auto)]

ghost use Rattle.std.specs.Prelude.{◌≡◌, ◌<◌, IsTrue};
ghost use Rattle.rules.specs.Words.{fresh};
ghost use Rattle.rules.specs.Lent.{memory, lent, stored_cell, kind_byte, room_of, row_in};
ghost use Rattle.rules.specs.Replies.{number_of, stop_of, Named};

// A node number, from 0.
#[derive(Clone, Copy, PartialEq, Eq)]
pub struct Node(pub u8);

// A ballot, 0 to 15; 255 means none where none is allowed.
#[derive(Clone, Copy, PartialEq, Eq)]
pub struct Ballot(pub u8);

// A row, from 1.
#[derive(Clone, Copy, PartialEq, Eq)]
pub struct Row(pub u8);

// A tube number, 1 to 64 in scan order; 0 means none where none is allowed.
#[derive(Clone, Copy, PartialEq, Eq)]
pub struct Tube(pub u8);

impl Node {
    pub const MOST: u8 = 8;
}

impl Ballot {
    pub const NONE: u8 = 255;

    pub const LAST: u8 = 15;
}

impl Row {
    pub const MOST: u8 = 64;
}

impl Tube {
    pub const NONE: u8 = 0;

    pub const MOST: u8 = 64;
}

// The forty bytes of a message, by name. The kind is the stored byte, since any byte may stand there; `kind_of` of crate board says what it means.
#[derive(Clone, Copy)]
pub struct Message {
    pub kind: u8,
    pub row: u8,
    pub bal: u8,
    pub node: u8,
    pub tube: u8,
    pub mbal: u8,
    pub mval: u8,
    pub count: u8,
    pub pairs: [u8; 32],
}

// The thirty-six bytes of a cell, by name.
#[derive(Clone, Copy)]
pub struct Cell {
    pub maxbal: u8,
    pub maxvbal: u8,
    pub maxvval: u8,
    pub count: u8,
    pub pairs: [u8; 32],
}

impl Cell {
    // A cell as opening sets it: 255, 255, 0, 0 and zero pairs.
    pub fn fresh() -> Self
        ensures { result ≡ stored_cell fresh }
    {
        let none = [0u8; 32];
        Cell {
            maxbal: Ballot::NONE,
            maxvbal: Ballot::NONE,
            maxvval: Tube::NONE,
            count: 0,
            pairs: none,
        }
    }
}

// The house record: tables, counts, intake and foreign marks. Arrays beside their counts, and stations beside serials, as the definitions read them
// (`room_of`, `intake_of`, `house_of`): fixed memory, no heap.
#[derive(Clone, Copy)]
pub struct House {
    pub nodes: u8,
    pub faulty: u8,
    pub rows: u8,
    pub capacity: u16,
    pub listed: u8,
    pub quorums: [u8; 64],
    pub backers: u8,
    pub weaks: [u8; 64],
    pub tubes: u8,
    pub stations: [u8; 64],
    pub serials: [u32; 64],
    pub marks: u8,
    pub count: u16,
}

impl House {
    // Whether a number of any size is a row of the room.
    pub fn has_row(&self, row: u32) -> bool
        ensures value { result ≡ row_in (room_of self.now) row }
        ensures small { IsTrue result → row < 256 }
    {
        (1 <= row) & (row <= u32::from(self.rows))
    }
}

// Memory as a call reads it: the house record and the three lent areas.
#[derive(Clone, Copy)]
pub struct Lent<'a> {
    pub house: &'a House,
    pub board: &'a [u8],
    pub cells: &'a [u8],
    pub heard: &'a [u8],
}

// A tube in a row's ballot: what a 1c offers, a 2av relays and a 2b votes.
#[derive(Clone, Copy, PartialEq, Eq)]
pub struct Bid {
    pub row: Row,
    pub ballot: Ballot,
    pub tube: Tube,
}

// A message's kind, with its stored byte.
#[derive(Clone, Copy, PartialEq, Eq)]
pub enum Kind {
    OneA = 1,
    OneB,
    OneC,
    TwoAv,
    TwoB,
}

// What a call refuses, with the paper's number.
#[derive(Clone, Copy, PartialEq, Eq)]
pub enum Refusal {
    CountOutside = 1,
    AbsentNode,
    SmallOverlap,
    SmallWeak,
    ShortArea,
    OutsideLimits,
    NotOnIntake,
    LowBallot,
    NotAsked,
    RelayedAlready,
    NotKnownSafe,
    NoQuorum,
    NoPromise,
    PairsFull,
    BoardFull,
    IntakeFull,
    NotInForm,
    SplitRow,
    Malformed,
}

// Why the book stopped, with the paper's number.
#[derive(Clone, Copy, PartialEq, Eq)]
pub enum Stop {
    RowsEnded = 0,
    Unchosen,
    Split,
}

// What a done call replies: done, done with a tube, or the book's figures.
#[derive(Clone, Copy, PartialEq, Eq)]
pub enum Reply {
    Done,
    Told(Tube),
    Booked { rows: u8, waiting: u8, stop: Stop },
}

impl From<Kind> for u8 {
    ghost from_gives = { λ x r. r ≡ kind_byte x };

    fn from(kind: Kind) -> u8 {
        kind as u8
    }
}

impl From<Refusal> for u8 {
    ghost from_gives = { λ x r. r ≡ number_of x };

    fn from(refusal: Refusal) -> u8 {
        refusal as u8
    }
}

impl From<Stop> for u8 {
    ghost from_gives = { λ x r. r ≡ stop_of x };

    fn from(stop: Stop) -> u8 {
        stop as u8
    }
}

// A number that names no refusal.
#[derive(Clone, Copy, PartialEq, Eq)]
pub struct Unnamed(pub u8);

impl TryFrom<u8> for Refusal {
    type Error = Unnamed;

    ghost try_from_gives = { Named };

    fn try_from(number: u8) -> Result<Refusal, Unnamed> {
        // A match: a number turned into an enum has no other way in safe code.
        match number {
            1 => Ok(Refusal::CountOutside),
            2 => Ok(Refusal::AbsentNode),
            3 => Ok(Refusal::SmallOverlap),
            4 => Ok(Refusal::SmallWeak),
            5 => Ok(Refusal::ShortArea),
            6 => Ok(Refusal::OutsideLimits),
            7 => Ok(Refusal::NotOnIntake),
            8 => Ok(Refusal::LowBallot),
            9 => Ok(Refusal::NotAsked),
            10 => Ok(Refusal::RelayedAlready),
            11 => Ok(Refusal::NotKnownSafe),
            12 => Ok(Refusal::NoQuorum),
            13 => Ok(Refusal::NoPromise),
            14 => Ok(Refusal::PairsFull),
            15 => Ok(Refusal::BoardFull),
            16 => Ok(Refusal::IntakeFull),
            17 => Ok(Refusal::NotInForm),
            18 => Ok(Refusal::SplitRow),
            19 => Ok(Refusal::Malformed),
            _ => Err(Unnamed(number)),
        }
    }
}
