// A step as it is handed over: numbers of any size, in the words of the room; nothing is judged here.
#![tactic(auto)]

// A foreign 1b: mbal is 255 for none, and its pairs travel beside it. The count is a field of its own: a caller may say any, and it is tested.
#[derive(Clone, Copy)]
pub struct OneB {
    pub row: u32,
    pub ballot: u32,
    pub node: u32,
    pub mbal: u32,
    pub mval: u32,
    pub count: usize,
}

// A foreign 2av or 2b.
#[derive(Clone, Copy)]
pub struct Vote {
    pub row: u32,
    pub ballot: u32,
    pub node: u32,
    pub tube: u32,
}

// A foreign post: a 1b, a 2av, a 2b, or another kind.
#[derive(Clone, Copy)]
pub enum Post {
    OneB(OneB),
    Relay(Vote),
    Accept(Vote),
    Other,
}

// A step; the pair array of a foreign 1b travels beside it.
#[derive(Clone, Copy)]
pub enum Step {
    Scan {
        station: u32,
        serial: u32,
    },
    Send1a {
        row: u32,
        ballot: u32,
    },
    Send1b {
        row: u32,
        ballot: u32,
        node: u32,
    },
    Send1c {
        row: u32,
        ballot: u32,
        tube: u32,
    },
    Send2av {
        row: u32,
        ballot: u32,
        node: u32,
        tube: u32,
    },
    Send2b {
        row: u32,
        ballot: u32,
        node: u32,
        tube: u32,
    },
    Hear {
        node: u32,
        message: u32,
    },
    Foreign(Post),
}
