// Numbers of any size against their limits: test 6, which gives them as the room's words, and test 7 for a single tube. The numbers are parameters of their own:
// each function takes others of them, and a struct for each would say no more than its parameters.
ghost use Rattle.std.specs.Prelude.{◌≡◌, ◌&&◌, ◌<◌, leb, ltb, IsTrue};
ghost use Rattle.rules.specs.Words.{bal_in, tube_in, scan_in, m1a, m1c, m2av};
ghost use Rattle.rules.specs.Lent.{room_of, row_in, limits};
ghost use Rattle.judge.specs.Narrow.{Tested, Heard, Lead, Seat, Offer, Cast};

use rules::{Ballot, Bid, House, Node, Row, Tube};

pub fn node_in(h: &House, node: u32) -> bool
    ensures value { result ≡ ltb node h.now.nodes }
    ensures small { IsTrue result → node < 256 }
{
    node < u32::from(h.nodes)
}

pub fn ballot_in(ballot: u32) -> bool
    ensures { result ≡ bal_in ballot }
{
    ballot <= 15
}

pub fn tube_in(tube: u32) -> bool
    ensures { result ≡ tube_in tube }
{
    (1 <= tube) & (tube <= 64)
}

// A station is 0 to 255; every serial of 32 bits is a serial.
pub fn scan_in(station: u32, serial: u32) -> bool
    ensures { result ≡ scan_in station serial }
{
    (station <= 255) & (serial <= u32::MAX)
}

// The tube was scanned.
pub fn on_intake(h: &House, tube: u32) -> bool
    ensures { result ≡ leb tube h.now.tubes }
{
    tube <= u32::from(h.tubes)
}

// A node, and the number of a message on the board.
pub fn hear_in(h: &House, node: u32, number: u32) -> Option<(Node, u16)>
    ensures { Tested (ltb node h.now.nodes && ltb number h.now.count) (Heard node number) result }
{
    if !(node_in(h, node) & (number < u32::from(h.count))) {
        return None;
    }
    Some((Node(node as u8), number as u16))
}

// Row and ballot: all that a 1a has.
pub fn lead_in(h: &House, row: u32, ballot: u32) -> Option<(Row, Ballot)>
    ensures { Tested (limits (room_of h.now) (m1a row ballot)) (Lead row ballot) result }
{
    if !(h.has_row(row) & ballot_in(ballot)) {
        return None;
    }
    Some((Row(row as u8), Ballot(ballot as u8)))
}

// Row, ballot and node: what a 1b is asked with.
pub fn promise_in(h: &House, row: u32, ballot: u32, node: u32) -> Option<(Row, Ballot, Node)>
    ensures { Tested ((row_in (room_of h.now) row && bal_in ballot) && ltb node h.now.nodes) (Seat row ballot node) result }
{
    if !((h.has_row(row) & ballot_in(ballot)) & node_in(h, node)) {
        return None;
    }
    Some((Row(row as u8), Ballot(ballot as u8), Node(node as u8)))
}

// Row, ballot and tube: a 1c.
pub fn offer_in(h: &House, row: u32, ballot: u32, tube: u32) -> Option<Bid>
    ensures { Tested (limits (room_of h.now) (m1c row ballot tube)) (Offer row ballot tube) result }
{
    if !((h.has_row(row) & ballot_in(ballot)) & tube_in(tube)) {
        return None;
    }
    Some(Bid {
        row: Row(row as u8),
        ballot: Ballot(ballot as u8),
        tube: Tube(tube as u8),
    })
}

// Row, ballot, node and tube: a 2av or a 2b.
pub fn vote_in(h: &House, row: u32, ballot: u32, node: u32, tube: u32) -> Option<(Node, Bid)>
    ensures { Tested (limits (room_of h.now) (m2av row ballot node tube)) (Cast row node ballot tube) result }
{
    if !((h.has_row(row) & ballot_in(ballot)) & (node_in(h, node) & tube_in(tube))) {
        return None;
    }
    let bid = Bid {
        row: Row(row as u8),
        ballot: Ballot(ballot as u8),
        tube: Tube(tube as u8),
    };
    Some((Node(node as u8), bid))
}
