// What each accepted call does to lent memory. An area that a function does not touch is a parameter all the same: the contract is about the whole memory,
// `Whole` and `after` of the definitions.
ghost use Rattle.std.specs.Prelude.{◌≡◌};
ghost use Rattle.rules.specs.Lent.{memory};
ghost use Rattle.rules.specs.Steps.{c1a, c1b, c1c, hear, scan};
ghost use Rattle.rules.specs.Replies.{reply, after};
ghost use Rattle.kept.specs.Kept.{Whole};

use rules::{Ballot, Bid, House, Node, Row};

pub fn act_1a(
    house: &mut House,
    board: &mut [u8],
    cells: &[u8],
    heard: &[u8],
    row: Row,
    ballot: Ballot,
)
    requires whole { Whole (memory house.old board.old cells.now heard.now) }
    requires ballot_value { reply (memory house.old board.old cells.now heard.now) (c1a row.0 ballot.0) ≡ 0 }
    ensures { memory house.new board.new cells.now heard.now ≡ after (memory house.old board.old cells.now heard.now) (c1a row.0 ballot.0) }
{
    board::post(house, board, board::lead(row, ballot));
}

pub fn act_1c(house: &mut House, board: &mut [u8], cells: &[u8], heard: &[u8], bid: Bid)
    requires whole { Whole (memory house.old board.old cells.now heard.now) }
    requires tube_value { reply (memory house.old board.old cells.now heard.now) (c1c bid.row.0 bid.ballot.0 bid.tube.0) ≡ 0 }
    ensures { memory house.new board.new cells.now heard.now ≡ after (memory house.old board.old cells.now heard.now) (c1c bid.row.0 bid.ballot.0 bid.tube.0) }
{
    board::post(house, board, board::offer(bid));
}

// The message carries the cell as it stood; then its max_bal becomes the ballot.
pub fn act_1b(
    house: &mut House,
    board: &mut [u8],
    cells: &mut [u8],
    heard: &[u8],
    row: Row,
    node: Node,
    ballot: Ballot,
)
    requires whole { Whole (memory house.old board.old cells.old heard.now) }
    requires ballot_value { reply (memory house.old board.old cells.old heard.now) (c1b row.0 node.0 ballot.0) ≡ 0 }
    ensures { memory house.new board.new cells.new heard.now ≡ after (memory house.old board.old cells.old heard.now) (c1b row.0 node.0 ballot.0) }
{
    let k = cell::place(house.rows, row, node);
    let c = cell::cell_at(cells, k);
    let m = judge::forms::promise(row, ballot, node, c);
    board::post(house, board, m);
    let mut raised = c;
    raised.maxbal = ballot.0;
    cell::set_cell(cells, k, raised);
}

pub fn act_hear(
    house: &House,
    board: &[u8],
    cells: &[u8],
    heard: &mut [u8],
    node: Node,
    number: u16,
)
    requires whole { Whole (memory house.now board.now cells.now heard.old) }
    requires number_value { reply (memory house.now board.now cells.now heard.old) (hear node.0 number) ≡ 0 }
    ensures { memory house.now board.now cells.now heard.new ≡ after (memory house.now board.now cells.now heard.old) (hear node.0 number) }
{
    crate::set_heard(heard, node, number);
}

// A known scan changes nothing, a new one is put on intake.
pub fn act_scan(
    house: &mut House,
    board: &[u8],
    cells: &[u8],
    heard: &[u8],
    station: u8,
    serial: u32,
)
    requires whole { Whole (memory house.old board.now cells.now heard.now) }
    requires serial_value { reply (memory house.old board.now cells.now heard.now) (scan station serial) ≡ 0 }
    ensures { memory house.new board.now cells.now heard.now ≡ after (memory house.old board.now cells.now heard.now) (scan station serial) }
{
    let t = intake::tube_of(house, station, serial);
    let known = t <= house.tubes as usize;
    if known {
        return;
    }
    house::enter(house, station, serial);
}
