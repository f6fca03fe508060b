// A node's cell and its 1b as they are stored, and whether a message finds room on the board.
ghost use Rattle.std.specs.Prelude.{◌≡◌, ◌||◌, ltb};
ghost use Rattle.rules.specs.Lent.{meaning, board_of};
ghost use Rattle.rules.specs.Steps.{has};
ghost use Rattle.board.specs.Asked.{Plain, Own};

use rules::{Ballot, Cell, House, Kind, Message, Node, Row};

// The 1b of a node: its cell's max_vbal, max_vval and pairs as they stand.
pub fn promise(row: Row, ballot: Ballot, node: Node, c: Cell) -> Message
    ensures { result ≡ record { kind = 2; row = row.0; bal = ballot.0; node = node.0; tube = 0; mbal = c.maxvbal; mval = c.maxvval; count = c.count; pairs = c.pairs } }
{
    let pairs = c.pairs; // the check takes an array's field into a literal by way of a variable
    Message {
        kind: Kind::OneB.into(),
        row: row.0,
        bal: ballot.0,
        node: node.0,
        tube: 0,
        mbal: c.maxvbal,
        mval: c.maxvval,
        count: c.count,
        pairs,
    }
}

// A message is on the board, or the board is below its capacity.
pub fn fits(h: &House, board: &[u8], m: Message) -> bool
    requires plain { Plain board.now h.now.count }
    requires own { Own m }
    ensures { result ≡ has (meaning m) (board_of board.now h.now.count) || ltb h.now.count h.now.capacity }
{
    let n = h.count as usize;
    if board::on_board(board, n, m) {
        return true;
    }
    h.count < h.capacity
}
