// The gate of every call: counts, lengths and form of lent memory, each part decided by one small function.
#![tactic(auto)]

ghost use Rattle.std.specs.Prelude.{◌≡◌, true, ◌&&◌, [], ◌*◌, ◌/◌, ◌≤◌, leb, length, IsTrue, OnOk};
ghost use Rattle.rules.specs.Tests.{all, all_below, first};
ghost use Rattle.rules.specs.Words.{tube_in, height_of};
ghost use Rattle.rules.specs.Lent.{memory, lent, board_of, counts, long, room_of, plain_msg, good_msg, cell_form, board_form, heard_form, in_form, Typed};
ghost use Rattle.rules.specs.Replies.{number_in};
ghost use Rattle.form.specs.Form.{paired, cell_formed, bare_of, lacking, held, message_fields, promise_bit, Promises, byte_in, gate_of};

use rules::{Cell, House, Lent, Message, Refusal};

// ---- pairs and cells

// The pairs are in their limits and ascend, unused ones are 0, and their tubes are on intake.
#[tactic(auto, using(crate::proofs::Plain::pairs_few))]
pub fn pairs_ok(pairs: [u8; 32], count: u8, tubes: u8) -> bool
    ensures { result ≡ paired tubes count pairs }
{
    pairs::pairs_in(pairs, count) && pairs::each(pairs, count, pairs::Ask::Scanned(tubes))
}

// A stored ballot that may be none is in its limits. Crate foreign has the same of a number of any size: one for both would convert at each use here.
pub fn height_in(x: u8) -> bool
    ensures { result ≡ leb (height_of x) 16 }
{
    (x == 255) | (x <= 15)
}

// A stored cell is in form.
#[tactic(auto, using(crate::proofs::Plain::cell_are))]
pub fn cell_ok(c: Cell, tubes: u8) -> bool
    ensures { result ≡ cell_formed tubes c }
{
    let ballots = height_in(c.maxbal) & height_in(c.maxvbal);
    let vote = (c.maxvval <= 64) & (c.maxvval <= tubes);
    (ballots & vote) && pairs_ok(c.pairs, c.count, tubes)
}

// The cells of a part of the cells area are in form.
pub fn cells_ok(cells: &[u8], tubes: u8) -> bool
    ensures { result ≡ all_below (cell_form tubes cells.now) (length cells.now / 36) }
{
    cells
        .chunks_exact(36)
        .all(|c| cell_ok(cell::decode(c), tubes))
}

// ---- messages

// No vote and no pairs.
pub fn bare(m: Message) -> bool
    ensures { result ≡ bare_of m }
{
    (m.mbal == 0) & ((m.mval == 0) & (m.count == 0))
}

// The kind is known, and the fields that it lacks are 0.
#[tactic(auto, unfolding(crate::specs::Form::lacking))]
pub fn lacking_ok(m: Message) -> bool
    ensures { result ≡ lacking m }
{
    match m.kind {
        1 => (m.node == 0) & ((m.tube == 0) & bare(m)),
        2 => m.tube == 0,
        3 => (m.node == 0) & bare(m),
        4 | 5 => bare(m),
        _ => false,
    }
}

// A tube that may not be none is in its limits and on intake.
pub fn tube_in(tube: u8, tubes: u8) -> bool
    ensures { result ≡ tube_in tube && leb tube tubes }
{
    (1..=64).contains(&tube) & (tube <= tubes)
}

// The fields that the kind has are in their limits, and the tubes on intake.
#[tactic(auto, unfolding(crate::specs::Form::held))]
pub fn held_ok(nodes: u8, rows: u8, tubes: u8, m: Message) -> bool
    ensures { result ≡ held nodes rows tubes m }
{
    // As (1..=rows).contains(&m.row) the proof didn't close: the search gave up at the match beside it.
    let place = ((1 <= m.row) & (m.row <= rows)) & (m.bal <= 15);
    let fields = match m.kind {
        1 => true,
        2 => (m.node < nodes) & (height_in(m.mbal) & ((m.mval <= 64) & (m.mval <= tubes))),
        3 => tube_in(m.tube, tubes),
        _ => (m.node < nodes) & tube_in(m.tube, tubes),
    };
    place & fields
}

// A stored message is plain and good.
pub fn message_ok(nodes: u8, rows: u8, tubes: u8, m: Message) -> bool
    ensures { result ≡ message_fields nodes rows tubes m }
{
    lacking_ok(m) && held_ok(nodes, rows, tubes, m) && pairs_ok(m.pairs, m.count, tubes)
}

// Every message is plain and good.
pub fn messages_ok(h: &House, board: &[u8]) -> bool
    requires h_value { counts h.now ≡ true }
    requires capacity_in_bounds { 40 * h.now.capacity ≤ length board.now }
    ensures { result ≡ all_below (plain_msg board.now) h.now.count && all (good_msg (room_of h.now) h.now.tubes) (board_of board.now h.now.count) }
{
    (0..h.count as usize).all(|i| message_ok(h.nodes, h.rows, h.tubes, board::msg_at(board, i)))
}

// Every message is plain and good, and no two are equal.
#[tactic(auto, using(crate::proofs::Says::board_plain, crate::proofs::Says::board_are))]
pub fn board_ok(h: &House, board: &[u8]) -> bool
    requires h_value { counts h.now ≡ true }
    requires capacity_in_bounds { 40 * h.now.capacity ≤ length board.now }
    ensures { result ≡ board_form (memory h.now board.now [] []) }
{
    messages_ok(h, board) && differ::messages_differ(board, h.count as usize)
}

// ---- heard bits

// The bit of a message in its byte if its first byte says 1b. A number: any byte may stand there, and docs/SLIPS.md names this function.
pub fn promise_bit(kind: u8, k: usize) -> u8
    ensures { result ≡ promise_bit kind k }
{
    if kind == 2 {
        return 1u8 << (k % 8);
    }
    0
}

// The bits of the 1b messages among the first n, laid out as one node's heard bytes. A number: chunks of the first 40 * n bytes would be counted as well, for the bits stand by message number.
pub fn promises(board: &[u8], n: usize) -> [u8; 128]
    requires n_bound { n ≤ 1024 }
    requires n_in_bounds { 40 * n ≤ length board.now }
    ensures { Promises board.now n result }
{
    let mut out = [0u8; 128];
    for k in 0..n {
        out[k / 8] |= promise_bit(board[40 * k], k);
    }
    out
}

// Heard bytes have only bits of these, which are one node's.
pub fn bytes_in(heard: &[u8], these: &[u8]) -> bool
    requires { length these.now ≡ 128 }
    ensures { result ≡ all_below (byte_in heard.now these.now) (length heard.now) }
{
    (0..heard.len()).all(|t| heard[t] & these[t % 128] == heard[t])
}

// Heard bits stand only at 1b messages.
#[tactic(auto, using(tables::proofs::Counted::counted))]
pub fn heard_ok(h: &House, board: &[u8], heard: &[u8]) -> bool
    requires h_value { counts h.now ≡ true }
    requires capacity_in_bounds { 40 * h.now.capacity ≤ length board.now }
    requires nodes_in_bounds { 128 * h.now.nodes ≤ length heard.now }
    ensures { result ≡ heard_form (memory h.now board.now [] heard.now) }
{
    let p = promises(board, h.count as usize);
    bytes_in(&heard[..128 * h.nodes as usize], &p)
}

// ---- the gate

// Memory is in form.
#[tactic(auto, using(crate::proofs::Says::form_are, crate::proofs::Says::long_are, crate::proofs::Parts::cells_front, tables::proofs::Counted::counted))]
pub fn form_ok(m: Lent) -> bool
    requires m_value { counts m.house.now ≡ true }
    requires long_value { long (lent m) ≡ true }
    ensures value { result ≡ in_form (lent m.entry) }
    ensures typed { IsTrue result → Typed m.entry.house.now }
{
    let h = m.house; // a short name, for the lines below
    let cells = h.nodes as usize * h.rows as usize;
    tables::house_ok(h)
        && board_ok(h, m.board)
        && cells_ok(&m.cells[..36 * cells], h.tubes)
        && heard_ok(h, m.board, m.heard)
}

// What the gate answers, where a call's own areas are long enough or not: 17 for a count, 5, 17 for the form, or nothing.
#[tactic(auto, using(crate::proofs::Says::long_are))]
pub fn gate_with(m: Lent, areas: bool) -> Result<(), Refusal>
    ensures number { number_in result ≡ first (gate_of (lent m.entry) areas) }
    ensures typed { OnOk result (Typed m.entry.house.now) }
{
    let h = m.house; // a short name, for the lines below
    if !tables::counts_ok(h) {
        return Err(Refusal::NotInForm);
    }
    let long = tables::lengths_ok(h.nodes, h.rows, h.capacity, m.board, m.cells, m.heard);
    if !(long & areas) {
        return Err(Refusal::ShortArea);
    }
    if !form_ok(m) {
        return Err(Refusal::NotInForm);
    }
    Ok(())
}

// What the gate answers to a call that has no areas of its own.
pub fn gate(m: Lent) -> Result<(), Refusal>
    ensures number { number_in result ≡ first (gate_of (lent m.entry) true) }
    ensures typed { OnOk result (Typed m.entry.house.now) }
{
    gate_with(m, true)
}
