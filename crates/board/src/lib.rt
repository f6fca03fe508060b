// The board: forty bytes a message, read by value, searched, and appended after the last.
#![tactic(auto)]

ghost use Rattle.std.specs.Prelude.{◌≡◌, ◌||◌, [], ℕ, ◌+◌, ◌*◌, ◌≤◌, ◌<◌, length};
ghost use Rattle.rules.specs.Tests.{any, bit, eqs};
ghost use Rattle.rules.specs.Words.{m1a, m1c, kind_of};
ghost use Rattle.rules.specs.Lent.{patch, window, msg_of, bytes_of, msg_at, meaning, line, kind_byte, board_of, is_1b_at, room_of};
ghost use Rattle.rules.specs.Steps.{has, covers};
ghost use Rattle.sets.specs.Sets.{Gathered};
ghost use Rattle.board.specs.Asked.{Plain, Own, standing, Postable, Posted, is_vote};

use rules::{Ballot, Bid, House, Kind, Message, Node, Row, Tube};

// A message's part is handed to the reader.
pub fn decode(s: &[u8]) -> Message
    requires { length s.now ≡ 40 }
    ensures { result ≡ msg_of s.now }
{
    Message {
        kind: s[0],
        row: s[1],
        bal: s[2],
        node: s[3],
        tube: s[4],
        mbal: s[5],
        mval: s[6],
        count: s[7],
        pairs: cell::bytes_at(s, 8),
    }
}

// The message numbered k of the lent board.
pub fn msg_at(board: &[u8], k: usize) -> Message
    requires k_bound { k < 1024 }
    requires k_in_bounds { 40 * k + 40 ≤ length board.now }
    ensures { result ≡ msg_at board.now k }
{
    let a = 40 * k;
    decode(&board[a..a + 40])
}

// A message into the first forty bytes of a slice; the others stay.
pub fn put_msg(s: &mut [u8], m: Message)
    requires { 40 ≤ length s.old }
    ensures { s.new ≡ patch s.old 0 (bytes_of m) }
{
    s[0] = m.kind;
    s[1] = m.row;
    s[2] = m.bal;
    s[3] = m.node;
    s[4] = m.tube;
    s[5] = m.mbal;
    s[6] = m.mval;
    s[7] = m.count;
    cell::put_bytes(s, 8, m.pairs);
}

// The part from 40 * n of the lent board is passed on to the message writer.
pub fn append(board: &mut [u8], n: usize, m: Message)
    requires n_bound { n < 1024 }
    requires n_in_bounds { 40 * n + 40 ≤ length board.old }
    ensures { board.new ≡ patch board.old (40 * n) (bytes_of m) }
{
    put_msg(&mut board[40 * n..], m);
}

// Whether two slices hold the same bytes.
pub fn same_bytes(s: &[u8], t: &[u8]) -> bool
    requires { length s.now ≡ length t.now }
    ensures { result ≡ eqs s.now t.now }
{
    s == t
}

// Whether these forty bytes are those of the message numbered k.
pub fn same_at(board: &[u8], k: usize, b: &[u8]) -> bool
    requires k_bound { k < 1024 }
    requires k_in_bounds { 40 * k + 40 ≤ length board.now }
    requires b_len { length b.now ≡ 40 }
    ensures { result ≡ eqs (window 40 k board.now) b.now }
{
    let a = 40 * k;
    same_bytes(&board[a..a + 40], b)
}

// Whether these forty bytes are those of one of the first n messages. The area and the count go side by side in this file: the definitions
// (`Plain`, `board_of`, `standing`) take both, and the area is lent with its room past the count.
#[tactic(auto, unfolding(crate::specs::Asked::standing))]
pub fn stands(board: &[u8], n: usize, b: &[u8]) -> bool
    requires n_bound { n ≤ 1024 }
    requires n_in_bounds { 40 * n ≤ length board.now }
    requires b_len { length b.now ≡ 40 }
    ensures { result ≡ standing board.now n b.now }
{
    for i in 0..n {
        if same_at(board, i, b) {
            return true;
        }
    }
    false
}

// Whether a message of any kind is on the board.
pub fn on_board(board: &[u8], n: usize, m: Message) -> bool
    requires plain { Plain board.now n }
    requires own { Own m }
    ensures { result ≡ has (meaning m) (board_of board.now n) }
{
    let mut b = [0u8; 40];
    put_msg(&mut b, m);
    stands(board, n, &b)
}

// A message of any kind is posted, unless it is there.
pub fn post(house: &mut House, board: &mut [u8], m: Message)
    requires { Postable house.old board.old m }
    ensures { Posted house.old board.old m house.new board.new }
{
    let n = usize::from(house.count);
    if on_board(board, n, m) {
        return;
    }
    append(board, n, m);
    house::raise(house);
}

// A message that has no mbal, mval and pairs: any but a 1b.
pub fn bare(kind: Kind, bid: Bid, node: Node) -> Message
    ensures own { 4 ≤ kind_byte kind → Own result }
    ensures value { result ≡ line (kind_byte kind) bid.row.0 bid.ballot.0 node.0 bid.tube.0 0 0 [] }
{
    Message {
        kind: kind.into(),
        row: bid.row.0,
        bal: bid.ballot.0,
        node: node.0,
        tube: bid.tube.0,
        mbal: 0,
        mval: 0,
        count: 0,
        pairs: [0; 32],
    }
}

// The 1a of a row and ballot, which names no node and no tube.
pub fn lead(row: Row, ballot: Ballot) -> Message
    ensures own { Own result }
    ensures value { result ≡ line 1 row.0 ballot.0 0 0 0 0 [] }
{
    let tube = Tube(Tube::NONE);
    bare(Kind::OneA, Bid { row, ballot, tube }, Node(0))
}

// The 1c of a tube in a row's ballot, which names no node.
pub fn offer(bid: Bid) -> Message
    ensures own { Own result }
    ensures value { result ≡ line 3 bid.row.0 bid.ballot.0 0 bid.tube.0 0 0 [] }
{
    bare(Kind::OneC, bid, Node(0))
}

// Whether the 1a of this row and ballot is on the board.
pub fn has_1a(board: &[u8], n: usize, row: Row, ballot: Ballot) -> bool
    requires { Plain board.now n }
    ensures { result ≡ has (m1a row.0 ballot.0) (board_of board.now n) }
{
    on_board(board, n, lead(row, ballot))
}

// Whether the 1c of this row, ballot and tube is on the board.
pub fn has_1c(board: &[u8], n: usize, bid: Bid) -> bool
    requires { Plain board.now n }
    ensures { result ≡ has (m1c bid.row.0 bid.ballot.0 bid.tube.0) (board_of board.now n) }
{
    on_board(board, n, offer(bid))
}

// The kind that a message means.
pub fn kind_of(m: Message) -> Kind
    ensures { kind_byte result ≡ kind_of (meaning m) }
{
    match m.kind {
        1 => Kind::OneA,
        2 => Kind::OneB,
        3 => Kind::OneC,
        4 => Kind::TwoAv,
        _ => Kind::TwoB,
    }
}

// Whether the message numbered k is a 1b.
#[tactic(auto, using(crate::proofs::Means::board_1b, crate::proofs::Means::is_one_b))]
pub fn is_1b_at(board: &[u8], n: usize, k: usize) -> bool
    requires n_bound { n ≤ 1024 }
    requires n_in_bounds { 40 * n ≤ length board.now }
    requires k_lt_n { k < n }
    ensures { result ≡ is_1b_at (board_of board.now n) k }
{
    kind_of(msg_at(board, k)) == Kind::OneB
}

// Whether a message is a vote of this kind (4 a 2av, 5 a 2b) for this row, ballot and tube, by its own node. The kind stays a number here and in the
// next two: docs/SLIPS.md names `is_vote`, which takes any from 4 on, and a `Kind` would ask more.
#[tactic(auto, using(crate::proofs::Means::vote_own))]
pub fn is_vote(m: Message, kind: u8, bid: Bid) -> bool
    requires { 4 ≤ kind }
    ensures { result ≡ is_vote kind bid.row.0 bid.ballot.0 bid.tube.0 m.node (meaning m) }
{
    u8::from(kind_of(m)) == kind
        && m.row == bid.row.0
        && m.bal == bid.ballot.0
        && m.tube == bid.tube.0
}

// The set with the voter, if the message is such a vote.
pub fn with_voter(set: u8, m: Message, kind: u8, bid: Bid) -> u8
    requires { 4 ≤ kind }
    ensures { (a : ℕ) → a < 8 → bit result a ≡ bit set a || is_vote kind bid.row.0 bid.ballot.0 bid.tube.0 a (meaning m) }
{
    if is_vote(m, kind, bid) {
        sets::with_node(set, m.node)
    } else {
        set
    }
}

// The nodes that have a message of this kind (4 a 2av, 5 a 2b) for this row, ballot and tube on the board.
pub fn votes(board: &[u8], n: usize, kind: u8, bid: Bid) -> u8
    requires n_bound { n ≤ 1024 }
    requires n_in_bounds { 40 * n ≤ length board.now }
    requires le_kind { 4 ≤ kind }
    ensures { Gathered result (λ a. any (is_vote kind bid.row.0 bid.ballot.0 bid.tube.0 a) (board_of board.now n)) }
{
    let mut set: u8 = 0;
    for i in 0..n {
        set = with_voter(set, msg_at(board, i), kind, bid);
    }
    set
}

// Whether some quorum has such a vote from each of its nodes: a tube relayed (2av) or chosen (2b) in a ballot.
pub fn covered(h: &House, board: &[u8], kind: Kind, bid: Bid) -> bool
    requires nodes_bound { (h.now.nodes ≤ 8) × (h.now.listed ≤ 64) }
    requires count_bound { h.now.count ≤ 1024 }
    requires count_in_bounds { 40 * h.now.count ≤ length board.now }
    requires le_kind { 4 ≤ kind_byte kind }
    ensures { result ≡ covers (room_of h.now) (room_of h.now).quorums (is_vote (kind_byte kind) bid.row.0 bid.ballot.0 bid.tube.0) (board_of board.now h.now.count) }
{
    let set = votes(board, usize::from(h.count), kind.into(), bid);
    sets::some_full(&h.quorums[..usize::from(h.listed)], h.nodes, set)
}
