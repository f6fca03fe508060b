// Known safe: the 1b messages that a node has heard, gathered in one pass into sets of nodes, and the search for full sets.
#![tactic(auto)]

ghost use Rattle.std.specs.Prelude.{◌≡◌, List, [], ◌∷◌, ◌++◌, ℕ, ◌+◌, ◌*◌, ◌≤◌, ◌<◌, length, get_or};
ghost use Rattle.rules.specs.Tests.{pick, any_below};
ghost use Rattle.rules.specs.Words.{Msg, height_of};
ghost use Rattle.rules.specs.Lent.{memory, read, room_of, pairs_of, meaning, msg_at, board_of, heard_at};
ghost use Rattle.rules.specs.Steps.{low, shown, heard_from, known};
ghost use Rattle.safe.specs.Safe.{says, with_teller, ask_at, promise, Tells, safe_at, Ready};

// What is asked of a 1b.
#[derive(Clone, Copy)]
pub enum Ask {
    // (i) mbal none.
    Empty,
    // (ii) mbal none or at most c, and mval the tube if mbal is c: c and the tube.
    Low(u8, u8),
    // (ii) a pair of this tube whose ballot is strictly above c: c and the tube.
    Shown(u8, u8),
}

// The nodes of which a 1b was heard that passes: (i), and (ii) for each c.
#[derive(Clone, Copy)]
pub struct Told {
    pub none: u8,
    pub low: [u8; 16],
    pub shown: [u8; 16],
}

pub fn is_low(mbal: u8, mval: u8, c: u8, tube: u8) -> bool
    ensures { result ≡ low c tube (height_of mbal) mval [] }
{
    mbal == rules::Ballot::NONE || mbal < c || (mbal == c && mval == tube)
}

#[tactic(auto, using(crate::proofs::Tellers::shown_cut))]
pub fn is_shown(m: rules::Message, c: u8, tube: u8) -> bool
    ensures { result ≡ shown c tube 0 0 (pairs_of m.count m.pairs) }
{
    pairs::has_above(m.pairs, m.count.min(16), rules::Tube(tube), c)
}

// Whether a 1b passes, whatever its row, ballot and node. A match and no closure: `says` of the definitions names what is asked.
#[tactic(auto, using(crate::proofs::Tellers::none_height))]
pub fn tells(m: rules::Message, ask: Ask) -> bool
    ensures { result ≡ says ask m }
{
    match ask {
        Ask::Empty => m.mbal == rules::Ballot::NONE,
        Ask::Low(c, v) => is_low(m.mbal, m.mval, c, v),
        Ask::Shown(c, v) => is_shown(m, c, v),
    }
}

// The set with the message's node, if the message passes.
pub fn with_teller(set: u8, m: rules::Message, ask: Ask) -> u8
    ensures { result ≡ with_teller set m ask }
{
    if tells(m, ask) {
        sets::with_node(set, m.node)
    } else {
        set
    }
}

pub fn ask_at(weak: bool, c: u8, tube: u8) -> Ask
    ensures { result ≡ ask_at weak c tube }
{
    if weak {
        Ask::Shown(c, tube)
    } else {
        Ask::Low(c, tube)
    }
}

// The sets for each c, with the message's node where the message passes.
pub fn grown(sets: [u8; 16], m: rules::Message, weak: bool, tube: u8) -> [u8; 16]
    ensures { (c : ℕ) → c < 16 → get_or result c 0 ≡ with_teller (get_or sets c 0) m (ask_at weak c tube) }
{
    let mut out = sets;
    for c in 0..16 {
        let k = usize::from(c);
        out[k] = with_teller(sets[k], m, ask_at(weak, c, tube));
    }
    out
}

// Whether a message is a 1b of this row and ballot.
#[tactic(auto, using(crate::proofs::Tellers::promise_reads, board::proofs::Means::is_one_b))]
pub fn is_promise(m: rules::Message, row: rules::Row, ballot: rules::Ballot) -> bool
    ensures { result ≡ promise row.0 ballot.0 m }
{
    board::kind_of(m) == rules::Kind::OneB && m.row == row.0 && m.bal == ballot.0
}

// One heard message more.
pub fn told_more(t: Told, m: rules::Message, bid: rules::Bid) -> Told
    ensures { (l : List Msg) → Tells t bid.row.0 bid.ballot.0 bid.tube.0 l → Tells result bid.row.0 bid.ballot.0 bid.tube.0 (l ++ (meaning m ∷ [])) }
{
    if !is_promise(m, bid.row, bid.ballot) {
        return t;
    }
    Told {
        none: with_teller(t.none, m, Ask::Empty),
        low: grown(t.low, m, false, bid.tube.0),
        shown: grown(t.shown, m, true, bid.tube.0),
    }
}

// Whether a node has heard the message numbered k.
#[tactic(auto, unfolding(rules::specs::Lent::heard_at))]
pub fn heard_at(heard: &[u8], node: rules::Node, k: usize) -> bool
    requires node_bound { (node.0 < 8) × (k < 1024) }
    requires node_in_bounds { 128 * node.0 + 128 ≤ length heard.now }
    ensures { result ≡ heard_at heard.now node.0 k }
{
    let b = heard[128 * usize::from(node.0) + k / 8];
    let j = (k % 8) as u8;
    sets::in_set(b, j)
}

// One message of the board more, if the node has heard it.
pub fn heard_more(
    t: Told,
    board: &[u8],
    heard: &[u8],
    k: usize,
    node: rules::Node,
    bid: rules::Bid,
) -> Told
    requires node_bound { (node.0 < 8) × (k < 1024) }
    requires k_in_bounds { 40 * k + 40 ≤ length board.now }
    requires node_in_bounds { 128 * node.0 + 128 ≤ length heard.now }
    ensures { (l : List Msg) → Tells t bid.row.0 bid.ballot.0 bid.tube.0 l → Tells result bid.row.0 bid.ballot.0 bid.tube.0 (l ++ pick (heard_at heard.now node.0 k) (meaning (msg_at board.now k) ∷ []) []) }
{
    if !heard_at(heard, node, k) {
        return t;
    }
    told_more(t, board::msg_at(board, k), bid)
}

// All that a node has heard of the first n messages: one pass. Area and count side by side, as `board_of` takes them.
pub fn gathered(board: &[u8], heard: &[u8], n: usize, node: rules::Node, bid: rules::Bid) -> Told
    requires node_bound { (node.0 < 8) × (n ≤ 1024) }
    requires n_in_bounds { 40 * n ≤ length board.now }
    requires node_in_bounds { 128 * node.0 + 128 ≤ length heard.now }
    ensures { Tells result bid.row.0 bid.ballot.0 bid.tube.0 (heard_from (heard_at heard.now node.0) 0 (board_of board.now n)) }
{
    let mut t = Told {
        none: 0,
        low: [0; 16],
        shown: [0; 16],
    };
    for i in 0..n {
        t = heard_more(t, board, heard, i, node, bid);
    }
    t
}

// (ii) for one c: a full quorum of low ones, and a full weak set of those that show the tube. The bounds stand here and below, and not in a type: `known_safe`
// has them from `Ready`, and a house record keeps no bound of its own.
pub fn safe_at(h: &rules::House, t: Told, c: u8) -> bool
    requires nodes_bound { (h.now.nodes ≤ 8) × ((h.now.listed ≤ 64) × (h.now.backers ≤ 64)) }
    requires c_bound { c < 16 }
    ensures { result ≡ safe_at h.now t c }
{
    let k = usize::from(c);
    sets::some_full(&h.quorums[..usize::from(h.listed)], h.nodes, t.low[k])
        && sets::some_full(&h.weaks[..usize::from(h.backers)], h.nodes, t.shown[k])
}

// (ii) for some c below the ballot.
pub fn safe_below(h: &rules::House, t: Told, ballot: rules::Ballot) -> bool
    requires nodes_bound { (h.now.nodes ≤ 8) × ((h.now.listed ≤ 64) × (h.now.backers ≤ 64)) }
    requires ballot_bound { ballot.0 ≤ 16 }
    ensures { result ≡ any_below (safe_at h.now t) ballot.0 }
{
    for c in 0..ballot.0 {
        if safe_at(h, t, c) {
            return true;
        }
    }
    false
}

// Whether the tube is known safe to the node in this row and ballot.
pub fn known_safe(
    h: &rules::House,
    board: &[u8],
    heard: &[u8],
    node: rules::Node,
    bid: rules::Bid,
) -> bool
    requires { Ready h.now board.now heard.now node.0 bid.ballot.0 }
    ensures { (cells : List ℕ) → result ≡ known (room_of h.now) (read (memory h.now board.now cells heard.now)) bid.row.0 node.0 bid.ballot.0 bid.tube.0 }
{
    let t = gathered(board, heard, usize::from(h.count), node, bid);
    sets::some_full(&h.quorums[..usize::from(h.listed)], h.nodes, t.none)
        || safe_below(h, t, bid.ballot)
}
