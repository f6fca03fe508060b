// Counts and lengths of a room, and the form of a house record: its tables, intake and marks.
#![tactic(auto)]

ghost use Rattle.std.specs.Prelude.{◌≡◌, true, ◌&&◌, [], ℕ, ◌^◌, ◌≤◌, ◌<◌, leb, ltb, length, get_or, IsTrue};
ghost use Rattle.rules.specs.Tests.{all, distinct, fit, bit, count, first};
ghost use Rattle.rules.specs.Words.{nodes_in, faulty_in, rows_in, capacity_in};
ghost use Rattle.rules.specs.Lent.{memory, counts, tables, room_of, intake_of, same_scan, house_form, Typed};
ghost use Rattle.rules.specs.Replies.{number_in};
ghost use Rattle.tables.specs.Tables.{lengths, passes, share, with_lists, new_scan};

use rules::{House, Refusal};

// ---- counts and lengths

// A number lies between two others, which it may reach.
pub fn within(low: u32, x: u32, high: u32) -> bool
    ensures { result ≡ leb low x && leb x high }
{
    (low..=high).contains(&x)
}

// Nodes, unruly stations, rows and capacity are in their limits.
pub fn sizes_in(nodes: u32, faulty: u32, rows: u32, capacity: u32) -> bool
    ensures { result ≡ (nodes_in nodes && faulty_in faulty) && (rows_in rows && capacity_in capacity) }
{
    (within(1, nodes, 8) & (faulty <= 7)) & (within(1, rows, 64) & within(1, capacity, 1024))
}

// All counts of the house record are in their limits.
#[tactic(auto, unfolding(rules::specs::Lent::counts))]
pub fn counts_ok(h: &House) -> bool
    ensures { result ≡ counts h.now }
{
    let sizes = sizes_in(
        h.nodes as u32,
        h.faulty as u32,
        h.rows as u32,
        h.capacity as u32,
    );
    let lists = within(1, h.listed as u32, 64) & within(1, h.backers as u32, 64);
    sizes & (lists & ((h.tubes <= 64) & (h.count <= h.capacity)))
}

// No lent area is too short for a room of these sizes. No house record has them yet, so there is no `Lent` to take.
pub fn lengths_ok(
    nodes: u8,
    rows: u8,
    capacity: u16,
    board: &[u8],
    cells: &[u8],
    heard: &[u8],
) -> bool
    ensures { result ≡ lengths nodes rows capacity (length board.now) (length cells.now) (length heard.now) }
{
    let n = nodes as usize;
    let r = rows as usize;
    let c = capacity as usize;
    (40 * c <= board.len()) & ((36 * (n * r) <= cells.len()) & (128 * n <= heard.len()))
}

// ---- the tables

// How many of the room's nodes a set names. Its bound on the nodes stands in each contract here: docs/SLIPS.md names `set_passes`, and a type that knows it would ask
// more of its callers. `counts` below is one definition, said once.
pub fn members(nodes: u8, set: u8) -> u32
    requires { nodes ≤ 8 }
    ensures { result ≡ count (bit set) nodes }
{
    let low = (set as u16) % (1u16 << nodes);
    low.count_ones()
}

// What the tables ask of a set: it names present nodes, it shares more than f of them with another, it has more than f.
#[derive(Clone, Copy)]
pub enum Asked {
    Present,
    Shares(u8),
    Strong,
}

// Whether a set is as asked. A match and no closure: `passes` of the definitions names what is asked, and a closure would say it a second time in a clause.
#[tactic(auto, using(crate::proofs::Sets::common_count))]
pub fn set_passes(nodes: u8, faulty: u8, asked: Asked, set: u8) -> bool
    requires { nodes ≤ 8 }
    ensures { result ≡ passes nodes faulty asked set }
{
    match asked {
        Asked::Present => (set as u16) < (1u16 << nodes),
        Asked::Shares(other) => (faulty as u32) < members(nodes, other & set),
        Asked::Strong => (faulty as u32) < members(nodes, set),
    }
}

// All sets of a list pass.
pub fn all_pass(nodes: u8, faulty: u8, asked: Asked, sets: &[u8]) -> bool
    requires { nodes ≤ 8 }
    ensures { result ≡ all (passes nodes faulty asked) sets.now }
{
    sets.iter()
        .all(|set| set_passes(nodes, faulty, asked, *set))
}

// Each two sets of a list, one with itself too, share more than f nodes.
pub fn all_share(nodes: u8, faulty: u8, sets: &[u8]) -> bool
    requires { nodes ≤ 8 }
    ensures { result ≡ all (λ p. all (share nodes faulty p) sets.now) sets.now }
{
    sets.iter()
        .all(|p| all_pass(nodes, faulty, Asked::Shares(*p), sets))
}

// What opening says of a house record's tables: 2, 3, 4, or nothing if they pass. `test_lists` says it of lists, which are numbers of any size until it has tested them.
#[tactic(auto, using(crate::proofs::Counted::counted))]
pub fn test_tables(h: &House) -> Result<(), Refusal>
    requires { counts h.now ≡ true }
    ensures { number_in result ≡ first (tables (room_of h.now)) }
{
    let quorums = &h.quorums[..h.listed as usize];
    let weaks = &h.weaks[..h.backers as usize];
    if !all_pass(h.nodes, h.faulty, Asked::Present, quorums)
        || !all_pass(h.nodes, h.faulty, Asked::Present, weaks)
    {
        return Err(Refusal::AbsentNode);
    }
    if !all_share(h.nodes, h.faulty, quorums) {
        return Err(Refusal::SmallOverlap);
    }
    if !all_pass(h.nodes, h.faulty, Asked::Strong, weaks) {
        return Err(Refusal::SmallWeak);
    }
    Ok(())
}

// ---- lists as opening is handed them

// All sets of a list name present nodes. A list has numbers of any size, a house record bytes: `all_pass` asks the same of those.
pub fn sets_present(nodes: u8, sets: &[u32]) -> bool
    requires { nodes ≤ 8 }
    ensures { result ≡ all (λ q. ltb q (2 ^ nodes)) sets.now }
{
    let top = 1u32 << nodes;
    sets.iter().all(|set| *set < top)
}

// Numbers below 256 as an array of bytes, with zeros after them.
pub fn narrowed<const N: usize>(sets: &[u32]) -> [u8; N]
    requires sets_len_bound { length sets.now ≤ N }
    requires by_index { (i : ℕ) → get_or sets.now i 0 < 256 }
    ensures { result ≡ fit N sets.now }
{
    let mut out = [0u8; N];
    for (i, set) in sets.iter().enumerate() {
        out[i] = *set as u8;
    }
    out
}

// What opening says of the tables of a room: 2, 3, 4, or nothing if they pass.
pub fn test_lists(nodes: u8, faulty: u8, quorums: &[u32], weaks: &[u32]) -> Result<(), Refusal>
    requires nodes_bound { nodes ≤ 8 }
    requires quorums_len_bound { (length quorums.now ≤ 64) × (length weaks.now ≤ 64) }
    ensures { number_in result ≡ first (tables (with_lists nodes faulty quorums.now weaks.now)) }
{
    if !sets_present(nodes, quorums) || !sets_present(nodes, weaks) {
        return Err(Refusal::AbsentNode);
    }
    let q: [u8; 64] = narrowed(quorums);
    let w: [u8; 64] = narrowed(weaks);
    if !all_share(nodes, faulty, &q[..quorums.len()]) {
        return Err(Refusal::SmallOverlap);
    }
    if !all_pass(nodes, faulty, Asked::Strong, &w[..weaks.len()]) {
        return Err(Refusal::SmallWeak);
    }
    Ok(())
}

// ---- intake

// The scan numbered k is none of those before it. The number is a place in the lists, not their length. Every call tests the intake, and by `all` over the places it took half as many
// instructions again.
pub fn scan_new(stations: &[u8], serials: &[u32], k: usize) -> bool
    requires k_in_bounds { k < length stations.now }
    requires k_in_bounds_2 { k < length serials.now }
    ensures { result ≡ new_scan stations.now serials.now k }
{
    let (station, serial) = (stations[k], serials[k]);
    for j in 0..k {
        if (stations[j] == station) & (serials[j] == serial) {
            return false;
        }
    }
    true
}

// The scans of a list differ from one another: each station has a serial beside it.
pub fn scans_differ(stations: &[u8], serials: &[u32]) -> bool
    requires { length stations.now ≤ length serials.now }
    ensures { result ≡ distinct same_scan (intake_of stations.now serials.now (length stations.now)) }
{
    (0..stations.len()).all(|k| scan_new(stations, serials, k))
}

// The tables pass opening, intake scans differ from one another, marks name only existing nodes.
#[tactic(auto, using(crate::proofs::Counted::counted, crate::proofs::Counted::house_are, rules::proofs::Named::positive, rules::proofs::Each::intake_front))]
pub fn house_ok(h: &House) -> bool
    requires { counts h.now ≡ true }
    ensures value { result ≡ house_form (memory h.now [] [] []) }
    ensures typed { IsTrue result → Typed h.now }
{
    let n = h.tubes as usize;
    test_tables(h).is_ok()
        && scans_differ(&h.stations[..n], &h.serials[..n])
        && (h.marks as u16) < (1u16 << h.nodes)
}
