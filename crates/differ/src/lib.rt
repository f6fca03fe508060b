// No two messages of a board are equal: each is looked for among those before it, by way of a table of slots.
#![tactic(auto)]

ghost use Rattle.std.specs.Prelude.{◌≡◌, true, false, ℕ, ◌+◌, ◌*◌, ◌≤◌, ◌<◌, length, get_or};
ghost use Rattle.rules.specs.Tests.{distinct, eqs};
ghost use Rattle.rules.specs.Words.{same_msg};
ghost use Rattle.rules.specs.Lent.{window, board_of};
ghost use Rattle.board.specs.Asked.{Plain};
ghost use Rattle.differ.specs.Differ.{new_message, mix, slot_of, Probed};

// How many slots there are; one more takes what finds no slot, and is never looked at.
pub const SLOTS: usize = 3072;

// The bytes of the message numbered k.
fn bytes_at(board: &[u8], k: usize) -> &[u8]
    requires k_bound { k < 1024 }
    requires k_in_bounds { 40 * k + 40 ≤ length board.now }
    ensures bytes { result.now ≡ window 40 k board.now }
    ensures long { length result.now ≡ 40 }
{
    &board[40 * k..40 * k + 40]
}

// Two messages have the same bytes.
pub fn same_two(board: &[u8], j: usize, k: usize) -> bool
    requires j_bound { (j < 1024) × (40 * j + 40 ≤ length board.now) }
    requires k_bound { (k < 1024) × (40 * k + 40 ≤ length board.now) }
    ensures { result ≡ eqs (window 40 j board.now) (window 40 k board.now) }
{
    board::same_at(board, j, bytes_at(board, k))
}

// The message numbered k is none of those before it: it is compared with each.
pub fn message_new(board: &[u8], k: usize) -> bool
    requires k_bound { k < 1024 }
    requires k_in_bounds { 40 * k + 40 ≤ length board.now }
    ensures { result ≡ new_message board.now k }
{
    !board::stands(board, k, bytes_at(board, k))
}

// Where a message's bytes are looked for first: by its fields, in which ordinary messages differ.
#[tactic(auto, unfolding(crate::specs::Differ::mix))]
pub fn slot_of(bytes: &[u8]) -> usize
    requires { length bytes.now ≡ 40 }
    ensures { result ≡ mix bytes.now }
{
    let start = bytes[0] as usize + bytes[1] as usize * 31;
    let place = start + (bytes[2] as usize * 961 + bytes[3] as usize * 1245);
    let named = bytes[4] as usize * 1893 + bytes[5] as usize * 1591;
    let vote = named + (bytes[6] as usize * 385 + bytes[7] as usize * 1740);
    (place + vote) % 2039
}

// Where the message numbered k is looked for first.
pub fn first_slot(board: &[u8], k: usize) -> usize
    requires k_bound { k < 1024 }
    requires k_in_bounds { 40 * k + 40 ≤ length board.now }
    ensures { result ≡ slot_of board.now k }
{
    slot_of(bytes_at(board, k))
}

// From slot h on, the first that is empty; past all slots if a slot has an equal message.
// That case stays a number: Probed and the slip equal_let_through, which docs/SLIPS.md names with this function, speak of it.
pub fn probe(board: &[u8], slots: &[u16], k: usize, h: usize) -> usize
    requires k_bound { (k < 1024) × (40 * k + 40 ≤ length board.now) }
    requires slots_len { (length slots.now ≡ 3073) × ((t : ℕ) → get_or slots.now t 0 ≤ k) }
    requires h_bound { h ≤ 3072 }
    ensures { Probed board.now slots.now k h result }
{
    for i in h..SLOTS {
        let v = slots[i] as usize;
        if v == 0 {
            return i;
        }
        if same_two(board, v - 1, k) {
            return SLOTS + 1;
        }
    }
    SLOTS
}

// What a probe tells of a message; one that found no slot is compared with each before it.
pub fn settled(board: &[u8], k: usize, at: usize) -> bool
    requires k_bound { (k < 1024) × (40 * k + 40 ≤ length board.now) }
    requires k_value { (at < 3072 → new_message board.now k ≡ true) × (3072 < at → new_message board.now k ≡ false) }
    ensures { result ≡ new_message board.now k }
{
    if at < SLOTS {
        return true;
    }
    if at > SLOTS {
        return false;
    }
    message_new(board, k)
}

// No two of the first n messages are equal. Area and count side by side, as `Plain` and `board_of` take them.
pub fn messages_differ(board: &[u8], n: usize) -> bool
    requires { Plain board.now n }
    ensures { result ≡ distinct same_msg (board_of board.now n) }
{
    let mut slots = [0u16; SLOTS + 1];
    for k in 0..n {
        let h = first_slot(board, k);
        let at = probe(board, &slots, k, h);
        if !settled(board, k, at) {
            return false;
        }
        slots[at] = (k + 1) as u16;
    }
    true
}
