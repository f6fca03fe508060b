// Cells: thirty-six bytes of the lent cells, read into a struct by value and written back.
#![tactic(auto)]

ghost use Rattle.std.specs.Prelude.{◌≡◌, ◌+◌, ◌*◌, ◌≤◌, ◌<◌, length, take, drop};
ghost use Rattle.std.proofs.Math.Seq.{paste};
ghost use Rattle.rules.specs.Lent.{cell_of, cell_at, encode, patch, place};

// As many bytes as the array has, from a place of a slice.
pub fn bytes_at<const N: usize>(s: &[u8], at: usize) -> [u8; N]
    requires { at + N ≤ length s.now }
    ensures { result ≡ take N (drop at s.now) }
{
    <[u8; N]>::try_from(&s[at..at + N]).unwrap()
}

// A cell's part is handed to the reader.
pub fn decode(s: &[u8]) -> rules::Cell
    requires { length s.now ≡ 36 }
    ensures { result ≡ cell_of s.now }
{
    rules::Cell {
        maxbal: s[0],
        maxvbal: s[1],
        maxvval: s[2],
        count: s[3],
        pairs: bytes_at(s, 4),
    }
}

// The cell numbered k of the lent cells.
pub fn cell_at(cells: &[u8], k: usize) -> rules::Cell
    requires k_bound { k < 512 }
    requires k_in_bounds { 36 * k + 36 ≤ length cells.now }
    ensures { result ≡ cell_at cells.now k }
{
    let a = 36 * k;
    decode(&cells[a..a + 36])
}

// The bytes of an array into a place of a slice.
pub fn put_bytes<const N: usize>(s: &mut [u8], at: usize, bytes: [u8; N])
    requires { at + N ≤ length s.old }
    ensures { s.new ≡ paste s.old at bytes.entry N }
{
    s[at..at + N].copy_from_slice(&bytes);
}

// A cell into the first thirty-six bytes of a slice; the others stay.
pub fn put_cell(s: &mut [u8], c: rules::Cell)
    requires { 36 ≤ length s.old }
    ensures { s.new ≡ patch s.old 0 (encode c) }
{
    s[0] = c.maxbal;
    s[1] = c.maxvbal;
    s[2] = c.maxvval;
    s[3] = c.count;
    put_bytes(s, 4, c.pairs);
}

// A cell into the place numbered k of the lent cells; all the others stay.
pub fn set_cell(cells: &mut [u8], k: usize, c: rules::Cell)
    requires k_bound { k < 512 }
    requires k_in_bounds { 36 * k + 36 ≤ length cells.old }
    ensures { cells.new ≡ patch cells.old (36 * k) (encode c) }
{
    let a = 36 * k;
    put_cell(&mut cells[a..a + 36], c);
}

// N × R cells, node by node: the number of a node's cell in a row.
pub fn place(rows: u8, row: rules::Row, node: rules::Node) -> usize
    requires { 1 ≤ row.0 }
    ensures { result ≡ place rows row.0 node.0 }
{
    usize::from(node.0) * usize::from(rows) + (usize::from(row.0) - 1)
}
