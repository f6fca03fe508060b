// Cells and heard bits as opening leaves them.
ghost use Rattle.std.specs.Prelude.{◌≡◌, [], ◌∷◌, ◌*◌, ◌≤◌, length};
ghost use Rattle.rules.specs.Tests.{many};
ghost use Rattle.rules.specs.Words.{fresh};
ghost use Rattle.rules.specs.Lent.{patch, encode, stored_cell};

// The first n cells fresh; the bytes after them stay. The number stays beside the slice here and below: docs/SLIPS.md names both functions, and what they promise is of the whole area.
pub fn fresh_cells(cells: &mut [u8], n: usize)
    requires n_bound { n ≤ 512 }
    requires n_in_bounds { 36 * n ≤ length cells.old }
    ensures { cells.new ≡ patch cells.old 0 (many n (encode (stored_cell fresh))) }
{
    let c = rules::Cell::fresh();
    for k in 0..n {
        cell::set_cell(cells, k, c);
    }
}

// The first n bytes 0; the bytes after them stay.
pub fn zeros(s: &mut [u8], n: usize)
    requires { n ≤ length s.old }
    ensures { s.new ≡ patch s.old 0 (many n (0 ∷ [])) }
{
    s[..n].fill(0);
}
