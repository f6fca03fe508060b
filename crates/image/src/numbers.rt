// Numbers of one, two and four bytes at a place of some bytes, little-endian. One function over the width would name the conversion by a trait of its own: these are one line each.
ghost use Rattle.std.specs.Prelude.{◌≡◌, [], ◌∷◌, ◌+◌, ◌≤◌, ◌<◌, length, get_or};
ghost use Rattle.rules.specs.Lent.{patch};
ghost use Rattle.image.specs.Image.{two, four, two_at, four_at};

pub fn read_u16(s: &[u8], at: usize) -> u16
    requires { at + 2 ≤ length s.now }
    ensures { result ≡ two_at s.now at }
{
    u16::from_le_bytes([s[at], s[at + 1]])
}

pub fn read_u32(s: &[u8], at: usize) -> u32
    requires { at + 4 ≤ length s.now }
    ensures { result ≡ four_at s.now at }
{
    u32::from_le_bytes([s[at], s[at + 1], s[at + 2], s[at + 3]])
}

pub fn write_u8(out: &mut [u8], at: usize, x: u8)
    requires { at < length out.old }
    ensures { out.new ≡ patch out.old at (x ∷ []) }
{
    out[at] = x;
}

pub fn write_u16(out: &mut [u8], at: usize, x: u16)
    requires { at + 2 ≤ length out.old }
    ensures { out.new ≡ patch out.old at (two x) }
{
    out[at..at + 2].copy_from_slice(&x.to_le_bytes());
}

pub fn write_u32(out: &mut [u8], at: usize, x: u32)
    requires { at + 4 ≤ length out.old }
    ensures { out.new ≡ patch out.old at (four x) }
{
    out[at..at + 4].copy_from_slice(&x.to_le_bytes());
}
