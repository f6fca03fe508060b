// Where a byte stands in a text.
ghost use Rattle.std.specs.Prelude.{◌≡◌};
ghost use Rattle.lines.specs.Grammar.{stands};

// Whether the byte x stands at a place.
pub fn has_byte(s: &[u8], at: usize, x: u8) -> bool
    ensures { result ≡ stands x s.now at }
{
    at < s.len() && s[at] == x
}
