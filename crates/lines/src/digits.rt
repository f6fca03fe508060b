// A decimal at a place of a text.
ghost use Rattle.std.specs.Prelude.{◌≡◌, ◌≤◌, Some, None, IfSome, true, length};
ghost use Rattle.rules.specs.Tests.{pick};
ghost use Rattle.lines.specs.Decimal.{is_digit, follows, longer, number_at};

// The number with one digit more, if it may follow: no leading zero, and no number above the largest.
fn longer(value: u32, b: u8) -> Option<u32>
    requires { is_digit b ≡ true }
    ensures { result ≡ pick (follows value b) (Some (longer value b)) None }
{
    if value == 0 {
        return None;
    }
    value.checked_mul(10)?.checked_add(u32::from(b - b'0'))
}

// The decimal at a place of a text, and where it ends.
pub fn read_number(s: &[u8], at: usize) -> Option<(u32, usize)>
    ensures value { result ≡ number_at s.now at }
    ensures within { IfSome result (λ p. p.1 ≤ length s.now) }
{
    let first = *s.get(at)?;
    if !first.is_ascii_digit() {
        return None;
    }
    let mut value = u32::from(first - b'0');
    for end in at + 1..s.len() {
        let b = s[end];
        if !b.is_ascii_digit() {
            return Some((value, end));
        }
        value = longer(value, b)?;
    }
    Some((value, s.len()))
}
