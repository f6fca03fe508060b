// The front of a request: 552 bytes.
ghost use Rattle.std.specs.Prelude.{◌≡◌, ◌≤◌, length, take, drop};
ghost use Rattle.frame.specs.Frame.{numbers_at, request_of};

use crate::Request;
use image::numbers::read_u32;

// The eight arguments.
fn arguments(s: &[u8]) -> [u32; 8]
    requires { 552 ≤ length s.now }
    ensures { result ≡ numbers_at (drop 1 s.now) 8 }
{
    let mut out = [0u32; 8];
    for i in 0..8 {
        out[i] = read_u32(s, 1 + 4 * i);
    }
    out
}

// The sixteen pairs, a tube and a ballot each. Every frame reads them, and by `map` over the bytes each took 14 instructions.
fn pairs(s: &[u8]) -> [u32; 32]
    requires { 552 ≤ length s.now }
    ensures { result ≡ take 32 (drop 33 s.now) }
{
    let mut out = [0u32; 32];
    for i in 0..32 {
        out[i] = u32::from(s[33 + i]);
    }
    out
}

// All of the front, each part from its place.
pub fn request(s: &[u8]) -> Request
    requires { 552 ≤ length s.now }
    ensures { result ≡ request_of s.now }
{
    Request {
        call: s[0],
        arguments: arguments(s),
        pairs: pairs(s),
        house: image::read_house(&s[65..]),
        quorums: read_u32(s, 524),
        weaks: read_u32(s, 528),
        board: read_u32(s, 532),
        cells: read_u32(s, 536),
        heard: read_u32(s, 540),
        book: read_u32(s, 544),
        waiting: read_u32(s, 548),
    }
}
