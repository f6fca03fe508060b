// The scans of a house image: sixty-four of a station and a serial.
ghost use Rattle.std.specs.Prelude.{◌≡◌, ◌∷◌, ◌+◌, ◌≤◌, length, drop};
ghost use Rattle.rules.specs.Lent.{patch};
ghost use Rattle.image.specs.Image.{four, scans, stations_at, serials_at};

use crate::numbers;

// The stations of the sixty-four scans of an image. This and the next differ in the number that they read: one for both would take a closure for one line.
pub fn read_stations(s: &[u8]) -> [u8; 64]
    requires { 456 ≤ length s.now }
    ensures { result ≡ stations_at (drop 136 s.now) 64 }
{
    let mut out = [0u8; 64];
    for i in 0..64 {
        out[i] = s[136 + 5 * i];
    }
    out
}

// Their serials.
pub fn read_serials(s: &[u8]) -> [u32; 64]
    requires { 456 ≤ length s.now }
    ensures { result ≡ serials_at (drop 136 s.now) 64 }
{
    let mut out = [0u32; 64];
    for i in 0..64 {
        out[i] = numbers::read_u32(s, 137 + 5 * i);
    }
    out
}

// One scan into a place: its station, then its serial.
fn write_scan(out: &mut [u8], at: usize, station: u8, serial: u32)
    requires { at + 5 ≤ length out.old }
    ensures { out.new ≡ patch out.old at (station ∷ four serial) }
{
    numbers::write_u8(out, at, station);
    numbers::write_u32(out, at + 1, serial);
}

// The sixty-four scans into the place that an image has for them.
pub fn write_scans(out: &mut [u8], stations: [u8; 64], serials: [u32; 64])
    requires { 456 ≤ length out.old }
    ensures { out.new ≡ patch out.old 136 (scans stations serials 64) }
{
    for i in 0..64 {
        write_scan(out, 136 + 5 * i, stations[i], serials[i]);
    }
}
