// The house record as 459 bytes, for a program that is handed it and hands it on.
#![tactic(auto)]

ghost use Rattle.std.specs.Prelude.{◌≡◌, ◌≤◌, length};
ghost use Rattle.rules.specs.Lent.{patch};
ghost use Rattle.image.specs.Image.{counts, image, house_at};

use rules::House;

pub mod numbers; // numbers.rt: numbers of one, two and four bytes
mod tables; // tables.rt: the scans

// The house record that stands at the front of some bytes.
#[tactic(auto, unfolding(crate::specs::Image::house_at))]
pub fn read_house(s: &[u8]) -> House
    requires { 459 ≤ length s.now }
    ensures { result ≡ house_at s.now }
{
    House {
        nodes: s[0],
        faulty: s[1],
        rows: s[2],
        capacity: numbers::read_u16(s, 3),
        listed: s[5],
        quorums: cell::bytes_at(s, 7),
        backers: s[6],
        weaks: cell::bytes_at(s, 71),
        tubes: s[135],
        stations: tables::read_stations(s),
        serials: tables::read_serials(s),
        marks: s[456],
        count: numbers::read_u16(s, 457),
    }
}

// The counts of a house record into the first seven bytes. By value, as the next.
fn write_counts(h: House, out: &mut [u8])
    requires { 7 ≤ length out.old }
    ensures { out.new ≡ patch out.old 0 (counts h) }
{
    numbers::write_u8(out, 0, h.nodes);
    numbers::write_u8(out, 1, h.faulty);
    numbers::write_u8(out, 2, h.rows);
    numbers::write_u16(out, 3, h.capacity);
    numbers::write_u8(out, 5, h.listed);
    numbers::write_u8(out, 6, h.backers);
}

// The house record into the first bytes; the others stay. By value: of a value the check knows how long its arrays are, of one behind a reference it does not.
pub fn write_house(h: House, out: &mut [u8])
    requires { 459 ≤ length out.old }
    ensures { out.new ≡ patch out.old 0 (image h) }
{
    write_counts(h, out);
    cell::put_bytes(out, 7, h.quorums);
    cell::put_bytes(out, 71, h.weaks);
    numbers::write_u8(out, 135, h.tubes);
    tables::write_scans(out, h.stations, h.serials);
    numbers::write_u8(out, 456, h.marks);
    numbers::write_u16(out, 457, h.count);
}

// What was written is read back, for every house record that there is. By value: it gives back another one.
pub fn read_back(h: House) -> House
    ensures { result ≡ h }
{
    let mut out = [0u8; 459];
    write_house(h, &mut out);
    read_house(&out)
}
