// Intake: the tube of a scan, known by station and serial.
#![tactic(auto)]

ghost use Rattle.std.specs.Prelude.{◌≡◌, ◌&&◌, ◌+◌, ◌≤◌, eqb, length};
ghost use Rattle.rules.specs.Lent.{intake_of};
ghost use Rattle.rules.specs.Steps.{tube_for};

// The same station and the same serial.
pub fn is_scan(station: u8, serial: u32, a: u8, b: u32) -> bool
    ensures { result ≡ eqb station a && eqb serial b }
{
    station == a && serial == b
}

// The tube of a known scan, or the next one: each station has a serial beside it.
pub fn tube_for(stations: &[u8], serials: &[u32], station: u8, serial: u32) -> usize
    requires { length stations.now ≤ length serials.now }
    ensures { result ≡ tube_for (intake_of stations.now serials.now (length stations.now)) station serial }
{
    let met = stations
        .iter()
        .zip(serials)
        .position(|(a, b)| is_scan(station, serial, *a, *b));
    met.unwrap_or(stations.len()) + 1
}

// The same of a house record's intake.
#[tactic(auto, using(rules::proofs::Each::intake_front))]
pub fn tube_of(h: &rules::House, station: u8, serial: u32) -> usize
    requires { h.now.tubes ≤ 64 }
    ensures { result ≡ tube_for (intake_of h.now.stations h.now.serials h.now.tubes) station serial }
{
    let n = usize::from(h.tubes);
    tube_for(&h.stations[..n], &h.serials[..n], station, serial)
}
