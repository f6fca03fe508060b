// Input read until it ends: numbers of four bytes each, and whether a reading was whole.
#![tactic(auto)]

ghost use Rattle.std.specs.Prelude.{◌≡◌, ◌≢◌, Ok, Err, IsOk, IfErr, OnOk, true, false, flat_map};
ghost use Rattle.std.specs.Int.{w32, to_le_bytes};
ghost use Rattle.std.specs.Io.KnownBytes.{Consumes};
ghost use Rattle.std.specs.IoError.{error_kind};

use std::io;
use std::io::{ErrorKind, Read};

// The number that four bytes write.
fn number(bytes: [u8; 4]) -> u32
    ensures { to_le_bytes w32 result ≡ bytes }
{
    u32::from_le_bytes(bytes)
}

// Fills a list from the input, four bytes an entry, little-endian.
pub fn read_list<R: Read>(input: &mut R, list: &mut [u32]) -> io::Result<()>
    ensures { OnOk result (Consumes (R.remaining input.old) (R.remaining input.new) (flat_map (to_le_bytes w32) list.new)) }
{
    for entry in list {
        let mut bytes = [0u8; 4];
        input.read_exact(&mut bytes)?;
        *entry = number(bytes);
    }
    Ok(())
}

// Whether what was read is whole; false where the input ended before.
pub fn whole(read: io::Result<()>) -> io::Result<bool>
    ensures done { IsOk read → result ≡ Ok true }
    ensures ended { IfErr read (λ e. error_kind e ≡ ErrorKind.UnexpectedEof → result ≡ Ok false) }
    ensures failed { IfErr read (λ e. error_kind e ≢ ErrorKind.UnexpectedEof → result ≡ Err e) }
{
    match read {
        Ok(()) => Ok(true),
        Err(e) if e.kind() == ErrorKind::UnexpectedEof => Ok(false),
        Err(e) => Err(e),
    }
}
