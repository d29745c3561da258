// File control blocks (CP/M 2.2 Operating System Manual, section 5.2, "Operating System Call Conventions").
ghost use Rattle.std.specs.Prelude.{◌≡◌, ◌<◌, slice_index};
ghost use Rattle.bdos_small.specs.Fcb.{position_of, position_in, random_position, records_from, fields_at, opened_fcb, directory_entry, random_bytes};

use crate::name::Name;

/// The records of an extent.
const EXTENT: usize = 128;

/// What a directory entry is filled up with behind its FCB.
const FILLER: u8 = 0xE5;

/// The byte of a block at a place.
pub fn byte_at(block: &[u8], place: usize) -> u8
    ensures { result ≡ slice_index block.now place }
{
    block.get(place).copied().unwrap_or(0)
}

/// The position of a record, by the bytes ex, s2 and cr.
pub fn position_of(ex: u8, s2: u8, cr: u8) -> u16
    ensures { result ≡ position_of ex s2 cr }
{
    4096 * u16::from(s2 % 16) + 128 * u16::from(ex % 32) + u16::from(cr % 128)
}

/// The position that an FCB tells.
pub fn position_in(fcb: &[u8]) -> u16
    ensures { result ≡ position_in fcb.now }
{
    position_of(byte_at(fcb, 12), byte_at(fcb, 14), byte_at(fcb, 32))
}

/// The random position, by bytes 33 and 34 of an FCB.
pub fn random_position(random: &[u8]) -> u16
    ensures { result ≡ random_position random.now }
{
    u16::from(byte_at(random, 0)) + 256 * u16::from(byte_at(random, 1))
}

// How many records of a file with `count` records an extent has that begins with record `start`.
fn records_from(start: usize, count: usize) -> u8
    ensures { result ≡ records_from start count }
{
    count.saturating_sub(start).min(EXTENT) as u8
}

/// Bytes 12 to 32 of an FCB at a position of a file with `count` records.
pub fn fields_at(position: usize, count: usize) -> [u8; 21]
    requires { position < 0x100000 }
    ensures { result ≡ fields_at position count }
{
    let extent = position / EXTENT;
    let mut fields = [0; 21];
    fields[0] = (extent % 32) as u8;
    fields[2] = (position / 4096) as u8;
    fields[3] = records_from(extent * EXTENT, count);
    fields[20] = (position % EXTENT) as u8;
    fields
}

/// Bytes 0 to 31 of an FCB at an extent of a file with `count` records.
pub fn opened_fcb(drive: u8, name: Name, ex: u8, count: usize) -> [u8; 32]
    ensures { result ≡ opened_fcb drive name ex count }
{
    let mut fcb = [0; 32];
    fcb[0] = drive;
    fcb[1..12].copy_from_slice(name.bytes());
    fcb[12] = ex;
    fcb[15] = records_from(usize::from(ex) * EXTENT, count);
    fcb
}

/// The directory entry of a file with `count` records.
pub fn directory_entry(name: Name, count: usize) -> [u8; 128]
    ensures { result ≡ directory_entry name count }
{
    let mut entry = [FILLER; 128];
    entry[..32].copy_from_slice(&opened_fcb(0, name, 0, count));
    entry
}

/// Bytes 33 to 35 of an FCB for a number of records.
pub fn random_bytes(number: usize) -> [u8; 3]
    requires { number < 0x10000 }
    ensures { result ≡ random_bytes number }
{
    [(number % 256) as u8, (number / 256) as u8, 0]
}
