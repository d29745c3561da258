// Records, and the lines that spell them.
ghost use Rattle.std.specs.Prelude.{◌≡◌, ◌≢◌, ◌%◌, ◌≤◌, length, take, List, ℕ, Ok, MatchBool, MatchOption};
ghost use Rattle.std.specs.List.{sum};
ghost use Rattle.hex.specs.Hex.{decode_of};
ghost use Rattle.hex_file.specs.Records.{Record, AreOfRecord, HasRecord, IsData, IsEnd};

use std::marker::Model;

/// The record mark.
pub const MARK: u8 = b':';

/// The types of records.
pub const DATA_KIND: u8 = 0;

const END_KIND: u8 = 1;

/// The bytes of a record before its data: how many data bytes there are, the address and the type.
pub const HEAD_LENGTH: usize = 4;

/// The most bytes of a record: 255 data bytes, and the check byte after them.
const MOST_BYTES: usize = HEAD_LENGTH + 255 + 1;

/// A record that a line spells.
#[derive(Drop)]
pub struct HexRecord {
    address: u16,
    kind: u8,
    count: usize,
    bytes: [u8; MOST_BYTES],
}

impl Model for HexRecord {
    ghost use Rattle.std.specs.Prelude.{◌+◌, ◌≤◌, take, drop, slice_index};
    ghost use Rattle.hex_file.specs.Records.{Record};

    ghost Value = { Record };

    ghost view = { λ r. record { address = r.address; kind = r.kind; «data» = take r.count (drop 4 r.bytes); check = slice_index r.bytes (r.count + 4) } };

    ghost invariant = { λ r. r.count ≤ 255 };
}

impl HexRecord {
    /// The record of a line, of any type; none where the line spells no record.
    pub fn read(line: &[u8]) -> Option<HexRecord>
        ensures { MatchOption result ((r : Record) → HasRecord line.now r → ⊥) (HasRecord line.now) }
    {
        let (mark, digits) = line.split_first()?;
        if *mark != MARK {
            return None;
        }
        let mut bytes = [0; MOST_BYTES];
        let length = decode(digits, &mut bytes)?;
        if !are_of_record(&bytes[..length]) {
            return None;
        }
        Some(HexRecord {
            address: u16::from_be_bytes([bytes[1], bytes[2]]),
            kind: bytes[3],
            count: usize::from(bytes[0]),
            bytes,
        })
    }

    /// Whether it has data, all of them below 10000H.
    pub fn is_data(&self) -> bool
        ensures { MatchBool result (IsData self.now) (IsData self.now → ⊥) }
    {
        self.kind == DATA_KIND
            && self.count > 0
            && usize::from(self.address) + self.count <= 0x1_0000
    }

    /// Whether it ends a file: no data, under either type.
    pub fn is_end(&self) -> bool
        ensures { MatchBool result (IsEnd self.now) (IsEnd self.now → ⊥) }
    {
        self.count == 0 && (self.kind == DATA_KIND || self.kind == END_KIND)
    }

    /// The address of the first data byte.
    pub fn address(&self) -> u16
        ensures { result ≡ self.now.address }
    {
        self.address
    }

    /// The data bytes.
    pub fn data(&self) -> &[u8]
        ensures { result.now ≡ self.now.data }
    {
        &self.bytes[HEAD_LENGTH..HEAD_LENGTH + self.count]
    }
}

// The bytes of digits, if they are those of a record's bytes: put to the front, and their number.
fn decode(digits: &[u8], bytes: &mut [u8; MOST_BYTES]) -> Option<usize>
    ensures { MatchOption result ((all : List ℕ) → length all ≤ 260 → decode_of digits.now ≢ Ok all) (λ n. (n ≤ 260) × (decode_of digits.now ≡ Ok (take n bytes.new))) }
{
    let length = digits.len() / 2;
    if length > MOST_BYTES {
        return None;
    }
    hex::decode_to_slice(digits, &mut bytes[..length]).ok()?;
    Some(length)
}

// Whether bytes are those of a record: as many data bytes as the first says, and a sum of 0.
fn are_of_record(bytes: &[u8]) -> bool
    ensures { MatchBool result (AreOfRecord bytes.now) (AreOfRecord bytes.now → ⊥) }
{
    let Some(count) = bytes.first() else {
        return false;
    };
    bytes.len() == HEAD_LENGTH + usize::from(*count) + 1 && byte_sum(bytes) == 0
}

/// The sum of bytes, in eight bits.
pub fn byte_sum(bytes: &[u8]) -> u8
    ensures { result ≡ sum bytes.now % 256 }
{
    let mut sum: u8 = 0;
    for byte in bytes {
        sum = sum.wrapping_add(*byte);
    }
    sum
}
