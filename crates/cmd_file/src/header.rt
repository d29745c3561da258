// The header of a command file.
ghost use Rattle.std.specs.Prelude.{◌≡◌, ◌+◌, ◌*◌, ◌/◌, ◌%◌, ◌<◌, length, slice_index_or, MatchResult};
ghost use Rattle.cmd_file.specs.CommandFile.{descriptor};
ghost use Rattle.cmd_file.specs.Header.{AnyByte, allows, group_rules, may_stand, word_in, HasHeader};
ghost use Rattle.cmd_file.specs.Reading.{IsCmdFaultOf};

use crate::fault::CmdFault;

/// The bytes of a header.
pub const HEADER_LENGTH: usize = 128;

/// The unit in which a header counts.
pub const PARAGRAPH: usize = 16;

/// The most paragraphs that a group has: 64K.
pub const MOST_PARAGRAPHS: u16 = 0x1000;

/// The bytes of a group descriptor.
pub const DESCRIPTOR_LENGTH: usize = 9;

/// The bytes of the eight group descriptors.
const DESCRIPTORS_LENGTH: usize = 8 * DESCRIPTOR_LENGTH;

/// What a group is: no group, code or data.
pub const NO_FORM: u8 = 0;

pub const CODE_FORM: u8 = 1;

pub const DATA_FORM: u8 = 2;

/// A group descriptor; sizes are in paragraphs.
#[derive(Clone, Copy)]
pub struct GroupDescriptor {
    pub form: u8,
    pub length: u16,
    pub base: u16,
    pub least: u16,
    pub greatest: u16,
}

impl GroupDescriptor {
    /// The bytes of the descriptor.
    pub fn to_bytes(&self) -> [u8; DESCRIPTOR_LENGTH]
        ensures { result ≡ descriptor (record { form = self.now.form; length = self.now.length; base = self.now.base; least = self.now.least; greatest = self.now.greatest }) }
    {
        [
            self.form,
            low(self.length),
            high(self.length),
            low(self.base),
            high(self.base),
            low(self.least),
            high(self.least),
            low(self.greatest),
            high(self.greatest),
        ]
    }
}

fn low(word: u16) -> u8
    ensures { result ≡ word % 256 }
{
    (word % 256) as u8
}

fn high(word: u16) -> u8
    ensures { result ≡ word / 256 }
{
    (word / 256) as u8
}

/// The bytes of the group whose descriptor begins at this place.
pub fn group_size(bytes: &[u8], at: usize) -> usize
    requires { at + 2 < length bytes.now }
    ensures { result ≡ 16 * word_in bytes.now (at + 1) }
{
    PARAGRAPH * (usize::from(bytes[at + 1]) + 256 * usize::from(bytes[at + 2]))
}

/// Whether the bytes begin with the descriptors of a command file's groups.
pub fn check_header(bytes: &[u8]) -> Result<(), CmdFault>
    ensures { MatchResult result (λ _. HasHeader bytes.now) (IsCmdFaultOf bytes.now) }
{
    let mut before = 0;
    for place in 0..DESCRIPTORS_LENGTH {
        let Some(byte) = bytes.get(place) else {
            return Err(CmdFault::Bad(place as u32));
        };
        if !may_stand(place, before, *byte) {
            return Err(CmdFault::Bad(place as u32));
        }
        before = *byte;
    }
    Ok(())
}

// Whether a byte may stand at a place of the header, after the byte before it.
fn may_stand(place: usize, before: u8, byte: u8) -> bool
    requires { place < 72 }
    ensures { result ≡ may_stand place before byte }
{
    let field = place % DESCRIPTOR_LENGTH;
    match place / DESCRIPTOR_LENGTH {
        0 => describes_group(CODE_FORM, field, before, byte),
        1 => describes_group(DATA_FORM, field, before, byte),
        _ => field != 0 || byte == NO_FORM,
    }
}

// The same of the descriptor of a group: its form, the high byte of its length, and its base.
fn describes_group(form: u8, field: usize, before: u8, byte: u8) -> bool
    requires { field < 9 }
    ensures { result ≡ allows (slice_index_or (group_rules form) field AnyByte) before byte }
{
    match field {
        0 => byte == form,
        2 => u16::from(before) + 256 * u16::from(byte) <= MOST_PARAGRAPHS,
        3 | 4 => byte == 0,
        _ => true,
    }
}
