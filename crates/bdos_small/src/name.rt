// Names of files and patterns.
ghost use Rattle.std.specs.Prelude.{◌≡◌, ◌≤◌, length};
ghost use Rattle.std.specs.Str.{bytes_eq};
ghost use Rattle.bdos_small.specs.Names.{is_name_byte, is_file_name, is_before, is_after, matches, name_in_block, highest, top_byte};

use std::marker::Model;

/// How many bytes a name has: eight of the name and three of the type, filled up with blanks.
pub const NAME_LENGTH: usize = 11;

/// The name of a file, or a pattern for such names, in which `?` stands for any byte.
#[derive(Clone, Copy)]
pub struct Name {
    bytes: [u8; NAME_LENGTH],
}

impl Model for Name {
    ghost use Rattle.std.specs.Prelude.{ℕ, List};

    ghost Value = { List ℕ };

    ghost view = { λ n. n.bytes };

    ghost inverse = { λ bytes. record { bytes = bytes } };
}

impl Name {
    /// The name of these bytes.
    pub fn of(bytes: [u8; NAME_LENGTH]) -> Name
        ensures { result ≡ bytes }
    {
        Name { bytes }
    }

    /// The name or the pattern in a file control block, from the block's byte 0 on: bytes 1 to 11 with bit 7 dropped.
    pub fn in_block(block: &[u8]) -> Name
        requires { 12 ≤ length block.now }
        ensures { result ≡ name_in_block block.now }
    {
        let mut bytes = [0; NAME_LENGTH];
        for (k, byte) in block[1..12].iter().enumerate() {
            bytes[k] = byte % 128;
        }
        Name { bytes }
    }

    /// The highest name that `after` more names of files can follow in ascending order.
    pub fn highest(after: usize) -> Name
        requires { after ≤ 63 }
        ensures { result ≡ highest after }
    {
        let mut bytes = [TOP; NAME_LENGTH];
        bytes[10] = top_byte(after);
        Name { bytes }
    }

    /// Its eleven bytes.
    pub fn bytes(&self) -> &[u8]
        ensures value { result.now ≡ self.now }
        ensures len { length result.now ≡ 11 }
    {
        &self.bytes
    }

    /// Whether a file may have this name: its bytes are blanks and printable characters, but no `?` and no lower-case letter.
    pub fn is_lawful(&self) -> bool
        ensures { result ≡ is_file_name self.now }
    {
        for byte in &self.bytes {
            if !is_name_byte(*byte) {
                return false;
            }
        }
        true
    }

    /// Whether it is this name.
    pub fn is(&self, other: &Name) -> bool
        ensures { result ≡ bytes_eq self.now other.now }
    {
        self.bytes == other.bytes
    }

    /// Whether it comes before another in a directory: the first byte that differs decides.
    pub fn is_before(&self, other: &Name) -> bool
        ensures { result ≡ is_before self.now other.now }
    {
        self.bytes.cmp(&other.bytes).is_lt()
    }

    /// Whether it comes after another name, if there is one.
    pub fn is_after(&self, last: &Option<Name>) -> bool
        ensures { result ≡ is_after last.now self.now }
    {
        match last {
            None => true,
            Some(last) => last.is_before(self),
        }
    }

    /// Whether the pattern matches a name.
    pub fn matches(&self, name: &Name) -> bool
        ensures { result ≡ matches self.now name.now }
    {
        self.bytes
            .iter()
            .zip(&name.bytes)
            .all(|(pattern, byte)| *pattern == b'?' || pattern == byte)
    }
}

/// The lowest byte of a name, with which it is filled up.
pub const BLANK: u8 = 0x20;

/// The highest byte of a name.
pub const TOP: u8 = 0x7E;

/// Whether a file's name may have a byte.
pub fn is_name_byte(byte: u8) -> bool
    ensures { result ≡ is_name_byte byte }
{
    BLANK <= byte && byte <= TOP && byte != b'?' && !byte.is_ascii_lowercase()
}

// The highest bytes of names, from the top down.
fn top_byte(from_top: usize) -> u8
    requires { from_top ≤ 63 }
    ensures { result ≡ top_byte from_top }
{
    let from_top = from_top as u8;
    match from_top {
        0..4 => 0x7E - from_top,
        4..37 => 0x64 - from_top,
        _ => 0x63 - from_top,
    }
}
