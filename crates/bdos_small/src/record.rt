// Records.
ghost use Rattle.std.specs.Prelude.{◌≡◌, length};
ghost use Rattle.bdos_small.specs.Stored.{zero_record};

use std::marker::Model;

/// How many bytes a record has.
pub const RECORD_LENGTH: usize = 128;

/// A record of a file: 128 bytes.
#[derive(Clone, Copy)]
pub struct Record {
    bytes: [u8; RECORD_LENGTH],
}

impl Model for Record {
    ghost use Rattle.std.specs.Prelude.{ℕ, List};

    ghost Value = { List ℕ };

    ghost view = { λ r. r.bytes };

    ghost inverse = { λ bytes. record { bytes = bytes } };
}

impl Record {
    /// A record of zeros.
    pub fn zeros() -> Record
        ensures { result ≡ zero_record }
    {
        Record {
            bytes: [0; RECORD_LENGTH],
        }
    }

    /// The record of these 128 bytes.
    pub fn of(block: &[u8]) -> Record
        requires { length block.now ≡ 128 }
        ensures { result ≡ block.now }
    {
        let mut bytes = [0; RECORD_LENGTH];
        bytes.copy_from_slice(block);
        Record { bytes }
    }

    /// Its 128 bytes.
    pub fn bytes(&self) -> &[u8]
        ensures value { result.now ≡ self.now }
        ensures len { length result.now ≡ 128 }
    {
        &self.bytes
    }
}
