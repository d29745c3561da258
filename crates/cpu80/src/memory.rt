// The 64K of memory.
ghost use Rattle.std.specs.Prelude.{◌≡◌, length};

use dialogue::{Block, View, join};

/// 65,536 bytes.
#[derive(Drop)]
pub struct Memory {
    pub bytes: Vec<u8>,
    ghost full: { length bytes.items ≡ 0x10000 },
}

impl Memory {
    ghost use Rattle.dialogue.specs.ByteMemory.{put, put_bytes, put_blocks, word_at};
    ghost use Rattle.cpu80.specs.State.{put_word};
    ghost use Rattle.cpu80.specs.ProcessorState.{untagged_memory};

    /// The byte at an address.
    pub fn get(&self, at: u16) -> u8
        ensures { result ≡ untagged_memory self.now at }
    {
        self.bytes[usize::from(at)]
    }

    /// Writes the byte at an address.
    pub fn set(&mut self, at: u16, byte: u8)
        ensures { untagged_memory self.new ≡ put (untagged_memory self.old) at byte }
    {
        self.bytes[usize::from(at)] = byte;
    }

    /// The word at an address, low byte first; the second byte of one at 0FFFFH is at 0.
    pub fn word(&self, at: u16) -> u16
        ensures { result ≡ word_at (untagged_memory self.now) at }
    {
        join(self.get(at.wrapping_add(1)), self.get(at))
    }

    /// Writes the word of two bytes at an address.
    pub fn set_word(&mut self, at: u16, high: u8, low: u8)
        ensures { untagged_memory self.new ≡ put_word (untagged_memory self.old) at high low }
    {
        self.set(at, low);
        self.set(at.wrapping_add(1), high);
    }

    /// Writes bytes from an address up; after 0FFFFH comes 0.
    pub fn set_bytes(&mut self, at: u16, bytes: &[u8])
        ensures { untagged_memory self.new ≡ put_bytes (untagged_memory self.old) at bytes.now }
    {
        let mut place = at;
        for byte in bytes {
            self.set(place, *byte);
            place = place.wrapping_add(1);
        }
    }

    /// Writes blocks in order.
    pub fn set_blocks(&mut self, blocks: &[Block])
        ensures { untagged_memory self.new ≡ put_blocks (untagged_memory self.old) blocks.now }
    {
        for block in blocks {
            self.set_bytes(block.at, block.bytes.as_slice());
        }
    }
}

// The system may read and write every cell.
impl View for Memory {
    ghost use Rattle.std.specs.Prelude.{Some, true};
    ghost use Rattle.cpu80.specs.ProcessorState.{untagged_memory};

    ghost byte_at = { λ m a. Some (untagged_memory m a) };

    ghost is_writable = { λ m a. true };

    fn byte(&self, at: u16) -> Option<u8> {
        Some(self.get(at))
    }

    fn writable(&self, _at: u16) -> bool {
        true
    }
}
