// The 64K of memory.
ghost use Rattle.std.specs.Prelude.{◌≡◌, length};

use dialogue::{Block, View, choice_byte, join};

/// 65,536 bytes.
#[derive(Drop)]
pub struct Memory {
    pub bytes: Vec<u8>,
    ghost full: { length bytes.items ≡ 0x10000 },
}

impl Memory {
    ghost use Rattle.cpu86.specs.ProcessorState.{memory_of_86};
    ghost use Rattle.cpu86.specs.System.{six_at};
    ghost use Rattle.dialogue.specs.ByteMemory.{put, put_bytes, put_blocks, word_at};
    ghost use Rattle.cpu86.specs.State.{put_word};
    ghost use Rattle.cpu86.specs.Call.{spoiled};

    /// The byte at an address.
    pub fn get(&self, at: u16) -> u8
        ensures { result ≡ memory_of_86 self.now at }
    {
        self.bytes[usize::from(at)]
    }

    /// Writes the byte at an address.
    pub fn set(&mut self, at: u16, byte: u8)
        ensures { memory_of_86 self.new ≡ put (memory_of_86 self.old) at byte }
    {
        self.bytes[usize::from(at)] = byte;
    }

    /// The word at an address, low byte first; the second byte of one at 0FFFFH is at 0.
    pub fn word(&self, at: u16) -> u16
        ensures { result ≡ word_at (memory_of_86 self.now) at }
    {
        join(self.get(at.wrapping_add(1)), self.get(at))
    }

    /// Writes the word at an address, low byte first.
    pub fn set_word(&mut self, at: u16, word: u16)
        ensures { memory_of_86 self.new ≡ put_word (memory_of_86 self.old) at word }
    {
        self.set(at, (word % 256) as u8);
        self.set(at.wrapping_add(1), (word / 256) as u8);
    }

    /// Writes bytes from an address up; after 0FFFFH comes 0.
    pub fn set_bytes(&mut self, at: u16, bytes: &[u8])
        ensures { memory_of_86 self.new ≡ put_bytes (memory_of_86 self.old) at bytes.now }
    {
        let mut place = at;
        for byte in bytes {
            self.set(place, *byte);
            place = place.wrapping_add(1);
        }
    }

    /// Writes blocks in order.
    pub fn set_blocks(&mut self, blocks: &[Block])
        ensures { memory_of_86 self.new ≡ put_blocks (memory_of_86 self.old) blocks.now }
    {
        for block in blocks {
            self.set_bytes(block.at, block.bytes.as_slice());
        }
    }

    /// The six bytes from an address up; after 0FFFFH comes 0.
    pub fn six_at(&self, at: u16) -> [u8; 6]
        ensures { result ≡ six_at (memory_of_86 self.now) at }
    {
        [
            self.get(at),
            self.get(at.wrapping_add(1)),
            self.get(at.wrapping_add(2)),
            self.get(at.wrapping_add(3)),
            self.get(at.wrapping_add(4)),
            self.get(at.wrapping_add(5)),
        ]
    }

    /// Writes bits 0 to 47 of a choice into the six bytes below a stack pointer.
    pub fn spoil(&mut self, sp: u16, choice: u128)
        ensures { memory_of_86 self.new ≡ spoiled (memory_of_86 self.old) sp choice }
    {
        let bytes = [
            choice_byte(choice, 0),
            choice_byte(choice, 8),
            choice_byte(choice, 16),
            choice_byte(choice, 24),
            choice_byte(choice, 32),
            choice_byte(choice, 40),
        ];
        self.set_bytes(sp.wrapping_sub(6), &bytes);
    }
}

// The system may read and write every cell.
impl View for Memory {
    ghost use Rattle.std.specs.Prelude.{Some, true};
    ghost use Rattle.cpu86.specs.ProcessorState.{memory_of_86};

    ghost byte_at = { λ m a. Some (memory_of_86 m a) };

    ghost is_writable = { λ m a. true };

    fn byte(&self, at: u16) -> Option<u8> {
        Some(self.get(at))
    }

    fn writable(&self, _at: u16) -> bool {
        true
    }
}
