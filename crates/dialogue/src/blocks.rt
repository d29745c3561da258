// Blocks of memory: what a call reads, and what a reply writes.
ghost use Rattle.std.specs.Prelude.{◌≡◌};

use std::marker::Model;

/// Bytes of memory, from an address up.
pub struct Bytes {
    items: Vec<u8>,
}

// Written out, so that letting one go is one call wherever it is done.
impl Drop for Bytes {
    fn drop(self) {
        let Bytes { items: _items } = self;
    }
}

impl Model for Bytes {
    ghost use Rattle.std.specs.Prelude.{ℕ, List};

    ghost Value = { List ℕ };

    ghost view = { λ b. b.items.items };
}

impl Bytes {
    /// The bytes of a vector.
    pub fn from_vec(bytes: Vec<u8>) -> Bytes
        ensures { result ≡ bytes.items }
    {
        Bytes { items: bytes }
    }

    /// The bytes, in the order of their addresses.
    pub fn as_slice(&self) -> &[u8]
        ensures { result.now ≡ self.now }
    {
        self.items.as_slice()
    }
}

/// The bytes of memory from an address up.
pub struct Block {
    pub at: u16,
    pub bytes: Bytes,
}

// Written out, so that letting one go is one call wherever it is done.
impl Drop for Block {
    fn drop(self) {
        let Block {
            at: _at,
            bytes: _bytes,
        } = self;
    }
}

/// The blocks of a request or a reply, in the call table's order.
pub struct Blocks {
    items: Vec<Block>,
}

// Written out, so that letting one go is one call wherever it is done.
impl Drop for Blocks {
    fn drop(self) {
        let Blocks { items: _items } = self;
    }
}

impl Model for Blocks {
    ghost use Rattle.std.specs.Prelude.{List};
    ghost use Rattle.dialogue.specs.declared.blocks.Block.{Block};

    ghost Value = { List Block };

    ghost view = { λ b. b.items.items };
}

impl Blocks {
    /// The blocks of a vector.
    pub fn from_vec(blocks: Vec<Block>) -> Blocks
        ensures { result ≡ blocks.items }
    {
        Blocks { items: blocks }
    }

    /// The blocks in order.
    pub fn as_slice(&self) -> &[Block]
        ensures { result.now ≡ self.now }
    {
        self.items.as_slice()
    }
}
