// The memory of a program, and the requests of its calls.
ghost use Rattle.std.specs.Prelude.{IfOk, IfSome};
ghost use Rattle.dialogue.specs.Lawful.{IsLawfulRequest};

use dialogue::{Block, Request, View, request_of, shape_of};
use std::alloc::{AllocError, Global};

/// 65,536 cells, all of which may be read and written.
#[derive(Drop)]
pub struct Memory {
    cells: Vec<u8>,
}

impl Memory {
    pub fn new(alloc: Global) -> Result<Memory, AllocError> {
        let cells = vec![in alloc; 0; 0x10000]?;
        Ok(Memory { cells })
    }

    /// Writes bytes from an address up, as far as there are cells.
    pub fn put(&mut self, at: usize, bytes: &[u8]) {
        let from = at.min(self.cells.len());
        let count = bytes.len().min(self.cells.len() - from);
        self.cells[from..from + count].copy_from_slice(&bytes[..count]);
    }

    /// Writes the blocks of a reply.
    pub fn put_blocks(&mut self, blocks: &[Block]) {
        for block in blocks {
            self.put(usize::from(block.at), block.bytes.as_slice());
        }
    }
}

impl View for Memory {
    ghost use Rattle.std.specs.Prelude.{true, slice_get};

    ghost byte_at = { λ m at. slice_get m.cells.items at };

    ghost is_writable = { λ _ _. true };

    fn byte(&self, at: u16) -> Option<u8> {
        self.cells.get(usize::from(at)).copied()
    }

    fn writable(&self, _at: u16) -> bool {
        true
    }
}

/// The request of a call with a function in C and a word in D and E, if it has a shape.
pub fn request(
    alloc: Global,
    memory: &Memory,
    function: u8,
    d: u8,
    e: u8,
    dma: u16,
) -> Result<Option<Request>, AllocError>
    ensures { IfOk result (λ r. IfSome r (λ q. IsLawfulRequest q)) }
{
    match shape_of(Some(function), Some(d), Some(e), dma, memory) {
        Ok(shape) => Ok(Some(request_of(alloc, shape, memory)?)),
        Err(_) => Ok(None),
    }
}
