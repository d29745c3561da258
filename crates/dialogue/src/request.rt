// Requests, replies and events (CP/M 2.2 Operating System Manual, "BDOS functions").
ghost use Rattle.std.specs.Prelude.{◌≡◌, ℕ, Bool, Option};

use crate::blocks::Blocks;

/// The argument of a call: none, the byte in E, or the word in DE.
#[derive(Clone, Copy, PartialEq, Eq)]
pub enum ArgWord {
    None,
    Byte(u8),
    Word(u16),
}

/// Cells of memory: `len` cells from `at` up.
#[derive(Clone, Copy, PartialEq, Eq)]
pub struct Range {
    pub at: u16,
    pub len: u16,
}

/// A request without its memory: the function's number, its argument, and the ranges that it reads and may write, in the
/// call table's order and with None after them.
#[derive(Clone, Copy)]
pub struct Shape {
    pub function: u8,
    pub arg: ArgWord,
    pub reads: [Option<Range>; 3],
    pub writes: [Option<Range>; 2],
}

/// A call of the system, with the memory that it reads: a block for each range.
#[derive(Drop)]
pub struct Request {
    pub shape: Shape,
    pub blocks: Blocks,
}

/// What the system answers, and the blocks that it writes. The answer is 0 where the function has none.
#[derive(Drop)]
pub struct Reply {
    pub answer: u16,
    pub writes: Blocks,
}

/// What a run says: a call of the system, a byte asked of a port, a byte sent to a port (the port, then the byte), or that the
/// program has ended.
#[derive(Drop)]
pub enum Event {
    Call(Request),
    In(u8),
    Out(u8, u8),
    End,
}

/// The memory that a call sees: the byte of a cell that it may read, and whether it may write a cell.
pub trait View {
    ghost byte_at: { Self → ℕ → Option ℕ };

    ghost is_writable: { Self → ℕ → Bool };

    /// The byte of a cell, if the cell can be read.
    fn byte(&self, at: u16) -> Option<u8>
        ensures { result ≡ byte_at self.now at };

    /// Whether a cell can be written.
    fn writable(&self, at: u16) -> bool
        ensures { result ≡ is_writable self.now at };
}
