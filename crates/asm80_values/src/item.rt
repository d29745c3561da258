// Statements that fill cells.
ghost use Rattle.std.specs.Prelude.{◌≡◌, ◌+◌, ◌%◌};

use crate::Form;

/// A statement that is an instruction or data.
#[derive(Drop)]
pub struct Item {
    /// The number of its line, counted from 1.
    pub line: u32,
    /// The address of its first byte.
    pub at: u16,
    /// The cells that it fills, from that address up, modulo 65,536.
    pub size: usize,
    pub form: Form,
}

/// The address of a cell, so many from another, modulo 65,536.
pub(crate) fn address_of_cell(at: u16, k: usize) -> u16
    ensures { result ≡ (at + k) % 0x10000 }
{
    at.wrapping_add((k % 0x1_0000) as u16)
}
