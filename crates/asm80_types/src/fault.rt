//! Why a source is refused.

ghost use Rattle.std.specs.Prelude.{◌≡◌};
ghost use Rattle.asm80_types.specs.declared.fault.ReadFault.TheVariants as read;

use std::alloc::{AllocError, AllocFailed};
use thiserror::Error;

/// A rule of the line grammar.
#[derive(Clone, Copy, Debug, PartialEq, Eq)]
pub enum LineRule {
    /// A byte that may not stand in a source, or a tab within a string.
    L1,
    /// A number with a wrong digit, or above 65,535.
    L2,
    /// A string that is empty, not ended on its line, or above 64 characters.
    L3,
    /// A name above 16 characters, or a reserved name as a label.
    L4,
    /// The names and signs of a statement form no statement; among them an unknown operation, and an operation's name in an
    /// operand.
    L5,
    /// More than 16 parentheses are open at some point of a statement.
    L6,
    /// A line above 255 bytes.
    L7,
    /// Line 32,769 exists.
    L8,
}

/// Why a source is not read.
#[derive(Clone, Copy, Debug, PartialEq, Eq, Drop, Error)]
pub enum ReadFault {
    /// The line of this number, counted from 1, is the first that breaks a rule.
    #[error("source line {0}: {1:?}")]
    Syntax(u32, LineRule),
    #[error("out of memory")]
    Memory,
}

impl From<AllocError> for ReadFault {
    ghost from_gives = { λ _ e. e ≡ read.Memory };

    fn from(_e: AllocError) -> ReadFault {
        ReadFault::Memory
    }
}

impl<T: Drop> From<AllocFailed<T>> for ReadFault {
    ghost from_gives = { λ _ e. e ≡ read.Memory };

    fn from(_e: AllocFailed<T>) -> ReadFault {
        ReadFault::Memory
    }
}
