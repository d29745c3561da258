// Why a text is not read.
ghost use Rattle.std.specs.Prelude.{◌≡◌};
ghost use Rattle.asm86.specs.declared.text_fault.TextFault.TheVariants as faults;

use asm86_line_types::TextRule;
use std::alloc::{AllocError, AllocFailed};
use thiserror::Error;

/// Why a text is not read.
#[derive(Clone, Copy, Debug, PartialEq, Eq, Drop, Error)]
pub enum TextFault {
    /// The line of this number, counted from 1, is the first that breaks M1, M2 or M5; or 0 and M6, where none does and no
    /// END comes.
    #[error("text line {0}: {1:?}")]
    Line(u32, TextRule),
    /// An allocation failed; or the text has a statement of number 2^28 or a line of number 2^32, for which there is no room
    /// whatever memory there is.
    #[error("out of memory")]
    Memory,
}

impl From<AllocError> for TextFault {
    ghost from_gives = { λ _ e. e ≡ faults.Memory };

    fn from(_e: AllocError) -> TextFault {
        TextFault::Memory
    }
}

impl<T: Drop> From<AllocFailed<T>> for TextFault {
    ghost from_gives = { λ _ e. e ≡ faults.Memory };

    fn from(_e: AllocFailed<T>) -> TextFault {
        TextFault::Memory
    }
}
