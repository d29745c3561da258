// Why a text has no image.
ghost use Rattle.std.specs.Prelude.{◌≡◌};
ghost use Rattle.asm86.specs.declared.fault.ImageFault.TheVariants.{Memory};

use asm86_line_types::TextRule;
use std::alloc::{AllocError, AllocFailed};
use thiserror::Error;

/// Why a text whose statements stand in order has no image.
#[derive(Clone, Copy, Debug, PartialEq, Eq, Drop, Error)]
pub enum ImageFault {
    /// The line of this number defines a label again (M3), or uses one that the text does not define (M4).
    #[error("text line {0}: {1:?}")]
    Line(u32, TextRule),
    /// The code has this number of bytes, above 65,535.
    #[error("the code has {0} bytes")]
    CodeTooLarge(u32),
    /// The short jump of the line of this number does not reach.
    #[error("text line {0}: short")]
    Short(u32),
    #[error("out of memory")]
    Memory,
}

impl From<AllocError> for ImageFault {
    ghost from_gives = { λ _ fault. fault ≡ Memory };

    fn from(_error: AllocError) -> ImageFault {
        ImageFault::Memory
    }
}

impl<T: Drop> From<AllocFailed<T>> for ImageFault {
    ghost from_gives = { λ _ fault. fault ≡ Memory };

    fn from(_error: AllocFailed<T>) -> ImageFault {
        ImageFault::Memory
    }
}
