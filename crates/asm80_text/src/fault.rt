//! Why there is no token, no expression and no statement.

ghost use Rattle.std.specs.Prelude.{◌≡◌};
ghost use Rattle.asm80_text.specs.declared.fault.ScanFault.TheVariants as scan;
ghost use Rattle.asm80_text.specs.declared.fault.ParseFault.TheVariants as parse;

use asm80_types::LineRule;
use std::alloc::{AllocError, AllocFailed};

/// Why there is no token.
#[derive(Clone, Copy, Drop)]
pub enum ScanFault {
    /// A rule that the bytes break.
    Rule(LineRule),
    Memory,
}

/// Why there is no expression or no statement.
#[derive(Clone, Copy, Drop)]
pub enum ParseFault {
    /// The tokens form none.
    Malformed,
    Memory,
}

impl From<AllocError> for ScanFault {
    ghost from_gives = { λ _ e. e ≡ scan.Memory };

    fn from(_e: AllocError) -> ScanFault {
        ScanFault::Memory
    }
}

impl From<AllocError> for ParseFault {
    ghost from_gives = { λ _ e. e ≡ parse.Memory };

    fn from(_e: AllocError) -> ParseFault {
        ParseFault::Memory
    }
}

impl<T: Drop> From<AllocFailed<T>> for ParseFault {
    ghost from_gives = { λ _ e. e ≡ parse.Memory };

    fn from(_e: AllocFailed<T>) -> ParseFault {
        ParseFault::Memory
    }
}
