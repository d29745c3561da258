//! Why a line is not read.

ghost use Rattle.std.specs.Prelude.{◌≡◌};
ghost use Rattle.asm86_line_reader.specs.declared.fault.LineFault.TheVariants as faults;

use asm86_line_types::TextRule;
use std::alloc::{AllocError, AllocFailed};

/// Why a line is not read.
#[derive(Clone, Copy, Drop)]
pub enum LineFault {
    /// It breaks a rule: M1 or M2.
    Rule(TextRule),
    Memory,
}

impl From<TextRule> for LineFault {
    ghost from_gives = { λ rule e. e ≡ faults.Rule rule };

    fn from(rule: TextRule) -> LineFault {
        LineFault::Rule(rule)
    }
}

impl From<AllocError> for LineFault {
    ghost from_gives = { λ _ e. e ≡ faults.Memory };

    fn from(_e: AllocError) -> LineFault {
        LineFault::Memory
    }
}

impl<T: Drop> From<AllocFailed<T>> for LineFault {
    ghost from_gives = { λ _ e. e ≡ faults.Memory };

    fn from(_e: AllocFailed<T>) -> LineFault {
        LineFault::Memory
    }
}
