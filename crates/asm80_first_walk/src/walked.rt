//! What the walk gives.

ghost use Rattle.std.specs.Prelude.{◌≡◌};
ghost use Rattle.asm80_first_walk.specs.declared.walked.AsmFault.TheVariants as fault;

use crate::Names;
use asm80_source_def::{AsmRule, Meaning, Operation};
use std::alloc::{AllocError, AllocFailed};
use thiserror::Error;

/// A statement that is taken.
#[derive(Clone, Copy)]
pub struct Taken {
    /// Its index among the statements.
    pub statement: usize,
    /// The address of its first byte.
    pub at: u16,
    pub operation: Option<Operation>,
    /// What its one operand stands for, as that of a directive. Its value is None where there is no operand or more than one,
    /// where it is a string, and where it cannot be computed: it has a register, a name without a value above, or a division by 0.
    pub meaning: Meaning,
}

/// The statements that are taken, in their order, and all names.
#[derive(Drop)]
pub struct Walked {
    pub rows: Vec<Taken>,
    pub names: Names,
}

/// Why statements are not assembled.
#[derive(Clone, Copy, Debug, PartialEq, Eq, Drop, Error)]
pub enum AsmFault {
    /// The statement on the line of this number, counted from 1, breaks the rule; 0 where no statement does.
    #[error("source line {0}: {1:?}")]
    Refused(u32, AsmRule),
    #[error("out of memory")]
    Memory,
}

impl From<AllocError> for AsmFault {
    ghost from_gives = { λ _ e. e ≡ fault.Memory };

    fn from(_e: AllocError) -> AsmFault {
        AsmFault::Memory
    }
}

impl<T: Drop> From<AllocFailed<T>> for AsmFault {
    ghost from_gives = { λ _ e. e ≡ fault.Memory };

    fn from(_e: AllocFailed<T>) -> AsmFault {
        AsmFault::Memory
    }
}
