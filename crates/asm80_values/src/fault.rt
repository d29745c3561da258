// Why operands make nothing.
ghost use Rattle.std.specs.Prelude.{◌≡◌};

use asm80_source_def::AsmRule;
use std::alloc::AllocError;

/// Why operands are refused.
#[derive(Clone, Copy, Drop)]
pub enum FormFault {
    /// The first rule that they break, in the order V5, V1, V4, V3.
    Rule(AsmRule),
    Memory,
}

impl From<AllocError> for FormFault {
    ghost use Rattle.asm80_values.specs.declared.fault.FormFault.TheVariants.{Memory};

    ghost from_gives = { λ _ fault. fault ≡ Memory };

    fn from(_error: AllocError) -> FormFault {
        FormFault::Memory
    }
}
