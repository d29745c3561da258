// Why bytes are not read as a command file.
ghost use Rattle.std.specs.Prelude.{◌≡◌};
ghost use Rattle.cmd_file.specs.declared.fault.CmdFault.TheVariants.{Memory};

use std::alloc::AllocError;
use thiserror::Error;

/// Why bytes are not read as a command file.
#[derive(Clone, Copy, Debug, Drop, Error)]
pub enum CmdFault {
    /// They are none: the byte at this place, counted from 0, cannot go on, or they end early and this is their number.
    #[error("byte {0}")]
    Bad(u32),
    #[error("out of memory")]
    Memory,
}

impl From<AllocError> for CmdFault {
    ghost from_gives = { λ _ fault. fault ≡ Memory };

    fn from(_error: AllocError) -> CmdFault {
        CmdFault::Memory
    }
}
