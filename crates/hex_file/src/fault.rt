// Why bytes are not read as a HEX file.
ghost use Rattle.std.specs.Prelude.{◌≡◌};
ghost use Rattle.hex_file.specs.declared.fault.HexFault.TheVariants.{Memory};

use std::alloc::AllocError;
use thiserror::Error;

/// Why bytes are not read as a HEX file.
#[derive(Clone, Copy, Debug, Drop, Error)]
pub enum HexFault {
    /// They are none: this line, counted from 1, is the first that is neither a data line nor an end line, or all lines have data and
    /// this is their number plus 1.
    #[error("line {0}")]
    Bad(u32),
    #[error("out of memory")]
    Memory,
}

impl From<AllocError> for HexFault {
    ghost from_gives = { λ _ fault. fault ≡ Memory };

    fn from(_error: AllocError) -> HexFault {
        HexFault::Memory
    }
}
