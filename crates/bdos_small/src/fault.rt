// Why bytes are not read as a disk.
use std::alloc::AllocError;

/// Why bytes are not read as a disk.
#[derive(Clone, Copy)]
pub enum DiskFault {
    /// They are no disk file: the byte at this place, counted from 0, cannot go on, or they end early and this is their number.
    Bad(u32),
    /// Memory ran out.
    Memory,
}

impl From<AllocError> for DiskFault {
    ghost use Rattle.std.specs.Prelude.{◌≡◌};
    ghost use Rattle.bdos_small.specs.declared.fault.DiskFault.TheVariants.{Memory};

    ghost from_gives = { λ _ fault. fault ≡ Memory };

    fn from(_error: AllocError) -> DiskFault {
        DiskFault::Memory
    }
}
