// Why a run is cut off.
use host::HostFault;
use std::alloc::AllocError;

/// Why a run is cut off.
#[derive(Clone, Copy)]
pub enum TalkFault {
    /// A line was not said whole, for this fault of the host.
    Unsaid(HostFault),
    /// Memory ran out, and no call of the host failed.
    Memory,
}

impl From<HostFault> for TalkFault {
    ghost use Rattle.std.specs.Prelude.{◌≡◌};
    ghost use Rattle.emulator_loop.specs.declared.fault.TalkFault.TheVariants.{Unsaid};

    ghost from_gives = { λ host_fault fault. fault ≡ Unsaid host_fault };

    fn from(fault: HostFault) -> TalkFault {
        TalkFault::Unsaid(fault)
    }
}

impl From<AllocError> for TalkFault {
    ghost use Rattle.std.specs.Prelude.{◌≡◌};
    ghost use Rattle.emulator_loop.specs.declared.fault.TalkFault.TheVariants.{Memory};

    ghost from_gives = { λ _ fault. fault ≡ Memory };

    fn from(_error: AllocError) -> TalkFault {
        TalkFault::Memory
    }
}
