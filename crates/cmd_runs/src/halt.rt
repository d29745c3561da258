// Why a command's run did not come to status 0, and whether a line says so.
ghost use Rattle.std.specs.Prelude.{◌≡◌};

use cmd_common::Stop;
use emulators::TalkFault;
use host::HostFault;
use std::alloc::AllocError;

/// Why a command ends early.
#[derive(Clone, Copy)]
pub enum Halt {
    /// The line of the stop is said.
    By(Stop),
    /// A line of the run was not said whole, for this fault of the host, and nothing more is.
    Unsaid(HostFault),
}

impl From<Stop> for Halt {
    ghost use Rattle.cmd_runs.specs.declared.halt.Halt.TheVariants.{By};

    ghost from_gives = { λ stop halt. halt ≡ By stop };

    fn from(stop: Stop) -> Halt {
        Halt::By(stop)
    }
}

impl From<TalkFault> for Halt {
    ghost use Rattle.cmd_runs.specs.Ends.{halt_of_talk};

    ghost from_gives = { λ fault halt. halt ≡ halt_of_talk fault };

    fn from(fault: TalkFault) -> Halt {
        match fault {
            TalkFault::Unsaid(fault) => Halt::Unsaid(fault),
            TalkFault::Memory => Halt::By(Stop::OutOfMemory),
        }
    }
}

impl From<AllocError> for Halt {
    ghost use Rattle.cmd_runs.specs.declared.halt.Halt.TheVariants.{By};
    ghost use Rattle.cmd_common.specs.declared.stop.Stop.TheVariants.{OutOfMemory};

    ghost from_gives = { λ _ halt. halt ≡ By OutOfMemory };

    fn from(_error: AllocError) -> Halt {
        Halt::By(Stop::OutOfMemory)
    }
}
