// The outside as the program sees it: files by name, and what is said. The trait `Host`, a host in memory and a host of real files.
//
// Proved: the clauses of `Host` say what each call may change, when it may fail, and what it read or wrote where the host tells it; both
// hosts meet them. `MemHost` is proved exactly: which calls fail (`fail_at`), how many bytes each call takes, and what is held afterwards.
// Of `RealHost` it is proved that each call returns, that each fault is counted as what it is, a failure or a want of memory
// (`CountsAlone`), and that no write answers 0; what the real files hold it does not tell.
#![tactic(auto)]

ghost use Rattle.std.specs.Prelude.{◌≡◌, ◌<◌, ◌≤◌, [], take, length, IfOk, IfErr, OnOk, OnErr};

mod mem;
mod real;

pub use mem::MemHost;
pub use real::RealHost;
use std::alloc::AllocError;
use thiserror::Error;

/// Why a call of a host gave up. Every file and what was said are then as before the call. Each is counted as what it is alone.
#[derive(Clone, Copy, Debug, PartialEq, Eq, Error)]
pub enum HostFault {
    /// The call could not be done.
    #[error("the host failed")]
    Failed,
    /// The host's own memory ran out.
    #[error("out of memory")]
    Memory,
}

impl From<AllocError> for HostFault {
    ghost use Rattle.host.specs.declared.HostFault.TheVariants.{Memory};

    ghost from_gives = { λ _ fault. fault ≡ Memory };

    fn from(_error: AllocError) -> HostFault {
        HostFault::Memory
    }
}

/// Files by name, and a place to say bytes. A host need not tell what its files hold.
pub trait Host {
    ghost use Rattle.host.specs.Host.{HostState, HasRisen, Missing, ReadsFile, SameFaults, IsUndisturbed, OnlyReads, OnlyWrites, OnlySays, Rewrites, Appends, Says, ReadFailed, MemoryWanted, WriteFault, CountsAlone};

    // What the host tells, and its counts of faults: those of reads and of writes that failed, and of all calls that wanted memory.
    ghost state: { Self → HostState };

    /// Reads bytes of a file from the offset `at`, which is in bytes. The bytes of `into` past those read are left open.
    fn read(&mut self, name: &str, at: u64, into: &mut [u8]) -> Result<usize, HostFault>
        requires { 0 < length into.old }
        ensures only { OnlyReads (state self.old) (state self.new) }
        ensures bound { IfOk result (λ k. k ≤ length into.new) }
        ensures bytes { IfOk result (λ k. ReadsFile ((state self.old).file name.now) at k into.new) }
        ensures counted { OnOk result (SameFaults (state self.old) (state self.new)) }
        ensures failed { result ≡ Err HostFault.Failed
            → ReadFailed (state self.old) (state self.new) name.now }
        ensures memory { result ≡ Err HostFault.Memory → MemoryWanted (state self.old) (state self.new) }
        ensures alone { IfErr result (CountsAlone (state self.old) (state self.new)) }
        ensures missing { (state self.old).file name.now ≡ Missing
            → (state self.new).read_faults ≡ (state self.old).read_faults };

    /// Makes a file empty, and makes one where there is none.
    fn begin(&mut self, name: &str) -> Result<(), HostFault>
        ensures only { OnlyWrites (state self.old) (state self.new) name.now }
        ensures empty { OnOk result (Rewrites (state self.old) (state self.new) name.now []) }
        ensures counted { OnOk result (SameFaults (state self.old) (state self.new)) }
        ensures fault { OnErr result (IsUndisturbed (state self.old) (state self.new)) }
        ensures failed { IfErr result (WriteFault (state self.old) (state self.new)) }
        ensures alone { IfErr result (CountsAlone (state self.old) (state self.new)) };

    /// Adds some of the first of the bytes at the end of a file, and answers how many.
    fn append(&mut self, name: &str, bytes: &[u8]) -> Result<usize, HostFault>
        requires { 0 < length bytes.now }
        ensures only { OnlyWrites (state self.old) (state self.new) name.now }
        ensures some { IfOk result (λ k. 0 < k) }
        ensures bound { IfOk result (λ k. k ≤ length bytes.now) }
        ensures bytes { IfOk result
            (λ k. Appends (state self.old) (state self.new) name.now (take k bytes.now)) }
        ensures counted { OnOk result (SameFaults (state self.old) (state self.new)) }
        ensures fault { OnErr result (IsUndisturbed (state self.old) (state self.new)) }
        ensures failed { IfErr result (WriteFault (state self.old) (state self.new)) }
        ensures alone { IfErr result (CountsAlone (state self.old) (state self.new)) };

    /// Says some of the first of the bytes, and answers how many.
    fn say(&mut self, bytes: &[u8]) -> Result<usize, HostFault>
        requires { 0 < length bytes.now }
        ensures only { OnlySays (state self.old) (state self.new) }
        ensures some { IfOk result (λ k. 0 < k) }
        ensures bound { IfOk result (λ k. k ≤ length bytes.now) }
        ensures bytes { IfOk result (λ k. Says (state self.old) (state self.new) (take k bytes.now)) }
        ensures counted { OnOk result (SameFaults (state self.old) (state self.new)) }
        ensures fault { OnErr result (IsUndisturbed (state self.old) (state self.new)) }
        ensures failed { IfErr result (WriteFault (state self.old) (state self.new)) }
        ensures alone { IfErr result (CountsAlone (state self.old) (state self.new)) };
}
