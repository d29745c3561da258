// A file read in pieces.
ghost use Rattle.std.specs.Prelude.{◌≡◌, ◌^◌, ◌≤◌, OnOk};
ghost use Rattle.host.specs.Host.{SameFaults, Missing, OnlyReads, ReadFailed};
ghost use Rattle.host_files.specs.Transfer.{IsLonger, GivesFile};

use crate::PIECE;
use host::{Host, HostFault};
use std::alloc::AllocError;
use thiserror::Error;

/// Why a file was not read.
#[derive(Clone, Copy, Debug, Error)]
pub enum FileFault {
    /// There is no such file, or the host could not read it.
    #[error("the file cannot be read")]
    Failed,
    /// The file has more bytes than the limit.
    #[error("the file is too long")]
    TooLong,
    /// Memory ran out, the caller's or the host's own.
    #[error("out of memory")]
    Memory,
}

impl From<HostFault> for FileFault {
    ghost use Rattle.host_files.specs.Transfer.{read_fault_of};

    ghost from_gives = { λ host_fault fault. fault ≡ read_fault_of host_fault };

    fn from(fault: HostFault) -> FileFault {
        match fault {
            HostFault::Failed => FileFault::Failed,
            HostFault::Memory => FileFault::Memory,
        }
    }
}

impl From<AllocError> for FileFault {
    ghost use Rattle.host_files.specs.declared.read.FileFault.TheVariants.{Memory};

    ghost from_gives = { λ _ fault. fault ≡ Memory };

    fn from(_error: AllocError) -> FileFault {
        FileFault::Memory
    }
}

/// What takes the bytes of a file, one piece after the other.
pub trait Sink {
    ghost use Rattle.std.specs.Prelude.{ℕ, List, ◌++◌, OnOk};

    // It has been given these bytes, however they were cut.
    ghost has: { Self → List ℕ → Type 0 };

    /// Takes the next bytes. After want of memory it is of no use.
    fn receive(&mut self, piece: &[u8]) -> Result<(), AllocError>
        ensures { OnOk result ((before : List ℕ) → has self.old before → has self.new (before ++ piece.now)) };
}

impl Sink for Vec<u8> {
    ghost use Rattle.std.specs.Prelude.{◌≡◌};

    ghost has = { λ v bytes. v.items ≡ bytes };

    fn receive(&mut self, piece: &[u8]) -> Result<(), AllocError> {
        self.extend_from_slice(piece)
    }
}

/// Reads a whole file of at most `limit` bytes (2,147,483,648 at most) into what takes them, in pieces of up to 4,096 bytes.
pub fn read_into<H: Host, S: Sink>(
    host: &mut H,
    name: &str,
    limit: usize,
    sink: &mut S,
) -> Result<(), FileFault>
    requires { limit ≤ 2 ^ 31 }
    ensures only { OnlyReads (H.state host.old) (H.state host.new) }
    ensures ok { OnOk result (GivesFile S.has ((H.state host.old).file name.now) limit sink.old sink.new) }
    ensures counted { OnOk result (SameFaults (H.state host.old) (H.state host.new)) }
    ensures too_long { result ≡ Err FileFault.TooLong
        → IsLonger ((H.state host.old).file name.now) limit
        × SameFaults (H.state host.old) (H.state host.new) }
    ensures failed { result ≡ Err FileFault.Failed
        → ReadFailed (H.state host.old) (H.state host.new) name.now }
    ensures missing { (H.state host.old).file name.now ≡ Missing
        → (H.state host.new).read_faults ≡ (H.state host.old).read_faults }
{
    let mut piece = [0; PIECE];
    let mut at = 0;
    while at <= limit {
        let count = host.read(name, at as u64, &mut piece)?;
        if count == 0 {
            return Ok(());
        }
        sink.receive(&piece[..count])?;
        at += count;
    }
    Err(FileFault::TooLong)
}
