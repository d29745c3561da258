// The host that the program runs over: files of the system and the standard output. No clause can say what these hold,
// so what this file does with them is trusted, and tried by a test.
ghost use Rattle.std.specs.Prelude.{◌≡◌, ◌<◌, ◌≤◌, length, Ok, IfOk, IfErr, ◌↔◌, IsErr, IsErrAnd, MatchResult};
ghost use Rattle.std.specs.IoError.{error_kind};
ghost use Rattle.host.specs.Host.{failures_after, wants_after};
ghost use Rattle.host.specs.RealHost.{untold};

use crate::{Host, HostFault};
use std::fs::{File, OpenOptions};
use std::io;
use std::io::{ErrorKind, Read, Seek, SeekFrom, Write};
use std::rt::Files;

/// Files by their paths, and the standard output. It counts its calls that failed, and those that wanted memory.
#[derive(Drop)]
pub struct RealHost<R> {
    rt: R,
    read_faults: u64,
    write_faults: u64,
    memory_faults: u64,
}

impl<R: Files + Print + Drop> RealHost<R> {
    /// A host that has met no fault.
    pub fn new(rt: R) -> RealHost<R>
        ensures { ⟦<RealHost<R> as Host>⟧.state result ≡ untold 0 0 0 }
    {
        RealHost {
            rt,
            read_faults: 0,
            write_faults: 0,
            memory_faults: 0,
        }
    }
}

/// The answer of a call of the system. Its fault is counted: as a failure, or as a want of memory.
fn counted<T>(done: io::Result<T>, failures: &mut u64, wants: &mut u64) -> Result<T, HostFault>
    ensures answer { MatchResult done (λ answer. result ≡ Ok answer) (λ _. IsErr result) }
    ensures fault { IfErr done (λ error. (result ≡ Err HostFault.Memory)
        ↔ (error_kind error ≡ ErrorKind.OutOfMemory)) }
    ensures failed { failures.new ≡ failures_after result failures.old }
    ensures wanted { wants.new ≡ wants_after result wants.old }
{
    match done {
        Ok(answer) => Ok(answer),
        Err(error) => {
            if error.kind() == ErrorKind::OutOfMemory {
                *wants = wants.saturating_add(1);
                Err(HostFault::Memory)
            } else {
                *failures = failures.saturating_add(1);
                Err(HostFault::Failed)
            }
        }
    }
}

/// A write that took nothing is a fault.
fn some_taken(taken: io::Result<usize>) -> io::Result<usize>
    ensures some { IfOk result (λ k. (0 < k) × (taken ≡ Ok k)) }
    ensures kept { IfOk taken (λ k. 0 < k → result ≡ Ok k) }
    ensures fault { IfErr taken (λ error. result ≡ Err error) }
    ensures none { taken ≡ Ok 0 → IsErrAnd result (λ error. error_kind error ≡ ErrorKind.WriteZero) }
{
    match taken {
        Ok(0) => Err(ErrorKind::WriteZero.into()),
        other => other,
    }
}

fn read_file<R: Files>(rt: &R, name: &str, at: u64, into: &mut [u8]) -> io::Result<usize>
    ensures { IfOk result (λ k. k ≤ length into.new) }
{
    let mut file = File::open(rt, name)?;
    file.seek(SeekFrom::Start(at))?;
    file.read(into)
}

fn empty_file<R: Files>(rt: &R, name: &str) -> io::Result<()> {
    File::create(rt, name)?;
    Ok(())
}

fn append_file<R: Files>(rt: &R, name: &str, bytes: &[u8]) -> io::Result<usize>
    ensures some { IfOk result (λ k. 0 < k) }
    ensures bound { IfOk result (λ k. k ≤ length bytes.now) }
{
    let mut file = OpenOptions::new().append(true).create(true).open(rt, name)?;
    some_taken(file.write(bytes))
}

impl<R: Files + Print + Drop> Host for RealHost<R> {
    ghost state = { λ host. untold host.read_faults host.write_faults host.memory_faults };

    fn read(&mut self, name: &str, at: u64, into: &mut [u8]) -> Result<usize, HostFault> {
        counted(
            read_file(&self.rt, name, at, into),
            &mut self.read_faults,
            &mut self.memory_faults,
        )
    }

    fn begin(&mut self, name: &str) -> Result<(), HostFault> {
        counted(
            empty_file(&self.rt, name),
            &mut self.write_faults,
            &mut self.memory_faults,
        )
    }

    fn append(&mut self, name: &str, bytes: &[u8]) -> Result<usize, HostFault> {
        counted(
            append_file(&self.rt, name, bytes),
            &mut self.write_faults,
            &mut self.memory_faults,
        )
    }

    fn say(&mut self, bytes: &[u8]) -> Result<usize, HostFault> {
        counted(
            some_taken(self.rt.write_some(bytes)),
            &mut self.write_faults,
            &mut self.memory_faults,
        )
    }
}
