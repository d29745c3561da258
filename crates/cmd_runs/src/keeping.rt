// The disk that is left after a run.
ghost use Rattle.std.specs.Prelude.{◌≡◌, IfErr, OnOk, option_copied};
ghost use Rattle.cmd_runs.specs.Keeping.{kept_disk_name, KeepsDisk, DiskKeepStops};

use bdos_small::Disk;
use cmd_common::Stop;
use emulators::{RunEnd, Why};
use host::{Host, HostFault};
use host_files::write_bytes;
use std::alloc::Global;

/// The name of the file for the disk after a run that came to this, if it is written.
pub fn kept_disk_name<'a>(name: Option<&'a str>, end: RunEnd) -> Option<&'a str>
    ensures { option_copied result ≡ kept_disk_name (option_copied name.entry) end }
{
    match end {
        RunEnd::Ended | RunEnd::StepLimit | RunEnd::InputEnded | RunEnd::Stopped(Why::Left(_, _)) =>
            name,
        RunEnd::Stopped(Why::NoInstruction(_) | Why::StackSegment(_) | Why::OddCall(_, _))
        | RunEnd::NoDrive(_) => None,
    }
}

/// Writes the disk's file under a name, if there is one. All memory is taken before the file is begun.
pub fn keep_disk<H: Host>(
    alloc: Global,
    host: &mut H,
    name: Option<&str>,
    disk: &Disk,
) -> Result<(), Stop>
    ensures kept { OnOk result (KeepsDisk (option_copied name.entry) disk.now (H.state host.old) (H.state host.new)) }
    ensures stopped { IfErr result (DiskKeepStops (option_copied name.entry) disk.now (H.state host.old) (H.state host.new)) }
{
    let Some(name) = name else {
        return Ok(());
    };
    let bytes = disk.write(alloc)?;
    match write_bytes(host, name, bytes.as_slice()) {
        Ok(()) => Ok(()),
        Err(HostFault::Failed) => Err(Stop::WriteFailed),
        Err(HostFault::Memory) => Err(Stop::OutOfMemory),
    }
}
