// The files that a command reads.
ghost use Rattle.std.specs.Prelude.{◌^◌, ◌≤◌, IfOk, IfErr, OnOk, option_copied};
ghost use Rattle.host.specs.Host.{SameFaults, OnlyReads};
ghost use Rattle.host_files.specs.Transfer.{GivesFile};
ghost use Rattle.cmd_common.specs.Files.{IsWholeFile, IsInput, ReadStops, InputStops};

use crate::names::InputFile;
use crate::stop::Stop;
use host::Host;
use host_files::{FileFault, Sink, read_into};
use std::alloc::Global;

/// The most bytes of a text.
pub const TEXT_LIMIT: usize = 16_777_216;

/// The most bytes of a source.
pub const SOURCE_LIMIT: usize = 1_048_576;

/// The most bytes of a console's input, and of the bytes of ports.
const INPUT_LIMIT: usize = 1_048_576;

/// Reads a file of a command, by its name, into what takes its bytes.
pub fn read_named_into<H: Host, S: Sink>(
    host: &mut H,
    file: InputFile,
    name: &str,
    limit: usize,
    sink: &mut S,
) -> Result<(), Stop>
    requires { limit ≤ 2 ^ 31 }
    ensures only { OnlyReads (H.state host.old) (H.state host.new) }
    ensures read { OnOk result (GivesFile S.has ((H.state host.old).file name.now) limit sink.old sink.new) }
    ensures counted { OnOk result (SameFaults (H.state host.old) (H.state host.new)) }
    ensures stopped { IfErr result (ReadStops file name.now limit (H.state host.old) (H.state host.new)) }
{
    match read_into(host, name, limit, sink) {
        Ok(()) => Ok(()),
        Err(FileFault::Failed) => Err(Stop::ReadFailed(file)),
        Err(FileFault::TooLong) => Err(Stop::FileTooLong(file)),
        Err(FileFault::Memory) => Err(Stop::OutOfMemory),
    }
}

/// Reads a file of a command, by its name; its bytes are kept whole. The limit is at most 2^31.
pub fn read_named<H: Host>(
    alloc: Global,
    host: &mut H,
    file: InputFile,
    name: &str,
    limit: usize,
) -> Result<Vec<u8>, Stop>
    requires { limit ≤ 2 ^ 31 }
    ensures only { OnlyReads (H.state host.old) (H.state host.new) }
    ensures read { IfOk result (λ bytes. IsWholeFile (H.state host.old) name.now limit bytes.items) }
    ensures counted { OnOk result (SameFaults (H.state host.old) (H.state host.new)) }
    ensures stopped { IfErr result (ReadStops file name.now limit (H.state host.old) (H.state host.new)) }
{
    let mut bytes = Vec::new(alloc);
    read_named_into(host, file, name, limit, &mut bytes)?;
    Ok(bytes)
}

/// Reads a file that a run is given if its option stands: the console's input, the bytes of the ports.
pub fn read_input<H: Host>(
    alloc: Global,
    host: &mut H,
    file: InputFile,
    name: Option<&str>,
) -> Result<Vec<u8>, Stop>
    ensures only { OnlyReads (H.state host.old) (H.state host.new) }
    ensures read { IfOk result (λ bytes. IsInput (H.state host.old) (option_copied name.entry) bytes.items) }
    ensures counted { OnOk result (SameFaults (H.state host.old) (H.state host.new)) }
    ensures stopped { IfErr result (InputStops file (option_copied name.entry) (H.state host.old) (H.state host.new)) }
{
    match name {
        None => Ok(Vec::new(alloc)),
        Some(name) => read_named(alloc, host, file, name, INPUT_LIMIT),
    }
}
