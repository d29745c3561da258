// The writing of a text, and what a write that ended early is to a command.
ghost use Rattle.std.specs.Prelude.{◌≡◌, OnOk, IfErr};
ghost use Rattle.host.specs.Host.{SameFaults, OnlyWrites, Rewrites};
ghost use Rattle.asm86_line_types.specs.Written.{written_text};
ghost use Rattle.cmd_common.specs.Writing.{stop_of_write, WriteStops};

use crate::stop::Stop;
use asm86_line_types::Line86;
use host::{Host, HostFault};
use host_files::write_out;

/// What a fault of a write is.
pub fn stop_of_write(fault: HostFault) -> Stop
    ensures { result ≡ stop_of_write fault }
{
    match fault {
        HostFault::Failed => Stop::WriteFailed,
        HostFault::Memory => Stop::OutOfMemory,
    }
}

/// Writes the text of lines to the file of a name. It takes no memory.
pub fn write_text<H: Host>(host: &mut H, name: &str, lines: &[Line86]) -> Result<(), Stop>
    ensures only { OnlyWrites (H.state host.old) (H.state host.new) name.now }
    ensures written { OnOk result (Rewrites (H.state host.old) (H.state host.new) name.now (written_text lines.now)) }
    ensures counted { OnOk result (SameFaults (H.state host.old) (H.state host.new)) }
    ensures stopped { IfErr result (WriteStops name.now (written_text lines.now) (H.state host.old) (H.state host.new)) }
{
    match write_out(host, name, lines) {
        Ok(()) => Ok(()),
        Err(fault) => Err(stop_of_write(fault)),
    }
}
