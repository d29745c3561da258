// What is made is written.
ghost use Rattle.std.specs.Prelude.{OnOk, IfErr};
ghost use Rattle.host.specs.Host.{SameFaults, OnlyWrites, Rewrites};
ghost use Rattle.cmd_common.specs.Writing.{WriteStops};

use cmd_common::{Stop, stop_of_write};
use host::Host;
use host_files::write_bytes;

/// Writes the bytes of what was made to the file of a name. It takes no memory.
pub fn write_made<H: Host>(host: &mut H, name: &str, bytes: &[u8]) -> Result<(), Stop>
    ensures only { OnlyWrites (H.state host.old) (H.state host.new) name.now }
    ensures written { OnOk result (Rewrites (H.state host.old) (H.state host.new) name.now bytes.now) }
    ensures counted { OnOk result (SameFaults (H.state host.old) (H.state host.new)) }
    ensures stopped { IfErr result (WriteStops name.now bytes.now (H.state host.old) (H.state host.new)) }
{
    match write_bytes(host, name, bytes) {
        Ok(()) => Ok(()),
        Err(fault) => Err(stop_of_write(fault)),
    }
}
