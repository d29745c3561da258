// A whole line said.
ghost use Rattle.std.specs.Prelude.{◌<◌, length, IfErr, OnOk, OnErr};
ghost use Rattle.host.specs.Host.{SameFaults, OnlySays, Says, WriteFault};
ghost use Rattle.host_files.specs.Transfer.{CutsLine};

use host::{Host, HostFault};

/// Says a line, in as many pieces as the host takes it. After a fault first bytes of it may have been said, but not all.
pub fn say_line<H: Host>(host: &mut H, line: &[u8]) -> Result<(), HostFault>
    requires { 0 < length line.now }
    ensures only { OnlySays (H.state host.old) (H.state host.new) }
    ensures ok { OnOk result (Says (H.state host.old) (H.state host.new) line.now) }
    ensures counted { OnOk result (SameFaults (H.state host.old) (H.state host.new)) }
    ensures fault { OnErr result (CutsLine line.now (H.state host.old) (H.state host.new)) }
    ensures failed { IfErr result (WriteFault (H.state host.old) (H.state host.new)) }
{
    let mut said = 0;
    while said < line.len() {
        said += host.say(&line[said..])?;
    }
    Ok(())
}
