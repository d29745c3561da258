// The work of `sample`: the made source out.
ghost use Rattle.std.specs.Prelude.{IfOk, IfErr};
ghost use Rattle.std.specs.String.{string_bytes};
ghost use Rattle.cmd_arguments.specs.ReadCommands.{sample_read};
ghost use Rattle.cmd_sample.specs.Samples.{IsCount, SampleGives, Completes};
ghost use Rattle.cmd_sample.specs.SampleWork.{Works, StopsBy};

use crate::making::make;
use cmd_arguments::Sample;
use cmd_common::{InputNames, Stop, say_done, say_stop, stop_of_write};
use host::Host;
use host_files::write_bytes;
use std::alloc::Global;

/// Makes the source of a command, writes it, says what it has, and answers the status.
pub fn sample<H: Host>(alloc: Global, host: &mut H, command: &Sample<'_>) -> u8
    requires { IsCount command.now.count }
    ensures gives { SampleGives (sample_read command.now) (H.state host.old) (H.state host.new) result }
    ensures completes { Completes (sample_read command.now) (H.state host.old) (H.state host.new) result }
{
    match work(alloc, host, command) {
        Ok(line) => say_done(host, line.as_str()),
        // It reads no file.
        Err(stop) => say_stop(alloc, host, &InputNames::one(""), stop),
    }
}

// The work up to the last line, which is the answer where the source was written. All memory is taken before the output is
// touched.
fn work<H: Host>(alloc: Global, host: &mut H, command: &Sample<'_>) -> Result<String, Stop>
    requires { IsCount command.now.count }
    ensures worked { IfOk result (λ line. Works (sample_read command.now) (H.state host.old) (H.state host.new) (string_bytes line)) }
    ensures stopped { IfErr result (StopsBy (sample_read command.now) (H.state host.old) (H.state host.new)) }
{
    let made = make(alloc, command.count)?;
    match write_bytes(host, command.output, made.source.as_slice()) {
        Ok(()) => Ok(made.line),
        Err(fault) => Err(stop_of_write(fault)),
    }
}
