// The end of a command's work, once its runs are made.
ghost use Rattle.std.specs.Prelude.{IfOk, IfErr};
ghost use Rattle.cmd_arguments.specs.ReadCommands.{run_options_read};
ghost use Rattle.cmd_common.specs.Names.{names_read};
ghost use Rattle.cmd_runs.specs.Ends.{came_to, Halts};
ghost use Rattle.cmd_runs.specs.Keeping.{kept_disk_name};
ghost use Rattle.cmd_runs.specs.Lasts.{IsLastMade};
ghost use Rattle.cmd_runs.specs.Finishing.{RunsAreLeft, LeaveStops, IsClosed};

use crate::ends::came_to;
use crate::halt::Halt;
use crate::keeping::{keep_disk, kept_disk_name};
use crate::last::{Last, closing_line, say_end};
use bdos_small::Disk;
use cmd_arguments::RunOptions;
use cmd_common::{InputNames, say_stop};
use emulators::Conversation;
use host::{Host, HostFault};
use std::alloc::Global;

/// What is left to do once the runs are made, by what the one came to by which the status goes, and the line of the source that stands
/// with its end: the memory of the last line is taken, and then the disk is written, if that end keeps it and the options name a file.
pub fn leave_runs<H: Host>(
    alloc: Global,
    host: &mut H,
    run: &RunOptions<'_>,
    ran: Conversation,
    line: u32,
    second: Option<u64>,
    disk: &Disk,
) -> Result<Last, Halt>
    ensures made { IfOk result IsLastMade }
    ensures left { IfOk result (RunsAreLeft (came_to run.now.steps line ran) second (kept_disk_name (run_options_read run.now).out_disk ran.end) disk.now (H.state host.old) (H.state host.new)) }
    ensures halted { IfErr result (Halts (LeaveStops (kept_disk_name (run_options_read run.now).out_disk ran.end) disk.now (H.state host.old) (H.state host.new))) }
{
    let came = came_to(ran, run.steps, line);
    let line = closing_line(alloc, came, second)?;
    let name = kept_disk_name(run.out_disk, ran.end);
    match keep_disk(alloc, host, name, disk) {
        Ok(()) => Ok(Last { came, second, line }),
        Err(stop) => Err(Halt::By(stop)),
    }
}

/// Says what a command's work came to, and answers the status.
pub fn close_work<H: Host>(
    alloc: Global,
    host: &mut H,
    names: &InputNames<'_>,
    worked: Result<Last, Halt>,
) -> u8
    requires { IfOk worked IsLastMade }
    ensures { IsClosed (names_read names.now) worked (H.state host.old) (H.state host.new) result }
{
    match worked {
        Ok(last) => say_end(host, names, &last),
        Err(Halt::By(stop)) => say_stop(alloc, host, names, stop),
        // Nothing more is said after a line that was not.
        Err(Halt::Unsaid(HostFault::Failed)) => 4,
        Err(Halt::Unsaid(HostFault::Memory)) => 5,
    }
}
