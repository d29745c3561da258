// What the end of a run is to a command.
ghost use Rattle.std.specs.Prelude.{◌≡◌};
ghost use Rattle.cmd_runs.specs.Ends.{came_to};

use cmd_common::Stop;
use emulators::{Conversation, RunEnd, Why};

/// How many instructions ran, where the last of them ended the program; else why not. The limit is that of the run, and the
/// line that of the instruction at which an 8080 left the profile.
pub fn came_to(ran: Conversation, limit: u32, line: u32) -> Result<u64, Stop>
    ensures { result ≡ came_to limit line ran }
{
    match ran.end {
        RunEnd::Ended => Ok(ran.steps),
        RunEnd::Stopped(Why::Left(_, rule)) => Err(Stop::LeftProfile(line, rule)),
        RunEnd::Stopped(Why::NoInstruction(offset)) => Err(Stop::NoInstruction(offset)),
        RunEnd::Stopped(Why::StackSegment(offset)) => Err(Stop::StackSegment(offset)),
        RunEnd::Stopped(Why::OddCall(offset, function)) => Err(Stop::OddCall(offset, function)),
        RunEnd::StepLimit => Err(Stop::StepLimit(limit)),
        RunEnd::InputEnded => Err(Stop::InputEnded),
        RunEnd::NoDrive(function) => Err(Stop::NoDrive(function)),
    }
}
