// What is said last of runs that were made.
ghost use Rattle.std.specs.Prelude.{◌≡◌, IfOk};
ghost use Rattle.std.specs.String.{string_bytes};
ghost use Rattle.cmd_common.specs.Names.{FileNames, names_read};
ghost use Rattle.cmd_runs.specs.Lasts.{closing_line, NamesNoFile, IsLastMade, SaysEnd};

use cmd_common::{InputNames, Stop, both_line, ended_line, say_done, say_made};
use host::Host;
use std::alloc::{AllocError, Global};

/// What is said last of a command's runs: what the run by which its status goes came to, the number of instructions that ran or why it
/// stopped; how many instructions of a second machine ran after it, if there was one; and the line.
#[derive(Drop)]
pub struct Last {
    pub came: Result<u64, Stop>,
    pub second: Option<u64>,
    pub line: String,
}

/// The line of runs that came to this, which names no file. Here its memory is taken.
pub fn closing_line(
    alloc: Global,
    came: Result<u64, Stop>,
    second: Option<u64>,
) -> Result<String, AllocError>
    requires { NamesNoFile second came }
    ensures { IfOk result (λ line. (names : FileNames) → string_bytes line ≡ closing_line names second came) }
{
    match (came, second) {
        (Ok(steps), None) => ended_line(alloc, steps),
        (Ok(steps), Some(more)) => both_line(alloc, steps, more),
        (Err(stop), _) => stop.line(alloc, &InputNames::one("")),
    }
}

/// Says it, and answers the status.
pub fn say_end<H: Host>(host: &mut H, names: &InputNames<'_>, last: &Last) -> u8
    requires { IsLastMade last.now }
    ensures { SaysEnd (names_read names.now) last.now.second last.now.came (H.state host.old) (H.state host.new) result }
{
    match last.came {
        Ok(_) => say_done(host, last.line.as_str()),
        Err(stop) => say_made(host, names, stop, last.line.as_str()),
    }
}
