// Both runs, of the program of a source and of the image of its lean text.
ghost use Rattle.std.specs.Prelude.{◌≡◌, ◌^◌, ◌<◌, ◌≤◌, All, IfOk, IfErr};
ghost use Rattle.host.specs.Host.{HostState};
ghost use Rattle.cmd_arguments.specs.ReadCommands.{both_read};
ghost use Rattle.cmd_runs.specs.Supplies.{IsFillBy};
ghost use Rattle.cmd_runs.specs.Kinds.{HasRead};
ghost use Rattle.cmd_runs.specs.Works.{HaltsFrom};
ghost use Rattle.cmd_runs.specs.BothLoads.{AreToRun};
ghost use Rattle.cmd_runs.specs.BothRuns.{limit86, AreBothMade, work_both};
ghost use Rattle.cmd_runs.specs.BothMaking.{runs_made};

use crate::halt::Halt;
use crate::run_source::line_of;
use crate::running::{run_image, run_program};
use asm80_types::Program80;
use asm86::Image86;
use bdos_small::Devices;
use cmd_arguments::Both;
use emulators::{Conversation, runs_are_one};
use host::Host;
use std::alloc::Global;

/// What both runs came to, and the line of the source that stands with the end of the 8080's.
#[derive(Clone, Copy)]
pub struct Made {
    pub first: Conversation,
    pub line: u32,
    pub second: Conversation,
}

/// Makes both runs, the 8080's first: of the program, and of the image of its lean text.
pub fn make_runs<H: Host>(
    alloc: Global,
    host: &mut H,
    command: &Both<'_>,
    program: &Program80,
    image: &Image86,
    fill: &[u8],
    devices80: &mut Devices,
    devices86: &mut Devices,
) -> Result<Made, Halt>
    requires fill { IsFillBy command.now.choice fill.now }
    requires same { devices86.old ≡ devices80.old }
    ensures made { IfOk result (λ made. (begin : HostState) → HasRead (AreToRun (both_read command.now) begin program.now image.now devices80.old) begin (H.state host.old) → AreBothMade (both_read command.now) begin (H.state host.new) (runs_made made devices80.new)) }
    ensures halted { IfErr result (HaltsFrom (work_both (both_read command.now)) (λ begin. AreToRun (both_read command.now) begin program.now image.now devices80.old) (H.state host.old) (H.state host.new)) }
{
    runs_are_one();
    let page = &command.run.page;
    start_is_in_range(page.bytes(), fill, command.choice);
    let steps = u64::from(command.run.steps);
    let first = run_program(alloc, host, program, page, devices80, steps, b"80 ")?;
    let line = line_of(program, first.end);
    let limit = limit86(first.steps);
    let second = run_image(
        alloc,
        host,
        image,
        page,
        fill,
        command.choice,
        devices86,
        limit,
        b"86 ",
    )?;
    Ok(Made {
        first,
        line,
        second,
    })
}

// How many instructions of the 8086 may run, by how many of the 8080 ran: 16 for each of them, and 16 more.
fn limit86(steps: u64) -> u64
    requires { steps ≤ 0xFFFF_FFFF }
    ensures { result ≡ limit86 steps }
{
    16 * steps + 16
}

// A law of what an 8086 starts with: the page and the fill have bytes, and the choice is below 2^128.
fn start_is_in_range(page: &[u8], fill: &[u8], choice: u128)
    ensures page { All (λ n. n < 256) page.now }
    ensures fill { All (λ n. n < 256) fill.now }
    ensures choice { choice < 2 ^ 128 }
{}
