// The work of `both`: a source's program runs on the tagged 8080, and the image of its lean text on the 8086.
ghost use Rattle.std.specs.Prelude.{◌≡◌, true, IfOk, IfErr};
ghost use Rattle.asm80_types.specs.Program.{IsProgram, is_top};
ghost use Rattle.cmd_arguments.specs.ReadCommands.{both_read};
ghost use Rattle.cmd_runs.specs.Keeping.{DiskAlone};
ghost use Rattle.cmd_runs.specs.Supplies.{given_of, HasDisk};
ghost use Rattle.cmd_runs.specs.Lasts.{IsLastMade};
ghost use Rattle.cmd_runs.specs.Kinds.{IsNamed, IsToRun};
ghost use Rattle.cmd_runs.specs.Runs80.{kind80};
ghost use Rattle.cmd_runs.specs.Works.{WorkHasLast, WorkHalts, HasLastFrom, HaltsFrom, WorkGives};
ghost use Rattle.cmd_runs.specs.BothLoads.{source_of, AreToRun};
ghost use Rattle.cmd_runs.specs.BothRuns.{work_both};
ghost use Rattle.cmd_runs.specs.BothCompletes.{BothComplete};

use crate::finishing::{close_work, leave_runs};
use crate::halt::Halt;
use crate::last::Last;
use crate::lean::lean_image;
use crate::making::make_runs;
use crate::names::run_names;
use crate::run_source::{Named, read_program};
use crate::supplies::{Supplies, devices_like, devices_of, fill_of};
use asm80_types::Program80;
use asm86::Image86;
use bdos_small::{Devices, disks_read_back};
use cmd_arguments::Both;
use cmd_common::sources_have_one_outcome;
use host::Host;
use std::alloc::Global;
use templates_law::own_texts_are_same;

/// Runs the source of a command on both machines over devices of the same bytes, the 8080 first, says each event of their dialogues and
/// then what the 8080's run came to, and answers the status. The top of the program area is a multiple of 100H from 1000H to 0FF00H.
pub fn both<H: Host>(alloc: Global, host: &mut H, command: &Both<'_>) -> u8
    requires { is_top command.now.top ≡ true }
    ensures gives { WorkGives (work_both (both_read command.now)) (H.state host.old) (H.state host.new) result }
    ensures files { DiskAlone (both_read command.now).run.out_disk (H.state host.old) (H.state host.new) }
    ensures completes { BothComplete (both_read command.now) (H.state host.old) (H.state host.new) result }
{
    sources_have_one_outcome();
    disks_read_back();
    own_texts_are_same();
    let worked = work(alloc, host, command);
    close_work(
        alloc,
        host,
        &run_names(command.source, &command.run),
        worked,
    )
}

// The work up to the last line, whose memory is taken before the disk is written.
fn work<H: Host>(alloc: Global, host: &mut H, command: &Both<'_>) -> Result<Last, Halt>
    requires { is_top command.now.top ≡ true }
    ensures made { IfOk result IsLastMade }
    ensures came { IfOk result (WorkHasLast (work_both (both_read command.now)) (H.state host.old) (H.state host.new)) }
    ensures halted { IfErr result (WorkHalts (work_both (both_read command.now)) (H.state host.old) (H.state host.new)) }
{
    let named = read_program(
        alloc,
        host,
        command.source,
        command.zilog,
        command.top,
        &command.run,
    )?;
    let Named { program, supplies } = named;
    run_over(alloc, host, command, &program, supplies)
}

// The runs of it over devices of what was read, of which those of the 8086 are made first.
fn run_over<H: Host>(
    alloc: Global,
    host: &mut H,
    command: &Both<'_>,
    program: &Program80,
    supplies: Supplies,
) -> Result<Last, Halt>
    requires { IsProgram program.now }
    ensures made { IfOk result IsLastMade }
    ensures came { IfOk result (HasLastFrom (work_both (both_read command.now)) (λ begin. IsNamed (kind80 (source_of (both_read command.now))) begin program.now (given_of supplies.input.items supplies.disk.items supplies.ports.items)) (H.state host.old) (H.state host.new)) }
    ensures halted { IfErr result (HaltsFrom (work_both (both_read command.now)) (λ begin. IsNamed (kind80 (source_of (both_read command.now))) begin program.now (given_of supplies.input.items supplies.disk.items supplies.ports.items)) (H.state host.old) (H.state host.new)) }
{
    let mut devices86 = devices_like(alloc, &supplies)?;
    run_beside(alloc, host, command, program, supplies, &mut devices86)
}

// The same, where the 8086 has its devices.
fn run_beside<H: Host>(
    alloc: Global,
    host: &mut H,
    command: &Both<'_>,
    program: &Program80,
    supplies: Supplies,
    devices86: &mut Devices,
) -> Result<Last, Halt>
    requires program { IsProgram program.now }
    requires devices86 { HasDisk (given_of supplies.input.items supplies.disk.items supplies.ports.items) devices86.old }
    ensures made { IfOk result IsLastMade }
    ensures came { IfOk result (HasLastFrom (work_both (both_read command.now)) (λ begin. IsNamed (kind80 (source_of (both_read command.now))) begin program.now (given_of supplies.input.items supplies.disk.items supplies.ports.items)) (H.state host.old) (H.state host.new)) }
    ensures halted { IfErr result (HaltsFrom (work_both (both_read command.now)) (λ begin. IsNamed (kind80 (source_of (both_read command.now))) begin program.now (given_of supplies.input.items supplies.disk.items supplies.ports.items)) (H.state host.old) (H.state host.new)) }
{
    disks_read_back();
    let mut devices80 = devices_of(alloc, supplies)?;
    run_imaged(alloc, host, command, program, &mut devices80, devices86)
}

// The runs of it, and of the image of its lean text.
fn run_imaged<H: Host>(
    alloc: Global,
    host: &mut H,
    command: &Both<'_>,
    program: &Program80,
    devices80: &mut Devices,
    devices86: &mut Devices,
) -> Result<Last, Halt>
    requires program { IsProgram program.now }
    requires same { devices86.old ≡ devices80.old }
    ensures made { IfOk result IsLastMade }
    ensures came { IfOk result (HasLastFrom (work_both (both_read command.now)) (λ begin. IsToRun (kind80 (source_of (both_read command.now))) begin program.now devices80.old) (H.state host.old) (H.state host.new)) }
    ensures halted { IfErr result (HaltsFrom (work_both (both_read command.now)) (λ begin. IsToRun (kind80 (source_of (both_read command.now))) begin program.now devices80.old) (H.state host.old) (H.state host.new)) }
{
    let image = lean_image(alloc, program)?;
    run_equipped(alloc, host, command, program, &image, devices80, devices86)
}

// The runs with all that they have, and the disk that the 8080's leaves.
fn run_equipped<H: Host>(
    alloc: Global,
    host: &mut H,
    command: &Both<'_>,
    program: &Program80,
    image: &Image86,
    devices80: &mut Devices,
    devices86: &mut Devices,
) -> Result<Last, Halt>
    requires { devices86.old ≡ devices80.old }
    ensures made { IfOk result IsLastMade }
    ensures came { IfOk result (HasLastFrom (work_both (both_read command.now)) (λ begin. AreToRun (both_read command.now) begin program.now image.now devices80.old) (H.state host.old) (H.state host.new)) }
    ensures halted { IfErr result (HaltsFrom (work_both (both_read command.now)) (λ begin. AreToRun (both_read command.now) begin program.now image.now devices80.old) (H.state host.old) (H.state host.new)) }
{
    let fill = fill_of(alloc, command.choice)?;
    let made = make_runs(
        alloc,
        host,
        command,
        program,
        image,
        fill.as_slice(),
        devices80,
        devices86,
    )?;
    let second = Some(made.second.steps);
    leave_runs(
        alloc,
        host,
        &command.run,
        made.first,
        made.line,
        second,
        devices80.disk(),
    )
}
