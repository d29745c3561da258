// The work of `run80`: a source's program runs on the tagged 8080 over devices.
ghost use Rattle.std.specs.Prelude.{◌≡◌, ℕ, true, IfOk, IfErr, OnOk};
ghost use Rattle.host.specs.Host.{SameFaults, OnlyReads};
ghost use Rattle.asm80_types.specs.Program.{is_top};
ghost use Rattle.cmd_arguments.specs.ReadCommands.{run_options_read, run80_read};
ghost use Rattle.cmd_runs.specs.Keeping.{DiskAlone};
ghost use Rattle.cmd_runs.specs.Lasts.{IsLastMade};
ghost use Rattle.cmd_runs.specs.Supplies.{given_of};
ghost use Rattle.cmd_runs.specs.Kinds.{IsNamed, CanBeRun, IsToRun, NothingToRun};
ghost use Rattle.cmd_runs.specs.Works.{WorkHasLast, WorkHalts, HasLastFrom, HaltsFrom, WorkGives};
ghost use Rattle.cmd_runs.specs.Outcomes.{RunCompletes};
ghost use Rattle.cmd_runs.specs.Runs80.{words_of, kind80, work80, IsLineOf};

use crate::finishing::{close_work, leave_runs};
use crate::halt::Halt;
use crate::last::Last;
use crate::names::run_names;
use crate::running::run_program;
use crate::supplies::{Supplies, devices_of, read_supplies};
use asm80_types::Program80;
use bdos_small::{Devices, disks_read_back};
use cells::Place;
use cmd_arguments::{Run80, RunOptions};
use cmd_common::{Stop, read_source, sources_have_one_outcome};
use emulators::{RunEnd, Why};
use host::Host;
use std::alloc::Global;

/// What the words of a source's run name: its program, and the bytes that the devices have.
#[derive(Drop)]
pub struct Named {
    pub program: Program80,
    pub supplies: Supplies,
}

/// Runs the source of a command over devices, says each event of its dialogue and then what the run came to, and answers the
/// status. The top of the program area is a multiple of 100H from 1000H to 0FF00H.
pub fn run80<H: Host>(alloc: Global, host: &mut H, command: &Run80<'_>) -> u8
    requires { is_top command.now.top ≡ true }
    ensures gives { WorkGives (work80 (run80_read command.now)) (H.state host.old) (H.state host.new) result }
    ensures files { DiskAlone (run80_read command.now).run.out_disk (H.state host.old) (H.state host.new) }
    ensures completes { RunCompletes (kind80 (run80_read command.now)) (H.state host.old) (H.state host.new) result }
{
    sources_have_one_outcome();
    disks_read_back();
    let worked = work(alloc, host, command);
    close_work(
        alloc,
        host,
        &run_names(command.source, &command.run),
        worked,
    )
}

// The work up to the last line, whose memory is taken before the disk is written.
fn work<H: Host>(alloc: Global, host: &mut H, command: &Run80<'_>) -> Result<Last, Halt>
    requires { is_top command.now.top ≡ true }
    ensures made { IfOk result IsLastMade }
    ensures came { IfOk result (WorkHasLast (work80 (run80_read command.now)) (H.state host.old) (H.state host.new)) }
    ensures halted { IfErr result (WorkHalts (work80 (run80_read command.now)) (H.state host.old) (H.state host.new)) }
{
    let named = read_program(
        alloc,
        host,
        command.source,
        command.zilog,
        command.top,
        &command.run,
    )?;
    let Named { program, supplies } = named;
    run_over(alloc, host, command, &program, supplies)
}

// The run of it over the devices of what was read.
fn run_over<H: Host>(
    alloc: Global,
    host: &mut H,
    command: &Run80<'_>,
    program: &Program80,
    supplies: Supplies,
) -> Result<Last, Halt>
    ensures made { IfOk result IsLastMade }
    ensures came { IfOk result (HasLastFrom (work80 (run80_read command.now)) (λ begin. CanBeRun (kind80 (run80_read command.now)) begin program.now (given_of supplies.input.items supplies.disk.items supplies.ports.items)) (H.state host.old) (H.state host.new)) }
    ensures halted { IfErr result (HaltsFrom (work80 (run80_read command.now)) (λ begin. CanBeRun (kind80 (run80_read command.now)) begin program.now (given_of supplies.input.items supplies.disk.items supplies.ports.items)) (H.state host.old) (H.state host.new)) }
{
    let mut devices = devices_of(alloc, supplies)?;
    run_equipped(alloc, host, command, program, &mut devices)
}

// The run over these devices, and the disk that it leaves.
fn run_equipped<H: Host>(
    alloc: Global,
    host: &mut H,
    command: &Run80<'_>,
    program: &Program80,
    devices: &mut Devices,
) -> Result<Last, Halt>
    ensures made { IfOk result IsLastMade }
    ensures came { IfOk result (HasLastFrom (work80 (run80_read command.now)) (λ begin. IsToRun (kind80 (run80_read command.now)) begin program.now devices.old) (H.state host.old) (H.state host.new)) }
    ensures halted { IfErr result (HaltsFrom (work80 (run80_read command.now)) (λ begin. IsToRun (kind80 (run80_read command.now)) begin program.now devices.old) (H.state host.old) (H.state host.new)) }
{
    let limit = u64::from(command.run.steps);
    let ran = run_program(alloc, host, program, &command.run.page, devices, limit, b"")?;
    let line = line_of(program, ran.end);
    leave_runs(alloc, host, &command.run, ran, line, None, devices.disk())
}

/// Reads the files, that of the source as its program, in Zilog's spelling or in Intel's, for a top of the program area, a multiple of 100H from 1000H to 0FF00H. That the
/// source is refused is told once all of them are read.
pub fn read_program<H: Host>(
    alloc: Global,
    host: &mut H,
    name: &str,
    zilog: bool,
    top: u16,
    run: &RunOptions<'_>,
) -> Result<Named, Stop>
    requires { is_top top ≡ true }
    ensures only { OnlyReads (H.state host.old) (H.state host.new) }
    ensures named { IfOk result (λ n. IsNamed (kind80 (words_of name.now zilog top (run_options_read run.now))) (H.state host.old) n.program (given_of n.supplies.input.items n.supplies.disk.items n.supplies.ports.items)) }
    ensures counted { OnOk result (SameFaults (H.state host.old) (H.state host.new)) }
    ensures stopped { IfErr result (NothingToRun (kind80 (words_of name.now zilog top (run_options_read run.now))) (H.state host.old) (H.state host.new)) }
{
    let source = read_source(alloc, host, name, zilog, top)?;
    let supplies = read_supplies(alloc, host, run)?;
    match source {
        Ok(program) => Ok(Named { program, supplies }),
        Err(stop) => Err(stop),
    }
}

/// The line of the instruction at which a run left the profile; 0 where it did not.
pub fn line_of(program: &Program80, end: RunEnd) -> u32
    ensures { (line : ℕ) → IsLineOf program.now end line → result ≡ line }
{
    match end {
        RunEnd::Stopped(Why::Left(Place::At(at), _)) => program.line_at(at).unwrap_or(0),
        RunEnd::Stopped(
            Why::Left(Place::Exit, _)
            | Why::NoInstruction(_)
            | Why::StackSegment(_)
            | Why::OddCall(_, _),
        )
        | RunEnd::Ended
        | RunEnd::StepLimit
        | RunEnd::InputEnded
        | RunEnd::NoDrive(_) => 0,
    }
}
