// The work of `run86`: a text's image runs over devices, by a choice.
ghost use Rattle.std.specs.Prelude.{IfOk, IfErr};
ghost use Rattle.cmd_arguments.specs.ReadCommands.{run86_read};
ghost use Rattle.cmd_runs.specs.Keeping.{DiskAlone};
ghost use Rattle.cmd_runs.specs.Supplies.{given_of};
ghost use Rattle.cmd_runs.specs.Lasts.{IsLastMade};
ghost use Rattle.cmd_runs.specs.Kinds.{IsToRun, CanBeRun};
ghost use Rattle.cmd_runs.specs.Works.{WorkHasLast, WorkHalts, HasLastFrom, HaltsFrom, WorkGives};
ghost use Rattle.cmd_runs.specs.Outcomes.{RunCompletes};
ghost use Rattle.cmd_runs.specs.Runs86.{kind86, work86};

use crate::finishing::{close_work, leave_runs};
use crate::halt::Halt;
use crate::last::Last;
use crate::names::run_names;
use crate::running::run_image;
use crate::supplies::{Supplies, devices_of, fill_of, read_supplies};
use crate::text_inputs::read_image;
use asm86::{Image86, texts_have_one_image};
use bdos_small::{Devices, disks_read_back};
use cmd_arguments::Run86;
use cmd_common::{InputFile, read_text};
use host::Host;
use std::alloc::Global;

/// Runs the text of a command over devices, says each event of its dialogue and then what the run came to, and answers the
/// status.
pub fn run86<H: Host>(alloc: Global, host: &mut H, command: &Run86<'_>) -> u8
    ensures gives { WorkGives (work86 (run86_read command.now)) (H.state host.old) (H.state host.new) result }
    ensures files { DiskAlone (run86_read command.now).run.out_disk (H.state host.old) (H.state host.new) }
    ensures completes { RunCompletes (kind86 (run86_read command.now)) (H.state host.old) (H.state host.new) result }
{
    texts_have_one_image();
    disks_read_back();
    let worked = work(alloc, host, command);
    close_work(alloc, host, &run_names(command.text, &command.run), worked)
}

// The work up to the last line, whose memory is taken before the disk is written.
fn work<H: Host>(alloc: Global, host: &mut H, command: &Run86<'_>) -> Result<Last, Halt>
    ensures made { IfOk result IsLastMade }
    ensures came { IfOk result (WorkHasLast (work86 (run86_read command.now)) (H.state host.old) (H.state host.new)) }
    ensures halted { IfErr result (WorkHalts (work86 (run86_read command.now)) (H.state host.old) (H.state host.new)) }
{
    let text = read_text(alloc, host, InputFile::First, command.text)?;
    let supplies = read_supplies(alloc, host, &command.run)?;
    let image = read_image(alloc, text)?;
    run_over(alloc, host, command, &image, supplies)
}

// The run of it over the devices of what was read.
fn run_over<H: Host>(
    alloc: Global,
    host: &mut H,
    command: &Run86<'_>,
    image: &Image86,
    supplies: Supplies,
) -> Result<Last, Halt>
    ensures made { IfOk result IsLastMade }
    ensures came { IfOk result (HasLastFrom (work86 (run86_read command.now)) (λ begin. CanBeRun (kind86 (run86_read command.now)) begin image.now (given_of supplies.input.items supplies.disk.items supplies.ports.items)) (H.state host.old) (H.state host.new)) }
    ensures halted { IfErr result (HaltsFrom (work86 (run86_read command.now)) (λ begin. CanBeRun (kind86 (run86_read command.now)) begin image.now (given_of supplies.input.items supplies.disk.items supplies.ports.items)) (H.state host.old) (H.state host.new)) }
{
    let mut devices = devices_of(alloc, supplies)?;
    run_equipped(alloc, host, command, image, &mut devices)
}

// The run over these devices, and the disk that it leaves.
fn run_equipped<H: Host>(
    alloc: Global,
    host: &mut H,
    command: &Run86<'_>,
    image: &Image86,
    devices: &mut Devices,
) -> Result<Last, Halt>
    ensures made { IfOk result IsLastMade }
    ensures came { IfOk result (HasLastFrom (work86 (run86_read command.now)) (λ begin. IsToRun (kind86 (run86_read command.now)) begin image.now devices.old) (H.state host.old) (H.state host.new)) }
    ensures halted { IfErr result (HaltsFrom (work86 (run86_read command.now)) (λ begin. IsToRun (kind86 (run86_read command.now)) begin image.now devices.old) (H.state host.old) (H.state host.new)) }
{
    let limit = u64::from(command.run.steps);
    let fill = fill_of(alloc, command.choice)?;
    let ran = run_image(
        alloc,
        host,
        image,
        &command.run.page,
        fill.as_slice(),
        command.choice,
        devices,
        limit,
        b"",
    )?;
    leave_runs(alloc, host, &command.run, ran, 0, None, devices.disk())
}
