// The work of `runhex`: the cells of a HEX file run over devices, by a choice.
ghost use Rattle.std.specs.Prelude.{◌≡◌, true, IfOk, IfErr};
ghost use Rattle.asm80_types.specs.Program.{is_top};
ghost use Rattle.cmd_arguments.specs.ReadCommands.{run_hex_read};
ghost use Rattle.cmd_runs.specs.Keeping.{DiskAlone};
ghost use Rattle.cmd_runs.specs.Supplies.{given_of};
ghost use Rattle.cmd_runs.specs.Lasts.{IsLastMade};
ghost use Rattle.cmd_runs.specs.Kinds.{IsToRun, CanBeRun};
ghost use Rattle.cmd_runs.specs.Works.{WorkHasLast, WorkHalts, HasLastFrom, HaltsFrom, WorkGives};
ghost use Rattle.cmd_runs.specs.Outcomes.{RunCompletes};
ghost use Rattle.cmd_runs.specs.RunsHex.{kind_hex, work_hex};

use crate::finishing::{close_work, leave_runs};
use crate::halt::Halt;
use crate::hex_inputs::hex_of_bytes;
use crate::last::Last;
use crate::names::run_names;
use crate::running::run_cells;
use crate::supplies::{Supplies, devices_of, fill_of, read_supplies};
use bdos_small::{Devices, disks_read_back};
use cmd_arguments::RunHex;
use cmd_common::{InputFile, SOURCE_LIMIT, read_named};
use hex_file::{HexFile, hex_file_has_one_reading};
use host::Host;
use i80_bytes::memory_is_fetched;
use std::alloc::Global;

/// Runs the HEX file of a command over devices, says each event of its dialogue and then what the run came to, and answers the status.
pub fn runhex<H: Host>(alloc: Global, host: &mut H, command: &RunHex<'_>) -> u8
    requires { is_top command.now.top ≡ true }
    ensures gives { WorkGives (work_hex (run_hex_read command.now)) (H.state host.old) (H.state host.new) result }
    ensures files { DiskAlone (run_hex_read command.now).run.out_disk (H.state host.old) (H.state host.new) }
    ensures completes { RunCompletes (kind_hex (run_hex_read command.now)) (H.state host.old) (H.state host.new) result }
{
    hex_file_has_one_reading();
    disks_read_back();
    let worked = work(alloc, host, command);
    close_work(alloc, host, &run_names(command.file, &command.run), worked)
}

// The work up to the last line, whose memory is taken before the disk is written.
fn work<H: Host>(alloc: Global, host: &mut H, command: &RunHex<'_>) -> Result<Last, Halt>
    requires { is_top command.now.top ≡ true }
    ensures made { IfOk result IsLastMade }
    ensures came { IfOk result (WorkHasLast (work_hex (run_hex_read command.now)) (H.state host.old) (H.state host.new)) }
    ensures halted { IfErr result (WorkHalts (work_hex (run_hex_read command.now)) (H.state host.old) (H.state host.new)) }
{
    memory_is_fetched();
    let bytes = read_named(alloc, host, InputFile::First, command.file, SOURCE_LIMIT)?;
    let supplies = read_supplies(alloc, host, &command.run)?;
    let hex = hex_of_bytes(alloc, bytes)?;
    run_over(alloc, host, command, &hex, supplies)
}

// The run of it over the devices of what was read.
fn run_over<H: Host>(
    alloc: Global,
    host: &mut H,
    command: &RunHex<'_>,
    hex: &HexFile,
    supplies: Supplies,
) -> Result<Last, Halt>
    requires { is_top command.now.top ≡ true }
    ensures made { IfOk result IsLastMade }
    ensures came { IfOk result (HasLastFrom (work_hex (run_hex_read command.now)) (λ begin. CanBeRun (kind_hex (run_hex_read command.now)) begin hex.now (given_of supplies.input.items supplies.disk.items supplies.ports.items)) (H.state host.old) (H.state host.new)) }
    ensures halted { IfErr result (HaltsFrom (work_hex (run_hex_read command.now)) (λ begin. CanBeRun (kind_hex (run_hex_read command.now)) begin hex.now (given_of supplies.input.items supplies.disk.items supplies.ports.items)) (H.state host.old) (H.state host.new)) }
{
    let mut devices = devices_of(alloc, supplies)?;
    run_equipped(alloc, host, command, hex, &mut devices)
}

// The run over these devices, and the disk that it leaves.
fn run_equipped<H: Host>(
    alloc: Global,
    host: &mut H,
    command: &RunHex<'_>,
    hex: &HexFile,
    devices: &mut Devices,
) -> Result<Last, Halt>
    requires { is_top command.now.top ≡ true }
    ensures made { IfOk result IsLastMade }
    ensures came { IfOk result (HasLastFrom (work_hex (run_hex_read command.now)) (λ begin. IsToRun (kind_hex (run_hex_read command.now)) begin hex.now devices.old) (H.state host.old) (H.state host.new)) }
    ensures halted { IfErr result (HaltsFrom (work_hex (run_hex_read command.now)) (λ begin. IsToRun (kind_hex (run_hex_read command.now)) begin hex.now devices.old) (H.state host.old) (H.state host.new)) }
{
    let limit = u64::from(command.run.steps);
    let fill = fill_of(alloc, command.choice)?;
    let ran = run_cells(
        alloc,
        host,
        hex,
        command.top,
        &command.run.page,
        fill.as_slice(),
        command.choice,
        devices,
        limit,
        b"",
    )?;
    leave_runs(alloc, host, &command.run, ran, 0, None, devices.disk())
}
