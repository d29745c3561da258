// What the devices of a run have to answer with, and what fills a memory.
ghost use Rattle.std.specs.Prelude.{◌≡◌, IfOk, IfErr, OnOk, option_copied, length};
ghost use Rattle.host.specs.Host.{SameFaults, OnlyReads};
ghost use Rattle.cmd_arguments.specs.ReadCommands.{run_options_read};
ghost use Rattle.cmd_runs.specs.Supplies.{given_of, fill_by, DiskIsGiven, DiskFileStops, IsSupplied, SupplyStops, HasDisk, DiskStops};

use bdos_small::{Devices, Disk, DiskFault};
use cmd_arguments::RunOptions;
use cmd_common::{InputFile, Stop, read_input};
use host::Host;
use std::alloc::{AllocError, Global};

/// The input of a console, the disk's file, and the bytes that ports give.
#[derive(Drop)]
pub struct Supplies {
    pub input: Vec<u8>,
    pub disk: Vec<u8>,
    pub ports: Vec<u8>,
}

/// Reads the files that the options of a run name: the console's input, then the disk's file, and then the bytes of the ports, at most
/// 1,048,576 bytes each. Where an option does not stand, there are none, and the disk has no files.
pub fn read_supplies<H: Host>(
    alloc: Global,
    host: &mut H,
    run: &RunOptions<'_>,
) -> Result<Supplies, Stop>
    ensures only { OnlyReads (H.state host.old) (H.state host.new) }
    ensures read { IfOk result (λ s. IsSupplied (run_options_read run.now) (H.state host.old) (given_of s.input.items s.disk.items s.ports.items)) }
    ensures counted { OnOk result (SameFaults (H.state host.old) (H.state host.new)) }
    ensures stopped { IfErr result (SupplyStops (run_options_read run.now) (H.state host.old) (H.state host.new)) }
{
    let input = read_input(alloc, host, InputFile::Console, run.input)?;
    let disk = read_disk_file(alloc, host, run.disk)?;
    let ports = read_input(alloc, host, InputFile::Ports, run.ports)?;
    Ok(Supplies { input, disk, ports })
}

// Reads the disk's file, which without a name is that of a disk without files.
fn read_disk_file<H: Host>(alloc: Global, host: &mut H, name: Option<&str>) -> Result<Vec<u8>, Stop>
    ensures only { OnlyReads (H.state host.old) (H.state host.new) }
    ensures read { IfOk result (λ bytes. DiskIsGiven (H.state host.old) (option_copied name.entry) bytes.items) }
    ensures counted { OnOk result (SameFaults (H.state host.old) (H.state host.new)) }
    ensures stopped { IfErr result (DiskFileStops (option_copied name.entry) (H.state host.old) (H.state host.new)) }
{
    match name {
        None => Ok(Disk::empty(alloc).write(alloc)?),
        Some(name) => read_input(alloc, host, InputFile::Disk, Some(name)),
    }
}

/// The devices that were read, or why the disk's file is none.
pub fn devices_of(alloc: Global, supplies: Supplies) -> Result<Devices, Stop>
    ensures devices { IfOk result (HasDisk (given_of supplies.input.items supplies.disk.items supplies.ports.items)) }
    ensures stopped { IfErr result (DiskStops supplies.disk.items) }
{
    let Supplies { input, disk, ports } = supplies;
    match Disk::read(alloc, disk.as_slice()) {
        Ok(disk) => Ok(Devices::new(disk, input, ports)),
        Err(DiskFault::Bad(place)) => Err(Stop::BadDisk(place)),
        Err(DiskFault::Memory) => Err(Stop::OutOfMemory),
    }
}

/// The devices that a copy of the same bytes makes, or why the disk's file is none.
pub fn devices_like(alloc: Global, supplies: &Supplies) -> Result<Devices, Stop>
    ensures devices { IfOk result (HasDisk (given_of supplies.now.input.items supplies.now.disk.items supplies.now.ports.items)) }
    ensures stopped { IfErr result (DiskStops supplies.now.disk.items) }
{
    let input = Vec::from_slice(alloc, supplies.input.as_slice())?;
    let disk = Vec::from_slice(alloc, supplies.disk.as_slice())?;
    let ports = Vec::from_slice(alloc, supplies.ports.as_slice())?;
    devices_of(alloc, Supplies { input, disk, ports })
}

/// The bytes that fill a memory of 64K, by a choice.
pub fn fill_of(alloc: Global, choice: u128) -> Result<Vec<u8>, AllocError>
    ensures items { IfOk result (λ fill. fill.items ≡ fill_by choice) }
    ensures len { IfOk result (λ fill. length fill.items ≡ 0x10000) }
{
    let byte = (choice % 256) as u8;
    let fill = vec![in alloc; byte; 0x1_0000]?;
    Ok(fill)
}
