// The runs of the machines.
ghost use Rattle.std.specs.Prelude.{◌≡◌, ◌≤◌, true, IfOk, IfErr, length};
ghost use Rattle.asm80_types.specs.Program.{is_top};
ghost use Rattle.cmd_runs.specs.Supplies.{fill_by};
ghost use Rattle.cmd_runs.specs.Settings.{setting80, setting86, RunComesTo, IsRunCutOff};
ghost use Rattle.cmd_runs.specs.RunsHex.{setting_of_bytes};

use asm80_types::Program80;
use asm86::Image86;
use bdos_small::Devices;
use dialogue::Page;
use emulators::{Conversation, TalkFault, run_80, run_86, run_bytes};
use hex_file::HexFile;
use host::Host;
use std::alloc::Global;

/// Runs a program on the tagged 8080 over devices, for up to `limit` instructions; each line that is said begins with the prefix.
pub fn run_program<H: Host>(
    alloc: Global,
    host: &mut H,
    program: &Program80,
    page: &Page,
    devices: &mut Devices,
    limit: u64,
    prefix: &[u8],
) -> Result<Conversation, TalkFault>
    ensures run { IfOk result (λ end. RunComesTo (setting80 page.now program.now limit prefix.now) devices.old end devices.new (H.state host.old) (H.state host.new)) }
    ensures cut { IfErr result (λ fault. IsRunCutOff (setting80 page.now program.now limit prefix.now) devices.old fault (H.state host.old) (H.state host.new)) }
    ensures within { IfOk result (λ end. end.steps ≤ limit) }
{
    run_80(alloc, program, page, devices, limit, host, prefix)
}

/// Runs an image on the 8086 over devices, by a choice, for up to `limit` instructions; each line that is said begins with the prefix. The
/// fill is 65,536 times the choice's lowest byte.
pub fn run_image<H: Host>(
    alloc: Global,
    host: &mut H,
    image: &Image86,
    page: &Page,
    fill: &[u8],
    choice: u128,
    devices: &mut Devices,
    limit: u64,
    prefix: &[u8],
) -> Result<Conversation, TalkFault>
    requires fill { fill.now ≡ fill_by choice }
    requires fill_len { length fill.now ≡ 0x10000 }
    ensures run { IfOk result (λ end. RunComesTo (setting86 page.now choice image.now limit prefix.now) devices.old end devices.new (H.state host.old) (H.state host.new)) }
    ensures cut { IfErr result (λ fault. IsRunCutOff (setting86 page.now choice image.now limit prefix.now) devices.old fault (H.state host.old) (H.state host.new)) }
{
    run_86(
        alloc, image, page, fill, choice, devices, limit, host, prefix,
    )
}

/// Runs the cells of a HEX file on the 8080 that fetches bytes, below a top and over devices, by a choice, for up to `limit` instructions;
/// each line that is said begins with the prefix. The fill is 65,536 times the choice's lowest byte.
pub fn run_cells<H: Host>(
    alloc: Global,
    host: &mut H,
    hex: &HexFile,
    top: u16,
    page: &Page,
    fill: &[u8],
    choice: u128,
    devices: &mut Devices,
    limit: u64,
    prefix: &[u8],
) -> Result<Conversation, TalkFault>
    requires top { is_top top ≡ true }
    requires fill { fill.now ≡ fill_by choice }
    requires fill_len { length fill.now ≡ 0x10000 }
    ensures run { IfOk result (λ end. RunComesTo (setting_of_bytes page.now top choice hex.now limit prefix.now) devices.old end devices.new (H.state host.old) (H.state host.new)) }
    ensures cut { IfErr result (λ fault. IsRunCutOff (setting_of_bytes page.now top choice hex.now limit prefix.now) devices.old fault (H.state host.old) (H.state host.new)) }
{
    run_bytes(
        alloc, hex, top, page, fill, choice, devices, limit, host, prefix,
    )
}
