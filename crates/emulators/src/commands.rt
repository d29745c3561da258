// Runs over a small BDOS and ports.
ghost use Rattle.std.specs.Prelude.{◌≡◌, ◌≤◌, ◌∷◌, [], ℕ, true, length, Option, IfOk, IfErr, OnOk};
ghost use Rattle.i86.specs.declared.Instr86.{Instr86};
ghost use Rattle.i86.specs.Code.{ReadsCode};
ghost use Rattle.host.specs.Host.{SameFaults, OnlySays};
ghost use Rattle.emulator_loop.specs.Talk.{SaysRun, IsCutOff};
ghost use Rattle.asm80_types.specs.Program.{is_top};
ghost use Rattle.i80_bytes.specs.Fetch.{fetch_of_bytes};
ghost use Rattle.emulators.specs.Courses.{course80, course86};
ghost use Rattle.emulators.specs.ByteCourses.{course_bytes};
ghost use Rattle.emulators.specs.Starts.{start_by};
ghost use Rattle.cpu86.specs.Starts.{start_of};

use crate::running_bytes::RunningBytes;
use crate::running80::Running80;
use crate::running86::Running86;
use asm80_types::Program80;
use asm86::Image86;
use bdos_small::Devices;
use cpu86::Start86;
use dialogue::Page;
use emulator_loop::{Conversation, TalkFault, converse};
use hex_file::HexFile;
use host::Host;
use std::alloc::Global;

/// Runs an 8080 program over devices for up to `limit` instructions, and says each event of its dialogue, in a line that begins with
/// the prefix.
pub fn run_80<H: Host>(
    alloc: Global,
    program: &Program80,
    page: &Page,
    devices: &mut Devices,
    limit: u64,
    host: &mut H,
    prefix: &[u8],
) -> Result<Conversation, TalkFault>
    ensures run { IfOk result (λ o. SaysRun (course80 program.now page.now) devices.old limit prefix.now o devices.new (H.state host.old) (H.state host.new)) }
    ensures cut { IfErr result (IsCutOff (course80 program.now page.now) devices.old limit prefix.now (H.state host.old) (H.state host.new)) }
    ensures only { OnlySays (H.state host.old) (H.state host.new) }
    ensures within { IfOk result (λ o. o.steps ≤ limit) }
    ensures counted { OnOk result (SameFaults (H.state host.old) (H.state host.new)) }
{
    let mut machine = Running80::new(alloc, program, page)?;
    converse(alloc, &mut machine, devices, host, prefix, limit)
}

/// Runs the image of an 8086 program over devices for up to `limit` instructions, and says each event of its dialogue, in a line that
/// begins with the prefix. The fill is memory before the page and the image are put into it; the choice gives what registers and flags
/// hold at the start, and each undefined result.
pub fn run_86<H: Host>(
    alloc: Global,
    image: &Image86,
    page: &Page,
    fill: &[u8],
    choice: u128,
    devices: &mut Devices,
    limit: u64,
    host: &mut H,
    prefix: &[u8],
) -> Result<Conversation, TalkFault>
    requires { length fill.now ≡ 0x10000 }
    ensures run { IfOk result (λ o. (fetch : ℕ → Option Instr86) → ReadsCode image.now.code fetch → SaysRun (course86 fetch image.now page.now fill.now (start_by choice) (choice ∷ [])) devices.old limit prefix.now o devices.new (H.state host.old) (H.state host.new)) }
    ensures cut { IfErr result (λ fault. (fetch : ℕ → Option Instr86) → ReadsCode image.now.code fetch → IsCutOff (course86 fetch image.now page.now fill.now (start_by choice) (choice ∷ [])) devices.old limit prefix.now (H.state host.old) (H.state host.new) fault) }
    ensures only { OnlySays (H.state host.old) (H.state host.new) }
    ensures within { IfOk result (λ o. o.steps ≤ limit) }
    ensures counted { OnOk result (SameFaults (H.state host.old) (H.state host.new)) }
{
    let start = start_by(choice);
    let mut machine = Running86::new(alloc, image, start, page, fill, choice)?;
    converse(alloc, &mut machine, devices, host, prefix, limit)
}

/// Runs the cells of a HEX file on the 8080 that fetches bytes, over devices for up to `limit` instructions, and says each event of its
/// dialogue, in a line that begins with the prefix. The fill is memory before the cells and then the page are put into it, and has what
/// registers and flags hold at the start; the choice gives what is unknown.
pub fn run_bytes<H: Host>(
    alloc: Global,
    hex: &HexFile,
    top: u16,
    page: &Page,
    fill: &[u8],
    choice: u128,
    devices: &mut Devices,
    limit: u64,
    host: &mut H,
    prefix: &[u8],
) -> Result<Conversation, TalkFault>
    requires top { is_top top ≡ true }
    requires fill { length fill.now ≡ 0x10000 }
    ensures run { IfOk result (λ o. SaysRun (course_bytes fetch_of_bytes hex.now top page.now fill.now (choice ∷ [])) devices.old limit prefix.now o devices.new (H.state host.old) (H.state host.new)) }
    ensures cut { IfErr result (IsCutOff (course_bytes fetch_of_bytes hex.now top page.now fill.now (choice ∷ [])) devices.old limit prefix.now (H.state host.old) (H.state host.new)) }
    ensures only { OnlySays (H.state host.old) (H.state host.new) }
    ensures within { IfOk result (λ o. o.steps ≤ limit) }
    ensures counted { OnOk result (SameFaults (H.state host.old) (H.state host.new)) }
{
    let mut machine = RunningBytes::new(alloc, hex, top, page, fill, choice)?;
    converse(alloc, &mut machine, devices, host, prefix, limit)
}

// The registers, segments and flags at the start.
fn start_by(choice: u128) -> Start86
    ensures { start_of result ≡ start_by choice }
{
    let word = (choice % 0x1_0000) as u16;
    Start86 {
        ax: word,
        cx: word,
        dx: word,
        bx: word,
        sp: word,
        si: word,
        ds: 0,
        ss: 1,
        flags: (choice % 32) as u8,
    }
}
