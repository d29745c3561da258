// The work of `explain`: a source and a text in, and what is found of them said, with why.

ghost use Rattle.std.specs.Prelude.{◌≡◌, ◌<◌, ◌≤◌, ◌^◌, true, length, IfOk, IfErr, OnOk, OnErr};
ghost use Rattle.std.specs.String.{string_bytes};
ghost use Rattle.host.specs.Host.{SameFiles, SameFaults, OnlySays, Says, WriteFault};
ghost use Rattle.host_files.specs.Transfer.{CutsLine};
ghost use Rattle.asm80_types.specs.Program.{is_top};
ghost use Rattle.asm86_line_types.specs.Image.{IsImage};
ghost use Rattle.cmd_arguments.specs.ReadCommands.{check_read};
ghost use Rattle.cmd_common.specs.declared.stop.Stop.TheVariants.{OutOfMemory, NotShown};
ghost use Rattle.cmd_common.specs.Names.{names_read};
ghost use Rattle.cmd_common.specs.Lines.{not_shown_line, reason_name};
ghost use Rattle.cmd_check.specs.Checks.{LoadStops};
ghost use Rattle.cmd_check.specs.Completes.{CheckCompletes};
ghost use Rattle.cmd_explain.specs.Explains.{SaysBefore, ExplainGives};
ghost use Rattle.cmd_explain.specs.Worked.{last_line, SaysFound, IsMadeOf, ComesTo};

use crate::telling::{Explanation, explain_text};
use asm80_types::Program80;
use cmd_arguments::Check;
use cmd_check::{checks_have_one_outcome, load};
use cmd_common::{
    InputNames, LoadedText, Stop, not_shown_line, reason_name, say_done, say_made, say_stop,
    shown_line,
};
use host::{Host, HostFault};
use host_files::say_line;
use std::alloc::{AllocError, Global};
use sym_block_def::Reason;
use xlt_core::Finding;

/// Checks the text of a command beside its source, says what is found and why, and answers the status. The command's top is one that a
/// program area may have.
pub fn explain<H: Host>(alloc: Global, host: &mut H, command: &Check<'_>) -> u8
    requires { is_top command.now.top ≡ true }
    ensures gives { ExplainGives (check_read command.now) (H.state host.old) (H.state host.new) result }
    ensures files { SameFiles (H.state host.old) (H.state host.new) }
    ensures completes { CheckCompletes (check_read command.now) (H.state host.old) (H.state host.new) result }
{
    checks_have_one_outcome();
    carry_out(alloc, host, command)
}

// The work, and what is said.
fn carry_out<H: Host>(alloc: Global, host: &mut H, command: &Check<'_>) -> u8
    requires { is_top command.now.top ≡ true }
    ensures gives { ExplainGives (check_read command.now) (H.state host.old) (H.state host.new) result }
    ensures files { SameFiles (H.state host.old) (H.state host.new) }
{
    let names = InputNames::two(command.source, command.text);
    match work(alloc, host, command) {
        Ok(worked) => say_worked(host, &names, &worked),
        Err(stop) => say_stop(alloc, host, &names, stop),
    }
}

// What the work comes to: what is found of a text, with why, and the last line. Both are made before anything is said.
#[derive(Drop)]
struct Worked {
    explanation: Explanation,
    last_line: String,
}

fn work<H: Host>(alloc: Global, host: &mut H, command: &Check<'_>) -> Result<Worked, Stop>
    requires { is_top command.now.top ≡ true }
    ensures worked { IfOk result (λ w. ComesTo (check_read command.now) (H.state host.old) (H.state host.new) w.explanation.finding w.explanation.text.items (string_bytes w.last_line)) }
    ensures stopped { IfErr result (LoadStops (check_read command.now) (H.state host.old) (H.state host.new)) }
{
    let loaded = load(alloc, host, command)?;
    work_on(alloc, &loaded.program, &loaded.text)
}

// The same of what was loaded.
fn work_on(alloc: Global, program: &Program80, text: &LoadedText) -> Result<Worked, Stop>
    requires image { IsImage text.now.lines.items text.now.image }
    requires few { length text.now.lines.items < 2 ^ 28 }
    ensures made { IfOk result (λ w. IsMadeOf program.now text.now.lines.items w.explanation.finding w.explanation.text.items (string_bytes w.last_line)) }
    ensures stopped { IfErr result (λ stop. stop ≡ OutOfMemory) }
{
    let explanation = explain_text(alloc, program, text)?;
    let last_line = last_line(alloc, explanation.finding)?;
    Ok(Worked {
        explanation,
        last_line,
    })
}

fn last_line(alloc: Global, finding: Finding) -> Result<String, AllocError>
    ensures { IfOk result (λ line. string_bytes line ≡ last_line finding) }
{
    match finding {
        Finding::Shown(blocks) => shown_line(alloc, blocks),
        Finding::NotShown(at, reason) => not_shown_line(alloc, at, reason_name(reason)),
    }
}

// Says why a text is not shown, if it is not, and then the last line.
fn say_worked<H: Host>(host: &mut H, names: &InputNames<'_>, worked: &Worked) -> u8
    requires { string_bytes worked.now.last_line ≡ last_line worked.now.explanation.finding }
    ensures { SaysFound (names_read names.now) worked.now.explanation.finding worked.now.explanation.text.items (string_bytes worked.now.last_line) (H.state host.old) (H.state host.new) result }
{
    let last_line = worked.last_line.as_str();
    match worked.explanation.finding {
        Finding::Shown(_) => say_done(host, last_line),
        Finding::NotShown(at, reason) => {
            say_why(
                host,
                names,
                at,
                reason,
                worked.explanation.text.as_slice(),
                last_line,
            )
        }
    }
}

// Says why a text is not shown, and then the last line.
fn say_why<H: Host>(
    host: &mut H,
    names: &InputNames<'_>,
    at: u16,
    reason: Reason,
    text: &[u8],
    last_line: &str,
) -> u8
    requires { last_line.now ≡ not_shown_line at (reason_name reason) }
    ensures { SaysBefore (names_read names.now) text.now (NotShown at reason) (H.state host.old) (H.state host.new) result }
{
    match say_lines(host, text) {
        Ok(()) => say_made(host, names, Stop::NotShown(at, reason), last_line),
        Err(HostFault::Failed) => 4,
        Err(HostFault::Memory) => 5,
    }
}

// Says lines, each by a call of its own.
fn say_lines<H: Host>(host: &mut H, text: &[u8]) -> Result<(), HostFault>
    ensures only { OnlySays (H.state host.old) (H.state host.new) }
    ensures ok { OnOk result (Says (H.state host.old) (H.state host.new) text.now) }
    ensures counted { OnOk result (SameFaults (H.state host.old) (H.state host.new)) }
    ensures fault { OnErr result (CutsLine text.now (H.state host.old) (H.state host.new)) }
    ensures failed { IfErr result (WriteFault (H.state host.old) (H.state host.new)) }
{
    let mut said = 0;
    while said < text.len() {
        let rest = &text[said..];
        let size = line_size(rest);
        say_line(host, &rest[..size])?;
        said += size;
    }
    Ok(())
}

// How many bytes the first line of a text has, with its LF.
fn line_size(text: &[u8]) -> usize
    requires { 0 < length text.now }
    ensures some { 0 < result }
    ensures within { result ≤ length text.now }
{
    for place in 0..text.len() {
        if text[place] == b'\n' {
            return place + 1;
        }
    }
    text.len()
}
