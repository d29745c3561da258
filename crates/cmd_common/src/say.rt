// What is said last, and the status that goes with it.
ghost use Rattle.std.specs.Prelude.{◌≡◌, ◌<◌, length, map, All, IfErr, OnOk, OnErr};
ghost use Rattle.std.specs.List.{concat};
ghost use Rattle.std.specs.String.{string_bytes};
ghost use Rattle.host.specs.Host.{SameFaults, OnlySays, Says, WriteFault};
ghost use Rattle.host_files.specs.Transfer.{CutsLine};
ghost use Rattle.cmd_common.specs.Lines.{line_of_stop};
ghost use Rattle.cmd_common.specs.Names.{names_read};
ghost use Rattle.cmd_common.specs.Said.{Closes, IsDone, IsRefusedWords, SaysLast, said_status};

use crate::names::InputNames;
use crate::stop::Stop;
use host::{Host, HostFault};
use host_files::say_line;
use std::alloc::Global;

/// Says that the words are no command.
pub fn words_refused<H: Host>(host: &mut H) -> u8
    ensures { IsRefusedWords (H.state host.old) (H.state host.new) result }
{
    say_last(host, "words refused\n", 2)
}

/// Says the line of status 0. A fault there is the status.
pub fn say_done<H: Host>(host: &mut H, line: &str) -> u8
    requires { 0 < length line.now }
    ensures { IsDone line.now (H.state host.old) (H.state host.new) result }
{
    said_status(say_line(host, line.as_bytes()))
}

/// Says the lines of status 0, one after the other. A fault there is the status, and nothing more is said.
pub fn say_report<H: Host>(host: &mut H, lines: &[String]) -> u8
    requires { All (λ line. 0 < length line) (map string_bytes lines.now) }
    ensures { IsDone (concat (map string_bytes lines.now)) (H.state host.old) (H.state host.new) result }
{
    said_status(say_lines(host, lines))
}

// The status by how what is said with status 0 was said.
fn said_status(said: Result<(), HostFault>) -> u8
    ensures { result ≡ said_status said }
{
    match said {
        Ok(()) => 0,
        Err(HostFault::Failed) => 4,
        Err(HostFault::Memory) => 5,
    }
}

// Says lines, each by a call of its own.
fn say_lines<H: Host>(host: &mut H, lines: &[String]) -> Result<(), HostFault>
    requires { All (λ line. 0 < length line) (map string_bytes lines.now) }
    ensures only { OnlySays (H.state host.old) (H.state host.new) }
    ensures ok { OnOk result (Says (H.state host.old) (H.state host.new) (concat (map string_bytes lines.now))) }
    ensures counted { OnOk result (SameFaults (H.state host.old) (H.state host.new)) }
    ensures fault { OnErr result (CutsLine (concat (map string_bytes lines.now)) (H.state host.old) (H.state host.new)) }
    ensures failed { IfErr result (WriteFault (H.state host.old) (H.state host.new)) }
{
    for line in lines {
        say_line(host, line.as_bytes())?;
    }
    Ok(())
}

/// Says why a command's work did not come to status 0, with the name of the file that stopped it among these, and answers its status.
pub fn say_stop<H: Host>(alloc: Global, host: &mut H, names: &InputNames<'_>, stop: Stop) -> u8
    ensures { Closes (names_read names.now) stop (H.state host.old) (H.state host.new) result }
{
    if let Some(line) = stop.fixed_line() {
        return say_last(host, line, stop.status());
    }
    match stop.line(alloc, names) {
        Ok(line) => say_last(host, line.as_str(), stop.status()),
        Err(_) => say_last(host, "out of memory\n", 5),
    }
}

/// Says the line of a stop, which was made before, and answers its status.
pub fn say_made<H: Host>(host: &mut H, names: &InputNames<'_>, stop: Stop, line: &str) -> u8
    requires some { 0 < length line.now }
    requires made { line.now ≡ line_of_stop (names_read names.now) stop }
    ensures { Closes (names_read names.now) stop (H.state host.old) (H.state host.new) result }
{
    say_last(host, line, stop.status())
}

// Says a last line whose fault changes no status.
fn say_last<H: Host>(host: &mut H, line: &str, status: u8) -> u8
    requires { 0 < length line.now }
    ensures status { result ≡ status }
    ensures said { SaysLast line.now (H.state host.old) (H.state host.new) }
{
    let _ = say_line(host, line.as_bytes());
    status
}
