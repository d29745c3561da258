// Tests of the machines, a case a line: single instructions of the 8086 by their bytes, with all that each leaves alone; the calls of its
// system, at each SP where the bytes below it wrap, and their replies; decimal adjustment of each byte with each AC and CY; the tagged
// 8080, the untagged 8080 and the 8086 step by step: what each step answers, which replies are taken and what they leave, what IN and OUT
// and their replies change of all that a machine holds; the stops of plain bytes, what choices give, and both machines of the 8080 side by
// side on whole programs. And programs as bytes: the HEX file of a source, and what an 8080 that fetches bytes does with a HEX file: what it
// asks, and how it ends. Expected answers, in the file `stdout`, are by the Intel 8080 and 8086 manuals and the CP/M manuals, those of HEX
// files by an independent model too.
#![tactic(auto)]

mod decimals;
mod events;
mod hex_files;
mod machines;
mod programs;
mod scripts;
mod states;
mod steps;
mod tagged;
mod talks;
mod words;

use programs::Case;
use std::alloc::{AllocError, Global};
use std::io;

// The answer of a case, if it is one.
fn answer(alloc: Global, line: &str) -> Result<Option<String>, AllocError> {
    let mut parts = line.split(" | ");
    let head = parts.next().unwrap_or("");
    let (kind, options) = head.split_once(' ').unwrap_or((head, ""));
    match kind {
        "step86" => steps::answer(alloc, options),
        "daa80" => Ok(Some(decimals::answer(alloc)?)),
        "hex" => hex_files::file_of(alloc, options),
        "run" => Ok(Some(hex_files::run(alloc, options)?)),
        _ => {
            let case = Case {
                kind,
                options,
                source: parts.next().unwrap_or(""),
                words: parts.next().unwrap_or(""),
                tail: parts.next().unwrap_or(""),
            };
            programs::answer(alloc, &case)
        }
    }
}

// A line with its answer behind it. Empty lines and those that begin with `#` are no cases, and stand as they are.
fn told(alloc: Global, line: &str) -> Result<String, AllocError> {
    if line.is_empty() || line.starts_with('#') {
        return String::from_str(alloc, line);
    }
    match answer(alloc, line)? {
        Some(answer) => format!(in alloc; "{line} =>{answer}"),
        None => format!(in alloc; "{line} => no such case"),
    }
}

fn main(rt: HostRuntime) -> io::Result<()> {
    for line in rt.lines(rt.alloc()) {
        let line = line?;
        println!(rt; "{}", told(rt.alloc(), line.as_str())?)?;
    }
    Ok(())
}
