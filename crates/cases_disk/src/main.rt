// Tests of the small BDOS, a case a line: names, disk files and where they are refused, the functions at their edges and those of the
// console, one call after another over a memory of 64K, start pages, and disks of 64 files that are written and read. Expected answers, in
// the file `stdout`, are by the CP/M 2.2 Operating System Manual and this project's own tables.
#![tactic(auto)]

mod cases;
mod memory;
mod shown;

use cases::{State, answer};
use std::alloc::{AllocError, Global};

// A line with its answer behind it, if there is one.
fn with_answer(alloc: Global, line: &str, answer: &str) -> Result<String, AllocError> {
    if answer.is_empty() {
        String::from_str(alloc, line)
    } else {
        format!(in alloc; "{line} => {answer}")
    }
}

// Empty lines and those that begin with `#` are no cases, and stand between the answers as they are.
fn told(alloc: Global, state: &mut State, line: &str) -> anyhow::Result<String> {
    if line.is_empty() || line.starts_with('#') {
        return Ok(with_answer(alloc, line, "")?);
    }
    let answer = answer(alloc, state, line)?;
    Ok(with_answer(alloc, line, answer.as_str())?)
}

fn main(rt: HostRuntime) -> anyhow::Result<()> {
    let mut state = State::new(rt.alloc())?;
    for line in rt.lines(rt.alloc()) {
        let line = line?;
        let text = told(rt.alloc(), &mut state, line.as_str())?;
        rt.println(text)?;
    }
    Ok(())
}
