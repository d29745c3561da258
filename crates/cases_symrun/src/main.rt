// Tests of blocks, needs and texts, a case a line: what a text's walk comes to, by each statement that may end or refuse it, at each kind
// of label, and at the last instruction that Length allows; instructions, each alone with its plain template, that agree in actions, parts,
// SP and exits, and are shown with all parts kept (`check_all_kept`); numbers that are held and stored; what is said of two outcomes that
// do not match. Of programs the table of edges row by row with the needs of each, leaders and blocks at their edges, a loop of 8,192
// instructions, saves, lean and plain texts. And the bytes of every template, by each register, M, pair and condition, with and without a
// save; such a case goes from a line of source to the image of the plain text, which is written and read again. Expected answers, in the
// file `stdout`, are by this project's own tables; the bytes are those of NASM.
#![tactic(auto)]

mod agreeing;
mod answers;
mod blocks;
mod codes;
mod explaining;
mod graphs;
mod running;
mod shown;
mod sources;
mod texts;

use answers::answer;
use std::alloc::{AllocError, Global};

fn with_answer(alloc: Global, line: &str, answer: &str) -> Result<String, AllocError> {
    format!(in alloc; "{line} => {answer}")
}

// Empty lines and those that begin with `#` are no cases, and stand between the answers as they are.
fn told(alloc: Global, line: &str) -> anyhow::Result<String> {
    if line.is_empty() || line.starts_with('#') {
        return Ok(String::from_str(alloc, line)?);
    }
    let answer = answer(alloc, line)?;
    Ok(with_answer(alloc, line, answer.as_str())?)
}

fn main(rt: HostRuntime) -> anyhow::Result<()> {
    for line in rt.lines(rt.alloc()) {
        let line = line?;
        rt.println(told(rt.alloc(), line.as_str())?)?;
    }
    Ok(())
}
