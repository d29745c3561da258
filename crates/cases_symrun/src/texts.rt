// Plain and lean texts of programs.
use asm80_types::Program80;
use asm86::{Line86, code_size, write_line};
use flow::Graph;
use std::alloc::{AllocError, Global};
use templates::{lean_text, plain_text};

/// How many lines of a lean text stand above those of the instructions: CSEG and the prologue.
const LINES_BEFORE: usize = 8;

// A line without its CR LF.
fn push_line(text: &mut String, line: &[u8]) -> Result<(), AllocError> {
    match std::str::from_utf8(line) {
        Ok(line) => text.push_str(line.trim_end()),
        Err(_) => text.push_str("no text"),
    }
}

fn push_lines(text: &mut String, lines: &[Line86]) -> Result<(), AllocError> {
    let mut before = "";
    for line in lines {
        text.push_str(before)?;
        push_line(text, write_line(line.stmt).as_slice())?;
        before = " / ";
    }
    Ok(())
}

// So many of these lines, from the first one of the instructions on.
fn first_lines(alloc: Global, lines: &[Line86], count: usize) -> Result<String, AllocError> {
    let mut text = String::new(alloc);
    let (_, behind) = lines.split_at(LINES_BEFORE.min(lines.len()));
    let (first, _) = behind.split_at(count.min(behind.len()));
    push_lines(&mut text, first)?;
    Ok(text)
}

/// So many lines of the lean text of a program, from the first one of its instructions on.
pub fn lean_lines(alloc: Global, program: &Program80, count: usize) -> Result<String, AllocError> {
    let graph = Graph::solved(alloc, program)?;
    let lines = lean_text(alloc, program, &graph)?;
    first_lines(alloc, lines.as_slice(), count)
}

/// The plain text of a program: the number of its lines and that of the last one, the size of its code in bytes, and all lines.
pub fn whole_text(alloc: Global, program: &Program80) -> Result<String, AllocError> {
    let lines = plain_text(alloc, program)?;
    let size = code_size(&lines);
    let count = lines.len();
    let last = match lines.last() {
        Some(line) => line.line,
        None => 0,
    };
    let mut text = format!(in alloc; "{count} lines, the last one {last}, {size} bytes: ")?;
    push_lines(&mut text, lines.as_slice())?;
    Ok(text)
}
