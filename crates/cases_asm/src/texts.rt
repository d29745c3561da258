// What a case of an ASM-86 text is answered.
ghost use Rattle.std.specs.Prelude.{◌≡◌, ◌<◌, ◌^◌, length, true, IfOk};
ghost use Rattle.asm86_line_types.specs.Image.{statements};
ghost use Rattle.asm86_line_types.specs.Order.{at_start, in_order};

mod escapes;
mod shown;

use asm86::{Line86, Text86, TextFault, image};
use asm86_line_reader::{LineFault, read_line};
use escapes::bytes_of;
use shown::{image_text, lines_text, statements_text};
use std::alloc::{AllocError, Global};

// The size of a piece that any text is.
const WHOLE: usize = usize::MAX;

/// A case with its answer behind it. Empty lines and those that begin with `#` are no cases, and stand as they are.
pub fn told(alloc: Global, line: &str) -> Result<String, AllocError> {
    if line.is_empty() || line.starts_with('#') {
        return String::from_str(alloc, line);
    }
    let answer = answer(alloc, line)?;
    format!(in alloc; "{line} => {answer}")
}

// The answer of a case: `line`, `text`, `pieces` or `image`, and what is read so.
fn answer(alloc: Global, case: &str) -> Result<String, AllocError> {
    let (kind, text) = case.split_once(' ').unwrap_or((case, ""));
    let bytes = bytes_of(alloc, text)?;
    match kind {
        "line" => line_answer(alloc, &bytes),
        "text" => listed(alloc, read(alloc, &bytes, WHOLE)),
        "pieces" => pieces_answer(alloc, &bytes),
        "image" => image_answer(alloc, read(alloc, &bytes, WHOLE)),
        _ => String::from_str(alloc, "no such case"),
    }
}

// The statements of a line, or the rule that it breaks.
fn line_answer(alloc: Global, line: &[u8]) -> Result<String, AllocError> {
    match read_line(alloc, line) {
        Ok(statements) => statements_text(alloc, &statements),
        Err(LineFault::Rule(rule)) => format!(in alloc; "{rule:?}"),
        Err(LineFault::Memory) => String::from_str(alloc, "out of memory"),
    }
}

// What a text gives, whole and in pieces of any size.
fn pieces_answer(alloc: Global, text: &[u8]) -> Result<String, AllocError> {
    let whole = listed(alloc, read(alloc, text, WHOLE))?;
    for size in 1..text.len() {
        let other = listed(alloc, read(alloc, text, size))?;
        if other != whole {
            return format!(in alloc; "{whole}, but in pieces of {size} {other}");
        }
    }
    Ok(whole)
}

// What a text in pieces of a size is read as. A fault that `feed` answers stands, so `finish` tells it.
fn read(alloc: Global, text: &[u8], size: usize) -> Result<Vec<Line86>, TextFault>
    requires { 0 < size }
    ensures in_order { IfOk result (λ v. in_order at_start (statements v.items) ≡ true) }
    ensures few { IfOk result (λ v. length v.items < 2 ^ 28) }
{
    let mut reader = Text86::new(alloc)?;
    for piece in text.chunks(size) {
        let _ = reader.feed(piece);
    }
    reader.finish()
}

// The statements of a text, or its fault.
fn listed(alloc: Global, read: Result<Vec<Line86>, TextFault>) -> Result<String, AllocError> {
    match read {
        Ok(lines) => lines_text(alloc, &lines),
        Err(fault) => format!(in alloc; "{fault}"),
    }
}

// The image of a text, or the fault of the text or of its image.
fn image_answer(alloc: Global, read: Result<Vec<Line86>, TextFault>) -> Result<String, AllocError>
    requires in_order { IfOk read (λ v. in_order at_start (statements v.items) ≡ true) }
    requires few { IfOk read (λ v. length v.items < 2 ^ 28) }
{
    match read {
        Ok(lines) => imaged(alloc, &lines),
        Err(fault) => format!(in alloc; "{fault}"),
    }
}

fn imaged(alloc: Global, lines: &[Line86]) -> Result<String, AllocError>
    requires in_order { in_order at_start (statements lines.now) ≡ true }
    requires few { length lines.now < 2 ^ 28 }
{
    match image(alloc, lines) {
        Ok(image) => image_text(alloc, lines, &image),
        Err(fault) => format!(in alloc; "{fault}"),
    }
}
