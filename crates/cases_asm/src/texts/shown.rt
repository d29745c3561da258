// How statements and images are shown.
use asm86::{Image86, Line86, Stmt86, write_line};
use std::alloc::{AllocError, Global};

/// The most bytes of code that are shown; of longer code the first five and the last four.
const MOST_CODE: usize = 48;

/// Statements in one line, as `L0100: / NOP`, or `none`.
pub fn statements_text(alloc: Global, statements: &[Stmt86]) -> Result<String, AllocError> {
    if statements.is_empty() {
        return String::from_str(alloc, "none");
    }
    let mut text = String::new(alloc);
    for statement in statements {
        push_separator(&mut text)?;
        push_statement(&mut text, *statement)?;
    }
    Ok(text)
}

/// Statements in one line, each behind the number of its line, as `1 CSEG / 2 END`.
pub fn lines_text(alloc: Global, lines: &[Line86]) -> Result<String, AllocError> {
    let mut text = String::new(alloc);
    for Line86 { line, stmt } in lines {
        push_separator(&mut text)?;
        write!(text, "{line} ")?;
        push_statement(&mut text, *stmt)?;
    }
    Ok(text)
}

fn push_separator(text: &mut String) -> Result<(), AllocError> {
    if !text.is_empty() {
        text.push_str(" / ")?;
    }
    Ok(())
}

// The written line of a statement, with a blank for the tab behind its first word.
fn push_statement(text: &mut String, statement: Stmt86) -> Result<(), AllocError> {
    for (i, b) in write_line(statement).as_slice().iter().enumerate() {
        match b {
            b'\t' if i > 0 => text.push(' ')?,
            b'\t' | b'\r' | b'\n' => {}
            _ => text.push(char::from(*b))?,
        }
    }
    Ok(())
}

/// The code of an image, its data cells, and the offset of each label of the text.
pub fn image_text(alloc: Global, lines: &[Line86], image: &Image86) -> Result<String, AllocError> {
    let mut text = code_text(alloc, image.code())?;
    push_cells(&mut text, image.cells())?;
    push_labels(&mut text, lines, image)?;
    Ok(text)
}

fn push_cells(text: &mut String, cells: &[(u16, u8)]) -> Result<(), AllocError> {
    for &(address, byte) in cells {
        write!(text, " {address:04X}={byte:02X}")?;
    }
    Ok(())
}

fn push_labels(text: &mut String, lines: &[Line86], image: &Image86) -> Result<(), AllocError> {
    for line in lines {
        if let Stmt86::Mark(label) = line.stmt {
            text.push(' ')?;
            push_statement(text, line.stmt)?;
            write!(text, "{:04X}", image.offset(label).unwrap_or(0xFFFF))?;
        }
    }
    Ok(())
}

fn code_text(alloc: Global, code: &[u8]) -> Result<String, AllocError> {
    let size = code.len();
    if size <= MOST_CODE {
        return hex::encode_upper(alloc, code);
    }
    let first = hex::encode_upper(alloc, &code[..5])?;
    let last = hex::encode_upper(alloc, &code[size - 4..])?;
    format!(in alloc; "{first}..{last} {size} bytes")
}
