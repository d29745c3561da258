// Lines of an explanation that name a statement.

ghost use Rattle.std.specs.Prelude.{◌≡◌, ◌++◌, codes, OnOk};
ghost use Rattle.cmd_explain.specs.Lines.{statement_words, without_first_tab, blank_for_tab, ends_at, wanted_line};

use asm86_line_types::{Line86, Stmt86, write_line};
use std::alloc::{AllocError, Global};

fn blank_for_tab(byte: u8) -> u8
    ensures { result ≡ blank_for_tab byte }
{
    if byte == b'\t' { b' ' } else { byte }
}

fn without_first_tab(line: &[u8]) -> &[u8]
    ensures { result.now ≡ without_first_tab line.now }
{
    match line {
        [b'\t', rest @ ..] => rest,
        _ => line,
    }
}

// The words of a statement. They are bytes, as a written line is.
fn tell_statement(told: &mut Vec<u8>, stmt: Stmt86) -> Result<(), AllocError>
    ensures { OnOk result (told.new.items ≡ told.old.items ++ statement_words stmt) }
{
    let written = write_line(stmt);
    let line = written.as_slice();
    for byte in without_first_tab(&line[..line.len().saturating_sub(2)]) {
        told.push(blank_for_tab(*byte))?;
    }
    Ok(())
}

// A line that names a statement after what it says of it.
fn tell_named(told: &mut Vec<u8>, before: &str, stmt: Stmt86) -> Result<(), AllocError>
    ensures { OnOk result (told.new.items ≡ told.old.items ++ (before.now ++ (statement_words stmt ++ codes "\n"))) }
{
    told.extend_from_slice(before.as_bytes())?;
    tell_statement(told, stmt)?;
    told.extend_from_slice(b"\n")
}

/// The statement at the front of some lines, as the one at which what is wanted ends.
pub fn tell_end(alloc: Global, told: &mut Vec<u8>, from: &[Line86]) -> Result<(), AllocError>
    ensures { OnOk result (told.new.items ≡ told.old.items ++ ends_at from.now) }
{
    match from.split_first() {
        Some((line, _)) => {
            let before = format!(in alloc; "ends at text line {}: ", line.line)?;
            tell_named(told, before.as_str(), line.stmt)
        }
        None => told.extend_from_slice(b"ends at the end of the text\n"),
    }
}

/// The statement that is wanted.
pub fn tell_wanted(told: &mut Vec<u8>, stmt: Stmt86) -> Result<(), AllocError>
    ensures { OnOk result (told.new.items ≡ told.old.items ++ wanted_line stmt) }
{
    tell_named(told, "wanted: ", stmt)
}
