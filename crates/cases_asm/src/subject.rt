// What a case is read as.
ghost use Rattle.std.specs.Prelude.{◌≡◌};
ghost use Rattle.asm80_types.specs.Program.{is_top};

use crate::addresses::addresses_text;
use crate::operands::{Asked, operands_text};
use crate::program::program_text;
use crate::source::bytes_of;
use crate::statements::statements_text;
use crate::texts;
use asm80_text::Lines;
use asm80_types::ReadFault;
use std::alloc::{AllocError, Global};
use zilog80::ZLines;

/// What the cases below a heading are.
#[derive(Clone, Copy)]
pub enum Subject {
    Sources(Reading),
    /// Lines and texts of ASM-86; a case says itself what it asks for.
    Texts,
}

/// What a source is read as.
#[derive(Clone, Copy)]
pub enum Reading {
    /// Answered by its statements.
    Statements,
    /// In Zilog's spelling, answered by its statements in Intel's.
    ZilogStatements,
    /// Answered by the addresses of its statements and the meanings of their labels.
    Addresses,
    /// Answered by its program below a top.
    Program(u16),
    /// Statements, answered by what is asked of their operands.
    Operands(Asked),
}

// What the cases below a heading are, if it says so.
fn subject_of(heading: &str) -> Option<Subject> {
    match heading {
        "= ASM-86 texts" => Some(Subject::Texts),
        _ => Some(Subject::Sources(reading_of(heading)?)),
    }
}

fn reading_of(heading: &str) -> Option<Reading> {
    match heading {
        "= statements" => Some(Reading::Statements),
        "= statements in Zilog's spelling" => Some(Reading::ZilogStatements),
        "= addresses and meanings" => Some(Reading::Addresses),
        "= values of operands" => Some(Reading::Operands(Asked::Values)),
        "= what operands make" => Some(Reading::Operands(Asked::Form)),
        "= columns of instructions" => Some(Reading::Operands(Asked::Columns)),
        _ => Some(Reading::Program(top_of(heading)?)),
    }
}

// The top that the heading `= programs below F000H` has.
fn top_of(heading: &str) -> Option<u16> {
    let (_, top) = heading.split_once("programs below ")?;
    let (digits, _) = top.split_once('H')?;
    u16::from_str_radix(digits, 16).ok()
}

// Whether a program area may have the top.
fn is_top(top: u16) -> bool
    ensures { result ≡ is_top top }
{
    top % 0x100 == 0 && 0x1000 <= top && top <= 0xFF00
}

fn program_below(alloc: Global, case: &[u8], top: u16) -> Result<String, ReadFault> {
    if is_top(top) {
        program_text(alloc, case, top)
    } else {
        Ok(String::from_str(alloc, "no top")?)
    }
}

fn outcome(alloc: Global, reading: Reading, source: &[u8]) -> Result<String, ReadFault> {
    match reading {
        Reading::Statements => statements_text::<Lines>(alloc, source),
        Reading::ZilogStatements => statements_text::<ZLines>(alloc, source),
        Reading::Addresses => addresses_text(alloc, source),
        Reading::Program(top) => program_below(alloc, source, top),
        Reading::Operands(asked) => operands_text(alloc, source, asked),
    }
}

fn source_answer(alloc: Global, reading: Reading, line: &str) -> Result<String, AllocError> {
    let source = bytes_of(alloc, line)?;
    match outcome(alloc, reading, &source) {
        Ok(text) => Ok(text),
        Err(fault) => fault.to_string(alloc),
    }
}

/// What is said of a line: of a heading itself, which may set the subject, and of a case its outcome.
pub fn answer(alloc: Global, subject: &mut Subject, line: &str) -> Result<String, AllocError> {
    if line.starts_with('=') {
        *subject = subject_of(line).unwrap_or(*subject);
        return line.to_string(alloc);
    }
    match *subject {
        Subject::Sources(reading) => source_answer(alloc, reading, line),
        Subject::Texts => texts::told(alloc, line),
    }
}
