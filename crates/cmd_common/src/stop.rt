// The ends of a command's work that are not status 0, and their lines.
ghost use Rattle.std.specs.Prelude.{◌≡◌, ◌++◌, codes, false, IfOk, MatchOption};
ghost use Rattle.std.specs.String.{string_bytes};
ghost use Rattle.cmd_common.specs.Names.{FileNames, names_read};
ghost use Rattle.cmd_common.specs.Lines.{status_of, is_fixed, line_of_stop, named_line, rule_line, count_line, stopped_line, not_shown_line, drive_line, odd_call, word_digits};

use crate::names::{InputFile, InputNames};
use crate::reasons::reason_name;
use crate::rules::{asm_rule, line_rule, profile_rule, text_rule};
use asm80_source_def::AsmRule;
use asm80_types::LineRule;
use asm86_line_types::TextRule;
use cells::Rule;
use std::alloc::{AllocError, Global};
use sym_block_def::Reason;

/// Why a command's work did not come to status 0. Lines are counted from 1, and 0 is no line.
#[derive(Clone, Copy)]
pub enum Stop {
    /// The source breaks a rule of lines.
    SourceLine(u32, LineRule),
    /// The source breaks a rule of names, values or layout.
    SourceProgram(u32, AsmRule),
    /// This file of the command was not read.
    ReadFailed(InputFile),
    /// A file was not written.
    WriteFailed,
    OutOfMemory,
    /// The 8080 left the profile at the instruction of this line.
    LeftProfile(u32, Rule),
    /// As many instructions ran as may.
    StepLimit(u32),
    /// The block at this address is not shown, or, at 0, what is looked at before the blocks, for this reason.
    NotShown(u16, Reason),
    /// A call wants input, and none is left.
    InputEnded,
    /// The text breaks a rule.
    TextLine(u32, TextRule),
    /// The short jump of this line of the text does not reach.
    ShortJump(u32),
    /// At this offset no instruction of the 8086's subset stands.
    NoInstruction(u16),
    /// The instruction at this offset uses the stack, and SS is not DS.
    StackSegment(u16),
    /// The INT at this offset calls this function in a way that the profile lacks.
    OddCall(u16, u8),
    /// The disk's file is none: the byte at this place, counted from 0, cannot go on.
    BadDisk(u32),
    /// A call of this function needs a drive that is not there.
    NoDrive(u8),
    /// The code has this number of bytes, above 65,535.
    CodeTooLarge(u32),
    /// This file of the command has more bytes than its limit.
    FileTooLong(InputFile),
    /// The file is no command file: the byte at this place, counted from 0, cannot go on.
    BadCommandFile(u32),
    /// The file is no HEX file: this line is the first that fits nowhere, or the number of lines plus 1 where no end line comes.
    BadHex(u32),
    /// The text has this number of statements, more than are shrunk.
    TooManyStatements(u32),
}

impl From<AllocError> for Stop {
    ghost use Rattle.cmd_common.specs.declared.stop.Stop.TheVariants.{OutOfMemory};

    ghost from_gives = { λ _ stop. stop ≡ OutOfMemory };

    fn from(_error: AllocError) -> Stop {
        Stop::OutOfMemory
    }
}

impl Stop {
    /// The status of the process.
    pub fn status(self) -> u8
        ensures { result ≡ status_of self }
    {
        match self {
            Stop::SourceLine(_, _) | Stop::SourceProgram(_, _) => 1,
            Stop::ReadFailed(_) => 3,
            Stop::WriteFailed => 4,
            Stop::OutOfMemory => 5,
            Stop::LeftProfile(_, _) => 6,
            Stop::StepLimit(_) => 7,
            Stop::NotShown(_, _) => 8,
            Stop::InputEnded => 9,
            Stop::TextLine(_, _) | Stop::ShortJump(_) => 10,
            Stop::NoInstruction(_) | Stop::StackSegment(_) | Stop::OddCall(_, _) => 11,
            Stop::BadDisk(_) | Stop::NoDrive(_) => 12,
            Stop::CodeTooLarge(_) => 13,
            Stop::FileTooLong(_) => 14,
            Stop::BadCommandFile(_) => 15,
            Stop::BadHex(_) => 16,
            Stop::TooManyStatements(_) => 17,
        }
    }

    /// The line, where it is always the same: it takes no memory.
    pub fn fixed_line(self) -> Option<&'static str>
        ensures { MatchOption result (is_fixed self ≡ false) (λ line. (names : FileNames) → line.now ≡ line_of_stop names self) }
    {
        match self {
            Stop::WriteFailed => Some("write failed\n"),
            Stop::OutOfMemory => Some("out of memory\n"),
            Stop::InputEnded => Some("input ended\n"),
            _ => None,
        }
    }

    /// The line, with the name that a file has among these.
    pub fn line(self, alloc: Global, names: &InputNames<'_>) -> Result<String, AllocError>
        ensures { IfOk result (λ line. string_bytes line ≡ line_of_stop (names_read names.now) self) }
    {
        match self {
            Stop::SourceLine(line, rule) => {
                rule_line(alloc, "source line ", line, line_rule(rule))
            }
            Stop::SourceProgram(line, rule) => {
                rule_line(alloc, "source line ", line, asm_rule(rule))
            }
            Stop::ReadFailed(file) => named_line(alloc, "read failed: ", names.name(file)),
            Stop::WriteFailed => String::from_str(alloc, "write failed\n"),
            Stop::OutOfMemory => String::from_str(alloc, "out of memory\n"),
            Stop::LeftProfile(line, rule) => {
                rule_line(alloc, "left the profile at line ", line, profile_rule(rule))
            }
            Stop::StepLimit(steps) => count_line(alloc, "step limit: ", steps, " instructions"),
            Stop::NotShown(at, reason) => not_shown_line(alloc, at, reason_name(reason)),
            Stop::InputEnded => String::from_str(alloc, "input ended\n"),
            Stop::TextLine(line, rule) => rule_line(alloc, "text line ", line, text_rule(rule)),
            Stop::ShortJump(line) => rule_line(alloc, "text line ", line, "short"),
            Stop::NoInstruction(offset) => stopped_line(alloc, offset, "no instruction"),
            Stop::StackSegment(offset) => stopped_line(alloc, offset, "stack segment"),
            Stop::OddCall(offset, function) => odd_call_line(alloc, offset, function),
            Stop::BadDisk(place) => count_line(alloc, "disk refused: byte ", place, ""),
            Stop::NoDrive(function) => drive_line(alloc, function),
            Stop::CodeTooLarge(size) => count_line(alloc, "code too large: ", size, " bytes"),
            Stop::FileTooLong(file) => named_line(alloc, "file too long: ", names.name(file)),
            Stop::BadCommandFile(place) => {
                count_line(alloc, "command file refused: byte ", place, "")
            }
            Stop::BadHex(line) => count_line(alloc, "hex refused: line ", line, ""),
            Stop::TooManyStatements(count) => {
                count_line(alloc, "too many statements: ", count, "")
            }
        }
    }
}

// A text, and the name of a file.
fn named_line(alloc: Global, text: &str, name: &str) -> Result<String, AllocError>
    ensures { IfOk result (λ line. string_bytes line ≡ named_line text.now name.now) }
{
    format!(in alloc; "{text}{name}\n")
}

// A text, the number of a line, and a rule.
fn rule_line(alloc: Global, text: &str, line: u32, rule: &str) -> Result<String, AllocError>
    ensures { IfOk result (λ said. string_bytes said ≡ rule_line text.now line rule.now) }
{
    format!(in alloc; "{text}{line}: {rule}\n")
}

/// A text, a number, and what is counted.
pub fn count_line(alloc: Global, text: &str, number: u32, what: &str) -> Result<String, AllocError>
    ensures { IfOk result (λ line. string_bytes line ≡ count_line text.now number what.now) }
{
    format!(in alloc; "{text}{number}{what}\n")
}

/// A word in four hexadecimal digits.
pub fn word_digits(alloc: Global, word: u16) -> Result<String, AllocError>
    ensures { IfOk result (λ digits. string_bytes digits ≡ word_digits word) }
{
    hex::encode(alloc, &[(word / 256) as u8, (word % 256) as u8])
}

/// The block that is not shown, and why.
pub fn not_shown_line(alloc: Global, at: u16, reason: &str) -> Result<String, AllocError>
    ensures { IfOk result (λ line. string_bytes line ≡ not_shown_line at reason.now) }
{
    address_line(alloc, "not shown: block ", at, ", ", reason)
}

// Where a machine stopped, and why.
fn stopped_line(alloc: Global, offset: u16, why: &str) -> Result<String, AllocError>
    ensures { IfOk result (λ line. string_bytes line ≡ stopped_line offset why.now) }
{
    address_line(alloc, "machine stopped at ", offset, ": ", why)
}

// A text, an address in hexadecimal digits, a mark, and why.
fn address_line(
    alloc: Global,
    text: &str,
    address: u16,
    mark: &str,
    why: &str,
) -> Result<String, AllocError>
    ensures { IfOk result (λ line. string_bytes line
        ≡ text.now ++ (word_digits address ++ (mark.now ++ (why.now ++ codes "\n")))) }
{
    let digits = word_digits(alloc, address)?;
    format!(in alloc; "{text}{digits}{mark}{why}\n")
}

// Where a machine stopped at a call of this function.
fn odd_call_line(alloc: Global, offset: u16, function: u8) -> Result<String, AllocError>
    ensures { IfOk result (λ line. string_bytes line ≡ stopped_line offset (odd_call function)) }
{
    let digits = hex::encode(alloc, &[function])?;
    let why = format!(in alloc; "call {digits}")?;
    stopped_line(alloc, offset, why.as_str())
}

// The function whose drive is not there.
fn drive_line(alloc: Global, function: u8) -> Result<String, AllocError>
    ensures { IfOk result (λ line. string_bytes line ≡ drive_line function) }
{
    let digits = hex::encode(alloc, &[function])?;
    named_line(alloc, "drive refused: function ", digits.as_str())
}
