// The call table (CP/M 2.2 Operating System Manual, "BDOS functions").
ghost use Rattle.std.specs.Prelude.{◌≡◌, ◌<◌, ◌≤◌, option_map, IfSome};
ghost use Rattle.dialogue.specs.Table.{row_of, laid_out};
ghost use Rattle.dialogue.specs.Places.{HaveCells};

use AnswerKind::*;
use AnswerRule::*;
use Argument::*;
use Extent::*;

/// Where a call finds its argument.
#[derive(Clone, Copy)]
pub enum Argument {
    NoArgument,
    InE,
    /// The byte in E, which is not 0FEH: the direct console's.
    DirectInE,
    InDE,
}

/// What a call answers.
#[derive(Clone, Copy, PartialEq, Eq)]
pub enum AnswerKind {
    NoAnswer,
    ByteAnswer,
    WordAnswer,
}

/// What a call answers, by its argument.
#[derive(Clone, Copy)]
pub enum AnswerRule {
    Always(AnswerKind),
    /// A byte where the argument is this one, else nothing.
    ByteWhere(u8),
}

/// Memory that a call touches.
#[derive(Clone, Copy)]
pub enum Extent {
    /// `F(offset, len)`: `len` cells from DE + `offset` up.
    F(u16, u16),
    /// The 128 cells from the DMA address up.
    Dma,
    /// The cells from DE up to the first `$`, without it.
    Text,
    /// The cells from DE + 1 up that a line of up to mx bytes takes, with its length before it; mx is the byte at DE.
    Line,
}

/// A row of the table: what a function reads and may write, in order and with None after it.
#[derive(Clone, Copy)]
pub struct Row {
    pub argument: Argument,
    pub answer: AnswerRule,
    pub reads: [Option<Extent>; 3],
    pub writes: [Option<Extent>; 2],
}

/// The row of a function, if the profile has it.
pub fn row_of(function: u8) -> Option<Row>
    ensures row { result ≡ option_map laid_out (row_of function) }
    ensures cells { IfSome result HaveCells }
{
    match function {
        0..=12 => device_row(function),
        13..=32 => file_row(function),
        _ => random_row(function),
    }
}

/// The row of a function of the system or of a character device: those below 13.
#[tactic(auto, unfolding(crate::specs::Table::row_of))]
#[rattlefmt::skip]
fn device_row(function: u8) -> Option<Row>
    requires { function < 13 }
    ensures row { result ≡ option_map laid_out (row_of function) }
    ensures cells { IfSome result HaveCells }
{
    let (argument, answer, reads, writes) = match function {
        0 => (NoArgument, Always(NoAnswer), [None; 3], [None; 2]),
        1 | 11 => (NoArgument, Always(ByteAnswer), [None; 3], [None; 2]),
        2 => (InE, Always(NoAnswer), [None; 3], [None; 2]),
        6 => (DirectInE, ByteWhere(0xFF), [None; 3], [None; 2]),
        9 => (InDE, Always(NoAnswer), [Some(Text), None, None], [None; 2]),
        10 => (InDE, Always(NoAnswer), [Some(F(0, 1)), None, None], [Some(Line), None]),
        12 => (NoArgument, Always(WordAnswer), [None; 3], [None; 2]),
        _ => return None,
    };
    Some(Row { argument, answer, reads, writes })
}

/// The row of a function of the disks, of a directory or of a file that is read in order: those from 13 up to 32.
#[tactic(auto, unfolding(crate::specs::Table::row_of))]
#[rattlefmt::skip]
fn file_row(function: u8) -> Option<Row>
    requires { 13 ≤ function × function < 33 }
    ensures row { result ≡ option_map laid_out (row_of function) }
    ensures cells { IfSome result HaveCells }
{
    let (argument, answer, reads, writes) = match function {
        13 => (NoArgument, Always(NoAnswer), [None; 3], [None; 2]),
        14 => (InE, Always(NoAnswer), [None; 3], [None; 2]),
        15 | 22 => (InDE, Always(ByteAnswer), [Some(F(0, 13)), None, None], [Some(F(0, 32)), None]),
        16 => (InDE, Always(ByteAnswer), [Some(F(0, 32)), None, None], [Some(F(12, 20)), None]),
        17 => (InDE, Always(ByteAnswer), [Some(F(0, 13)), None, None], [Some(Dma), None]),
        18 => (NoArgument, Always(ByteAnswer), [None; 3], [Some(Dma), None]),
        19 => (InDE, Always(ByteAnswer), [Some(F(0, 12)), None, None], [None; 2]),
        20 => (InDE, Always(ByteAnswer), [Some(F(0, 33)), None, None], [Some(F(12, 21)), Some(Dma)]),
        21 => (InDE, Always(ByteAnswer), [Some(F(0, 33)), Some(Dma), None], [Some(F(12, 21)), None]),
        23 => (InDE, Always(ByteAnswer), [Some(F(0, 12)), Some(F(16, 12)), None], [None; 2]),
        25 => (NoArgument, Always(ByteAnswer), [None; 3], [None; 2]),
        26 => (InDE, Always(NoAnswer), [None; 3], [None; 2]),
        _ => return None,
    };
    Some(Row { argument, answer, reads, writes })
}

/// The row of a function of a file that is read or written at random: those from 33 up.
#[tactic(auto, unfolding(crate::specs::Table::row_of))]
#[rattlefmt::skip]
fn random_row(function: u8) -> Option<Row>
    requires { 33 ≤ function }
    ensures row { result ≡ option_map laid_out (row_of function) }
    ensures cells { IfSome result HaveCells }
{
    let (argument, answer, reads, writes) = match function {
        33 => (InDE, Always(ByteAnswer), [Some(F(0, 32)), Some(F(33, 3)), None], [Some(F(12, 21)), Some(Dma)]),
        34 => (InDE, Always(ByteAnswer), [Some(F(0, 32)), Some(F(33, 3)), Some(Dma)], [Some(F(12, 21)), None]),
        35 => (InDE, Always(NoAnswer), [Some(F(0, 12)), None, None], [Some(F(33, 3)), None]),
        36 => (InDE, Always(NoAnswer), [Some(F(12, 1)), Some(F(14, 1)), Some(F(32, 1))], [Some(F(33, 3)), None]),
        _ => return None,
    };
    Some(Row { argument, answer, reads, writes })
}
