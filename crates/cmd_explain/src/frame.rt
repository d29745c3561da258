// What is said of what stands before the blocks: the opening, the runtime and the data.

ghost use Rattle.std.specs.Prelude.{◌≡◌, ◌++◌, List, IfOk, OnOk};
ghost use Rattle.std.specs.List.Sorted.{IsStrictlyIncreasing};
ghost use Rattle.std.specs.Map.{keys_of};
ghost use Rattle.std.specs.String.{string_bytes};
ghost use Rattle.asm86_line_types.specs.declared.line.Stmt86.{Stmt86};
ghost use Rattle.asm86_line_types.specs.Image.{statements};
ghost use Rattle.text_check.specs.Findings.{Lacks};
ghost use Rattle.text_check.specs.Parts.{DataStandIn};
ghost use Rattle.simulation_def.specs.Matches.{HasOpening};
ghost use Rattle.cmd_explain.specs.Lines.{cell_words, data_line, found_words, found_line};
ghost use Rattle.cmd_explain.specs.Explained.{FrameTold, OpeningTold, DataTold, opening};
ghost use Rattle.cmd_explain.specs.Telling.{Tells};

use crate::lines::{tell_end, tell_wanted};
use asm80_types::Program80;
use asm86::Image86;
use asm86_line_types::{Label, Line86, Stmt86};
use block_explain::label_words;
use cells::Cell;
use cmd_common::word_digits;
use std::alloc::{AllocError, Global};
use sym_block_def::Reason;
use templates::prologue;
use text_check::{byte_at, cell_stands};

/// What is said of the first that a text lacks of what stands before the blocks.
pub fn tell_frame(
    alloc: Global,
    told: &mut Vec<u8>,
    program: &Program80,
    lines: &[Line86],
    image: &Image86,
    reason: Reason,
) -> Result<(), AllocError>
    requires sorted { IsStrictlyIncreasing (keys_of image.now.cells) }
    requires lacks { Lacks program.now (statements lines.now) image.now reason }
    ensures { OnOk result (Tells (FrameTold program.now lines.now image.now reason) told.old.items told.new.items) }
{
    match reason {
        Reason::Opening => tell_opening(alloc, told, program, lines),
        Reason::Runtime => told.extend_from_slice(b"wanted: the runtime from X_SYS on\n"),
        Reason::DataPart => tell_data(alloc, told, program, image),
        Reason::Missing
        | Reason::Length
        | Reason::Form
        | Reason::Actions
        | Reason::Exits
        | Reason::Kept(_)
        | Reason::KeptSp => Ok(()),
    }
}

// What a text begins with.
fn opening(alloc: Global, program: &Program80) -> Result<Vec<Stmt86>, AllocError>
    ensures { IfOk result (λ wanted. wanted.items ≡ opening program.now) }
{
    let mut wanted = Vec::new(alloc);
    wanted.push(Stmt86::Cseg)?;
    wanted.extend_from_slice(prologue(program.top()).as_slice())?;
    wanted.push(Stmt86::Mark(Label::At(0x100)))?;
    Ok(wanted)
}

// The first statement of the opening that is not the one that is wanted.
fn tell_opening(
    alloc: Global,
    told: &mut Vec<u8>,
    program: &Program80,
    lines: &[Line86],
) -> Result<(), AllocError>
    requires { HasOpening program.now (statements lines.now) → ⊥ }
    ensures { OnOk result (Tells (OpeningTold (opening program.now) lines.now) told.old.items told.new.items) }
{
    let wanted = opening(alloc, program)?;
    tell_unlike(alloc, told, wanted.as_slice(), lines)
}

// The first of some statements that do not stand at the front of lines.
fn tell_unlike(
    alloc: Global,
    told: &mut Vec<u8>,
    wanted: &[Stmt86],
    lines: &[Line86],
) -> Result<(), AllocError>
    requires { (rest : List Stmt86) → statements lines.now ≡ wanted.now ++ rest → ⊥ }
    ensures { OnOk result (Tells (OpeningTold wanted.now lines.now) told.old.items told.new.items) }
{
    let mut left = wanted;
    let mut rest = lines;
    while let Some((statement, more)) = left.split_first() {
        match rest.split_first() {
            Some((line, others)) if line.stmt == *statement => {
                left = more;
                rest = others;
            }
            _ => {
                tell_end(alloc, told, rest)?;
                return tell_wanted(told, *statement);
            }
        }
    }
    Ok(())
}

// The first data cell that does not stand for the image's cell at its address.
fn tell_data(
    alloc: Global,
    told: &mut Vec<u8>,
    program: &Program80,
    image: &Image86,
) -> Result<(), AllocError>
    requires sorted { IsStrictlyIncreasing (keys_of image.now.cells) }
    requires apart { DataStandIn program.now image.now → ⊥ }
    ensures { OnOk result (Tells (DataTold image.now program.now.cells) told.old.items told.new.items) }
{
    let cells = program.cells();
    for &(at, cell) in cells {
        if !cell_stands(image, at, cell) {
            return tell_cell(alloc, told, at, cell, byte_at(image, at));
        }
    }
    Ok(())
}

// A data cell, and the byte of the image's cell at its address, if there is one.
fn tell_cell(
    alloc: Global,
    told: &mut Vec<u8>,
    at: u16,
    cell: Cell,
    found: Option<u8>,
) -> Result<(), AllocError>
    ensures { OnOk result (told.new.items ≡ told.old.items ++ (data_line at cell ++ found_line found)) }
{
    let digits = word_digits(alloc, at)?;
    let wanted = cell_words(alloc, cell)?;
    let found = found_words(alloc, found)?;
    let lines = format!(in alloc; "data at {digits}: wanted {wanted}\nfound {found}\n")?;
    told.extend_from_slice(lines.as_bytes())
}

fn cell_words(alloc: Global, cell: Cell) -> Result<String, AllocError>
    ensures { IfOk result (λ text. string_bytes text ≡ cell_words cell) }
{
    match cell {
        Cell::Num(byte) => hex::encode(alloc, &[byte]),
        Cell::Lo(place) => {
            let label = label_words(alloc, place)?;
            format!(in alloc; "low {label}")
        }
        Cell::Hi(place) => {
            let label = label_words(alloc, place)?;
            format!(in alloc; "high {label}")
        }
        Cell::Psw(_) => String::from_str(alloc, "flags"),
        Cell::Junk => String::from_str(alloc, "open"),
    }
}

fn found_words(alloc: Global, found: Option<u8>) -> Result<String, AllocError>
    ensures { IfOk result (λ text. string_bytes text ≡ found_words found) }
{
    match found {
        Some(byte) => hex::encode(alloc, &[byte]),
        None => String::from_str(alloc, "none"),
    }
}
