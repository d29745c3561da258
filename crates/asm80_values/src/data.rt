// The cells of DB and DW (CP/M 2.2 Operating System Manual, the assembler, "The DB directive", "The DW directive").
ghost use Rattle.std.specs.Prelude.{◌≡◌, ◌++◌, ◌<◌, All, IfOk, OnOk, map, flat_map};
ghost use Rattle.asm80_types.specs.Tree.{operand_of};
ghost use Rattle.asm80_values.specs.Forms.{HoldsByte};
ghost use Rattle.asm80_values.specs.Settings.{setting_of};
ghost use Rattle.asm80_source_def.specs.Items.{numbers, cells_of_byte, cells_of_word};

use crate::setting::{Setting, byte, code_address, value};
use asm80_types::Arg;
use cells::{Cell, Place};
use std::alloc::{AllocError, Global};

// Adds bytes.
fn push_numbers(cells: &mut Vec<Cell>, bytes: &[u8]) -> Result<(), AllocError>
    ensures cells { OnOk result (cells.new.items ≡ cells.old.items ++ numbers bytes.now) }
    ensures bytes { OnOk result (All HoldsByte (numbers bytes.now)) }
{
    for byte in bytes {
        cells.push(Cell::Num(*byte))?;
    }
    Ok(())
}

// Adds an item of DB: a string's bytes, or a byte.
fn push_byte(cells: &mut Vec<Cell>, setting: &Setting<'_>, arg: &Arg) -> Result<(), AllocError>
    ensures cells { OnOk result (cells.new.items ≡ cells.old.items ++ cells_of_byte (setting_of setting.now) (operand_of arg.now)) }
    ensures bytes { OnOk result (All HoldsByte (cells_of_byte (setting_of setting.now) (operand_of arg.now))) }
{
    match arg {
        Arg::Text(bytes) => push_numbers(cells, bytes.as_slice()),
        Arg::Value(_) => {
            cells.push(Cell::Num(byte(setting, arg)))?;
            Ok(())
        }
    }
}

// The cells of a word, low byte first.
fn word_cells(setting: &Setting<'_>, arg: &Arg) -> [Cell; 2]
    ensures cells { result ≡ cells_of_word (setting_of setting.now) (operand_of arg.now) }
    ensures bytes { All HoldsByte (cells_of_word (setting_of setting.now) (operand_of arg.now)) }
{
    match code_address(setting, arg) {
        Some(at) => [Cell::Lo(Place::At(at)), Cell::Hi(Place::At(at))],
        None => {
            let [low, high] = value(setting, arg).to_le_bytes();
            [Cell::Num(low), Cell::Num(high)]
        }
    }
}

/// The cells of DB.
pub fn cells_of_bytes(
    alloc: Global,
    setting: &Setting<'_>,
    args: &[Arg],
) -> Result<Vec<Cell>, AllocError>
    ensures cells { IfOk result (λ cells. cells.items ≡ flat_map (cells_of_byte (setting_of setting.now)) (map operand_of args.now)) }
    ensures bytes { IfOk result (λ cells. All HoldsByte cells.items) }
{
    let mut cells = Vec::new(alloc);
    for arg in args {
        push_byte(&mut cells, setting, arg)?;
    }
    Ok(cells)
}

/// The cells of DW.
pub fn cells_of_words(
    alloc: Global,
    setting: &Setting<'_>,
    args: &[Arg],
) -> Result<Vec<Cell>, AllocError>
    ensures cells { IfOk result (λ cells. cells.items ≡ flat_map (cells_of_word (setting_of setting.now)) (map operand_of args.now)) }
    ensures bytes { IfOk result (λ cells. All HoldsByte cells.items) }
{
    let mut cells = Vec::new(alloc);
    for arg in args {
        cells.extend_from_slice(&word_cells(setting, arg))?;
    }
    Ok(cells)
}
