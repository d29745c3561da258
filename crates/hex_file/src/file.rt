// HEX files, read.
ghost use Rattle.std.specs.Prelude.{◌≡◌, ◌≤◌, ◌^◌, length, IfOk, OnOk, MatchResult};
ghost use Rattle.std.specs.List.{fold};
ghost use Rattle.std.specs.List.Sorted.{IsStrictlyIncreasing};
ghost use Rattle.std.specs.Map.{keys_of};
ghost use Rattle.hex_file.specs.Records.{IsData};
ghost use Rattle.hex_file.specs.HexFile.{record_cells, put_cell, IsHexOf, IsHexFaultOf};

use crate::fault::HexFault;
use crate::lines::first_line;
use crate::record::HexRecord;
use base::ByteCells;
use std::alloc::{AllocError, Global};
use std::marker::Model;

/// A HEX file, seen as its cells: address and byte, ascending by their addresses.
pub struct HexFile {
    cells: Vec<(u16, u8)>,
}

// Written out, so that letting one go is one call wherever it is done.
impl Drop for HexFile {
    fn drop(self) {
        let HexFile { cells: _cells } = self;
    }
}

impl Model for HexFile {
    ghost use Rattle.std.specs.Prelude.{List, ℕ};
    ghost use Rattle.std.specs.List.Sorted.{IsStrictlyIncreasing};
    ghost use Rattle.std.specs.Map.{keys_of};

    ghost Value = { List (ℕ × ℕ) };

    ghost view = { λ f. f.cells.items };

    ghost invariant = { λ f. IsStrictlyIncreasing (keys_of f.cells.items) };
}

impl HexFile {
    /// The file that bytes are: lines with data records up to a line that ends the file. What follows that line is not read, and a later
    /// byte for a cell replaces an earlier one.
    pub fn read(alloc: Global, bytes: &[u8]) -> Result<HexFile, HexFault>
        requires { length bytes.now ≤ 2 ^ 31 }
        ensures { MatchResult result (IsHexOf bytes.now) (IsHexFaultOf bytes.now) }
    {
        let mut cells = ByteCells::new(alloc);
        let mut number = 1;
        let mut rest = bytes;
        while let Some((line, after)) = first_line(rest) {
            let Some(record) = HexRecord::read(line) else {
                return Err(HexFault::Bad(number));
            };
            if record.is_end() {
                return Ok(HexFile {
                    cells: cells.into_vec(alloc)?,
                });
            }
            if !record.is_data() {
                return Err(HexFault::Bad(number));
            }
            put_data(&mut cells, &record)?;
            number += 1;
            rest = after;
        }
        Err(HexFault::Bad(number))
    }

    /// The cells.
    pub fn cells(&self) -> &[(u16, u8)]
        ensures value { result.now ≡ self.now }
        ensures ascend { IsStrictlyIncreasing (keys_of result.now) }
    {
        self.cells.as_slice()
    }
}

// The data of a record, put to the cells that there are.
fn put_data(cells: &mut ByteCells, record: &HexRecord) -> Result<(), AllocError>
    requires { IsData «record».now }
    ensures { OnOk result (cells.new ≡ fold put_cell cells.old (record_cells «record».now)) }
{
    let address = record.address();
    for (offset, byte) in record.data().iter().enumerate() {
        cells.put(address + offset as u16, *byte)?;
    }
    Ok(())
}
