// Command files, and that of an image.
ghost use Rattle.std.specs.Prelude.{◌≡◌, ◌<◌, ◌≤◌, ◌^◌, length, vec_len, IfOk, OnOk, All};
ghost use Rattle.cmd_file.specs.Written.{zero_filled, data_end, data_bytes, command_file_of, IsPart};

use crate::header::PARAGRAPH;
use asm86::Image86;
use std::alloc::{AllocError, Global};
use std::marker::Model;

/// The bytes of a record: files of CP/M-86 are whole records.
pub const RECORD_LENGTH: usize = 128;

/// The first data bytes, which are the system's.
const BASE_PAGE: usize = 0x100;

/// A command file, seen as its code group and its data group.
pub struct CmdFile {
    pub(crate) code: Vec<u8>,
    pub(crate) data: Vec<u8>,
}

// Written out, so that letting one go is one call wherever it is done.
impl Drop for CmdFile {
    fn drop(self) {
        let CmdFile {
            code: _code,
            data: _data,
        } = self;
    }
}

impl Model for CmdFile {
    ghost use Rattle.cmd_file.specs.CommandFile.{CommandFile};
    ghost use Rattle.cmd_file.specs.Written.{IsPart};

    ghost Value = { CommandFile };

    ghost view = { λ f. record { code = f.code.items; «data» = f.data.items } };

    ghost invariant = { λ f. IsPart f.code.items × IsPart f.data.items };
}

impl CmdFile {
    /// The command file of an image: its code; and from address 0 up to the highest cell, at least 100H bytes of data, zero where
    /// there is no cell. Each is filled with zeros to a unit of 16 bytes.
    pub fn of(alloc: Global, image: &Image86) -> Result<CmdFile, AllocError>
        ensures { IfOk result (λ file. file ≡ command_file_of image.now) }
    {
        let mut code = Vec::from_slice(alloc, image.code())?;
        fill(&mut code, PARAGRAPH)?;
        let mut data = data_bytes(alloc, image.cells())?;
        fill(&mut data, PARAGRAPH)?;
        Ok(CmdFile { code, data })
    }

    /// The bytes of the code group.
    pub fn code_part(&self) -> &[u8]
        ensures value { result.now ≡ self.now.code }
        ensures part { IsPart result.now }
        ensures bytes { All (λ b. b < 256) result.now }
    {
        let code = self.code.as_slice();
        are_bytes(code);
        code
    }

    /// The bytes of the data group.
    pub fn data_part(&self) -> &[u8]
        ensures value { result.now ≡ self.now.data }
        ensures part { IsPart result.now }
        ensures bytes { All (λ b. b < 256) result.now }
    {
        let data = self.data.as_slice();
        are_bytes(data);
        data
    }
}

// A law: bytes are below 256.
fn are_bytes(bytes: &[u8])
    ensures { All (λ b. b < 256) bytes.now }
{}

/// Fills bytes with zeros up to a multiple of a unit.
pub fn fill(bytes: &mut Vec<u8>, unit: usize) -> Result<(), AllocError>
    requires unit { 0 < unit }
    requires near { unit < 2 ^ 16 }
    requires small { vec_len bytes.old < 2 ^ 32 }
    ensures { OnOk result (bytes.new.items ≡ zero_filled unit bytes.old.items) }
{
    let length = bytes.len().next_multiple_of(unit);
    bytes.resize(length, 0)
}

// The data of an image, before they are filled.
fn data_bytes(alloc: Global, cells: &[(u16, u8)]) -> Result<Vec<u8>, AllocError>
    ensures bytes { IfOk result (λ v. v.items ≡ data_bytes cells.now) }
    ensures small { IfOk result (λ v. vec_len v ≤ 0x10000) }
{
    let mut data = vec![in alloc; 0; data_end(cells)]?;
    for (address, byte) in cells {
        data[usize::from(*address)] = *byte;
    }
    Ok(data)
}

// The address after the highest cell, and at least 100H.
fn data_end(cells: &[(u16, u8)]) -> usize
    ensures value { result ≡ data_end cells.now }
    ensures small { result ≤ 0x10000 }
{
    let mut end = BASE_PAGE;
    for (address, _) in cells {
        end = end.max(usize::from(*address) + 1);
    }
    end
}
