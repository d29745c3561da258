// The file that is written of cells.
ghost use Rattle.std.specs.Prelude.{◌≡◌, ◌+◌, ◌<◌, ◌≤◌, ◌++◌, ◌∷◌, ℕ, List, take, drop, length, IfOk, OnOk};
ghost use Rattle.std.specs.List.{enumerate_from};
ghost use Rattle.std.specs.Map.{values_of};
ghost use Rattle.hex_file.specs.Records.{Record, record_bytes};
ghost use Rattle.hex_file.specs.Written.{first_address, IsRecordOf, record_line, IsWritten};

use crate::record::{DATA_KIND, MARK, byte_sum};
use std::alloc::{AllocError, Global};

/// The most data bytes on a line that is written.
const LINE_DATA: usize = 16;

/// The line that ends a file.
const END_LINE: &[u8; 13] = b":00000001FF\r\n";

/// The HEX file of cells, address and byte: up to 16 adjacent cells a line, in digits of upper case. Where the addresses ascend, it is read
/// as these cells (`written_reads_back`).
pub fn write_cells(alloc: Global, cells: &[(u16, u8)]) -> Result<Vec<u8>, AllocError>
    ensures { IfOk result (λ bytes. IsWritten cells.now bytes.items) }
{
    let mut text = Vec::new(alloc);
    let mut rest = cells;
    while !rest.is_empty() {
        let (run, others) = rest.split_at(run_length(rest));
        push_line(alloc, &mut text, run)?;
        rest = others;
    }
    text.extend_from_slice(END_LINE)?;
    Ok(text)
}

// How many adjacent cells the cells begin with, at most 16.
fn run_length(cells: &[(u16, u8)]) -> usize
    requires { 0 < length cells.now }
    ensures some { 0 < result }
    ensures within { result ≤ length cells.now }
    ensures most { result ≤ 16 }
    ensures adjacent { take result cells.now ≡ enumerate_from (first_address cells.now) (values_of (take result cells.now)) }
    ensures longest { (byte : ℕ) (others : List (ℕ × ℕ)) → drop result cells.now ≡ (first_address cells.now + result, byte) ∷ others → result ≡ 16 }
{
    let first = usize::from(cells[0].0);
    let mut count = 1;
    while count < LINE_DATA && count < cells.len() && usize::from(cells[count].0) == first + count {
        count += 1;
    }
    count
}

// Adds the line of adjacent cells.
fn push_line(alloc: Global, text: &mut Vec<u8>, run: &[(u16, u8)]) -> Result<(), AllocError>
    requires some { 0 < length run.now }
    requires most { length run.now ≤ 16 }
    ensures { OnOk result ((r : Record) → IsRecordOf run.now r → text.new.items ≡ text.old.items ++ record_line r) }
{
    let bytes = bytes_of(alloc, run)?;
    let digits = hex::encode_upper(alloc, bytes.as_slice())?;
    text.push(MARK)?;
    text.extend_from_slice(digits.as_bytes())?;
    text.extend_from_slice(b"\r\n")
}

// The bytes of the record of adjacent cells.
fn bytes_of(alloc: Global, run: &[(u16, u8)]) -> Result<Vec<u8>, AllocError>
    requires some { 0 < length run.now }
    requires most { length run.now ≤ 16 }
    ensures { IfOk result (λ bytes. (r : Record) → IsRecordOf run.now r → bytes.items ≡ record_bytes r) }
{
    let address = run[0].0;
    let mut bytes = Vec::from_slice(
        alloc,
        &[
            run.len() as u8,
            (address / 256) as u8,
            (address % 256) as u8,
            DATA_KIND,
        ],
    )?;
    for (_, byte) in run {
        bytes.push(*byte)?;
    }
    let check = byte_sum(bytes.as_slice()).wrapping_neg();
    bytes.push(check)?;
    Ok(bytes)
}
