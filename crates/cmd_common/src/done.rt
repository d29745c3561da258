// The lines of status 0.
ghost use Rattle.std.specs.Prelude.{◌≡◌, IfOk};
ghost use Rattle.std.specs.String.{string_bytes};
ghost use Rattle.cmd_common.specs.Lines.{translated_line, shown_line, saves_line, leaves_line, command_file_line, groups_line, hex_line, ended_line, both_line, shrunk_line};

use crate::stop::count_line;
use std::alloc::{AllocError, Global};

/// The line of a translation: how many 8080 instructions, data cells and bytes of 8086 code it has.
pub fn translated_line(
    alloc: Global,
    instructions: usize,
    cells: usize,
    code: usize,
) -> Result<String, AllocError>
    ensures { IfOk result (λ line. string_bytes line ≡ translated_line instructions cells code) }
{
    format!(in alloc;
        "translated: {instructions} instructions, {cells} data bytes, {code} code bytes\n"
    )
}

/// The line of a text that is shown: how many blocks its program has.
pub fn shown_line(alloc: Global, blocks: u32) -> Result<String, AllocError>
    ensures { IfOk result (λ line. string_bytes line ≡ shown_line blocks) }
{
    count_line(alloc, "shown: ", blocks, " blocks")
}

/// The line of a list of saves: how many INX, DCX and DAD have flags to be saved, and how many there are.
pub fn saves_line(alloc: Global, saved: usize, sums: usize) -> Result<String, AllocError>
    ensures { IfOk result (λ line. string_bytes line ≡ saves_line saved sums) }
{
    format!(in alloc; "saves {saved} of {sums}\n")
}

/// The line of a list of places at which a run leaves the profile: how many there are, and how many instructions the program has.
pub fn leaves_line(alloc: Global, places: usize, instructions: usize) -> Result<String, AllocError>
    ensures { IfOk result (λ line. string_bytes line ≡ leaves_line places instructions) }
{
    format!(in alloc; "leaves at {places} of {instructions} instructions\n")
}

/// The line of a command file that was written: how many bytes it has.
pub fn command_file_line(alloc: Global, size: usize) -> Result<String, AllocError>
    ensures { IfOk result (λ line. string_bytes line ≡ command_file_line size) }
{
    format!(in alloc; "command file: {size} bytes\n")
}

/// The line of a command file that was read: how many bytes its code group and its data group have.
pub fn groups_line(alloc: Global, code_size: usize, data_size: usize) -> Result<String, AllocError>
    ensures { IfOk result (λ line. string_bytes line ≡ groups_line code_size data_size) }
{
    format!(in alloc; "code {code_size} bytes, data {data_size} bytes\n")
}

/// The line of a HEX file that was written: how many cells it has.
pub fn hex_line(alloc: Global, cells: usize) -> Result<String, AllocError>
    ensures { IfOk result (λ line. string_bytes line ≡ hex_line cells) }
{
    format!(in alloc; "hex: {cells} bytes\n")
}

/// The line of a text that was shrunk: how many statements were left out, and how many bytes of code the others have.
pub fn shrunk_line(alloc: Global, left_out: usize, code: usize) -> Result<String, AllocError>
    ensures { IfOk result (λ line. string_bytes line ≡ shrunk_line left_out code) }
{
    format!(in alloc; "shrunk: {left_out} left out, {code} code bytes\n")
}

/// The line of a run that ended: how many instructions ran.
pub fn ended_line(alloc: Global, steps: u64) -> Result<String, AllocError>
    ensures { IfOk result (λ line. string_bytes line ≡ ended_line steps) }
{
    format!(in alloc; "ended after {steps} instructions\n")
}

/// The line of a run of both machines where the program of the 8080 ended: how many instructions of each ran.
pub fn both_line(alloc: Global, steps80: u64, steps86: u64) -> Result<String, AllocError>
    ensures { IfOk result (λ line. string_bytes line ≡ both_line steps80 steps86) }
{
    format!(in alloc; "ended after {steps80} and {steps86} instructions\n")
}
