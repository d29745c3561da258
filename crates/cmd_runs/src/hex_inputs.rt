// What a HEX file's run has before the run.
ghost use Rattle.std.specs.Prelude.{◌≤◌, ◌^◌, MatchResult, length};
ghost use Rattle.hex_file.specs.HexFile.{IsHexOf};
ghost use Rattle.cmd_runs.specs.RunsHex.{HexStops};

use cmd_common::Stop;
use hex_file::{HexFault, HexFile};
use std::alloc::Global;

/// The HEX file that bytes are, which are let go.
pub fn hex_of_bytes(alloc: Global, bytes: Vec<u8>) -> Result<HexFile, Stop>
    requires { length bytes.items ≤ 2 ^ 31 }
    ensures { MatchResult result (IsHexOf bytes.items) (HexStops bytes.items) }
{
    match HexFile::read(alloc, bytes.as_slice()) {
        Ok(hex) => Ok(hex),
        Err(HexFault::Bad(line)) => Err(Stop::BadHex(line)),
        Err(HexFault::Memory) => Err(Stop::OutOfMemory),
    }
}
