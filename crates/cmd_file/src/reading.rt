// The command file that bytes are.
ghost use Rattle.std.specs.Prelude.{MatchResult};
ghost use Rattle.cmd_file.specs.CommandFile.{IsCommandFile};
ghost use Rattle.cmd_file.specs.Reading.{IsCmdFaultOf};

use crate::fault::CmdFault;
use crate::file::{CmdFile, RECORD_LENGTH};
use crate::header::{DESCRIPTOR_LENGTH, HEADER_LENGTH, check_header, group_size};
use std::alloc::Global;

impl CmdFile {
    /// The command file that bytes are. Files with other groups, shared code, a single group or a base other than 0 are refused.
    pub fn read(alloc: Global, bytes: &[u8]) -> Result<CmdFile, CmdFault>
        ensures { MatchResult result (IsCommandFile bytes.now) (IsCmdFaultOf bytes.now) }
    {
        check_header(bytes)?;
        let code_end = HEADER_LENGTH + group_size(bytes, 0);
        let data_end = code_end + group_size(bytes, DESCRIPTOR_LENGTH);
        if bytes.len() < data_end {
            return Err(CmdFault::Bad(bytes.len() as u32));
        }
        let most = data_end + RECORD_LENGTH - 1;
        if bytes.len() > most {
            return Err(CmdFault::Bad(most as u32));
        }
        let code = Vec::from_slice(alloc, &bytes[HEADER_LENGTH..code_end])?;
        let data = Vec::from_slice(alloc, &bytes[code_end..data_end])?;
        Ok(CmdFile { code, data })
    }
}
