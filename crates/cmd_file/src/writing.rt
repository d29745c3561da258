// The bytes of a command file.
ghost use Rattle.std.specs.Prelude.{◌≡◌, IfOk};
ghost use Rattle.cmd_file.specs.CommandFile.{IsCommandFile};
ghost use Rattle.cmd_file.specs.Written.{written};

use crate::file::{CmdFile, RECORD_LENGTH, fill};
use crate::header::{
    CODE_FORM, DATA_FORM, GroupDescriptor, HEADER_LENGTH, MOST_PARAGRAPHS, PARAGRAPH,
};
use std::alloc::{AllocError, Global};

impl CmdFile {
    /// The bytes of the file. The code has memory of its own size, and the data have all of 64K.
    pub fn write(&self, alloc: Global) -> Result<Vec<u8>, AllocError>
        ensures written { IfOk result (λ bytes. bytes.items ≡ written self.now) }
        ensures reads_back { IfOk result (λ bytes. IsCommandFile bytes.items self.now) }
    {
        let code = self.code_part();
        let data = self.data_part();
        let code_length = (code.len() / PARAGRAPH) as u16;
        let code_group = GroupDescriptor {
            form: CODE_FORM,
            length: code_length,
            base: 0,
            least: code_length,
            greatest: code_length,
        };
        let data_group = GroupDescriptor {
            form: DATA_FORM,
            length: (data.len() / PARAGRAPH) as u16,
            base: 0,
            least: MOST_PARAGRAPHS,
            greatest: MOST_PARAGRAPHS,
        };
        let mut bytes = Vec::from_slice(alloc, &code_group.to_bytes())?;
        bytes.extend_from_slice(&data_group.to_bytes())?;
        bytes.resize(HEADER_LENGTH, 0)?;
        bytes.extend_from_slice(code)?;
        bytes.extend_from_slice(data)?;
        fill(&mut bytes, RECORD_LENGTH)?;
        Ok(bytes)
    }
}
