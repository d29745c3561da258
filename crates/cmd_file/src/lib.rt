// Command files, in which CP/M-86 keeps programs: those with a code group and a data group (CP/M-86 System Guide, section 3, "Command (CMD)
// File Format").
//
// Proved: `CmdFile::of` gives the command file of an image (`command_file_of`), `CmdFile::write` its bytes (`written`), `CmdFile::read` the
// command file that bytes are (`IsCommandFile`), or the first byte at which they cannot become one, or their number where they end early
// (`IsCmdFaultOf`). Laws: a command file has one reading (`command_file_has_one_reading`), and what is written of a file is read as that file
// (`written_reads_back`). Where a program and the image of some lines are `Same`, so are the program and what the command file of the image is
// loaded to (`loaded_is_same`): the longer code has each instruction that the image's has, at the same place, and the zeros in the data are
// what a memory may hold. Where the image's code has no instruction its run stops, and of runs that stop `Same` says nothing.
#![tactic(auto)]

mod fault;
mod file;
mod header;
mod laws;
mod reading;
mod writing;

pub use fault::CmdFault;
pub use file::CmdFile;
pub use laws::{command_file_has_one_reading, loaded_is_same, written_reads_back};
