// HEX files (Intel, "Hexadecimal Object File Format Specification"): those whose records are data, type 00, and the end of the file.
//
// Proved: `HexFile::read` gives the cells of the file that bytes are (`IsHexOf`), or the first line that fits nowhere (`IsHexFaultOf`), and
// `write_cells` the file of cells (`IsWritten`). Laws: bytes have one reading (`hex_file_has_one_reading`); cells have one file that is
// written of them, and it is read as these cells (`written_reads_back`).
#![tactic(auto)]

mod fault;
mod file;
mod laws;
mod lines;
mod record;
mod writing;

pub use fault::HexFault;
pub use file::HexFile;
pub use laws::{hex_file_has_one_reading, written_reads_back};
pub use writing::write_cells;
