// The 8080 that fetches bytes, and a program as the bytes that it fetches: the encoding of instructions (`enc80`), what stands in memory at
// an address (`IsFetchOfBytes`), the start of bytes over a fill and their run (`run_bytes`), the cells of a program as bytes
// (`program_cells`). From the Intel 8080 Assembly Language Programming Manual; of chapter 2 all but HLT, EI, DI and RST 1 to 7.
//
// Proved: `encode80` gives the bytes of the table, 1 to 3 of them. `decode80` answers the one instruction whose encoding the bytes begin
// with, and its length, and None exactly where they begin with none; as bytes tell it, a loaded word is a number, and the targets 0 and 5
// are the system's. Law `encodings_are_prefix_free`: no encoding begins with another.
//
// Proved, over every fill of memory and every choice of what is unknown: `Byte80` is the untagged 8080 that takes its instructions from the
// bytes of memory (`fetch_of_bytes`): its start over the cells of a HEX file (`start_of_bytes`), each step, what it asks, each reply.
// `hex_text` is the HEX file of a program's cells. Laws: the instruction that is fetched is the one whose encoding the bytes begin with
// (`memory_is_fetched`); a program's cells are bytes at addresses that ascend (`program_cells_are_cells`), and are read back from their HEX
// file (with `written_reads_back` of `hex_file`).
//
// Law `bytes_follow`, of every fetch that takes instructions from the bytes of memory, every program, start page, fill of memory, list of
// choices, list of replies of bytes and number of turns: where the run of the tagged 8080 has stayed in the profile, the run over the
// program's cells, its encodings and data as bytes, has the same dialogue and has not stopped (`BytesFollow`).
#![tactic(auto)]

mod decoding;
mod encoding;
mod fetch;
mod laws;
mod machine;
mod start;
mod text;

pub use cpu80::UntaggedStep as StepBytes;
pub use decoding::decode80;
pub use encoding::{Code80, encode80, encodings_are_prefix_free};
pub use fetch::memory_is_fetched;
pub use hex_file::{HexFault, HexFile};
pub use laws::{bytes_follow, program_cells_are_cells};
pub use machine::Byte80;
pub use text::{hex_text, program_cells};
