// Whole files in and out over any host, in pieces of up to 4,096 bytes, and whole lines that are said.
//
// Proved: `read_into` gives the bytes of a whole file up to a limit, piece by piece, to anything that meets the trait `Sink` (clause `ok`),
// and says of a longer file that it is too long. `write_out` writes the text of lines and `write_bytes` bytes, both in pieces and without
// taking memory, and `write_from` what anything that meets the trait `Producer` gives; after a fault the file is as before, or has first bytes of what was to be written, but not all (clause `fault`).
// `say_line` says a whole line, or after a fault first bytes of it but not all. No other file changes (`only`).
#![tactic(auto)]

mod piece;
mod producer;
mod read;
mod say;
mod write;

pub use piece::Piece;
pub use producer::Producer;
pub use read::{FileFault, Sink, read_into};
pub use say::say_line;
pub use write::{write_bytes, write_from, write_out};

// How many bytes a piece of a file has.
const PIECE: usize = 4096;
