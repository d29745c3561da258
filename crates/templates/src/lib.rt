// The text that a program is translated to: the 8086 statements of each 8080 instruction (its template), the plain text, and the lean text,
// which leaves out what nothing needs.
//
// Proved: `template` gives the statements of each instruction, IN and OUT among them, with and without a save of the flags, and
// `plain_text` the whole plain text. `lean_text` gives the lean text (`IsLean`), by a graph of the program with its needs found: a label
// for each block alone; a save exactly where one of S, Z, AC and P is needed after the instruction; no SAHF with a LAHF after it in a
// block; `INT 224` for a call of the system whose function is known and after which neither B nor L is needed; and one short jump for each
// conditional jump that reaches its target in the text whose conditional jumps are all long. Law `lean_texts_are_one`: a program has one
// lean text.
#![tactic(auto)]

mod blocks;
mod frame;
mod laws;
mod lean;
mod operands;
mod places;
mod plain;
mod rows;
mod rules;
mod sequence;
mod text;
mod translation;
mod written;

pub use frame::{ending, prologue, runtime};
pub use laws::lean_texts_are_one;
pub use lean::lean_text;
pub use operands::label_of;
pub use plain::plain_text;
pub use rows::template;
pub use sequence::Sequence;
pub use text::Text;
pub use translation::{CoreFault, Mode, translate};
