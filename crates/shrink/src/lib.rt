// The shrinker: what is left of a text from which each instruction is left out that its check does without.
//
// Proved: `shrink` gives exactly what the definition leaves (`IsShrunk`): from the last statement to the first, each candidate is left out
// where the list without it still matches the program, block by block and with what is needed kept. Where no other block can come to a
// candidate than the one whose label stands before it (`IsApart`), that block alone is looked at again. Laws, of every program and lines:
// `shrunk_is_left` (what is left is among the lines that there were, has no more code than they, has an image, may be written and matches the
// program where they do, and is one list); `written_lines_read_back` (lines that have an image, a written line each, and END, are read, of
// their text, as the same statements, numbered from 1); `text_is_writable` (such are the lines of a text that has an image).
#![tactic(auto)]

mod apart;
mod candidate;
mod laws;
mod matching;
mod shrinking;

pub use laws::{shrunk_is_left, text_is_writable, written_lines_read_back};
pub use shrinking::{MOST_STATEMENTS, shrink};
