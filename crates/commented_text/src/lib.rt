// The commented text of a source, a program and its text (`Commented`): the lines of the source as comments, each once and in order, those
// up to an instruction's own line before the first line of its group (`InstructionGroup`), and those that are left before the runtime; and
// the bytes of it, as a file is written from them.
//
// Proved: `CommentedText::new` of a program, its lines in any style and the bytes of its source gives exactly their commented text, piece by
// piece and without taking memory (it meets `Producer` of `host_files`). Where a group ends is seen from the instruction and the statements
// that begin with it, so no analysis is made anew.
//
// Law `commented_texts_read_back`: where a program's text in a mode is read as its lines, what is written of it, with comments or without
// (`IsWrittenText`), is read as the same statements in the same order, with numbers of lines that rise, whatever the source (`reads`); it
// has the same image as the text without comments (`image`).
#![tactic(auto)]

mod groups;
mod laws;
mod lines;
mod producer;

pub use laws::commented_texts_read_back;
pub use producer::CommentedText;
