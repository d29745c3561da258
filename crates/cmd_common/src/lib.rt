// What all commands have in common: the reading of their files, and the ends of their work, each with its status and its last line.
//
// Proved of reading: a file is read whole, however the host cuts it, or there is a cause. `read_source` (`read_source_by` with any
// `StatementReader`) answers the program of which the whole bytes are the source in Intel's spelling or in Zilog's (`reading_of`), for a top
// of the program area, or the line and the rule by which they are none (`ReadsSource`); `read_text` answers the lines of a text, or the
// first rule that one of them breaks (`ReadsTextFile`); both answer that only once the file was read to its end, and apart from what is
// told at once: the file was not read, is too long, or memory ran out (`ReadStops`). No bytes of them are kept but those of the unfinished
// line. Law `sources_have_one_outcome`: in either spelling bytes are the source of one program at most, or refused by one rule at one line.
// `read_input` keeps the bytes of a file for a run's devices. `LoadedText::of` makes of lines their image, whose code has one reader
// (`HasOneImage`), or tells why they have none.
//
// Proved of ends: each `Stop` has one status, and one last line by the names of the command's files (`status_of`, `line_of_stop`): a stop
// says which file was not read (`InputFile`), and its line has the name that the words gave it (`name_of`). `say_stop` says that line and
// answers that status, and a fault in saying it changes no status; where memory runs out for a line that is not always the same, `out of
// memory` is said and the status is 5 (`Closes`). `say_done` says the line of status 0; a call that failed there is status 4, one that
// wanted memory 5 (`IsDone`); `say_report` the same of several lines, as one text; `words_refused` takes no memory.
#![tactic(auto)]

mod done;
mod files;
mod names;
mod reasons;
mod rules;
mod say;
mod source;
mod stop;
mod text;
mod writing;

pub use done::{
    both_line, command_file_line, ended_line, groups_line, hex_line, leaves_line, saves_line,
    shown_line, shrunk_line, translated_line,
};
pub use files::{SOURCE_LIMIT, read_input, read_named};
pub use names::{InputFile, InputNames};
pub use reasons::reason_name;
pub use rules::profile_rule;
pub use say::{say_done, say_made, say_report, say_stop, words_refused};
pub use source::{program_of_bytes, read_source, read_source_by, sources_have_one_outcome};
pub use stop::{Stop, not_shown_line, word_digits};
pub use text::{LoadedText, read_text};
pub use writing::{stop_of_write, write_text};
