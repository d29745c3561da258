// The words of the command line, read through the kit's `clap`: one command with its values, or none.
//
// Proved: `read_words` gives the command that the words are, with its values (`IsCommand`), None exactly where they are no command
// (`IsNoCommand`), and otherwise only want of memory: names, options and flags in any order, each option once at most, values in their
// ranges. Words of one hyphen and something else are refused before `clap` reads them. Law `words_are_one_command`: words are one command
// at most. The table (`Table`) has the commands; those that read a source take the flag `--zilog`.
#![tactic(auto)]

mod asking;
mod command;
mod given;
mod items;
mod table;
mod values;

pub use command::{
    Both, Check, Cmd, CmdShow, Command, Hex80, Listing, Run80, Run86, RunHex, RunOptions, Sample,
    Shrink, Translate, read_words, words_are_one_command,
};
