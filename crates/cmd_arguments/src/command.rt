//! The commands with their values.

ghost use Rattle.std.specs.Prelude.{◌≡◌, ℕ, List, Some, None, cond, map, option_copied, option_map, IfOk, MatchOption};
ghost use Rattle.std.specs.String.{string_bytes};
ghost use Rattle.cmd_arguments.specs.Asked.{GiveCommand, GiveNoCommand};
ghost use Rattle.cmd_arguments.specs.Read.{count_and_file_of, files_of, three_files_of, names_read, option_read};
ghost use Rattle.cmd_arguments.specs.ReadCommands.{check_read, command_read, listing_read, run_options_read};
ghost use Rattle.cmd_arguments.specs.Words.{MakesCmd, MakesSample, RunsBoth, RunsHex, Runs80, Runs86, ShowsCmd, ShrinksText, Translates, WritesHex, both_of, check_of, cmd_of, cmd_show_of, choice_of, command_of, count_and_file, listing_of, hex80_of, input_file, one_file, page_of, run80_of, run86_of, run_hex_of, run_options_of, sample_of, shrink_of, steps_of, text_or, top_of, translate_of, two_files, three_files, Command as CommandValue, IsCommand, IsNoCommand};

use crate::asking::asked;
use crate::given::{Given, Names};
use crate::items::{first_word, has_short};
use crate::table::CommandName;
use crate::values::{choice_value, count_value, steps_value, top_value};
use clap::error::ErrorKind;
use dialogue::Page;
use std::alloc::{AllocError, Global};

/// A command with its values.
#[derive(Drop)]
pub enum Command<'a> {
    Translate(Translate<'a>),
    Check(Check<'a>),
    Flags(Listing<'a>),
    Run80(Run80<'a>),
    Run86(Run86<'a>),
    Both(Both<'a>),
    Sample(Sample<'a>),
    Cmd(Cmd<'a>),
    CmdShow(CmdShow<'a>),
    Hex80(Hex80<'a>),
    RunHex(RunHex<'a>),
    Shrink(Shrink<'a>),
    Leaves(Listing<'a>),
    Explain(Check<'a>),
}

/// `translate IN OUT [--plain] [--zilog] [--comments] [--top H]`: a source's file, the file for its text, whether it is to be the plain
/// one, whether the source is in Zilog's spelling, whether its lines are to stand in the text as comments, and the top of the program
/// area.
#[derive(Clone, Copy)]
pub struct Translate<'a> {
    pub input: &'a str,
    pub output: &'a str,
    pub plain: bool,
    pub zilog: bool,
    pub comments: bool,
    pub top: u16,
}

/// `check IN TEXT [--zilog] [--top H]`, or `explain` with the same: a source's file, the file of a text, whether the source is in Zilog's spelling, and the top of
/// the program area.
#[derive(Clone, Copy)]
pub struct Check<'a> {
    pub source: &'a str,
    pub text: &'a str,
    pub zilog: bool,
    pub top: u16,
}

/// `flags IN [--zilog] [--top H]` or `leaves` with the same: a source's file, whether it is in Zilog's spelling, and the top of the
/// program area.
#[derive(Clone, Copy)]
pub struct Listing<'a> {
    pub source: &'a str,
    pub zilog: bool,
    pub top: u16,
}

/// `run80 IN [--zilog] [--top H]` and run options: a source's file, whether it is in Zilog's spelling, and the top of the program area.
#[derive(Drop)]
pub struct Run80<'a> {
    pub source: &'a str,
    pub zilog: bool,
    pub top: u16,
    pub run: RunOptions<'a>,
}

/// `run86 TEXT [--choice H]` and run options: a text's file, and the choice that fills what is unknown.
#[derive(Drop)]
pub struct Run86<'a> {
    pub text: &'a str,
    pub choice: u128,
    pub run: RunOptions<'a>,
}

/// `both IN [--zilog] [--top H] [--choice H]` and run options: a source's file, whether it is in Zilog's spelling, the top of the program
/// area, and the choice that fills what is unknown to the 8086.
#[derive(Drop)]
pub struct Both<'a> {
    pub source: &'a str,
    pub zilog: bool,
    pub top: u16,
    pub choice: u128,
    pub run: RunOptions<'a>,
}

/// `sample K OUT`: how many routines the made source has, 1 to 500, and the file for it.
#[derive(Clone, Copy)]
pub struct Sample<'a> {
    pub count: u32,
    pub output: &'a str,
}

/// `cmd TEXT OUT`: a text's file, and the file for its command file.
#[derive(Clone, Copy)]
pub struct Cmd<'a> {
    pub text: &'a str,
    pub output: &'a str,
}

/// `cmdshow FILE`: a command file.
#[derive(Clone, Copy)]
pub struct CmdShow<'a> {
    pub file: &'a str,
}

/// `hex80 IN OUT [--zilog] [--top H]`: a source's file, the file for its HEX file, whether the source is in Zilog's spelling, and the
/// top of the program area.
#[derive(Clone, Copy)]
pub struct Hex80<'a> {
    pub source: &'a str,
    pub output: &'a str,
    pub zilog: bool,
    pub top: u16,
}

/// `runhex FILE [--top H] [--choice H]` and run options: a HEX file, the top of the program area, and what the manuals leave undefined.
#[derive(Drop)]
pub struct RunHex<'a> {
    pub file: &'a str,
    pub top: u16,
    pub choice: u128,
    pub run: RunOptions<'a>,
}

/// `shrink IN TEXT OUT [--top H]`: a source's file, the file of a text, the file for what is left of the text, and the top of the program
/// area.
#[derive(Clone, Copy)]
pub struct Shrink<'a> {
    pub source: &'a str,
    pub text: &'a str,
    pub output: &'a str,
    pub top: u16,
}

/// `[--input F] [--disk F] [--ports F] [--out-disk F] [--tail T] [--steps N]`: the files of the console's input, of the disk and of
/// the ports' bytes, and the file for the disk at the end, if there are such; the start page, and the most instructions that run.
#[derive(Drop)]
pub struct RunOptions<'a> {
    pub input: Option<&'a str>,
    pub disk: Option<&'a str>,
    pub ports: Option<&'a str>,
    pub out_disk: Option<&'a str>,
    pub page: Page,
    pub steps: u32,
}

impl<'a> Names<'a> {
    fn one_file(self) -> Option<&'a str>
        ensures { option_copied result ≡ one_file (names_read self.entry) }
    {
        match self {
            Names::One(name) if !name.is_empty() => Some(name),
            _ => None,
        }
    }

    fn two_files(self) -> Option<(&'a str, &'a str)>
        ensures { files_of result ≡ two_files (names_read self.entry) }
    {
        match self {
            Names::Two(first, second) if !first.is_empty() && !second.is_empty() => {
                Some((first, second))
            }
            _ => None,
        }
    }

    fn three_files(self) -> Option<(&'a str, &'a str, &'a str)>
        ensures { three_files_of result ≡ three_files (names_read self.entry) }
    {
        match self {
            Names::Three(first, second, third)
                if !first.is_empty() && !second.is_empty() && !third.is_empty() => {
                Some((first, second, third))
            }
            _ => None,
        }
    }

    // A number of routines, and then a file.
    fn count_and_file(self) -> Option<(u32, &'a str)>
        ensures { count_and_file_of result ≡ count_and_file (names_read self.entry) }
    {
        match self {
            Names::Two(count, file) if !file.is_empty() => Some((count_value(count)?, file)),
            _ => None,
        }
    }
}

// The text of an option.
fn text_or<'a>(text: Option<&'a str>, default: &'static str) -> &'a str
    ensures { text_or default.now (option_read text.entry) ≡ Some result.now }
{
    match text {
        None => default,
        Some(text) => text,
    }
}

// Whether a file that a run reads or writes is given an empty name.
fn is_nameless(text: Option<&str>) -> bool
    ensures { input_file (option_read text.entry) ≡ cond result None (Some (option_copied text.entry)) }
{
    match text {
        None => false,
        Some(text) => text.is_empty(),
    }
}

impl<'a> Given<'a> {
    fn top(&self) -> Option<u16>
        ensures { result ≡ top_of self.now }
    {
        top_value(text_or(self.top, "F000"))
    }

    fn choice(&self) -> Option<u128>
        ensures { result ≡ choice_of self.now }
    {
        choice_value(text_or(self.choice, "0"))
    }

    fn steps(&self) -> Option<u32>
        ensures { result ≡ steps_of self.now }
    {
        steps_value(text_or(self.steps, "1000000"))
    }

    fn page(&self) -> Option<Page>
        ensures { result ≡ page_of self.now }
    {
        Page::of_tail(text_or(self.tail, "").as_bytes())
    }

    fn run_options(&self) -> Option<RunOptions<'a>>
        ensures { option_map run_options_read result ≡ run_options_of self.now }
    {
        if is_nameless(self.input)
            || is_nameless(self.disk)
            || is_nameless(self.ports)
            || is_nameless(self.out_disk)
        {
            return None;
        }
        let steps = self.steps()?;
        let page = self.page()?;
        Some(RunOptions {
            input: self.input,
            disk: self.disk,
            ports: self.ports,
            out_disk: self.out_disk,
            page,
            steps,
        })
    }

    fn translate(&self) -> Option<Command<'a>>
        ensures { option_map command_read result ≡ option_map Translates (translate_of self.now) }
    {
        let (input, output) = self.names.two_files()?;
        let top = self.top()?;
        Some(Command::Translate(Translate {
            input,
            output,
            plain: self.plain,
            zilog: self.zilog,
            comments: self.comments,
            top,
        }))
    }

    fn check(&self) -> Option<Check<'a>>
        ensures { option_map check_read result ≡ check_of self.now }
    {
        let (source, text) = self.names.two_files()?;
        let top = self.top()?;
        Some(Check {
            source,
            text,
            zilog: self.zilog,
            top,
        })
    }

    fn listing(&self) -> Option<Listing<'a>>
        ensures { option_map listing_read result ≡ listing_of self.now }
    {
        let source = self.names.one_file()?;
        let top = self.top()?;
        Some(Listing {
            source,
            zilog: self.zilog,
            top,
        })
    }

    fn run80(&self) -> Option<Command<'a>>
        ensures { option_map command_read result ≡ option_map Runs80 (run80_of self.now) }
    {
        let Listing { source, zilog, top } = self.listing()?;
        let run = self.run_options()?;
        Some(Command::Run80(Run80 {
            source,
            zilog,
            top,
            run,
        }))
    }

    fn run86(&self) -> Option<Command<'a>>
        ensures { option_map command_read result ≡ option_map Runs86 (run86_of self.now) }
    {
        let text = self.names.one_file()?;
        let choice = self.choice()?;
        let run = self.run_options()?;
        Some(Command::Run86(Run86 { text, choice, run }))
    }

    fn both(&self) -> Option<Command<'a>>
        ensures { option_map command_read result ≡ option_map RunsBoth (both_of self.now) }
    {
        let Listing { source, zilog, top } = self.listing()?;
        let choice = self.choice()?;
        let run = self.run_options()?;
        Some(Command::Both(Both {
            source,
            zilog,
            top,
            choice,
            run,
        }))
    }

    fn sample(&self) -> Option<Command<'a>>
        ensures { option_map command_read result ≡ option_map MakesSample (sample_of self.now) }
    {
        let (count, output) = self.names.count_and_file()?;
        Some(Command::Sample(Sample { count, output }))
    }

    fn cmd(&self) -> Option<Command<'a>>
        ensures { option_map command_read result ≡ option_map MakesCmd (cmd_of self.now) }
    {
        let (text, output) = self.names.two_files()?;
        Some(Command::Cmd(Cmd { text, output }))
    }

    fn cmd_show(&self) -> Option<Command<'a>>
        ensures { option_map command_read result ≡ option_map ShowsCmd (cmd_show_of self.now) }
    {
        let file = self.names.one_file()?;
        Some(Command::CmdShow(CmdShow { file }))
    }

    fn hex80(&self) -> Option<Command<'a>>
        ensures { option_map command_read result ≡ option_map WritesHex (hex80_of self.now) }
    {
        let (source, output) = self.names.two_files()?;
        let top = self.top()?;
        Some(Command::Hex80(Hex80 {
            source,
            output,
            zilog: self.zilog,
            top,
        }))
    }

    fn run_hex(&self) -> Option<Command<'a>>
        ensures { option_map command_read result ≡ option_map RunsHex (run_hex_of self.now) }
    {
        let file = self.names.one_file()?;
        let top = self.top()?;
        let choice = self.choice()?;
        let run = self.run_options()?;
        Some(Command::RunHex(RunHex {
            file,
            top,
            choice,
            run,
        }))
    }

    fn shrink(&self) -> Option<Command<'a>>
        ensures { option_map command_read result ≡ option_map ShrinksText (shrink_of self.now) }
    {
        let (source, text, output) = self.names.three_files()?;
        let top = self.top()?;
        Some(Command::Shrink(Shrink {
            source,
            text,
            output,
            top,
        }))
    }

    // The command of a name.
    fn command(&self, name: CommandName) -> Option<Command<'a>>
        ensures { option_map command_read result ≡ command_of name self.now }
    {
        match name {
            CommandName::Translate => self.translate(),
            CommandName::Check => self.check().map(Command::Check),
            CommandName::Flags => self.listing().map(Command::Flags),
            CommandName::Run80 => self.run80(),
            CommandName::Run86 => self.run86(),
            CommandName::Both => self.both(),
            CommandName::Sample => self.sample(),
            CommandName::Cmd => self.cmd(),
            CommandName::CmdShow => self.cmd_show(),
            CommandName::Hex80 => self.hex80(),
            CommandName::RunHex => self.run_hex(),
            CommandName::Shrink => self.shrink(),
            CommandName::Leaves => self.listing().map(Command::Leaves),
            CommandName::Explain => self.check().map(Command::Explain),
        }
    }
}

/// The command that the words are; None where they are no command.
pub fn read_words<'a>(alloc: Global, words: &'a [String]) -> Result<Option<Command<'a>>, AllocError>
    ensures { IfOk result (λ read. MatchOption read (IsNoCommand (map string_bytes words.now))
        (λ command. IsCommand (map string_bytes words.now) (command_read command))) }
{
    let Some((first, rest)) = first_word(words) else {
        return Ok(None);
    };
    match CommandName::of_word(first) {
        Some(name) => read_rest(alloc, name, rest),
        None => Ok(None),
    }
}

// The command of a name that the words behind it give. `clap` reads them. A word of one hyphen and something else is refused before:
// `clap` reads it as characters, and no clause says that a word's bytes are such.
fn read_rest<'a>(
    alloc: Global,
    name: CommandName,
    words: &'a [String],
) -> Result<Option<Command<'a>>, AllocError>
    ensures { IfOk result (λ read. MatchOption read (GiveNoCommand name (map string_bytes words.now))
        (λ command. GiveCommand name (map string_bytes words.now) (command_read command))) }
{
    if has_short(words) {
        return Ok(None);
    }
    match asked(alloc, name)?.try_get_matches_from(words) {
        Ok(matches) => Ok(Given::of_matches(&matches).command(name)),
        Err(error) => match error.kind() {
            ErrorKind::OutOfMemory => Err(AllocError),
            _ => Ok(None),
        },
    }
}

/// Words are one command at most.
pub fn words_are_one_command()
    ensures { (words : List (List ℕ)) (c d : CommandValue) → IsCommand words c → IsCommand words d → c ≡ d }
{}
