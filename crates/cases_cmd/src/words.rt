// What the words of a command line are read as: blanks part the words behind `xlt`, `""` is a word without a letter, and `~` and `^`
// are a blank and a tab in a word.
use cmd_arguments::{
    Both, Check, Command, Hex80, Listing, Run80, RunHex, RunOptions, Translate, read_words,
};
use std::alloc::{AllocError, Global};

fn word_of(alloc: Global, text: &str) -> Result<String, AllocError> {
    let mut word = String::new(alloc);
    if text != "\"\"" {
        for letter in text.chars() {
            word.push(match letter {
                '~' => ' ',
                '^' => '\t',
                letter => letter,
            })?;
        }
    }
    Ok(word)
}

fn words_of(alloc: Global, line: &str) -> Result<Vec<String>, AllocError> {
    let mut words = Vec::new(alloc);
    for text in line.strip_prefix("xlt").unwrap_or("").split_whitespace() {
        words.push(word_of(alloc, text)?)?;
    }
    Ok(words)
}

// Run options by the files of the input and of the ports, the byte at 80H and the steps.
fn run_text(alloc: Global, run: &RunOptions) -> Result<String, AllocError> {
    let input = run.input.unwrap_or("none");
    let ports = run.ports.unwrap_or("none");
    let count = run.page.bytes()[0x24];
    format!(in alloc;
        "input {input} ports {ports} tail {count} steps {}",
        run.steps
    )
}

// The word of a spelling, after a blank, where it is not Intel's.
fn spelling(zilog: bool) -> &'static str {
    if zilog { " zilog" } else { "" }
}

fn translate_text(alloc: Global, command: &Translate) -> Result<String, AllocError> {
    let mode = if command.plain { "plain" } else { "lean" };
    let comments = if command.comments { " comments" } else { "" };
    format!(in alloc;
        "{} {} {mode} top {:x}{}{comments}",
        command.input,
        command.output,
        command.top,
        spelling(command.zilog)
    )
}

// `check` or `explain`, by its name.
fn check_text(alloc: Global, name: &str, command: &Check) -> Result<String, AllocError> {
    format!(in alloc;
        "{name} {} {} top {:x}{}",
        command.source,
        command.text,
        command.top,
        spelling(command.zilog)
    )
}

// A command that lists something of a source's program, by its name.
fn listing_text(alloc: Global, name: &str, command: &Listing) -> Result<String, AllocError> {
    let spelling = spelling(command.zilog);
    format!(in alloc; "{name} {} top {:x}{spelling}", command.source, command.top)
}

fn run80_text(alloc: Global, command: &Run80) -> Result<String, AllocError> {
    let run = run_text(alloc, &command.run)?;
    let spelling = spelling(command.zilog);
    format!(in alloc; "{} top {:x} {run}{spelling}", command.source, command.top)
}

fn both_text(alloc: Global, command: &Both) -> Result<String, AllocError> {
    let run = run_text(alloc, &command.run)?;
    format!(in alloc;
        "both {} top {:x} choice {:x} {run}{}",
        command.source,
        command.top,
        command.choice,
        spelling(command.zilog)
    )
}

fn run_hex_text(alloc: Global, command: &RunHex) -> Result<String, AllocError> {
    let run = run_text(alloc, &command.run)?;
    format!(in alloc;
        "runhex {} top {:x} choice {:x} {run}",
        command.file, command.top, command.choice
    )
}

fn hex80_text(alloc: Global, command: &Hex80) -> Result<String, AllocError> {
    format!(in alloc;
        "hex80 {} {} top {:x}{}",
        command.source,
        command.output,
        command.top,
        spelling(command.zilog)
    )
}

fn command_text(alloc: Global, command: &Command) -> Result<String, AllocError> {
    match command {
        Command::Translate(command) => translate_text(alloc, command),
        Command::Check(command) => check_text(alloc, "check", command),
        Command::Explain(command) => check_text(alloc, "explain", command),
        Command::Flags(command) => listing_text(alloc, "flags", command),
        Command::Leaves(command) => listing_text(alloc, "leaves", command),
        Command::Run80(command) => run80_text(alloc, command),
        Command::Run86(command) => {
            let run = run_text(alloc, &command.run)?;
            format!(in alloc; "{} choice {:x} {run}", command.text, command.choice)
        }
        Command::Both(command) => both_text(alloc, command),
        Command::Sample(command) => {
            format!(in alloc; "sample {} {}", command.count, command.output)
        }
        Command::Cmd(command) => format!(in alloc; "cmd {} {}", command.text, command.output),
        Command::CmdShow(command) => format!(in alloc; "cmdshow {}", command.file),
        Command::Hex80(command) => hex80_text(alloc, command),
        Command::RunHex(command) => run_hex_text(alloc, command),
        Command::Shrink(command) => {
            format!(in alloc;
                "shrink {} {} {} top {:x}",
                command.source, command.text, command.output, command.top
            )
        }
    }
}

/// The command that the words are, or `none`.
pub fn told(alloc: Global, line: &str) -> Result<String, AllocError> {
    let words = words_of(alloc, line)?;
    let text = match read_words(alloc, words.as_slice())? {
        Some(command) => command_text(alloc, &command)?,
        None => String::from_str(alloc, "none")?,
    };
    format!(in alloc; "{line} => {text}")
}
