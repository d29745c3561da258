//! The table of the commands.

ghost use Rattle.std.specs.Prelude.{◌≡◌};
ghost use Rattle.cmd_arguments.specs.Table.{command_named, command_word, flag_words, long_name, options_of};

/// A command's name.
#[derive(Clone, Copy)]
pub enum CommandName {
    Translate,
    Check,
    Flags,
    Run80,
    Run86,
    Both,
    Sample,
    Cmd,
    CmdShow,
    Hex80,
    RunHex,
    Shrink,
    Leaves,
    Explain,
}

/// An option's name, or a flag's.
#[derive(Clone, Copy)]
pub enum OptionName {
    Top,
    Choice,
    Input,
    Disk,
    Ports,
    OutDisk,
    Tail,
    Steps,
    Plain,
    Zilog,
    Comments,
}

const COMMANDS: [CommandName; 14] = [
    CommandName::Translate,
    CommandName::Check,
    CommandName::Flags,
    CommandName::Run80,
    CommandName::Run86,
    CommandName::Both,
    CommandName::Sample,
    CommandName::Cmd,
    CommandName::CmdShow,
    CommandName::Hex80,
    CommandName::RunHex,
    CommandName::Shrink,
    CommandName::Leaves,
    CommandName::Explain,
];

impl CommandName {
    /// The command of a word.
    pub fn of_word(word: &str) -> Option<CommandName>
        ensures { result ≡ command_named word.now }
    {
        for command in &COMMANDS {
            if command.word() == word {
                return Some(*command);
            }
        }
        None
    }

    /// The word that is the command's name.
    pub fn word<'a>(self) -> &'a str
        ensures { result.now ≡ command_word self }
    {
        match self {
            CommandName::Translate => "translate",
            CommandName::Check => "check",
            CommandName::Flags => "flags",
            CommandName::Run80 => "run80",
            CommandName::Run86 => "run86",
            CommandName::Both => "both",
            CommandName::Sample => "sample",
            CommandName::Cmd => "cmd",
            CommandName::CmdShow => "cmdshow",
            CommandName::Hex80 => "hex80",
            CommandName::RunHex => "runhex",
            CommandName::Shrink => "shrink",
            CommandName::Leaves => "leaves",
            CommandName::Explain => "explain",
        }
    }

    /// The options with a value that the command takes.
    pub fn options(self) -> &'static [OptionName]
        ensures { result.now ≡ options_of self }
    {
        use OptionName::*;

        match self {
            CommandName::Translate
            | CommandName::Check
            | CommandName::Flags
            | CommandName::Hex80
            | CommandName::Shrink
            | CommandName::Leaves
            | CommandName::Explain => &[Top],
            CommandName::Run80 => &[Top, Input, Disk, Ports, OutDisk, Tail, Steps],
            CommandName::Run86 => &[Choice, Input, Disk, Ports, OutDisk, Tail, Steps],
            CommandName::Both | CommandName::RunHex => &[
                Top, Choice, Input, Disk, Ports, OutDisk, Tail, Steps,
            ],
            CommandName::Sample | CommandName::Cmd | CommandName::CmdShow => &[],
        }
    }

    /// The flags that the command takes.
    pub fn flags(self) -> &'static [OptionName]
        ensures { result.now ≡ flag_words self }
    {
        match self {
            CommandName::Translate => {
                &[OptionName::Plain, OptionName::Zilog, OptionName::Comments]
            }
            CommandName::Check
            | CommandName::Flags
            | CommandName::Run80
            | CommandName::Both
            | CommandName::Hex80
            | CommandName::Leaves
            | CommandName::Explain => &[OptionName::Zilog],
            CommandName::Run86
            | CommandName::Sample
            | CommandName::Cmd
            | CommandName::CmdShow
            | CommandName::RunHex
            | CommandName::Shrink => &[],
        }
    }
}

impl OptionName {
    /// The name, which stands behind two hyphens in the option's word.
    pub fn name<'a>(self) -> &'a str
        ensures { result.now ≡ long_name self }
    {
        match self {
            OptionName::Top => "top",
            OptionName::Choice => "choice",
            OptionName::Input => "input",
            OptionName::Disk => "disk",
            OptionName::Ports => "ports",
            OptionName::OutDisk => "out-disk",
            OptionName::Tail => "tail",
            OptionName::Steps => "steps",
            OptionName::Plain => "plain",
            OptionName::Zilog => "zilog",
            OptionName::Comments => "comments",
        }
    }
}
