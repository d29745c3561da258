// The program as one call: which command its words are, and what that comes to. Here stand the headlines of the whole.
//
// Proved of `xlt`, for every list of words and every host, and it returns for every input. Clause `headline`: where the words are the
// command `translate` and it answers 0, the bytes of the source (where the host tells them) are the source of a program, the output holds a
// text that has an image, and program and image are `Same` (`Headline`). Clause `checked_headline`: the same of `check` and the text that
// it was given (`CheckedHeadline`). Clause `command_file`: where they are the command `cmd` and it answers 0, the output is the command file
// of the text's image, and whatever program is `Same` with that image is `Same` with what the file loads to (`HasCommandFile`). Clause
// `hex_file`: where they are `hex80` and it answers 0, the output is the HEX file of the source's program, and what it is read as runs, byte
// by byte, as the program does (`HasHexFile`). Clause `shrunk_headline`: where they are `shrink` and it answers 0, the output holds what is
// left of the text, some of its lines in their order with no more code, which is a text with an image, and program and image are `Same`
// (`ShrunkHeadline`). Clause `outcomes` (`Outcomes`): words that are no command, and no others, are refused; each command answers as its
// crate says (each way to a status with its cause, what is said and what becomes of files; and which status it is where no call of the host
// failed and memory suffices); no other number is answered.
#![tactic(auto)]

ghost use Rattle.std.specs.Prelude.{◌≡◌, map};
ghost use Rattle.std.specs.String.{string_bytes};
ghost use Rattle.cmd_arguments.specs.ReadCommands.{command_read};
ghost use Rattle.cmd_arguments.specs.Words.{Translate, Check, Cmd, Hex80, Translates, Checks, MakesCmd, WritesHex, IsCommand, Shrink, ShrinksText};
ghost use Rattle.cmd_makes.specs.Cmds.{HasCommandFile};
ghost use Rattle.cmd_makes.specs.Hexes.{HasHexFile};
ghost use Rattle.cmd_shrink.specs.Shrinks.{ShrunkHeadline};
ghost use Rattle.xlt_app.specs.Top.{Headline, CheckedHeadline, Outcomes, CommandAnswers, HasLawfulValues};

use cmd_arguments::{Command, read_words, words_are_one_command};
use cmd_check::check;
use cmd_common::{InputNames, Stop, say_stop, words_refused};
use cmd_explain::explain;
use cmd_lists::{flags, leaves};
use cmd_makes::{cmd, cmdshow, hex80};
use cmd_runs::{both, run80, run86, runhex};
use cmd_sample::sample;
use cmd_shrink::shrink;
use cmd_translate::translate;
use host::Host;
pub use host_files::{write_bytes, write_out};
use std::alloc::{AllocError, Global};

/// What the program does with the words after its name: it answers the status that the process ends with. The files of the
/// command are those of the host, and what is said goes to it.
pub fn xlt<H: Host>(alloc: Global, words: Vec<String>, host: &mut H) -> u8
    ensures headline { (c : Translate) → IsCommand (map string_bytes words.items) (Translates c)
        → result ≡ 0 → Headline c (H.state host.old) (H.state host.new) }
    ensures checked_headline { (c : Check) → IsCommand (map string_bytes words.items) (Checks c)
        → result ≡ 0 → CheckedHeadline c (H.state host.old) }
    ensures command_file { (c : Cmd) → IsCommand (map string_bytes words.items) (MakesCmd c)
        → result ≡ 0 → HasCommandFile c (H.state host.old) (H.state host.new) }
    ensures hex_file { (c : Hex80) → IsCommand (map string_bytes words.items) (WritesHex c)
        → result ≡ 0 → HasHexFile c (H.state host.old) (H.state host.new) }
    ensures shrunk_headline { (c : Shrink) → IsCommand (map string_bytes words.items) (ShrinksText c)
        → result ≡ 0 → ShrunkHeadline c (H.state host.old) (H.state host.new) }
    ensures outcomes { Outcomes (map string_bytes words.items) (H.state host.old) (H.state host.new) result }
{
    words_are_one_command();
    match read_words(alloc, words.as_slice()) {
        Ok(Some(command)) => answer(alloc, host, &command),
        Ok(None) => words_refused(host),
        Err(AllocError) => say_stop(alloc, host, &InputNames::one(""), Stop::OutOfMemory),
    }
}

// The status of a command.
fn answer<H: Host>(alloc: Global, host: &mut H, command: &Command<'_>) -> u8
    requires { HasLawfulValues (command_read command.now) }
    ensures { CommandAnswers (command_read command.now) (H.state host.old) (H.state host.new) result }
{
    match command {
        Command::Translate(command) => translate(alloc, host, command),
        Command::Check(command) => check(alloc, host, command),
        Command::Flags(command) => flags(alloc, host, command),
        Command::Run80(command) => run80(alloc, host, command),
        Command::Run86(command) => run86(alloc, host, command),
        Command::Both(command) => both(alloc, host, command),
        Command::Sample(command) => sample(alloc, host, command),
        Command::Cmd(command) => cmd(alloc, host, command),
        Command::CmdShow(command) => cmdshow(alloc, host, command),
        Command::Hex80(command) => hex80(alloc, host, command),
        Command::RunHex(command) => runhex(alloc, host, command),
        Command::Shrink(command) => shrink(alloc, host, command),
        Command::Leaves(command) => leaves(alloc, host, command),
        Command::Explain(command) => explain(alloc, host, command),
    }
}
