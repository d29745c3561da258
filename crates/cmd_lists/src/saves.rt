// The command `flags`: the flags that a text has to save.
ghost use Rattle.std.specs.Prelude.{◌≡◌, true, map, IfOk};
ghost use Rattle.std.specs.String.{string_bytes};
ghost use Rattle.host.specs.Host.{SameFiles};
ghost use Rattle.asm80_types.specs.Program.{is_top};
ghost use Rattle.cmd_arguments.specs.ReadCommands.{listing_read};
ghost use Rattle.cmd_common.specs.Makes.{MakeGives, MakeCompletes};
ghost use Rattle.cmd_lists.specs.Saves.{letter_if, save_text, save_line, report_lines, flags_kind};

use crate::list::{Listed, list};
use crate::savings::{Saving, saved_among, saves_any, savings_of};
use asm80_types::Program80;
use cells::{Keep, Part};
use cmd_arguments::Listing;
use cmd_common::{saves_line, word_digits};
use host::Host;
use std::alloc::{AllocError, Global};

/// Lists the flags to be saved of the source of a command, and answers the status. The command's top is one that a program area may have.
pub fn flags<H: Host>(alloc: Global, host: &mut H, command: &Listing<'_>) -> u8
    requires { is_top command.now.top ≡ true }
    ensures gives { MakeGives (flags_kind (listing_read command.now)) (H.state host.old) (H.state host.new) result }
    ensures files { SameFiles (H.state host.old) (H.state host.new) }
    ensures completes { MakeCompletes (flags_kind (listing_read command.now)) (H.state host.old) (H.state host.new) result }
{
    list::<Saves, H>(alloc, host, command)
}

// The flags to be saved.
struct Saves;

impl Listed for Saves {
    ghost use Rattle.cmd_lists.specs.Saves.{AreSaveLines};

    ghost are_lines = { AreSaveLines };

    fn lines(alloc: Global, program: &Program80) -> Result<Vec<String>, AllocError> {
        let savings = savings_of(alloc, program)?;
        lines_of(alloc, savings.as_slice())
    }

    fn lines_are_one() {}
}

// The lines of the instructions that may have to save flags, and the last line, which counts them.
fn lines_of(alloc: Global, savings: &[Saving]) -> Result<Vec<String>, AllocError>
    ensures { IfOk result (λ lines. map string_bytes lines.items ≡ report_lines savings.now) }
{
    let mut lines = Vec::new(alloc);
    for saving in savings {
        lines.push(save_line(alloc, saving)?)?;
    }
    lines.push(saves_line(alloc, saved_among(savings), savings.len())?)?;
    Ok(lines)
}

// The line of one of them.
fn save_line(alloc: Global, saving: &Saving) -> Result<String, AllocError>
    ensures { IfOk result (λ line. string_bytes line ≡ save_line saving.now) }
{
    let place = word_digits(alloc, saving.at)?;
    let text = save_text(alloc, saving.keep)?;
    format!(in alloc; "{place} line {} {text}\n", saving.line)
}

// What an instruction saves.
fn save_text(alloc: Global, keep: Keep) -> Result<String, AllocError>
    ensures { IfOk result (λ text. string_bytes text ≡ save_text keep) }
{
    if !saves_any(keep) {
        return String::from_str(alloc, "no save");
    }
    let s = letter_if(keep.has(Part::S), "S");
    let z = letter_if(keep.has(Part::Z), "Z");
    let ac = letter_if(keep.has(Part::Ac), "A");
    let p = letter_if(keep.has(Part::P), "P");
    format!(in alloc; "save {s}{z}{ac}{p}")
}

// The letter of a flag that is saved.
fn letter_if(is_saved: bool, letter: &'static str) -> &'static str
    ensures { result.now ≡ letter_if is_saved letter.now }
{
    if is_saved { letter } else { "" }
}
