// Laws of the texts that a program is translated to.

ghost use Rattle.std.specs.Prelude.{◌≡◌, List, Ok};
ghost use Rattle.i86.specs.Decode.{HasReader};
ghost use Rattle.asm80_types.specs.Program.{Program, IsProgram};
ghost use Rattle.asm86_line_types.specs.declared.line.Line86.{Line86};
ghost use Rattle.asm86_line_types.specs.Image.{Assembles, image_of, statements};
ghost use Rattle.asm86_line_types.specs.Written.{written_text};
ghost use Rattle.asm86.specs.Stream.{TextGives};
ghost use Rattle.flow.specs.Blocks.{blocks};
ghost use Rattle.flow.specs.Solving.{Needs, AreAllNeeds};
ghost use Rattle.templates.specs.Plain.{plain};
ghost use Rattle.sym_block_def.specs.Sorts.{StatementsAreCoded};
ghost use Rattle.simulation_def.specs.Matches.{Matches, DataAreCoded};
ghost use Rattle.simulation_def.specs.Needed.{needed_by};
ghost use Rattle.simulation_def.specs.Ones.{ones, all_kept};
ghost use Rattle.simulation_def.specs.Same.{Same};
ghost use Rattle.simulation_law.specs.Laws.{IsMatch};
ghost use Rattle.templates.specs.declared.translation.Mode.{Mode};
ghost use Rattle.templates.specs.Translation.{IsText, CodeFits};
ghost use Rattle.templates_law.specs.Laws.{OwnRunsBeginInStep};

use crate::match_laws::{
    ones_are_blocks, own_texts_match, plain_blocks_match, styles_respect_needs,
};
use crate::text_laws::{lean_jumps_reach, own_text_stands, plain_is_a_style, text_reads_back};
use simulation_def::{blocks_are_cuts, needs_return};
use simulation_law::{blocks_follow, matches_is_same};
use templates::lean_texts_are_one;

/// A law, of every program and mode: its text reads back as its lines, and it has one. Where the code fits into a segment, the lines
/// assemble to an image with one reader of its code, and that image makes the program's system calls in their order, and ends where the
/// program ends.
pub fn own_texts_are_same()
    ensures reads_back { (mode : Mode) (p : Program) (lines : List Line86) → IsProgram p → IsText mode p lines → TextGives (written_text lines) (Ok lines) }
    ensures assembles { (mode : Mode) (p : Program) (lines : List Line86) → IsProgram p → IsText mode p lines → CodeFits lines → Assembles lines }
    ensures reader { (mode : Mode) (p : Program) (lines : List Line86) → IsProgram p → IsText mode p lines → CodeFits lines → HasReader (image_of lines).code }
    ensures same { (mode : Mode) (p : Program) (lines : List Line86) → IsProgram p → IsText mode p lines → CodeFits lines → Same p (image_of lines) }
    ensures one { (mode : Mode) (p : Program) (xs ys : List Line86) → IsText mode p xs → IsText mode p ys → xs ≡ ys }
{
    text_reads_back();
    lean_texts_are_one();
    own_text_stands();
    plain_is_a_style();
    lean_jumps_reach();
    plain_matches_alone();
    modes_match();
    matches_is_same();
}

/// A law: where its code fits, a program's plain text matches the program, each instruction alone and all parts kept.
pub fn plain_matches_alone()
    ensures { (p : Program) → IsProgram p → CodeFits (plain p) → IsMatch p (plain p) (ones p) (all_kept p) }
{
    own_text_stands();
    plain_is_a_style();
    ones_are_blocks();
    plain_blocks_match();
}

/// A law: where its code fits, a program's text matches the program, block by block and with what is needed kept, in either mode.
pub fn modes_match()
    ensures { (mode : Mode) (p : Program) (n : Needs) (lines : List Line86) → IsProgram p → AreAllNeeds p n → IsText mode p lines → CodeFits lines → IsMatch p lines (blocks p) (needed_by p n) }
{
    own_text_stands();
    plain_is_a_style();
    lean_jumps_reach();
    lean_texts_are_one();
    own_texts_match();
    styles_respect_needs();
    blocks_are_cuts();
    needs_return();
}

/// A law, of every program and lines with an image, whose numbers are in their ranges: where the lines match the program block by block
/// and with what is needed kept, the image makes the program's system calls in their order, and ends where the program ends.
pub fn matching_blocks_are_same()
    ensures { (p : Program) (n : Needs) (lines : List Line86) → IsProgram p → AreAllNeeds p n → Assembles lines → StatementsAreCoded (statements lines) → DataAreCoded (statements lines) → Matches p lines (blocks p) (needed_by p n) → Same p (image_of lines) }
{
    blocks_are_cuts();
    needs_return();
    matches_is_same();
}

/// A law: where the code of its text fits, in either mode, a program's run begins linked with that of its text. So lines match programs,
/// linked runs and runs that follow one another are there.
pub fn own_runs_begin_in_step()
    ensures { OwnRunsBeginInStep }
{
    modes_match();
    blocks_follow();
}
