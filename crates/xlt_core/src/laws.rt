// What is found of the texts that a program is translated to.
ghost use Rattle.std.specs.Prelude.{◌≡◌, List, length};
ghost use Rattle.asm80_types.specs.Program.{Program, IsProgram};
ghost use Rattle.asm86_line_types.specs.declared.line.Line86.{Line86};
ghost use Rattle.asm86_line_types.specs.Image.{statements};
ghost use Rattle.flow.specs.Blocks.{blocks};
ghost use Rattle.flow.specs.Solving.{Needs, AreAllNeeds};
ghost use Rattle.simulation_def.specs.Needed.{needed_by};
ghost use Rattle.templates.specs.declared.translation.Mode.{Mode};
ghost use Rattle.templates.specs.Translation.{IsText, CodeFits};
ghost use Rattle.templates_law.specs.Names.{IsMatch};
ghost use Rattle.text_check.specs.declared.finding.Finding.{Finding};
ghost use Rattle.text_check.specs.declared.finding.Finding.TheVariants.{Shown};
ghost use Rattle.text_check.specs.Findings.{IsFinding};

use templates_law::modes_match;
use text_check::findings_are_one;

/// A law: where its code fits, a program's text matches the program, block by block and with what is needed kept, in either mode; so
/// whatever is found of lines with its statements, however they are numbered, is that all blocks are shown.
pub fn own_texts_are_shown()
    ensures matches { (mode : Mode) (p : Program) (n : Needs) (lines : List Line86) → IsProgram p → AreAllNeeds p n → IsText mode p lines → CodeFits lines → IsMatch p lines (blocks p) (needed_by p n) }
    ensures shown { (mode : Mode) (p : Program) (lines others : List Line86) (finding : Finding) → IsProgram p → IsText mode p lines → CodeFits lines → statements others ≡ statements lines → IsFinding p others finding → finding ≡ Shown (length (blocks p)) }
{
    modes_match();
    findings_are_one();
}
