// What is true of the texts of every program, as texts, in any style. (A style says which labels stand, which instructions save the flags,
// which pairs of SAHF and LAHF are left out, which calls are `INT 224`, which conditional jumps are one short jump.)

ghost use Rattle.std.specs.Prelude.{◌≡◌, ◌≤◌, Ok};
ghost use Rattle.i86.specs.Decode.{HasReader};
ghost use Rattle.asm86_line_types.specs.Image.{Assembles, image_of};
ghost use Rattle.asm86_line_types.specs.Layout.{sizes_of};
ghost use Rattle.asm86_line_types.specs.Written.{written_text};
ghost use Rattle.asm80_types.specs.Program.{Program, IsProgram};
ghost use Rattle.flow.specs.Solving.{Needs};
ghost use Rattle.templates.specs.Plain.{plain_statements, plain};
ghost use Rattle.templates.specs.Style.{Style, plain_style, styled_statements, styled};
ghost use Rattle.templates.specs.Lean.{lean_style, lean};
ghost use Rattle.asm86.specs.Stream.{TextGives};
ghost use Rattle.asm86.specs.declared.fault.ImageFault.TheVariants.{CodeTooLarge};
ghost use Rattle.asm86.specs.Refusals.{ImageRefused};
ghost use Rattle.templates_law.specs.Text.Fits.{StyleFits};
ghost use Rattle.templates_law.specs.Text.Reach.{JumpsReach};
ghost use Rattle.templates_law.specs.Text.Own.{IsOwnText};

use asm86::written_text_reads_back;
use asm86_line_types::cells_are_sorted;
use flow::blocks_cut_the_program;

/// A law, of every program and every style: its text reads back, and has the opening, the runtime and the data of the program; where
/// the jumps that are shortened reach, it assembles exactly where the code fits, and the code has one reader; where the code does not
/// fit, it is refused with the code's size.
pub fn own_text_stands()
    ensures stands { (s : Style) (p : Program) → IsProgram p → IsOwnText p (styled s p) }
    ensures assembles { (s : Style) (p : Program) → IsProgram p → JumpsReach s p → StyleFits s p → Assembles (styled s p) }
    ensures assembles_exactly { (s : Style) (p : Program) → IsProgram p → Assembles (styled s p) → StyleFits s p }
    ensures too_large { (s : Style) (p : Program) → IsProgram p → 0x10000 ≤ sizes_of (styled_statements s p) → ImageRefused (styled s p) (CodeTooLarge (sizes_of (styled_statements s p))) }
    ensures reader { (s : Style) (p : Program) → IsProgram p → JumpsReach s p → StyleFits s p → HasReader (image_of (styled s p)).code }
{
    cells_are_sorted();
    written_text_reads_back();
    blocks_cut_the_program();
}

/// A law: the text in the plain style is the plain text, in which no jump is shortened.
pub fn plain_is_a_style()
    ensures is { (p : Program) → styled_statements plain_style p ≡ plain_statements p }
    ensures reaches { (p : Program) → JumpsReach plain_style p }
{}

/// A law: by the jump rule's distances, those of the text whose conditional jumps are all long, each jump that the lean text shortens
/// reaches in the lean text itself; what is needed may be any sets of parts.
pub fn lean_jumps_reach()
    ensures { (n : Needs) (p : Program) → IsProgram p → JumpsReach (lean_style n p) p }
{
    blocks_cut_the_program();
}

/// A law: the plain text and the lean text of every program read back as their lines.
pub fn text_reads_back()
    ensures plain { (p : Program) → IsProgram p → TextGives (written_text (plain p)) (Ok (plain p)) }
    ensures lean { (n : Needs) (p : Program) → IsProgram p → TextGives (written_text (lean n p)) (Ok (lean n p)) }
{
    own_text_stands();
    plain_is_a_style();
}
