// The assembler of ASM-86 texts: the reader of a text, whose bytes come in any pieces and become statements with their lines, and the image
// of these statements. By its name are also the types of lines (`asm86_line_types`).
//
// Proved: `image` answers the image of statements that stand in order (code, data cells in ascending order, offsets of labels), or the
// refusal: the first line that defines a label again (M3), else the first that uses one that is not defined (M4), else the size of a code
// above 65,535 bytes, else the first short jump that does not reach (clauses `answer`, `assembled`, `refused`). Each comes exactly where
// the text has it, want of memory aside. `Image86::code`, `cells` and `offset` read the image. Laws: lines have one image or one refusal at
// most, and not both (`images_exclude_refusals`), and so has a text (`texts_have_one_image`); each text is read as something
// (`each_text_has_a_reading`); it cannot be that lines in order have neither an image nor a refusal (`lines_have_an_image_or_a_refusal`),
// nor that a text has neither an image nor a fault (`each_text_has_an_image_or_a_fault`). So these definitions leave no text out.
//
// Of every text, in every way to cut it into pieces: `Text86::feed` and `Text86::finish` give exactly the statements up to END with the
// numbers of their lines, or the first line that breaks M1, M2 or M5, or M6 (clauses `faulty`, `found`, `outcome`, `only`); `feed` tells a
// fault as soon as its line is complete, and the reader stays failed (`stands`); after END nothing is read (`ended`). What it gives is in
// order (`in_order`), so it may be assembled. Laws: a text is read as one thing (`text_has_one_reading`); the text written of lines in
// order, numbered from 1, with END, is read as these lines (`written_text_reads_back`).
#![tactic(auto)]

mod code;
mod data;
mod fault;
mod images;
mod laws;
mod layout;
mod listing;
mod offsets;
mod order;
mod reader;
mod text_fault;
mod text_laws;

ghost use Rattle.asm86.specs.Images.{HasImage, IsNoImage};
ghost use Rattle.asm86.specs.Refusals.{ImageRefused};
ghost use Rattle.asm86.specs.declared.fault.ImageFault.{ImageFault};
ghost use Rattle.asm86.specs.Stream.{TextGives};
ghost use Rattle.asm86_line_types.specs.Order.{at_start, in_order};
ghost use Rattle.asm86_line_types.specs.Image.{Image, statements, IsImage};
ghost use Rattle.asm86_line_types.specs.declared.line.TextRule.{TextRule};
ghost use Rattle.asm86_line_types.specs.declared.line.Line86.{Line86};
ghost use Rattle.std.specs.Prelude.{◌≡◌, ℕ, List, Result, true};

pub use asm86_line_types::{
    Jump, Label, Line86, LineText, Stmt86, TextRule, Value16, cells_are_sorted, code_size,
    statement_size, write_line,
};
pub use fault::ImageFault;
pub use images::{Image86, image};
pub use laws::{images_exclude_refusals, texts_have_one_image};
pub use reader::Text86;
pub use text_fault::TextFault;
pub use text_laws::{text_has_one_reading, written_text_reads_back};

/// A law: each ASM-86 text is read as something, its statements or the first rule that a line breaks. With
/// `text_has_one_reading` it is just one.
pub fn each_text_has_a_reading()
    ensures { (text : List ℕ) → (outcome : Result (List Line86) (ℕ × TextRule)) × TextGives text outcome }
{}

/// A law: no lines that stand in order are without both, an image and a refusal. With `images_exclude_refusals` they have just
/// one of the two.
pub fn lines_have_an_image_or_a_refusal()
    ensures { (lines : List Line86) → in_order at_start (statements lines) ≡ true → ((image : Image) → IsImage lines image → ⊥) → ((fault : ImageFault) → ImageRefused lines fault → ⊥) → ⊥ }
{}

/// A law: no ASM-86 text is without both, an image and a fault, which is the first rule that its lines break, or its image.
pub fn each_text_has_an_image_or_a_fault()
    ensures { (text : List ℕ) → ((image : Image) → HasImage text image → ⊥) → ((fault : ImageFault) → IsNoImage text fault → ⊥) → ⊥ }
{}
