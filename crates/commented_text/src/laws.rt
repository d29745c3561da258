// A text with the lines of its source as comments is read as the text without.

ghost use Rattle.std.specs.Prelude.{ℕ, List, Option, Ok};
ghost use Rattle.asm80_types.specs.Program.{Program};
ghost use Rattle.asm86_line_types.specs.Image.{Image};
ghost use Rattle.asm86_line_types.specs.Written.{written_text};
ghost use Rattle.asm86_line_types.specs.declared.line.Line86.{Line86};
ghost use Rattle.asm86.specs.Images.{HasImage};
ghost use Rattle.asm86.specs.Stream.{TextGives};
ghost use Rattle.templates.specs.declared.translation.Mode.{Mode};
ghost use Rattle.templates.specs.Translation.{IsText};
ghost use Rattle.commented_text.specs.Commented.{IsWrittenText};
ghost use Rattle.commented_text.specs.Reading.{ReadsAs};

/// A law, of every source, program and text of it: with the lines of the source as comments or without, the text is read as the same
/// statements, and has the same image.
pub fn commented_texts_read_back()
    ensures reads { (kept : Option (List ℕ)) (mode : Mode) (p : Program) (lines : List Line86) (text : List ℕ) → IsText mode p lines → IsWrittenText kept p lines text → TextGives (written_text lines) (Ok lines) → ReadsAs lines text }
    ensures image { (kept : Option (List ℕ)) (p : Program) (lines : List Line86) (text : List ℕ) (image : Image) → IsWrittenText kept p lines text → HasImage (written_text lines) image → HasImage text image }
{}
