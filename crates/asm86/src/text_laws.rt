// Laws of texts.
ghost use Rattle.std.specs.Prelude.{◌≡◌, ℕ, List, Result, Ok, true};
ghost use Rattle.asm86_line_types.specs.declared.line.Line86.{Line86};
ghost use Rattle.asm86_line_types.specs.declared.line.TextRule.{TextRule};
ghost use Rattle.asm86_line_types.specs.Written.{written_text};
ghost use Rattle.asm86.specs.Back.{AreWritten};
ghost use Rattle.asm86.specs.Stream.{TextGives, are_in_order, has_end};

/// A text is read as one thing: its statements, or its first fault.
pub fn text_has_one_reading()
    ensures { (text : List ℕ) (a b : Result (List Line86) (ℕ × TextRule)) → TextGives text a → TextGives text b → a ≡ b }
{}

/// The text written of lines in order, numbered from 1 one after the other, with END, is read as these lines.
pub fn written_text_reads_back()
    ensures { (lines : List Line86) → AreWritten 1 lines → are_in_order lines ≡ true → has_end lines ≡ true → TextGives (written_text lines) (Ok lines) }
{}
