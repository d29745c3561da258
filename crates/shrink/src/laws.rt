// What is true of the lines that are left, and of lines that are written.
ghost use Rattle.std.specs.Prelude.{◌≡◌, ℕ, true, List, Ok};
ghost use Rattle.asm86_line_types.specs.declared.line.Line86.{Line86};
ghost use Rattle.asm86_line_types.specs.Image.{Assembles, image_of, statements};
ghost use Rattle.asm86_line_types.specs.Written.{written_text};
ghost use Rattle.asm86_line_reader.specs.Forms.{names_labels};
ghost use Rattle.asm86_line_reader.specs.ReadBack.{has_line};
ghost use Rattle.asm86.specs.Images.{HasImage};
ghost use Rattle.asm86.specs.Stream.{TextGives};
ghost use Rattle.shrink.specs.Written.{HaveLines, NameLabels, IsWritable, ReadsBack};
ghost use Rattle.shrink.specs.Laws.{ShrunkIsLeft, OneShrunk};

use asm86::written_text_reads_back;
use asm86_line_reader::lines_name_labels;
use asm86_line_types::{Line86, Stmt86};

/// A law, of every program and lines: what is left of the lines is among them, has no more code than they, and has an image, may be written
/// and matches the program where they do; and it is one list.
pub fn shrunk_is_left()
    ensures left { ShrunkIsLeft }
    ensures one { OneShrunk }
{}

/// A law, of all lines that have an image, a written line each, and END among them: their text is read as the same statements, numbered
/// from 1, and has their image.
pub fn written_lines_read_back()
    ensures reads { (lines : List Line86) → IsWritable lines → ReadsBack lines }
    ensures image { (lines : List Line86) → IsWritable lines → HasImage (written_text lines) (image_of lines) }
{
    written_text_reads_back();
}

/// A law: the lines that a text gives may be written, where they have an image.
pub fn text_is_writable(lines: &[Line86])
    requires gives { (text : List ℕ) × TextGives text (Ok lines.now) }
    requires assembles { Assembles lines.now }
    ensures { IsWritable lines.now }
{
    lines_name_labels();
    lines_have_text(lines);
}

// Statements that name their labels have a written line each: their numbers are within the ranges of their types.
fn lines_have_text(lines: &[Line86])
    ensures { NameLabels (statements lines.now) → HaveLines (statements lines.now) }
{
    for line in lines {
        statement_has_line(line.stmt);
    }
}

fn statement_has_line(stmt: Stmt86)
    ensures { names_labels stmt ≡ true → has_line stmt ≡ true }
{}
