// The lines of a text, numbered as they come.
ghost use Rattle.std.specs.Prelude.{◌≡◌, ◌+◌, ◌^◌, ◌<◌, [], ◌∷◌, ◌++◌, length, OnOk};
ghost use Rattle.asm86_line_types.specs.Image.{statements};
ghost use Rattle.templates.specs.Plain.{numbered_from};

use asm86_line_types::{Line86, Stmt86};
use std::alloc::{AllocError, Global};
use std::marker::Model;

/// Statements as lines, numbered from 1.
#[derive(Drop)]
pub struct Text {
    lines: Vec<Line86>,
}

impl Model for Text {
    ghost use Rattle.std.specs.Prelude.{List, ◌≡◌};
    ghost use Rattle.asm86_line_types.specs.declared.line.Stmt86.{Stmt86};
    ghost use Rattle.asm86_line_types.specs.Image.{statements};
    ghost use Rattle.templates.specs.Plain.{numbered_from};

    ghost Value = { List Stmt86 };

    ghost view = { λ t. statements t.lines.items };

    ghost invariant = { λ t. t.lines.items ≡ numbered_from 1 (statements t.lines.items) };
}

impl Text {
    /// No statements.
    pub fn new(alloc: Global) -> Text
        ensures { result ≡ [] }
    {
        Text {
            lines: Vec::new(alloc),
        }
    }

    /// One more statement, on the next line.
    pub fn push(&mut self, statement: Stmt86) -> Result<(), AllocError>
        requires { length self.old + 1 < 2 ^ 32 }
        ensures { OnOk result (self.new ≡ self.old ++ statement ∷ []) }
    {
        let line = self.lines.len() as u32 + 1;
        self.lines.push(Line86 {
            line,
            stmt: statement,
        })?;
        Ok(())
    }

    /// More statements, on the next lines.
    pub fn append(&mut self, statements: &[Stmt86]) -> Result<(), AllocError>
        requires { length self.old + length statements.now < 2 ^ 32 }
        ensures { OnOk result (self.new ≡ self.old ++ statements.now) }
    {
        for statement in statements {
            self.push(*statement)?;
        }
        Ok(())
    }

    /// The lines.
    pub fn into_lines(self) -> Vec<Line86>
        ensures { result.items ≡ numbered_from 1 self }
    {
        self.lines
    }
}
