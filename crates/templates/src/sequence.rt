// A few statements, in an array.
ghost use Rattle.std.specs.Prelude.{◌≡◌, ◌≤◌, [], ◌∷◌, length};

use asm86_line_types::Stmt86;
use std::marker::Model;

/// A list of at most 12 statements.
#[derive(Drop)]
pub struct Sequence {
    statements: [Stmt86; 12],
    count: usize,
}

impl Model for Sequence {
    ghost use Rattle.std.specs.Prelude.{List, take, ◌≤◌};
    ghost use Rattle.asm86_line_types.specs.declared.line.Stmt86.{Stmt86};

    ghost Value = { List Stmt86 };

    ghost view = { λ s. take s.count s.statements };

    ghost invariant = { λ s. s.count ≤ 12 };
}

impl Sequence {
    /// The statements.
    pub fn as_slice(&self) -> &[Stmt86]
        ensures value { result.now ≡ self.now }
        ensures most { length self.now ≤ 12 }
    {
        &self.statements[..self.count]
    }

    /// The list of these statements.
    pub(crate) fn of(statements: &[Stmt86]) -> Sequence
        requires { length statements.now ≤ 12 }
        ensures { result ≡ statements.now }
    {
        let mut kept = [Stmt86::EndText; 12];
        kept[..statements.len()].copy_from_slice(statements);
        Sequence {
            statements: kept,
            count: statements.len(),
        }
    }

    /// The list of one statement.
    pub(crate) fn one(statement: Stmt86) -> Sequence
        ensures { result ≡ statement ∷ [] }
    {
        Sequence {
            statements: [statement; 12],
            count: 1,
        }
    }
}
