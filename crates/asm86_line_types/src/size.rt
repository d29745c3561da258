// How many bytes of code statements have.
ghost use Rattle.std.specs.Prelude.{◌≡◌, ◌*◌, ◌^◌, ◌<◌, ◌≤◌, length};
ghost use Rattle.asm86_line_types.specs.Layout.{size_of, sizes_of};
ghost use Rattle.asm86_line_types.specs.Image.{statements};

use crate::line::{Line86, Stmt86};

/// How many bytes a statement has in the code: six at most.
pub fn statement_size(stmt: Stmt86) -> usize
    ensures value { result ≡ size_of stmt }
    ensures most { result ≤ 6 }
{
    match stmt {
        Stmt86::Run(i) => usize::from(i86::length_of(i)),
        Stmt86::MovOffset(_, _) | Stmt86::Jmp(_) | Stmt86::Call(_) => 3,
        Stmt86::Jmps(_) | Stmt86::Jcc(_, _) => 2,
        _ => 0,
    }
}

/// How many bytes of code the statements of the lines have: six a line at most.
pub fn code_size(lines: &[Line86]) -> usize
    requires { length lines.now < 2 ^ 28 }
    ensures value { result ≡ sizes_of (statements lines.now) }
    ensures most { result ≤ 6 * length lines.now }
{
    let mut total = 0;
    for line in lines {
        total += statement_size(line.stmt);
    }
    total
}
