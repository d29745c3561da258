// How many lines of a text belong to an instruction.
ghost use Rattle.std.specs.Prelude.{◌≡◌, ◌≤◌};
ghost use Rattle.std.specs.List.{slice_get};
ghost use Rattle.asm86_line_types.specs.Image.{statements};
ghost use Rattle.commented_text.specs.Sizes.{is_lahf, is_sahf, is_rotate, is_past, sum_count, statement_count, group_size};

use asm86_line_types::{Label, Line86, Stmt86};
use i80::{Instr80, StackPair};
use i86::{Instr86, Reg16, Rotate};

// The statement at an index.
fn statement_at(lines: &[Line86], index: usize) -> Option<Stmt86>
    ensures { result ≡ slice_get (statements lines.now) index }
{
    match lines.get(index) {
        Some(line) => Some(line.stmt),
        None => None,
    }
}

fn is_lahf(statement: Option<Stmt86>) -> bool
    ensures { result ≡ is_lahf statement }
{
    matches!(statement, Some(Stmt86::Run(Instr86::Lahf)))
}

fn is_sahf(statement: Option<Stmt86>) -> bool
    ensures { result ≡ is_sahf statement }
{
    matches!(statement, Some(Stmt86::Run(Instr86::Sahf)))
}

fn is_rotate(statement: Option<Stmt86>) -> bool
    ensures { result ≡ is_rotate statement }
{
    matches!(
        statement,
        Some(Stmt86::Run(Instr86::Rotate16(Rotate::Rcr, Reg16::Si)))
    )
}

fn is_past(statement: Option<Stmt86>) -> bool
    ensures { result ≡ is_past statement }
{
    matches!(statement, Some(Stmt86::Jcc(_, Label::Skip(_))))
}

// The statements of INX and DCX: the LAHF and the SAHF may be left out.
fn sum_count(lines: &[Line86]) -> usize
    ensures value { result ≡ sum_count (statements lines.now) }
    ensures most { result ≤ 3 }
{
    let sum = if is_lahf(statement_at(lines, 0)) {
        2
    } else {
        1
    };
    if is_sahf(statement_at(lines, sum)) {
        sum + 1
    } else {
        sum
    }
}

// The statements of an instruction at the front of a text, without its label. Whether the flags are saved and a jump is long is seen
// from them.
fn statement_count(instr: Instr80, lines: &[Line86]) -> usize
    ensures value { result ≡ statement_count instr (statements lines.now) }
    ensures most { result ≤ 5 }
{
    match instr {
        Instr80::Inx(_) | Instr80::Dcx(_) => sum_count(lines),
        Instr80::Dad(_) if is_lahf(statement_at(lines, 0)) => 5,
        Instr80::Dad(_) if is_rotate(statement_at(lines, 1)) => 4,
        Instr80::Push(StackPair::Psw) => 4,
        Instr80::Pop(StackPair::Psw) if is_sahf(statement_at(lines, 2)) => 3,
        Instr80::Pop(StackPair::Psw) | Instr80::Ldax(_) | Instr80::Stax(_) => 2,
        Instr80::Jif(_, _) if is_past(statement_at(lines, 0)) => 3,
        Instr80::Xthl | Instr80::Cif(_, _) | Instr80::Rif(_) => 3,
        _ => 1,
    }
}

/// How many lines at the front of a text belong to the instruction that it begins with: its label, where it has one, and its statements.
pub fn group_size(instr: Instr80, lines: &[Line86]) -> usize
    ensures { result ≡ group_size instr (statements lines.now) }
{
    match lines.split_first() {
        Some((first, later)) if matches!(first.stmt, Stmt86::Mark(Label::At(_))) => {
            1 + statement_count(instr, later)
        }
        _ => statement_count(instr, lines),
    }
}
