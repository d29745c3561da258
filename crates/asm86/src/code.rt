// The bytes of the code.
ghost use Rattle.std.specs.Prelude.{◌≡◌, ◌+◌, ◌%◌, ◌<◌, ◌++◌, length, MatchOption, IfOk, OnOk};
ghost use Rattle.asm86_line_types.specs.declared.line.Label.{Label};
ghost use Rattle.asm86_line_types.specs.Image.{statements, short_reaches, AllReach};
ghost use Rattle.asm86_line_types.specs.Layout.{size_of, sizes_of, bytes_at, instr_of, code_from, distance16};
ghost use Rattle.asm86.specs.Places.{label_place};
ghost use Rattle.asm86.specs.Refusals.{IsFirstToBreak};

use crate::offsets::Offsets;
use asm86_line_types::{Line86, Stmt86, statement_size};
use i86::{Instr86, encode};
use std::alloc::{AllocError, Global};

/// The first line with a short jump that does not reach.
pub fn first_short(offsets: &Offsets, lines: &[Line86]) -> Option<u32>
    requires small { sizes_of (statements lines.now) < 0x10000 }
    requires labels { (label : Label) → label_place offsets.now label < 0x10000 }
    ensures { MatchOption result
        (AllReach (label_place offsets.now) 0 (statements lines.now))
        (λ line. IsFirstToBreak (AllReach (label_place offsets.now) 0) lines.now line) }
{
    let mut at = 0;
    for line in lines {
        if !does_reach(offsets, at, line.stmt) {
            return Some(line.line);
        }
        at += statement_size(line.stmt);
    }
    None
}

// Whether a statement at a place is no short jump or reaches.
fn does_reach(offsets: &Offsets, at: usize, stmt: Stmt86) -> bool
    requires small { at < 0x10000 }
    requires labels { (label : Label) → label_place offsets.now label < 0x10000 }
    ensures { result ≡ short_reaches (label_place offsets.now) at stmt }
{
    match stmt {
        Stmt86::Jmps(label) | Stmt86::Jcc(_, label) => {
            let from = at + 2;
            let to = offsets.place(label);
            from <= to + 128 && to <= from + 127
        }
        _ => true,
    }
}

/// The bytes of the statements, one behind the other.
pub fn code_bytes(alloc: Global, offsets: &Offsets, lines: &[Line86]) -> Result<Vec<u8>, AllocError>
    requires small { sizes_of (statements lines.now) < 0x10000 }
    requires labels { (label : Label) → label_place offsets.now label < 0x10000 }
    ensures bytes { IfOk result (λ code. code.items ≡ code_from (label_place offsets.now) 0 (statements lines.now)) }
    ensures small { IfOk result (λ code. length code.items < 0x10000) }
{
    let mut code = Vec::new(alloc);
    for line in lines {
        push_bytes(&mut code, offsets, line.stmt)?;
    }
    Ok(code)
}

// The bytes of a statement, put to those before it.
fn push_bytes(code: &mut Vec<u8>, offsets: &Offsets, stmt: Stmt86) -> Result<(), AllocError>
    requires small { length code.old.items + size_of stmt < 0x10000 }
    requires labels { (label : Label) → label_place offsets.now label < 0x10000 }
    ensures { OnOk result (code.new.items ≡ code.old.items ++ bytes_at (label_place offsets.now) (length code.old.items) stmt) }
{
    if let Some(instr) = instruction(offsets, code.len(), stmt) {
        code.extend_from_slice(encode(instr).bytes())?;
    }
    Ok(())
}

// The instruction that a statement at a place is.
fn instruction(offsets: &Offsets, at: usize, stmt: Stmt86) -> Option<Instr86>
    requires small { at + size_of stmt < 0x10000 }
    requires labels { (label : Label) → label_place offsets.now label < 0x10000 }
    ensures { result ≡ instr_of (label_place offsets.now) at stmt }
{
    match stmt {
        Stmt86::Run(instr) => Some(instr),
        Stmt86::MovOffset(reg, label) => Some(Instr86::MovNum16(reg, offsets.place(label) as u16)),
        Stmt86::Jmp(label) => Some(Instr86::JmpNear(distance(at + 3, offsets.place(label)))),
        Stmt86::Jmps(label) => Some(Instr86::JmpShort(short_distance(
            at + 2,
            offsets.place(label),
        ))),
        Stmt86::Jcc(jump, label) => Some(Instr86::Jcc(
            jump,
            short_distance(at + 2, offsets.place(label)),
        )),
        Stmt86::Call(label) => Some(Instr86::CallNear(distance(at + 3, offsets.place(label)))),
        _ => None,
    }
}

// The distance from one place to another, as a word.
fn distance(from: usize, to: usize) -> u16
    requires from { from < 0x10000 }
    requires to { to < 0x10000 }
    ensures { result ≡ distance16 from to }
{
    ((to + (0x10000 - from)) % 0x10000) as u16
}

// The low byte of the distance from one place to another.
fn short_distance(from: usize, to: usize) -> u8
    requires from { from < 0x10000 }
    requires to { to < 0x10000 }
    ensures { result ≡ distance16 from to % 256 }
{
    (distance(from, to) % 256) as u8
}
