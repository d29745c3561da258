// The written line of each statement.
ghost use Rattle.std.specs.Prelude.{◌≡◌, ◌+◌, ◌≤◌, ◌++◌, codes, length};
ghost use Rattle.asm86_line_types.specs.Written.{alone, with_one, with_two, label_text, computation_line, mov_line, instr_line, written_line};

use crate::line::{Label, Stmt86};
use crate::line_text::LineText;
use crate::operands::{
    alu, byte, count, direct8, direct16, jump, label, offset, operand8, operand16, ptr, reg8,
    reg16, rotate, stacked, value, word,
};
use i86::Instr86;

// Each line ends with CR and LF.
fn end(mut line: LineText) -> LineText
    requires { length line ≤ 38 }
    ensures value { result ≡ line ++ codes "\r\n" }
    ensures size { length result ≤ 40 }
{
    line.push(b"\r\n");
    line
}

// A line of a word.
fn alone(word: &[u8]) -> LineText
    requires { length word.now ≤ 4 }
    ensures value { result ≡ alone word.now }
    ensures size { length result ≤ 40 }
{
    let mut line = LineText::of(b"\t");
    line.push(word);
    end(line)
}

// A line of a word with an operand.
fn with_one(word: &[u8], first: &[u8]) -> LineText
    requires word { length word.now ≤ 4 }
    requires operand { length first.now ≤ 30 }
    ensures value { result ≡ with_one word.now first.now }
    ensures size { length result ≤ 40 }
{
    let mut line = LineText::of(b"\t");
    line.push(word);
    line.push(b"\t");
    line.push(first);
    end(line)
}

// A line of a word with two operands.
fn with_two(word: &[u8], first: &[u8], second: &[u8]) -> LineText
    requires word { length word.now ≤ 4 }
    requires operands { length first.now + length second.now ≤ 30 }
    ensures value { result ≡ with_two word.now first.now second.now }
    ensures size { length result ≤ 40 }
{
    let mut line = LineText::of(b"\t");
    line.push(word);
    line.push(b"\t");
    line.push(first);
    line.push(b",");
    line.push(second);
    end(line)
}

// The line of an instruction that computes; nothing of another.
fn computation(i: Instr86) -> LineText
    ensures value { result ≡ computation_line i }
    ensures size { length result ≤ 40 }
{
    match i {
        Instr86::Alu(op, operand) => with_two(alu(op), b"AL", operand8(operand)),
        Instr86::AluNum(op, n) => with_two(alu(op), b"AL", byte(n).as_slice()),
        Instr86::OrClCl => with_two(b"OR", b"CL", b"CL"),
        Instr86::Add16(to, from) => with_two(b"ADD", reg16(to), reg16(from)),
        Instr86::Count8(by, operand) => with_one(count(by), operand8(operand)),
        Instr86::Count16(by, reg) => with_one(count(by), reg16(reg)),
        Instr86::Rotate8(by, reg) => with_two(rotate(by), reg8(reg), b"1"),
        Instr86::Rotate16(by, reg) => with_two(rotate(by), reg16(reg), b"1"),
        Instr86::Not8(reg) => with_one(b"NOT", reg8(reg)),
        _ => LineText::empty(),
    }
}

// The line of a MOV, or of an instruction that computes; nothing of another.
fn mov(i: Instr86) -> LineText
    ensures value { result ≡ mov_line i }
    ensures size { length result ≤ 40 }
{
    match i {
        Instr86::MovReg8(to, from) => with_two(b"MOV", reg8(to), operand8(from)),
        Instr86::MovMem8(to, from) => with_two(b"MOV", ptr(to), reg8(from)),
        Instr86::MovAlDirect(from) => with_two(b"MOV", b"AL", direct8(from).as_slice()),
        Instr86::MovDirectAl(to) => with_two(b"MOV", direct8(to).as_slice(), b"AL"),
        Instr86::MovNum8(to, n) => with_two(b"MOV", reg8(to), byte(n).as_slice()),
        Instr86::MovNum16(to, w) => with_two(b"MOV", reg16(to), word(w).as_slice()),
        Instr86::MovMemNum(to, n) => with_two(b"MOV", ptr(to), byte(n).as_slice()),
        Instr86::MovReg16(to, from) => with_two(b"MOV", reg16(to), operand16(from).as_slice()),
        Instr86::MovDirect16(to, from) => with_two(b"MOV", direct16(to).as_slice(), reg16(from)),
        Instr86::MovAxDs => with_two(b"MOV", b"AX", b"DS"),
        Instr86::MovSsAx => with_two(b"MOV", b"SS", b"AX"),
        _ => computation(i),
    }
}

// The line of an instruction.
fn instr(i: Instr86) -> LineText
    ensures value { result ≡ instr_line i }
    ensures size { length result ≤ 40 }
{
    match i {
        Instr86::Push(reg) => with_one(b"PUSH", stacked(reg)),
        Instr86::Pop(reg) => with_one(b"POP", stacked(reg)),
        Instr86::Xchg8(first, second) => with_two(b"XCHG", reg8(first), reg8(second)),
        Instr86::Xchg16(first, second) => with_two(b"XCHG", reg16(first), reg16(second)),
        Instr86::Daa => alone(b"DAA"),
        Instr86::Sahf => alone(b"SAHF"),
        Instr86::Lahf => alone(b"LAHF"),
        Instr86::Cmc => alone(b"CMC"),
        Instr86::Stc => alone(b"STC"),
        Instr86::Nop => alone(b"NOP"),
        Instr86::JmpBx => with_one(b"JMP", b"BX"),
        Instr86::Ret => alone(b"RET"),
        Instr86::Int224 => with_one(b"INT", b"224"),
        Instr86::InAl(port) => with_two(b"IN", b"AL", byte(port).as_slice()),
        Instr86::OutAl(port) => with_two(b"OUT", byte(port).as_slice(), b"AL"),
        _ => mov(i),
    }
}

// A label's line.
fn mark(of: Label) -> LineText
    ensures value { result ≡ label_text of ++ codes ":\r\n" }
    ensures size { length result ≤ 40 }
{
    let mut line = label(of);
    line.push(b":");
    end(line)
}

/// The written line of a statement, with CR and LF: at most 40 bytes. A jump or call with a displacement, which no text
/// holds since it names labels, has no bytes.
pub fn write_line(stmt: Stmt86) -> LineText
    ensures value { result ≡ written_line stmt }
    ensures size { length result ≤ 40 }
{
    match stmt {
        Stmt86::Cseg => alone(b"CSEG"),
        Stmt86::Dseg => alone(b"DSEG"),
        Stmt86::Org(w) => with_one(b"ORG", word(w).as_slice()),
        Stmt86::Rb(w) => with_one(b"RB", word(w).as_slice()),
        Stmt86::Db(n) => with_one(b"DB", byte(n).as_slice()),
        Stmt86::Dw(item) => with_one(b"DW", value(item).as_slice()),
        Stmt86::Mark(of) => mark(of),
        Stmt86::Run(i) => instr(i),
        Stmt86::MovOffset(to, of) => with_two(b"MOV", reg16(to), offset(of).as_slice()),
        Stmt86::Jmp(to) => with_one(b"JMP", label(to).as_slice()),
        Stmt86::Jmps(to) => with_one(b"JMPS", label(to).as_slice()),
        Stmt86::Jcc(on, to) => with_one(jump(on), label(to).as_slice()),
        Stmt86::Call(to) => with_one(b"CALL", label(to).as_slice()),
        Stmt86::EndText => alone(b"END"),
    }
}
