// Instructions as the code that the 8080 has for them (Intel 8080 Assembly Language Programming Manual, "Instruction execution
// times and bit patterns"): the first byte, and the immediate byte, the word, or `@` and the address of code.
use cells::{Cell, Cond, Place};
use i80::{Goal, Instr80, Op, Pair, Reg, Src, StackPair, Word};
use std::alloc::AllocError;

fn source(src: Src) -> u8 {
    match src {
        Src::Reg(Reg::B) => 0,
        Src::Reg(Reg::C) => 1,
        Src::Reg(Reg::D) => 2,
        Src::Reg(Reg::E) => 3,
        Src::Reg(Reg::H) => 4,
        Src::Reg(Reg::L) => 5,
        Src::Mem => 6,
        Src::Reg(Reg::A) => 7,
    }
}

fn pair(pair: Pair) -> u8 {
    match pair {
        Pair::B => 0x00,
        Pair::D => 0x10,
        Pair::H => 0x20,
        Pair::Sp => 0x30,
    }
}

fn stack_pair(pair: StackPair) -> u8 {
    match pair {
        StackPair::B => 0x00,
        StackPair::D => 0x10,
        StackPair::H => 0x20,
        StackPair::Psw => 0x30,
    }
}

fn operation(op: Op) -> u8 {
    match op {
        Op::Add => 0x00,
        Op::Adc => 0x08,
        Op::Sub => 0x10,
        Op::Sbb => 0x18,
        Op::Ana => 0x20,
        Op::Xra => 0x28,
        Op::Ora => 0x30,
        Op::Cmp => 0x38,
    }
}

fn condition(cond: Cond) -> u8 {
    match cond {
        Cond::Nz => 0x00,
        Cond::Z => 0x08,
        Cond::Nc => 0x10,
        Cond::C => 0x18,
        Cond::Po => 0x20,
        Cond::Pe => 0x28,
        Cond::P => 0x30,
        Cond::M => 0x38,
    }
}

// The first byte.
fn opcode(instr: Instr80) -> u8 {
    match instr {
        Instr80::Nop => 0x00,
        Instr80::Mov(to, from) => 0x40 | source(to) << 3 | source(from),
        Instr80::Mvi(to, _) => 0x06 | source(to) << 3,
        Instr80::Lxi(to, _) => 0x01 | pair(to),
        Instr80::Lda(_) => 0x3A,
        Instr80::Sta(_) => 0x32,
        Instr80::Lhld(_) => 0x2A,
        Instr80::Shld(_) => 0x22,
        Instr80::Ldax(at) => 0x0A | pair(at),
        Instr80::Stax(at) => 0x02 | pair(at),
        Instr80::Xchg => 0xEB,
        Instr80::Xthl => 0xE3,
        Instr80::Sphl => 0xF9,
        Instr80::Pchl => 0xE9,
        Instr80::Alu(op, from) => 0x80 | operation(op) | source(from),
        Instr80::AluI(op, _) => 0xC6 | operation(op),
        Instr80::Inr(of) => 0x04 | source(of) << 3,
        Instr80::Dcr(of) => 0x05 | source(of) << 3,
        Instr80::Inx(of) => 0x03 | pair(of),
        Instr80::Dcx(of) => 0x0B | pair(of),
        Instr80::Dad(from) => 0x09 | pair(from),
        Instr80::Daa => 0x27,
        Instr80::Cma => 0x2F,
        Instr80::Stc => 0x37,
        Instr80::Cmc => 0x3F,
        Instr80::Rlc => 0x07,
        Instr80::Rrc => 0x0F,
        Instr80::Ral => 0x17,
        Instr80::Rar => 0x1F,
        Instr80::Push(from) => 0xC5 | stack_pair(from),
        Instr80::Pop(to) => 0xC1 | stack_pair(to),
        Instr80::Jmp(_) => 0xC3,
        Instr80::Jif(cond, _) => 0xC2 | condition(cond),
        Instr80::Call(_) => 0xCD,
        Instr80::Cif(cond, _) => 0xC4 | condition(cond),
        Instr80::Ret => 0xC9,
        Instr80::Rif(cond) => 0xC0 | condition(cond),
        Instr80::Rst0 => 0xC7,
        Instr80::In(_) => 0xDB,
        Instr80::Out(_) => 0xD3,
    }
}

fn push_word(text: &mut String, word: Word) -> Result<(), AllocError> {
    match word {
        Word::Num(n) => write!(text, " {n:04x}"),
        Word::Code(at) => write!(text, " @{at:04x}"),
    }
}

fn push_goal(text: &mut String, goal: Goal) -> Result<(), AllocError> {
    match goal {
        Goal::At(at) => write!(text, " @{at:04x}"),
        Goal::Boot => text.push_str(" 0000"),
        Goal::Bdos => text.push_str(" 0005"),
    }
}

// What is behind the first byte.
fn push_operand(text: &mut String, instr: Instr80) -> Result<(), AllocError> {
    match instr {
        Instr80::Mvi(_, n) | Instr80::AluI(_, n) | Instr80::In(n) | Instr80::Out(n) => {
            write!(text, " {n:02x}")
        }
        Instr80::Lxi(_, word) => push_word(text, word),
        Instr80::Lda(at) | Instr80::Sta(at) | Instr80::Lhld(at) | Instr80::Shld(at) => {
            push_word(text, Word::Num(at))
        }
        Instr80::Jmp(goal) | Instr80::Jif(_, goal) | Instr80::Call(goal) | Instr80::Cif(_, goal) =>
            { push_goal(text, goal) }
        _ => Ok(()),
    }
}

/// The code of an instruction.
pub fn push_code(text: &mut String, instr: Instr80) -> Result<(), AllocError> {
    let first = opcode(instr);
    write!(text, "{first:02x}")?;
    push_operand(text, instr)
}

/// A data cell: its byte, or `<` and `>` for the low and the high half of an address of code.
pub fn push_cell(text: &mut String, cell: Cell) -> Result<(), AllocError> {
    match cell {
        Cell::Num(n) => write!(text, "{n:02x}"),
        Cell::Lo(Place::At(at)) => write!(text, "<{at:04x}"),
        Cell::Hi(Place::At(at)) => write!(text, ">{at:04x}"),
        _ => text.push_str("other"),
    }
}
