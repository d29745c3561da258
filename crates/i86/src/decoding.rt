// From bytes to instructions: the first byte says a form, and the form says what follows it.
ghost use Rattle.std.specs.Prelude.{◌≡◌, ◌<◌, option_map, slice_get};
ghost use Rattle.i86.specs.Decode.{IsDecoded, IsDecodedAt, IsOnlyReader, HasOneReader};
ghost use Rattle.i86.specs.Decoder.{entry_under, regs8, regs16, stack_regs, alu_ops, counts, rotates, jumps, arithmetic, on_word, singles, form_of, reg8_at, reg16_at, ptr_at, operand8_at, direct_at, operand16_at, or_cl_cl, with_fields, instruction_with_byte, instruction_with_word, word_from, by_form, decoded};

use crate::encoding::length_of;
use crate::{AluOp, Count, Instr86, Jump, Operand8, Operand16, Ptr, Reg8, Reg16, Rotate, StackReg};

/// What a first byte says of the instruction.
#[derive(Clone, Copy)]
enum Form {
    /// It is this one, of one byte.
    Alone(Instr86),
    /// It is this one, if this is the second byte.
    Fixed(u8, Instr86),
    /// A byte follows: a number, a displacement or a port.
    Byte(ByteForm),
    /// A word follows: a number, an address or a displacement.
    Word(WordForm),
    /// A byte with the fields mod, reg and rm follows.
    Fields(FieldsForm),
}

/// An instruction but for its last byte.
#[derive(Clone, Copy)]
enum ByteForm {
    MovNum8(Reg8),
    AluNum(AluOp),
    Jcc(Jump),
    JmpShort,
    InAl,
    OutAl,
}

/// An instruction but for its last word.
#[derive(Clone, Copy)]
enum WordForm {
    MovAlDirect,
    MovDirectAl,
    MovNum16(Reg16),
    JmpNear,
    CallNear,
}

/// An instruction but for what the fields mod, reg and rm say.
#[derive(Clone, Copy)]
enum FieldsForm {
    MovReg8,
    MovMem8,
    MovMemNum,
    MovReg16,
    MovDirect16,
    Alu(AluOp),
    Add16,
    Count8,
    Xchg8,
    Xchg16,
    Rotate8,
    Rotate16,
    Not8,
}

/// The instruction that the bytes begin with, and how many of them it takes. None where no instruction of this subset stands
/// there whole.
pub fn decode(bytes: &[u8]) -> Option<(Instr86, u8)>
    ensures { IsDecoded bytes.now result }
{
    decode_at(bytes, 0)
}

/// The instruction that stands at an offset of the code, and its number of bytes. Past the code's end nothing is read, since
/// fetching does not wrap: None where the code ends within the instruction, and where no instruction of this subset begins.
pub fn decode_at(code: &[u8], at: u16) -> Option<(Instr86, u8)>
    ensures stands { IsDecodedAt code.now at result }
    ensures decoded { option_map (λ d. d.0) result ≡ decoded code.now at }
    ensures reader { IsOnlyReader code.now (decoded code.now) }
{
    match instruction_at(code, at as usize) {
        None => None,
        Some(instr) => Some((instr, length_of(instr))),
    }
}

/// A law: each code of bytes has a reader, which gives at each offset the instruction that stands there, and only one.
pub fn code_has_one_reader()
    ensures { HasOneReader }
{}

// The instruction at an offset.
#[tactic(auto, unfolding(crate::specs::Decoder::decoded))]
fn instruction_at(code: &[u8], at: usize) -> Option<Instr86>
    requires { at < 65536 }
    ensures { result ≡ decoded code.now at }
{
    let form = form_of(byte_at(code, at)?)?;
    let second = byte_at(code, at + 1);
    let third = byte_at(code, at + 2);
    let fourth = byte_at(code, at + 3);
    by_form(form, second, third, fourth)
}

// The byte at an offset, if the code has it.
fn byte_at(code: &[u8], at: usize) -> Option<u8>
    ensures { result ≡ slice_get code.now at }
{
    code.get(at).copied()
}

// The instruction of a form, by the bytes behind the first as far as the code has them.
fn by_form(form: Form, second: Option<u8>, third: Option<u8>, fourth: Option<u8>) -> Option<Instr86>
    ensures { result ≡ by_form (Some form) second third fourth }
{
    match form {
        Form::Alone(instr) => Some(instr),
        Form::Fixed(byte, instr) => { if second? == byte { Some(instr) } else { None } }
        Form::Byte(form) => Some(with_byte(form, second?)),
        Form::Word(form) => Some(with_word(form, word_from(second, third)?)),
        Form::Fields(form) => {
            let fields = second?;
            let word = word_from(third, fourth);
            with_fields(form, fields / 64, fields / 8 % 8, fields % 8, third, word)
        }
    }
}

// A word of two bytes, if both are there.
fn word_from(low: Option<u8>, high: Option<u8>) -> Option<u16>
    ensures { result ≡ word_from low high }
{
    let low = low?;
    Some(256 * high? as u16 + low as u16)
}

// What a first byte says, if an instruction begins with it.
fn form_of(first: u8) -> Option<Form>
    ensures { result ≡ form_of first }
{
    match first {
        0x00..=0x3F => arithmetic(first / 8, first % 8),
        0x40..=0x5F => on_word(first / 8, first % 8),
        0x70..=0x7F => Some(Form::Byte(ByteForm::Jcc(jump(first % 16)?))),
        0xB0..=0xB7 => Some(Form::Byte(ByteForm::MovNum8(reg8(first % 8)?))),
        0xB8..=0xBF => Some(Form::Word(WordForm::MovNum16(reg16(first % 8)?))),
        _ => single(first),
    }
}

// The opcodes below 40H: the operations on AL, with ADD of words and DAA between them.
fn arithmetic(op: u8, low: u8) -> Option<Form>
    ensures { result ≡ arithmetic op low }
{
    match low {
        2 => Some(Form::Fields(FieldsForm::Alu(alu_op(op)?))),
        4 => Some(Form::Byte(ByteForm::AluNum(alu_op(op)?))),
        3 if op == 0 => Some(Form::Fields(FieldsForm::Add16)),
        7 if op == 4 => Some(Form::Alone(Instr86::Daa)),
        _ => None,
    }
}

// The opcodes from 40H to 5FH.
fn on_word(high: u8, low: u8) -> Option<Form>
    ensures { result ≡ on_word high low }
{
    match high {
        8 => Some(Form::Alone(Instr86::Count16(Count::Inc, reg16(low)?))),
        9 => Some(Form::Alone(Instr86::Count16(Count::Dec, reg16(low)?))),
        10 => Some(Form::Alone(Instr86::Push(stack_reg(low)?))),
        _ => Some(Form::Alone(Instr86::Pop(stack_reg(low)?))),
    }
}

// The opcodes that stand for one form each.
fn single(first: u8) -> Option<Form>
    ensures { result ≡ entry_under singles first }
{
    match first {
        0x86 => Some(Form::Fields(FieldsForm::Xchg8)),
        0x87 => Some(Form::Fields(FieldsForm::Xchg16)),
        0x88 => Some(Form::Fields(FieldsForm::MovMem8)),
        0x89 => Some(Form::Fields(FieldsForm::MovDirect16)),
        0x8A => Some(Form::Fields(FieldsForm::MovReg8)),
        0x8B => Some(Form::Fields(FieldsForm::MovReg16)),
        0x8C => Some(Form::Fixed(0xD8, Instr86::MovAxDs)),
        0x8E => Some(Form::Fixed(0xD0, Instr86::MovSsAx)),
        0x90 => Some(Form::Alone(Instr86::Nop)),
        0x9E => Some(Form::Alone(Instr86::Sahf)),
        0x9F => Some(Form::Alone(Instr86::Lahf)),
        0xA0 => Some(Form::Word(WordForm::MovAlDirect)),
        0xA2 => Some(Form::Word(WordForm::MovDirectAl)),
        0xC3 => Some(Form::Alone(Instr86::Ret)),
        0xC6 => Some(Form::Fields(FieldsForm::MovMemNum)),
        0xCD => Some(Form::Fixed(0xE0, Instr86::Int224)),
        0xD0 => Some(Form::Fields(FieldsForm::Rotate8)),
        0xD1 => Some(Form::Fields(FieldsForm::Rotate16)),
        0xE4 => Some(Form::Byte(ByteForm::InAl)),
        0xE6 => Some(Form::Byte(ByteForm::OutAl)),
        0xE8 => Some(Form::Word(WordForm::CallNear)),
        0xE9 => Some(Form::Word(WordForm::JmpNear)),
        0xEB => Some(Form::Byte(ByteForm::JmpShort)),
        0xF5 => Some(Form::Alone(Instr86::Cmc)),
        0xF6 => Some(Form::Fields(FieldsForm::Not8)),
        0xF9 => Some(Form::Alone(Instr86::Stc)),
        0xFE => Some(Form::Fields(FieldsForm::Count8)),
        0xFF => Some(Form::Fixed(0xE3, Instr86::JmpBx)),
        _ => None,
    }
}

fn with_byte(form: ByteForm, byte: u8) -> Instr86
    ensures { result ≡ instruction_with_byte form byte }
{
    match form {
        ByteForm::MovNum8(reg) => Instr86::MovNum8(reg, byte),
        ByteForm::AluNum(op) => Instr86::AluNum(op, byte),
        ByteForm::Jcc(jump) => Instr86::Jcc(jump, byte),
        ByteForm::JmpShort => Instr86::JmpShort(byte),
        ByteForm::InAl => Instr86::InAl(byte),
        ByteForm::OutAl => Instr86::OutAl(byte),
    }
}

fn with_word(form: WordForm, word: u16) -> Instr86
    ensures { result ≡ instruction_with_word form word }
{
    match form {
        WordForm::MovAlDirect => Instr86::MovAlDirect(word),
        WordForm::MovDirectAl => Instr86::MovDirectAl(word),
        WordForm::MovNum16(reg) => Instr86::MovNum16(reg, word),
        WordForm::JmpNear => Instr86::JmpNear(word),
        WordForm::CallNear => Instr86::CallNear(word),
    }
}

// The instruction of a form with the fields mod, reg and rm, and the byte or the word that stands behind them.
fn with_fields(
    form: FieldsForm,
    mode: u8,
    reg: u8,
    rm: u8,
    byte: Option<u8>,
    word: Option<u16>,
) -> Option<Instr86>
    ensures { result ≡ with_fields form mode reg rm byte word }
{
    match form {
        FieldsForm::MovReg8 => match (reg8(reg), operand8(mode, rm)) {
            (Some(to), Some(from)) => Some(Instr86::MovReg8(to, from)),
            _ => None,
        },
        FieldsForm::MovMem8 => match (reg8(reg), ptr(mode, rm)) {
            (Some(from), Some(to)) => Some(Instr86::MovMem8(to, from)),
            _ => None,
        },
        FieldsForm::MovMemNum if reg == 0 => match (ptr(mode, rm), byte) {
            (Some(to), Some(n)) => Some(Instr86::MovMemNum(to, n)),
            _ => None,
        },
        FieldsForm::MovReg16 => match (reg16(reg), operand16(mode, rm, word)) {
            (Some(to), Some(from)) => Some(Instr86::MovReg16(to, from)),
            _ => None,
        },
        FieldsForm::MovDirect16 => match (reg16(reg), direct(mode, rm, word)) {
            (Some(from), Some(to)) => Some(Instr86::MovDirect16(to, from)),
            _ => None,
        },
        FieldsForm::Alu(op) if reg == 0 => Some(Instr86::Alu(op, operand8(mode, rm)?)),
        FieldsForm::Alu(op) => or_cl_cl(op, mode, reg, rm),
        FieldsForm::Add16 => match (reg16(reg), register16(mode, rm)) {
            (Some(to), Some(from)) => Some(Instr86::Add16(to, from)),
            _ => None,
        },
        FieldsForm::Count8 => match (count(reg), operand8(mode, rm)) {
            (Some(by), Some(on)) => Some(Instr86::Count8(by, on)),
            _ => None,
        },
        FieldsForm::Xchg8 => match (reg8(reg), register8(mode, rm)) {
            (Some(to), Some(from)) => Some(Instr86::Xchg8(to, from)),
            _ => None,
        },
        FieldsForm::Xchg16 => match (reg16(reg), register16(mode, rm)) {
            (Some(to), Some(from)) => Some(Instr86::Xchg16(to, from)),
            _ => None,
        },
        FieldsForm::Rotate8 => match (rotate(reg), register8(mode, rm)) {
            (Some(kind), Some(on)) => Some(Instr86::Rotate8(kind, on)),
            _ => None,
        },
        FieldsForm::Rotate16 => match (rotate(reg), register16(mode, rm)) {
            (Some(kind), Some(on)) => Some(Instr86::Rotate16(kind, on)),
            _ => None,
        },
        FieldsForm::Not8 if reg == 2 => Some(Instr86::Not8(register8(mode, rm)?)),
        FieldsForm::MovMemNum | FieldsForm::Not8 => None,
    }
}

// The one operation of two operands on a register other than AL.
fn or_cl_cl(op: AluOp, mode: u8, reg: u8, rm: u8) -> Option<Instr86>
    ensures { result ≡ or_cl_cl op mode reg rm }
{
    match op {
        AluOp::Or if mode == 3 && reg == 1 && rm == 1 => Some(Instr86::OrClCl),
        _ => None,
    }
}

fn operand8(mode: u8, rm: u8) -> Option<Operand8>
    ensures { result ≡ operand8_at mode rm }
{
    if mode == 3 {
        Some(Operand8::Reg(reg8(rm)?))
    } else {
        Some(Operand8::Mem(ptr(mode, rm)?))
    }
}

fn operand16(mode: u8, rm: u8, word: Option<u16>) -> Option<Operand16>
    ensures { result ≡ operand16_at mode rm word }
{
    if mode == 3 {
        Some(Operand16::Reg(reg16(rm)?))
    } else {
        Some(Operand16::Direct(direct(mode, rm, word)?))
    }
}

fn direct(mode: u8, rm: u8, word: Option<u16>) -> Option<u16>
    ensures { result ≡ direct_at mode rm word }
{
    if mode == 0 && rm == 6 { word } else { None }
}

fn register8(mode: u8, rm: u8) -> Option<Reg8>
    ensures { result ≡ reg8_at mode rm }
{
    if mode == 3 { reg8(rm) } else { None }
}

fn register16(mode: u8, rm: u8) -> Option<Reg16>
    ensures { result ≡ reg16_at mode rm }
{
    if mode == 3 { reg16(rm) } else { None }
}

fn ptr(mode: u8, rm: u8) -> Option<Ptr>
    ensures { result ≡ ptr_at mode rm }
{
    match rm {
        4 if mode == 0 => Some(Ptr::Si),
        7 if mode == 0 => Some(Ptr::Bx),
        _ => None,
    }
}

fn reg8(code: u8) -> Option<Reg8>
    ensures { result ≡ entry_under regs8 code }
{
    match code {
        0 => Some(Reg8::Al),
        1 => Some(Reg8::Cl),
        2 => Some(Reg8::Dl),
        3 => Some(Reg8::Bl),
        4 => Some(Reg8::Ah),
        5 => Some(Reg8::Ch),
        6 => Some(Reg8::Dh),
        7 => Some(Reg8::Bh),
        _ => None,
    }
}

fn reg16(code: u8) -> Option<Reg16>
    ensures { result ≡ entry_under regs16 code }
{
    match code {
        0 => Some(Reg16::Ax),
        1 => Some(Reg16::Cx),
        2 => Some(Reg16::Dx),
        3 => Some(Reg16::Bx),
        4 => Some(Reg16::Sp),
        6 => Some(Reg16::Si),
        _ => None,
    }
}

fn stack_reg(code: u8) -> Option<StackReg>
    ensures { result ≡ entry_under stack_regs code }
{
    match code {
        0 => Some(StackReg::Ax),
        1 => Some(StackReg::Cx),
        2 => Some(StackReg::Dx),
        3 => Some(StackReg::Bx),
        6 => Some(StackReg::Si),
        _ => None,
    }
}

fn alu_op(code: u8) -> Option<AluOp>
    ensures { result ≡ entry_under alu_ops code }
{
    match code {
        0 => Some(AluOp::Add),
        1 => Some(AluOp::Or),
        2 => Some(AluOp::Adc),
        3 => Some(AluOp::Sbb),
        4 => Some(AluOp::And),
        5 => Some(AluOp::Sub),
        6 => Some(AluOp::Xor),
        7 => Some(AluOp::Cmp),
        _ => None,
    }
}

fn count(code: u8) -> Option<Count>
    ensures { result ≡ entry_under counts code }
{
    match code {
        0 => Some(Count::Inc),
        1 => Some(Count::Dec),
        _ => None,
    }
}

fn rotate(code: u8) -> Option<Rotate>
    ensures { result ≡ entry_under rotates code }
{
    match code {
        0 => Some(Rotate::Rol),
        1 => Some(Rotate::Ror),
        2 => Some(Rotate::Rcl),
        3 => Some(Rotate::Rcr),
        _ => None,
    }
}

// The conditional jump of the low four bits of an opcode.
fn jump(low: u8) -> Option<Jump>
    ensures { result ≡ entry_under jumps low }
{
    match low {
        2 => Some(Jump::Jb),
        3 => Some(Jump::Jnb),
        4 => Some(Jump::Jz),
        5 => Some(Jump::Jnz),
        8 => Some(Jump::Js),
        9 => Some(Jump::Jns),
        10 => Some(Jump::Jp),
        11 => Some(Jump::Jnp),
        _ => None,
    }
}
