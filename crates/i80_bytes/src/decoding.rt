// From bytes to instructions: the opcode says a form, and the form says what follows it.
ghost use Rattle.std.specs.Prelude.{◌≡◌, ◌<◌, slice_get, IfSome, IsTrue};
ghost use Rattle.i80.specs.Columns.{is_well_formed};
ghost use Rattle.i80_bytes.specs.Decoded.{IsDecoded, goal_at};
ghost use Rattle.i80_bytes.specs.Decoder.{operand80_of, pair_of, stack_pair_of, condition_of, operation_of, memory_form, on_a, low_form, mov_form, return_form, jump_form, high_form, form_of, instruction_with_byte, instruction_with_word, word_from, by_form80, decoded80};

use cells::Cond;
use i80::{Goal, Instr80, Op, Pair, Reg, Src, StackPair, Word, length};

/// What an opcode says of the instruction.
#[derive(Clone, Copy)]
enum Form {
    /// It is this one, of one byte.
    Alone(Instr80),
    /// A byte follows: a number or a port.
    Byte(ByteForm),
    /// A word follows: a number, an address or a target.
    Word(WordForm),
}

/// An instruction but for its byte.
#[derive(Clone, Copy)]
enum ByteForm {
    Mvi(Src),
    AluI(Op),
    In,
    Out,
}

/// An instruction but for its word.
#[derive(Clone, Copy)]
enum WordForm {
    Lxi(Pair),
    Lda,
    Sta,
    Lhld,
    Shld,
    Jmp,
    Jif(Cond),
    Call,
    Cif(Cond),
}

/// The instruction whose encoding the bytes begin with, and how many of them it takes: None where they begin with no encoding. As
/// bytes tell it, a word that is loaded is a number, and the targets 0 and 5 are the system's.
pub fn decode80(bytes: &[u8]) -> Option<(Instr80, u8)>
    ensures decoded { IsDecoded bytes.now result }
    ensures well_formed { IfSome result (λ d. IsTrue (is_well_formed d.0)) }
{
    match instruction_in(bytes) {
        None => None,
        Some(instr) => Some((instr, length(instr) as u8)),
    }
}

// The instruction that stands first in the bytes.
#[tactic(auto, unfolding(crate::specs::Decoder::decoded80))]
fn instruction_in(bytes: &[u8]) -> Option<Instr80>
    ensures { result ≡ decoded80 bytes.now }
{
    let form = form_of(byte_at(bytes, 0)?)?;
    by_form80(form, byte_at(bytes, 1), byte_at(bytes, 2))
}

// The byte at a place, if there is one.
fn byte_at(bytes: &[u8], at: usize) -> Option<u8>
    ensures { result ≡ slice_get bytes.now at }
{
    bytes.get(at).copied()
}

// The instruction of a form, by the bytes after the opcode as far as they are there.
fn by_form80(form: Form, second: Option<u8>, third: Option<u8>) -> Option<Instr80>
    ensures { result ≡ by_form80 (Some form) second third }
{
    match form {
        Form::Alone(instr) => Some(instr),
        Form::Byte(form) => Some(with_byte(form, second?)),
        Form::Word(form) => Some(with_word(form, word_from(second, third)?)),
    }
}

// A word of two bytes, if both are there.
fn word_from(low: Option<u8>, high: Option<u8>) -> Option<u16>
    ensures { result ≡ word_from low high }
{
    let low = low?;
    Some(256 * high? as u16 + low as u16)
}

fn with_byte(form: ByteForm, byte: u8) -> Instr80
    ensures { result ≡ instruction_with_byte form byte }
{
    match form {
        ByteForm::Mvi(to) => Instr80::Mvi(to, byte),
        ByteForm::AluI(op) => Instr80::AluI(op, byte),
        ByteForm::In => Instr80::In(byte),
        ByteForm::Out => Instr80::Out(byte),
    }
}

fn with_word(form: WordForm, word: u16) -> Instr80
    ensures { result ≡ instruction_with_word form word }
{
    match form {
        WordForm::Lxi(pair) => Instr80::Lxi(pair, Word::Num(word)),
        WordForm::Lda => Instr80::Lda(word),
        WordForm::Sta => Instr80::Sta(word),
        WordForm::Lhld => Instr80::Lhld(word),
        WordForm::Shld => Instr80::Shld(word),
        WordForm::Jmp => Instr80::Jmp(goal(word)),
        WordForm::Jif(cond) => Instr80::Jif(cond, goal(word)),
        WordForm::Call => Instr80::Call(goal(word)),
        WordForm::Cif(cond) => Instr80::Cif(cond, goal(word)),
    }
}

fn goal(address: u16) -> Goal
    ensures { result ≡ goal_at address }
{
    match address {
        0 => Goal::Boot,
        5 => Goal::Bdos,
        _ => Goal::At(address),
    }
}

// What an opcode says, if an instruction begins with it: by its bits 6 and 7, 3 to 5, and 0 to 2.
fn form_of(opcode: u8) -> Option<Form>
    ensures { result ≡ form_of opcode }
{
    let number = opcode / 8 % 8;
    let kind = opcode % 8;
    match opcode / 64 {
        0 => low(number, kind),
        1 => mov(number, kind),
        2 => Some(Form::Alone(Instr80::Alu(operation(number), operand(kind)))),
        _ => high(number, kind),
    }
}

// The opcodes below 40H.
fn low(number: u8, kind: u8) -> Option<Form>
    ensures { result ≡ low_form number kind }
{
    let registers = pair(number / 2);
    let is_even = number % 2 == 0;
    match kind {
        0 => {
            if number == 0 {
                Some(Form::Alone(Instr80::Nop))
            } else {
                None
            }
        }
        1 if is_even => Some(Form::Word(WordForm::Lxi(registers))),
        1 => Some(Form::Alone(Instr80::Dad(registers))),
        2 => Some(memory(number)),
        3 if is_even => Some(Form::Alone(Instr80::Inx(registers))),
        3 => Some(Form::Alone(Instr80::Dcx(registers))),
        4 => Some(Form::Alone(Instr80::Inr(operand(number)))),
        5 => Some(Form::Alone(Instr80::Dcr(operand(number)))),
        6 => Some(Form::Byte(ByteForm::Mvi(operand(number)))),
        _ => Some(Form::Alone(on_a(number))),
    }
}

// A or HL to memory and back.
fn memory(number: u8) -> Form
    ensures { result ≡ memory_form number }
{
    match number {
        0 => Form::Alone(Instr80::Stax(Pair::B)),
        1 => Form::Alone(Instr80::Ldax(Pair::B)),
        2 => Form::Alone(Instr80::Stax(Pair::D)),
        3 => Form::Alone(Instr80::Ldax(Pair::D)),
        4 => Form::Word(WordForm::Shld),
        5 => Form::Word(WordForm::Lhld),
        6 => Form::Word(WordForm::Sta),
        _ => Form::Word(WordForm::Lda),
    }
}

// What works on A and the flags alone.
fn on_a(number: u8) -> Instr80
    ensures { result ≡ on_a number }
{
    match number {
        0 => Instr80::Rlc,
        1 => Instr80::Rrc,
        2 => Instr80::Ral,
        3 => Instr80::Rar,
        4 => Instr80::Daa,
        5 => Instr80::Cma,
        6 => Instr80::Stc,
        _ => Instr80::Cmc,
    }
}

// From 40H to 7FH: MOV, where there is no MOV M,M.
fn mov(to: u8, from: u8) -> Option<Form>
    ensures { result ≡ mov_form to from }
{
    if to == 6 && from == 6 {
        return None;
    }
    Some(Form::Alone(Instr80::Mov(operand(to), operand(from))))
}

// The opcodes from 0C0H up.
fn high(number: u8, kind: u8) -> Option<Form>
    ensures { result ≡ high_form number kind }
{
    let is_even = number % 2 == 0;
    match kind {
        0 => Some(Form::Alone(Instr80::Rif(condition(number)))),
        1 if is_even => Some(Form::Alone(Instr80::Pop(stack_pair(number / 2)))),
        1 => returns(number),
        2 => Some(Form::Word(WordForm::Jif(condition(number)))),
        3 => jumps(number),
        4 => Some(Form::Word(WordForm::Cif(condition(number)))),
        5 if is_even => Some(Form::Alone(Instr80::Push(stack_pair(number / 2)))),
        5 => {
            if number == 1 {
                Some(Form::Word(WordForm::Call))
            } else {
                None
            }
        }
        6 => Some(Form::Byte(ByteForm::AluI(operation(number)))),
        _ => {
            if number == 0 {
                Some(Form::Alone(Instr80::Rst0))
            } else {
                None
            }
        }
    }
}

// RET, PCHL and SPHL.
fn returns(number: u8) -> Option<Form>
    ensures { result ≡ return_form number }
{
    match number {
        1 => Some(Form::Alone(Instr80::Ret)),
        5 => Some(Form::Alone(Instr80::Pchl)),
        7 => Some(Form::Alone(Instr80::Sphl)),
        _ => None,
    }
}

// JMP, OUT, IN, XTHL and XCHG.
fn jumps(number: u8) -> Option<Form>
    ensures { result ≡ jump_form number }
{
    match number {
        0 => Some(Form::Word(WordForm::Jmp)),
        2 => Some(Form::Byte(ByteForm::Out)),
        3 => Some(Form::Byte(ByteForm::In)),
        4 => Some(Form::Alone(Instr80::Xthl)),
        5 => Some(Form::Alone(Instr80::Xchg)),
        _ => None,
    }
}

fn operand(code: u8) -> Src
    ensures { result ≡ operand80_of code }
{
    match code {
        0 => Src::Reg(Reg::B),
        1 => Src::Reg(Reg::C),
        2 => Src::Reg(Reg::D),
        3 => Src::Reg(Reg::E),
        4 => Src::Reg(Reg::H),
        5 => Src::Reg(Reg::L),
        6 => Src::Mem,
        _ => Src::Reg(Reg::A),
    }
}

fn pair(code: u8) -> Pair
    ensures { result ≡ pair_of code }
{
    match code {
        0 => Pair::B,
        1 => Pair::D,
        2 => Pair::H,
        _ => Pair::Sp,
    }
}

fn stack_pair(code: u8) -> StackPair
    ensures { result ≡ stack_pair_of code }
{
    match code {
        0 => StackPair::B,
        1 => StackPair::D,
        2 => StackPair::H,
        _ => StackPair::Psw,
    }
}

fn condition(code: u8) -> Cond
    ensures { result ≡ condition_of code }
{
    match code {
        0 => Cond::Nz,
        1 => Cond::Z,
        2 => Cond::Nc,
        3 => Cond::C,
        4 => Cond::Po,
        5 => Cond::Pe,
        6 => Cond::P,
        _ => Cond::M,
    }
}

fn operation(code: u8) -> Op
    ensures { result ≡ operation_of code }
{
    match code {
        0 => Op::Add,
        1 => Op::Adc,
        2 => Op::Sub,
        3 => Op::Sbb,
        4 => Op::Ana,
        5 => Op::Xra,
        6 => Op::Ora,
        _ => Op::Cmp,
    }
}
