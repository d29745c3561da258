// From instructions to bytes.
ghost use Rattle.std.specs.Prelude.{◌≡◌, ℕ, ◌<◌, ◌≤◌, List, [], ◌∷◌, length, take, IsTrue};
ghost use Rattle.i80.specs.Columns.{is_well_formed, length80};
ghost use Rattle.i80_bytes.specs.Enc80.{enc80, code_of_operand, code_of_pair, code_of_stack_pair, code_of_condition, code_of_operation, number_of, address_of, with_word};
ghost use Rattle.i80_bytes.specs.Decoded.{IsPrefixFree};

use cells::Cond;
use i80::{Goal, Instr80, Op, Pair, Reg, Src, StackPair, Word};
use std::marker::Model;

/// The address of the system's warm start, which ends a program.
const BOOT: u16 = 0;

/// The address of the BDOS.
const BDOS: u16 = 5;

/// The bytes of an instruction, 1 to 3.
#[derive(Drop)]
pub struct Code80 {
    bytes: [u8; 3],
    count: usize,
}

impl Model for Code80 {
    ghost Value = { List ℕ };

    ghost view = { λ c. take c.count c.bytes };

    ghost invariant = { λ c. (1 ≤ c.count) × (c.count ≤ 3) };
}

impl Code80 {
    /// The bytes, as they stand in memory.
    pub fn as_slice(&self) -> &[u8]
        ensures bytes { result.now ≡ self.now }
        ensures least { 1 ≤ length result.now }
        ensures most { length result.now ≤ 3 }
    {
        &self.bytes[..self.count]
    }

    fn of_one(opcode: u8) -> Code80
        ensures { result ≡ opcode ∷ [] }
    {
        Code80 {
            bytes: [opcode, 0, 0],
            count: 1,
        }
    }

    // An opcode and a byte.
    fn with_byte(opcode: u8, byte: u8) -> Code80
        ensures { result ≡ opcode ∷ (byte ∷ []) }
    {
        Code80 {
            bytes: [opcode, byte, 0],
            count: 2,
        }
    }

    // An opcode and a word, low byte first.
    fn with_word(opcode: u8, word: u16) -> Code80
        ensures { result ≡ with_word opcode word }
    {
        Code80 {
            bytes: [opcode, (word % 256) as u8, (word / 256) as u8],
            count: 3,
        }
    }
}

/// The bytes of an instruction.
pub fn encode80(i: Instr80) -> Code80
    requires { IsTrue (is_well_formed i) }
    ensures bytes { result ≡ enc80 i }
    ensures length { length (enc80 i) ≡ length80 i }
{
    table_bytes(i)
}

// The bytes by the table, which has every operand in every place: also those that no instruction may have there.
fn table_bytes(i: Instr80) -> Code80
    ensures { result ≡ enc80 i }
{
    match i {
        Instr80::Nop => Code80::of_one(0x00),
        Instr80::Mov(to, from) => Code80::of_one(0x40 + 8 * operand_code(to) + operand_code(from)),
        Instr80::Mvi(to, n) => Code80::with_byte(0x06 + 8 * operand_code(to), n),
        Instr80::Lxi(pair, word) => Code80::with_word(0x01 + 0x10 * pair_code(pair), number(word)),
        Instr80::Lda(address) => Code80::with_word(0x3A, address),
        Instr80::Sta(address) => Code80::with_word(0x32, address),
        Instr80::Lhld(address) => Code80::with_word(0x2A, address),
        Instr80::Shld(address) => Code80::with_word(0x22, address),
        Instr80::Ldax(pair) => Code80::of_one(0x0A + 0x10 * pair_code(pair)),
        Instr80::Stax(pair) => Code80::of_one(0x02 + 0x10 * pair_code(pair)),
        Instr80::Xchg => Code80::of_one(0xEB),
        Instr80::Xthl => Code80::of_one(0xE3),
        Instr80::Sphl => Code80::of_one(0xF9),
        Instr80::Pchl => Code80::of_one(0xE9),
        Instr80::Alu(op, operand) => Code80::of_one(
            0x80 + 8 * operation_code(op) + operand_code(operand),
        ),
        Instr80::AluI(op, n) => Code80::with_byte(0xC6 + 8 * operation_code(op), n),
        Instr80::Inr(operand) => Code80::of_one(0x04 + 8 * operand_code(operand)),
        Instr80::Dcr(operand) => Code80::of_one(0x05 + 8 * operand_code(operand)),
        Instr80::Inx(pair) => Code80::of_one(0x03 + 0x10 * pair_code(pair)),
        Instr80::Dcx(pair) => Code80::of_one(0x0B + 0x10 * pair_code(pair)),
        Instr80::Dad(pair) => Code80::of_one(0x09 + 0x10 * pair_code(pair)),
        Instr80::Daa => Code80::of_one(0x27),
        Instr80::Cma => Code80::of_one(0x2F),
        Instr80::Stc => Code80::of_one(0x37),
        Instr80::Cmc => Code80::of_one(0x3F),
        Instr80::Rlc => Code80::of_one(0x07),
        Instr80::Rrc => Code80::of_one(0x0F),
        Instr80::Ral => Code80::of_one(0x17),
        Instr80::Rar => Code80::of_one(0x1F),
        Instr80::Push(pair) => Code80::of_one(0xC5 + 0x10 * stack_pair_code(pair)),
        Instr80::Pop(pair) => Code80::of_one(0xC1 + 0x10 * stack_pair_code(pair)),
        Instr80::Jmp(goal) => Code80::with_word(0xC3, address(goal)),
        Instr80::Jif(cond, goal) => Code80::with_word(
            0xC2 + 8 * condition_code(cond),
            address(goal),
        ),
        Instr80::Call(goal) => Code80::with_word(0xCD, address(goal)),
        Instr80::Cif(cond, goal) => Code80::with_word(
            0xC4 + 8 * condition_code(cond),
            address(goal),
        ),
        Instr80::Ret => Code80::of_one(0xC9),
        Instr80::Rif(cond) => Code80::of_one(0xC0 + 8 * condition_code(cond)),
        Instr80::Rst0 => Code80::of_one(0xC7),
        Instr80::In(port) => Code80::with_byte(0xDB, port),
        Instr80::Out(port) => Code80::with_byte(0xD3, port),
    }
}

// The number of a byte operand in the fields DDD and SSS.
fn operand_code(operand: Src) -> u8
    ensures code { result ≡ code_of_operand operand }
    ensures three_bits { result < 8 }
{
    match operand {
        Src::Reg(Reg::B) => 0,
        Src::Reg(Reg::C) => 1,
        Src::Reg(Reg::D) => 2,
        Src::Reg(Reg::E) => 3,
        Src::Reg(Reg::H) => 4,
        Src::Reg(Reg::L) => 5,
        Src::Mem => 6,
        Src::Reg(Reg::A) => 7,
    }
}

// The number of a pair in the field RP.
fn pair_code(pair: Pair) -> u8
    ensures code { result ≡ code_of_pair pair }
    ensures two_bits { result < 4 }
{
    match pair {
        Pair::B => 0,
        Pair::D => 1,
        Pair::H => 2,
        Pair::Sp => 3,
    }
}

fn stack_pair_code(pair: StackPair) -> u8
    ensures code { result ≡ code_of_stack_pair pair }
    ensures two_bits { result < 4 }
{
    match pair {
        StackPair::B => 0,
        StackPair::D => 1,
        StackPair::H => 2,
        StackPair::Psw => 3,
    }
}

// The number of a condition in the field CCC.
fn condition_code(cond: Cond) -> u8
    ensures code { result ≡ code_of_condition cond }
    ensures three_bits { result < 8 }
{
    match cond {
        Cond::Nz => 0,
        Cond::Z => 1,
        Cond::Nc => 2,
        Cond::C => 3,
        Cond::Po => 4,
        Cond::Pe => 5,
        Cond::P => 6,
        Cond::M => 7,
    }
}

fn operation_code(op: Op) -> u8
    ensures code { result ≡ code_of_operation op }
    ensures three_bits { result < 8 }
{
    match op {
        Op::Add => 0,
        Op::Adc => 1,
        Op::Sub => 2,
        Op::Sbb => 3,
        Op::Ana => 4,
        Op::Xra => 5,
        Op::Ora => 6,
        Op::Cmp => 7,
    }
}

fn number(word: Word) -> u16
    ensures { result ≡ number_of word }
{
    match word {
        Word::Num(number) => number,
        Word::Code(address) => address,
    }
}

fn address(goal: Goal) -> u16
    ensures { result ≡ address_of goal }
{
    match goal {
        Goal::At(address) => address,
        Goal::Boot => BOOT,
        Goal::Bdos => BDOS,
    }
}

/// A law: no encoding begins with another. What is encoded in the front of an encoding is the same, as bytes tell it.
pub fn encodings_are_prefix_free()
    ensures { IsPrefixFree }
{}
