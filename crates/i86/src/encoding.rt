// From instructions to bytes.
ghost use Rattle.std.specs.Prelude.{◌≡◌, ℕ, ◌+◌, ◌*◌, ◌/◌, ◌%◌, ◌≤◌, ◌<◌, List, [], ◌∷◌, length, take};
ghost use Rattle.std.specs.Cmp.{partial_equiv_from_equiv};
ghost use Rattle.std.specs.Cmp.Lexicographic.{nat_list_eq_equiv};
ghost use Rattle.std.proofs.lemmas.Cmp.{on_equiv};
ghost use Rattle.std.specs.Ordering.{on};
ghost use Rattle.std.specs.Str.{bytes_eq};
ghost use Rattle.i86.specs.Enc86.{enc86, code8, code16, code_of_ptr, code_of_alu, code_of_count, code_of_rotate, code_of_jump, reg_of_stack, with_operand, two, one, word_then};
ghost use Rattle.i86.specs.Decode.{IsPrefixFree};

use crate::{AluOp, Count, Instr86, Jump, Operand8, Operand16, Ptr, Reg8, Reg16, Rotate, StackReg};
use std::marker::Model;

/// The bytes of an instruction: at most 6, as the 8086 has them; this subset has 1 to 4.
#[derive(Drop)]
pub struct Code {
    bytes: [u8; 6],
    count: usize,
}

impl Model for Code {
    ghost Value = { List ℕ };

    ghost view = { λ c. take c.count c.bytes };

    ghost invariant = { λ c. (1 ≤ c.count) × (c.count ≤ 6) };
}

impl Code {
    /// The bytes, as they stand in the code.
    pub fn bytes(&self) -> &[u8]
        ensures bytes { result.now ≡ self.now }
        ensures least { 1 ≤ length result.now }
        ensures most { length result.now ≤ 6 }
    {
        &self.bytes[..self.count]
    }

    fn of_one(first: u8) -> Code
        ensures { result ≡ first ∷ [] }
    {
        Code {
            bytes: [first, 0, 0, 0, 0, 0],
            count: 1,
        }
    }

    fn of_two(first: u8, second: u8) -> Code
        ensures { result ≡ first ∷ (second ∷ []) }
    {
        Code {
            bytes: [first, second, 0, 0, 0, 0],
            count: 2,
        }
    }

    fn of_three(first: u8, second: u8, third: u8) -> Code
        ensures { result ≡ first ∷ (second ∷ (third ∷ [])) }
    {
        Code {
            bytes: [first, second, third, 0, 0, 0],
            count: 3,
        }
    }

    // An opcode and a word.
    fn with_word(first: u8, word: u16) -> Code
        ensures { result ≡ first ∷ word_then word [] }
    {
        Code::of_three(first, low(word), high(word))
    }

    // An opcode, the byte of the fields of a word register and a direct address, mod 00 and rm 110, and the address.
    fn with_direct(first: u8, reg: Reg16, address: u16) -> Code
        ensures { result ≡ first ∷ (one (code16 reg) 6 ∷ word_then address []) }
    {
        Code {
            bytes: [first, 8 * reg.code() + 6, low(address), high(address), 0, 0],
            count: 4,
        }
    }
}

/// The bytes of an instruction (Intel 8086 Family User's Manual, "Machine instruction encoding").
pub fn encode(i: Instr86) -> Code
    ensures { result ≡ enc86 i }
{
    match i {
        Instr86::MovReg8(reg, operand) => Code::of_two(0x8A, with_operand(reg.code(), operand)),
        Instr86::MovMem8(ptr, reg) => Code::of_two(0x88, 8 * reg.code() + ptr.code()),
        Instr86::MovAlDirect(address) => Code::with_word(0xA0, address),
        Instr86::MovDirectAl(address) => Code::with_word(0xA2, address),
        Instr86::MovNum8(reg, n) => Code::of_two(0xB0 + reg.code(), n),
        Instr86::MovNum16(reg, word) => Code::with_word(0xB8 + reg.code(), word),
        Instr86::MovMemNum(ptr, n) => Code::of_three(0xC6, ptr.code(), n),
        Instr86::MovReg16(reg, operand) => mov16(reg, operand),
        Instr86::MovDirect16(address, reg) => Code::with_direct(0x89, reg, address),
        Instr86::MovAxDs => Code::of_two(0x8C, 0xD8),
        Instr86::MovSsAx => Code::of_two(0x8E, 0xD0),
        Instr86::Alu(op, operand) => Code::of_two(8 * op.code() + 2, with_operand(0, operand)),
        Instr86::AluNum(op, n) => Code::of_two(8 * op.code() + 4, n),
        Instr86::OrClCl => Code::of_two(0x0A, 0xC9),
        Instr86::Add16(to, from) => Code::of_two(0x03, registers(to.code(), from.code())),
        Instr86::Count8(count, operand) => Code::of_two(0xFE, with_operand(count.code(), operand)),
        Instr86::Count16(count, reg) => Code::of_one(0x40 + 8 * count.code() + reg.code()),
        Instr86::Push(reg) => Code::of_one(0x50 + reg.code()),
        Instr86::Pop(reg) => Code::of_one(0x58 + reg.code()),
        Instr86::Xchg8(to, from) => Code::of_two(0x86, registers(to.code(), from.code())),
        Instr86::Xchg16(to, from) => Code::of_two(0x87, registers(to.code(), from.code())),
        Instr86::Rotate8(rotate, reg) => Code::of_two(0xD0, registers(rotate.code(), reg.code())),
        Instr86::Rotate16(rotate, reg) => Code::of_two(0xD1, registers(rotate.code(), reg.code())),
        Instr86::Not8(reg) => Code::of_two(0xF6, registers(2, reg.code())),
        Instr86::Daa => Code::of_one(0x27),
        Instr86::Sahf => Code::of_one(0x9E),
        Instr86::Lahf => Code::of_one(0x9F),
        Instr86::Cmc => Code::of_one(0xF5),
        Instr86::Stc => Code::of_one(0xF9),
        Instr86::Nop => Code::of_one(0x90),
        Instr86::Jcc(jump, displacement) => Code::of_two(jump.opcode(), displacement),
        Instr86::JmpNear(displacement) => Code::with_word(0xE9, displacement),
        Instr86::JmpShort(displacement) => Code::of_two(0xEB, displacement),
        Instr86::JmpBx => Code::of_two(0xFF, 0xE3),
        Instr86::CallNear(displacement) => Code::with_word(0xE8, displacement),
        Instr86::Ret => Code::of_one(0xC3),
        Instr86::Int224 => Code::of_two(0xCD, 0xE0),
        Instr86::InAl(port) => Code::of_two(0xE4, port),
        Instr86::OutAl(port) => Code::of_two(0xE6, port),
    }
}

// (two instructions are the same where their bytes are: `encodings_are_prefix_free`)
impl PartialEq for Instr86 {
    ghost eq = { on enc86 bytes_eq };

    ghost laws = { partial_equiv_from_equiv (on_equiv enc86 nat_list_eq_equiv) };

    fn eq(&self, other: &Instr86) -> bool {
        encode(*self).bytes() == encode(*other).bytes()
    }
}

impl Eq for Instr86 {
    ghost laws = { on_equiv enc86 nat_list_eq_equiv };
}

// MOV of a word register from a register or from memory.
fn mov16(to: Reg16, from: Operand16) -> Code
    ensures { result ≡ enc86 (Instr86.MovReg16 to from) }
{
    match from {
        Operand16::Reg(reg) => Code::of_two(0x8B, registers(to.code(), reg.code())),
        Operand16::Direct(address) => Code::with_direct(0x8B, to, address),
    }
}

/// How many bytes an instruction has.
pub fn length_of(i: Instr86) -> u8
    ensures length { result ≡ length (enc86 i) }
    ensures least { 1 ≤ result }
    ensures most { result ≤ 6 }
{
    encode(i).bytes().len() as u8
}

// The byte of the fields mod 11, reg and rm.
fn registers(reg: u8, rm: u8) -> u8
    requires { (reg < 8) × (rm < 8) }
    ensures { result ≡ two reg rm }
{
    0xC0 + 8 * reg + rm
}

// The byte of the fields of a register and a byte operand.
fn with_operand(reg: u8, operand: Operand8) -> u8
    requires { reg < 8 }
    ensures { result ≡ with_operand reg operand }
{
    match operand {
        Operand8::Reg(rm) => registers(reg, rm.code()),
        Operand8::Mem(ptr) => 8 * reg + ptr.code(),
    }
}

impl Reg8 {
    /// The number in a reg or rm field.
    pub fn code(self) -> u8
        ensures code { result ≡ code8 self }
        ensures three_bits { result < 8 }
    {
        self as u8
    }
}

impl Reg16 {
    /// The number in a reg or rm field.
    pub fn code(self) -> u8
        ensures code { result ≡ code16 self }
        ensures three_bits { result < 8 }
    {
        match self {
            Reg16::Ax => 0,
            Reg16::Cx => 1,
            Reg16::Dx => 2,
            Reg16::Bx => 3,
            Reg16::Sp => 4,
            Reg16::Si => 6,
        }
    }
}

impl StackReg {
    /// The number of the register.
    pub fn code(self) -> u8
        ensures code { result ≡ code16 (reg_of_stack self) }
        ensures three_bits { result < 8 }
    {
        match self {
            StackReg::Ax => 0,
            StackReg::Cx => 1,
            StackReg::Dx => 2,
            StackReg::Bx => 3,
            StackReg::Si => 6,
        }
    }
}

impl Ptr {
    /// The rm field, with mod 00.
    pub fn code(self) -> u8
        ensures code { result ≡ code_of_ptr self }
        ensures three_bits { result < 8 }
    {
        match self {
            Ptr::Bx => 7,
            Ptr::Si => 4,
        }
    }
}

impl AluOp {
    /// The number of the operation, which is in its opcodes.
    pub fn code(self) -> u8
        ensures code { result ≡ code_of_alu self }
        ensures three_bits { result < 8 }
    {
        self as u8
    }
}

impl Count {
    /// The reg field.
    pub fn code(self) -> u8
        ensures code { result ≡ code_of_count self }
        ensures one_bit { result < 2 }
    {
        self as u8
    }
}

impl Rotate {
    /// The reg field.
    pub fn code(self) -> u8
        ensures code { result ≡ code_of_rotate self }
        ensures two_bits { result < 4 }
    {
        self as u8
    }
}

impl Jump {
    /// The opcode of the short jump.
    pub fn opcode(self) -> u8
        ensures { result ≡ code_of_jump self }
    {
        match self {
            Jump::Jb => 0x72,
            Jump::Jnb => 0x73,
            Jump::Jz => 0x74,
            Jump::Jnz => 0x75,
            Jump::Js => 0x78,
            Jump::Jns => 0x79,
            Jump::Jp => 0x7A,
            Jump::Jnp => 0x7B,
        }
    }
}

fn low(word: u16) -> u8
    ensures { result ≡ word % 256 }
{
    (word % 256) as u8
}

fn high(word: u16) -> u8
    ensures { result ≡ word / 256 }
{
    (word / 256) as u8
}

/// A law: no encoding begins with another, whatever the operands.
pub fn encodings_are_prefix_free()
    ensures { IsPrefixFree }
{}
