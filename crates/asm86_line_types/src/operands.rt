// The words of a written line: operations, registers, numbers and labels.
ghost use Rattle.std.specs.Prelude.{◌≡◌, ◌<◌, ◌≤◌, ◌++◌, length};
ghost use Rattle.i86.specs.Enc86.{reg_of_stack};
ghost use Rattle.asm86_line_types.specs.Written.{digit, four_digits, byte_text, word_text, reg8_text, reg16_text, ptr_text, operand8_text, direct8_text, direct16_text, operand16_text, alu_text, count_text, rotate_text, jump_text, label_text, offset_text, value_text};

use crate::line::{Label, Value16};
use crate::line_text::LineText;
use i86::{AluOp, Count, Jump, Operand8, Operand16, Ptr, Reg8, Reg16, Rotate, StackReg};

fn hex(n: u8) -> u8
    requires { n < 16 }
    ensures { result ≡ digit n }
{
    if n < 10 { b'0' + n } else { b'A' + (n - 10) }
}

fn hex_word(w: u16) -> [u8; 4]
    ensures { result ≡ four_digits w }
{
    [
        hex((w / 4096) as u8),
        hex((w / 256 % 16) as u8),
        hex((w / 16 % 16) as u8),
        hex((w % 16) as u8),
    ]
}

/// A byte, `0hhH`.
pub fn byte(n: u8) -> LineText
    ensures value { result ≡ byte_text n }
    ensures size { length result ≤ 4 }
{
    LineText::of(&[b'0', hex(n / 16), hex(n % 16), b'H'])
}

/// A word, `0hhhhH`.
pub fn word(w: u16) -> LineText
    ensures value { result ≡ word_text w }
    ensures size { length result ≤ 6 }
{
    let mut text = LineText::of(b"0");
    text.push(&hex_word(w));
    text.push(b"H");
    text
}

pub fn reg8(reg: Reg8) -> &'static [u8]
    ensures value { result.now ≡ reg8_text reg }
    ensures size { length result.now ≤ 2 }
{
    match reg {
        Reg8::Al => b"AL",
        Reg8::Cl => b"CL",
        Reg8::Dl => b"DL",
        Reg8::Bl => b"BL",
        Reg8::Ah => b"AH",
        Reg8::Ch => b"CH",
        Reg8::Dh => b"DH",
        Reg8::Bh => b"BH",
    }
}

pub fn reg16(reg: Reg16) -> &'static [u8]
    ensures value { result.now ≡ reg16_text reg }
    ensures size { length result.now ≤ 2 }
{
    match reg {
        Reg16::Ax => b"AX",
        Reg16::Cx => b"CX",
        Reg16::Dx => b"DX",
        Reg16::Bx => b"BX",
        Reg16::Sp => b"SP",
        Reg16::Si => b"SI",
    }
}

/// The register that PUSH and POP name.
pub fn stacked(reg: StackReg) -> &'static [u8]
    ensures value { result.now ≡ reg16_text (reg_of_stack reg) }
    ensures size { length result.now ≤ 2 }
{
    match reg {
        StackReg::Ax => b"AX",
        StackReg::Cx => b"CX",
        StackReg::Dx => b"DX",
        StackReg::Bx => b"BX",
        StackReg::Si => b"SI",
    }
}

/// A byte in memory.
pub fn ptr(ptr: Ptr) -> &'static [u8]
    ensures value { result.now ≡ ptr_text ptr }
    ensures size { length result.now ≤ 13 }
{
    match ptr {
        Ptr::Bx => b"BYTE PTR [BX]",
        Ptr::Si => b"BYTE PTR [SI]",
    }
}

pub fn operand8(operand: Operand8) -> &'static [u8]
    ensures value { result.now ≡ operand8_text operand }
    ensures size { length result.now ≤ 13 }
{
    match operand {
        Operand8::Reg(reg) => reg8(reg),
        Operand8::Mem(pointer) => ptr(pointer),
    }
}

/// The byte at an address.
pub fn direct8(address: u16) -> LineText
    ensures value { result ≡ direct8_text address }
    ensures size { length result ≤ 16 }
{
    let mut text = LineText::of(b"BYTE PTR .");
    text.push(word(address).as_slice());
    text
}

/// The word at an address.
pub fn direct16(address: u16) -> LineText
    ensures value { result ≡ direct16_text address }
    ensures size { length result ≤ 16 }
{
    let mut text = LineText::of(b"WORD PTR .");
    text.push(word(address).as_slice());
    text
}

pub fn operand16(operand: Operand16) -> LineText
    ensures value { result ≡ operand16_text operand }
    ensures size { length result ≤ 16 }
{
    match operand {
        Operand16::Reg(reg) => LineText::of(reg16(reg)),
        Operand16::Direct(address) => direct16(address),
    }
}

pub fn alu(op: AluOp) -> &'static [u8]
    ensures value { result.now ≡ alu_text op }
    ensures size { length result.now ≤ 3 }
{
    match op {
        AluOp::Add => b"ADD",
        AluOp::Or => b"OR",
        AluOp::Adc => b"ADC",
        AluOp::Sbb => b"SBB",
        AluOp::And => b"AND",
        AluOp::Sub => b"SUB",
        AluOp::Xor => b"XOR",
        AluOp::Cmp => b"CMP",
    }
}

pub fn count(count: Count) -> &'static [u8]
    ensures value { result.now ≡ count_text count }
    ensures size { length result.now ≤ 3 }
{
    match count {
        Count::Inc => b"INC",
        Count::Dec => b"DEC",
    }
}

pub fn rotate(rotate: Rotate) -> &'static [u8]
    ensures value { result.now ≡ rotate_text rotate }
    ensures size { length result.now ≤ 3 }
{
    match rotate {
        Rotate::Rol => b"ROL",
        Rotate::Ror => b"ROR",
        Rotate::Rcl => b"RCL",
        Rotate::Rcr => b"RCR",
    }
}

pub fn jump(jump: Jump) -> &'static [u8]
    ensures value { result.now ≡ jump_text jump }
    ensures size { length result.now ≤ 3 }
{
    match jump {
        Jump::Jb => b"JB",
        Jump::Jnb => b"JNB",
        Jump::Jz => b"JZ",
        Jump::Jnz => b"JNZ",
        Jump::Js => b"JS",
        Jump::Jns => b"JNS",
        Jump::Jp => b"JP",
        Jump::Jnp => b"JNP",
    }
}

pub fn label(label: Label) -> LineText
    ensures value { result ≡ label_text label }
    ensures size { length result ≤ 5 }
{
    match label {
        Label::At(at) => numbered(b"L", at),
        Label::Skip(at) => numbered(b"K", at),
        Label::User(at) => numbered(b"U", at),
        Label::Sys => LineText::of(b"X_SYS"),
        Label::End => LineText::of(b"X_END"),
    }
}

// A letter and four digits.
fn numbered(letter: &[u8; 1], at: u16) -> LineText
    ensures value { result ≡ letter.now ++ four_digits at }
    ensures size { length result ≤ 5 }
{
    let mut text = LineText::of(letter);
    text.push(&hex_word(at));
    text
}

/// `OFFSET` and a label.
pub fn offset(of: Label) -> LineText
    ensures value { result ≡ offset_text of }
    ensures size { length result ≤ 12 }
{
    let mut text = LineText::of(b"OFFSET ");
    text.push(label(of).as_slice());
    text
}

pub fn value(value: Value16) -> LineText
    ensures value { result ≡ value_text value }
    ensures size { length result ≤ 12 }
{
    match value {
        Value16::Num(w) => word(w),
        Value16::Offset(of) => offset(of),
    }
}
