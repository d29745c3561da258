//! The table of instructions, and the reserved words.

ghost use Rattle.std.specs.Prelude.{◌≡◌, List, ℕ, map, option_copied, true};
ghost use Rattle.zilog80.specs.Operands.{Class as OperandClass};
ghost use Rattle.zilog80.specs.Table.{bare_rows, binary_rows, unary_rows};
ghost use Rattle.zilog80.specs.Words.{is_directive, is_operation, is_register};
ghost use Rattle.zilog80.specs.Read.{BinaryEntry, IsBareRow, IsBinaryRow, IsUnaryRow, UnaryEntry, are_words, binary_of, of_letter, spelt_of, unary_of};

use crate::class::Class::{self, *};
use crate::class::beside;
use crate::operand::Spelt;
use asm80_text::Name80;
use asm80_types::{WordsByLetter, is_listed};

/// Rows by the first letters of their words: those with A, those with B, and so on, each in the order of the definition's rows.
type ByLetter<'a, Row> = [&'a [Row]; 26];

/// A word, and the operation in Intel's spelling.
type BareRow<'a> = (&'a str, &'a str);

/// A word, the class of its operand, and the operation in Intel's spelling.
type UnaryRow<'a> = (&'a str, Class, &'a str);

/// A word, the classes of its operands, and the operation in Intel's spelling.
type BinaryRow<'a> = (&'a str, Class, Class, &'a str);

/// The directives of the assembler.
static DIRECTIVES: WordsByLetter<'static> = [
    &[],
    &[],
    &[],
    &["DB", "DW", "DS"],
    &["END", "EQU", "ENDIF"],
    &[],
    &[],
    &[],
    &["IF"],
    &[],
    &[],
    &[],
    &[],
    &[],
    &["ORG"],
    &[],
    &[],
    &[],
    &["SET"],
    &[],
    &[],
    &[],
    &[],
    &[],
    &[],
    &[],
];

/// The words that are operations: the directives, and those of the table below.
static OPERATIONS: WordsByLetter<'static> = [
    &["ADC", "ADD", "AND"],
    &[],
    &["CALL", "CCF", "CP", "CPL"],
    &["DAA", "DB", "DEC", "DI", "DS", "DW"],
    &["EI", "END", "ENDIF", "EQU", "EX"],
    &[],
    &[],
    &["HALT"],
    &["IF", "IN", "INC"],
    &["JP"],
    &[],
    &["LD"],
    &[],
    &["NOP"],
    &["OR", "ORG", "OUT"],
    &["POP", "PUSH"],
    &[],
    &["RET", "RLA", "RLCA", "RRA", "RRCA", "RST"],
    &["SBC", "SCF", "SET", "SUB"],
    &[],
    &[],
    &[],
    &[],
    &["XOR"],
    &[],
    &[],
];

/// The names of registers, of register pairs and of conditions, and M and PSW.
static RESERVED_NAMES: WordsByLetter<'static> = [
    &["A", "AF"],
    &["B", "BC"],
    &["C"],
    &["D", "DE"],
    &["E"],
    &[],
    &[],
    &["H", "HL"],
    &[],
    &[],
    &[],
    &["L"],
    &["M"],
    &["NZ", "NC"],
    &[],
    &["PO", "PE", "P", "PSW"],
    &[],
    &[],
    &["SP"],
    &[],
    &[],
    &[],
    &[],
    &[],
    &[],
    &["Z"],
];

/// A word without operands, and the operation that it is.
static BARE: ByLetter<'static, BareRow<'static>> = [
    &[],
    &[],
    &[("CPL", "CMA"), ("CCF", "CMC")],
    &[("DAA", "DAA"), ("DI", "DI")],
    &[("EI", "EI")],
    &[],
    &[],
    &[("HALT", "HLT")],
    &[],
    &[],
    &[],
    &[],
    &[],
    &[("NOP", "NOP")],
    &[],
    &[],
    &[],
    &[
        ("RLCA", "RLC"),
        ("RRCA", "RRC"),
        ("RLA", "RAL"),
        ("RRA", "RAR"),
        ("RET", "RET"),
    ],
    &[("SCF", "STC")],
    &[],
    &[],
    &[],
    &[],
    &[],
    &[],
    &[],
];

/// A word with an operand of a class.
static UNARY: ByLetter<'static, UnaryRow<'static>> = [
    &[("AND", Source, "ANA"), ("AND", Any, "ANI")],
    &[],
    &[
        ("CP", Source, "CMP"),
        ("CP", Any, "CPI"),
        ("CALL", Any, "CALL"),
    ],
    &[("DEC", Source, "DCR"), ("DEC", Pair, "DCX")],
    &[],
    &[],
    &[],
    &[],
    &[("INC", Source, "INR"), ("INC", Pair, "INX")],
    &[("JP", Any, "JMP"), ("JP", At("HL"), "PCHL")],
    &[],
    &[],
    &[],
    &[],
    &[("OR", Source, "ORA"), ("OR", Any, "ORI")],
    &[("PUSH", StackPair, "PUSH"), ("POP", StackPair, "POP")],
    &[],
    &[
        ("RET", Is("NZ"), "RNZ"),
        ("RET", Is("Z"), "RZ"),
        ("RET", Is("NC"), "RNC"),
        ("RET", Is("C"), "RC"),
        ("RET", Is("PO"), "RPO"),
        ("RET", Is("PE"), "RPE"),
        ("RET", Is("P"), "RP"),
        ("RET", Is("M"), "RM"),
        ("RST", Zero, "RST"),
    ],
    &[("SUB", Source, "SUB"), ("SUB", Any, "SUI")],
    &[],
    &[],
    &[],
    &[],
    &[("XOR", Source, "XRA"), ("XOR", Any, "XRI")],
    &[],
    &[],
];

/// A word with two operands.
static BINARY: ByLetter<'static, BinaryRow<'static>> = [
    &[
        ("ADD", Is("A"), Source, "ADD"),
        ("ADD", Is("A"), Any, "ADI"),
        ("ADC", Is("A"), Source, "ADC"),
        ("ADC", Is("A"), Any, "ACI"),
        ("ADD", Is("HL"), Pair, "DAD"),
    ],
    &[],
    &[
        ("CALL", Is("NZ"), Any, "CNZ"),
        ("CALL", Is("Z"), Any, "CZ"),
        ("CALL", Is("NC"), Any, "CNC"),
        ("CALL", Is("C"), Any, "CC"),
        ("CALL", Is("PO"), Any, "CPO"),
        ("CALL", Is("PE"), Any, "CPE"),
        ("CALL", Is("P"), Any, "CP"),
        ("CALL", Is("M"), Any, "CM"),
    ],
    &[],
    &[
        ("EX", Is("DE"), Is("HL"), "XCHG"),
        ("EX", At("SP"), Is("HL"), "XTHL"),
    ],
    &[],
    &[],
    &[],
    &[("IN", Is("A"), Cell, "IN")],
    &[
        ("JP", Is("NZ"), Any, "JNZ"),
        ("JP", Is("Z"), Any, "JZ"),
        ("JP", Is("NC"), Any, "JNC"),
        ("JP", Is("C"), Any, "JC"),
        ("JP", Is("PO"), Any, "JPO"),
        ("JP", Is("PE"), Any, "JPE"),
        ("JP", Is("P"), Any, "JP"),
        ("JP", Is("M"), Any, "JM"),
    ],
    &[],
    &[
        ("LD", Register, Source, "MOV"),
        ("LD", Memory, Register, "MOV"),
        ("LD", Source, Bare, "MVI"),
        ("LD", Pair, Bare, "LXI"),
        ("LD", Is("A"), Cell, "LDA"),
        ("LD", Cell, Is("A"), "STA"),
        ("LD", Is("HL"), Cell, "LHLD"),
        ("LD", Cell, Is("HL"), "SHLD"),
        ("LD", Is("A"), Indirect, "LDAX"),
        ("LD", Indirect, Is("A"), "STAX"),
        ("LD", Is("SP"), Is("HL"), "SPHL"),
    ],
    &[],
    &[],
    &[("OUT", Cell, Is("A"), "OUT")],
    &[],
    &[],
    &[],
    &[
        ("SBC", Is("A"), Source, "SBB"),
        ("SBC", Is("A"), Any, "SBI"),
    ],
    &[],
    &[],
    &[],
    &[],
    &[],
    &[],
    &[],
];

pub fn is_directive(word: &[u8]) -> bool
    ensures { result ≡ is_directive word.now }
{
    is_listed(&DIRECTIVES, word)
}

/// Whether a word is an operation: a directive, or a word of the table.
pub fn is_operation(word: &[u8]) -> bool
    ensures { result ≡ is_operation word.now }
{
    is_listed(&OPERATIONS, word)
}

/// Whether a word is a reserved name that is neither an operation nor an operator.
pub fn is_register(word: &[u8]) -> bool
    ensures { result ≡ is_register word.now }
{
    is_listed(&RESERVED_NAMES, word)
}

// The rows of the first letter of a word. (A digit has those of A, and no word there begins with it.)
#[tactic(auto, unfolding(crate::specs::Read::of_letter))]
fn of_letter<'a, Row>(lists: &ByLetter<'a, Row>, word: &[u8]) -> Option<&'a [Row]>
    ensures { option_copied result ≡ of_letter lists.now word.now }
{
    match word {
        [letter, ..] => lists.get(letter.saturating_sub(b'A') as usize).copied(),
        [] => None,
    }
}

/// The operation that a word without operands is.
pub fn bare_row(word: &[u8]) -> Option<Name80>
    ensures { IsBareRow bare_rows word.now result }
{
    match of_letter(&BARE, word) {
        Some(rows) => beside(rows, word),
        None => None,
    }
}

/// The class of the operand and the operation of the row in which a word and its operand stand.
pub fn unary_row(word: &[u8], operand: &Spelt) -> Option<(Class, Name80)>
    ensures { IsUnaryRow unary_rows word.now (spelt_of operand.now) result }
{
    match of_letter(&UNARY, word) {
        Some(rows) => unary_in(rows, word, operand),
        None => None,
    }
}

fn unary_in(rows: &[UnaryRow<'_>], word: &[u8], operand: &Spelt) -> Option<(Class, Name80)>
    requires { are_words (map (λ (r : UnaryEntry). r.2.now) rows.now) ≡ true }
    ensures { (entries : List (List ℕ × OperandClass × List ℕ)) → map unary_of rows.now ≡ entries → IsUnaryRow entries word.now (spelt_of operand.now) result }
{
    for row in rows {
        if row.0.as_bytes() == word && row.1.takes(operand) {
            return Some((row.1, Name80::of(row.2.as_bytes())));
        }
    }
    None
}

/// The classes of the operands and the operation of the row in which a word and its two operands stand.
pub fn binary_row(word: &[u8], left: &Spelt, right: &Spelt) -> Option<(Class, Class, Name80)>
    ensures { IsBinaryRow binary_rows word.now (spelt_of left.now) (spelt_of right.now) result }
{
    match of_letter(&BINARY, word) {
        Some(rows) => binary_in(rows, word, left, right),
        None => None,
    }
}

fn binary_in(
    rows: &[BinaryRow<'_>],
    word: &[u8],
    left: &Spelt,
    right: &Spelt,
) -> Option<(Class, Class, Name80)>
    requires { are_words (map (λ (r : BinaryEntry). r.3.now) rows.now) ≡ true }
    ensures { (entries : List (List ℕ × OperandClass × OperandClass × List ℕ)) → map binary_of rows.now ≡ entries → IsBinaryRow entries word.now (spelt_of left.now) (spelt_of right.now) result }
{
    for row in rows {
        if row.0.as_bytes() == word && row.1.takes(left) && row.2.takes(right) {
            return Some((row.1, row.2, Name80::of(row.3.as_bytes())));
        }
    }
    None
}
