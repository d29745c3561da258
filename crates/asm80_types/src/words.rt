//! The words that statements have: operations and registers.

ghost use Rattle.std.specs.Prelude.{◌≡◌, List, true, ℕ};
ghost use Rattle.std.specs.List.{list_any};
ghost use Rattle.std.specs.Str.{bytes_eq};
ghost use Rattle.asm80_types.specs.Words.{are_by_letter, is_operation, is_register};

/// Words by their first letters: those with A, those with B, and so on.
pub type WordsByLetter<'a> = [&'a [&'a str]; 26];

/// The 8080's operations and the directives.
static OPERATIONS: WordsByLetter<'static> = [
    &["ADD", "ADC", "ANA", "ADI", "ACI", "ANI"],
    &[],
    &[
        "CMP", "CPI", "CMA", "CMC", "CALL", "CNZ", "CZ", "CNC", "CC", "CPO", "CPE", "CP", "CM",
    ],
    &["DCR", "DCX", "DAD", "DAA", "DI", "DB", "DW", "DS"],
    &["EI", "END", "EQU", "ENDIF"],
    &[],
    &[],
    &["HLT"],
    &["INR", "INX", "IN", "IF"],
    &["JMP", "JNZ", "JZ", "JNC", "JC", "JPO", "JPE", "JP", "JM"],
    &[],
    &["LXI", "LDA", "LHLD", "LDAX"],
    &["MOV", "MVI"],
    &["NOP"],
    &["ORA", "ORI", "OUT", "ORG"],
    &["PCHL", "PUSH", "POP"],
    &[],
    &[
        "RLC", "RRC", "RAL", "RAR", "RET", "RNZ", "RZ", "RNC", "RC", "RPO", "RPE", "RP", "RM",
        "RST",
    ],
    &[
        "STA", "SHLD", "STAX", "SPHL", "SUB", "SBB", "SUI", "SBI", "STC", "SET",
    ],
    &[],
    &[],
    &[],
    &[],
    &["XCHG", "XTHL", "XRA", "XRI"],
    &[],
    &[],
];

/// The names of registers and register pairs, and of the memory operand.
static REGISTERS: WordsByLetter<'static> = [
    &["A"],
    &["B"],
    &["C"],
    &["D"],
    &["E"],
    &[],
    &[],
    &["H"],
    &[],
    &[],
    &[],
    &["L"],
    &["M"],
    &[],
    &[],
    &["PSW"],
    &[],
    &[],
    &["SP"],
    &[],
    &[],
    &[],
    &[],
    &[],
    &[],
    &[],
];

/// Whether a name is that of an operation.
pub fn is_operation(name: &[u8]) -> bool
    ensures { result ≡ is_operation name.now }
{
    is_listed(&OPERATIONS, name)
}

/// Whether a name is that of a register or a register pair.
pub fn is_register(name: &[u8]) -> bool
    ensures { result ≡ is_register name.now }
{
    is_listed(&REGISTERS, name)
}

/// Whether a name is one of the words that lie by their first letters; those of its own first letter alone are looked at.
pub fn is_listed(lists: &WordsByLetter<'_>, name: &[u8]) -> bool
    ensures { (words : List (List ℕ)) → are_by_letter lists.now words ≡ true → result ≡ list_any (λ word. bytes_eq word name.now) words }
{
    let Some(letter) = name.first() else {
        return false;
    };
    // (a digit is looked for among the words with A, and none of them begins with it)
    match lists.get(letter.saturating_sub(b'A') as usize) {
        Some(words) => is_among(words, name),
        None => false,
    }
}

fn is_among(words: &[&str], name: &[u8]) -> bool
    ensures { result ≡ list_any (λ word. bytes_eq word.now name.now) words.now }
{
    words.iter().any(|word| word.as_bytes() == name)
}
