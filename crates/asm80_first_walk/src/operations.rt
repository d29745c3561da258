//! The operations by their names.

ghost use Rattle.std.specs.Prelude.{◌≡◌, List, ℕ, find, map, option_map, is_some, true};
ghost use Rattle.std.specs.List.{list_all};
ghost use Rattle.std.specs.Borrow.{Bor};
ghost use Rattle.std.specs.Str.{bytes_eq};
ghost use Rattle.asm80_types.specs.Words.{is_operation};
ghost use Rattle.asm80_source_def.specs.declared.operation.Operation.{Operation};
ghost use Rattle.asm80_source_def.specs.Operations.{operation_of};
ghost use Rattle.asm80_first_walk.specs.Tables.{begins_with_letter, by_letter, entries_of};

use asm80_source_def::Operation;
use cells::Cond;
use i80::{Instr80, Op};

/// Operations with their names.
type Entries<'a> = &'a [(&'a str, Operation)];

/// Each operation's name with what it is, by the first letters of the names: those with A, those with B, and so on (Intel 8080
/// Assembly Language Programming Manual, chapter 2; CP/M 2.2 Operating System Manual, the assembler, "Assembler directives").
static OPERATIONS: [Entries<'static>; 26] = [
    &[
        ("ADD", Operation::Alu(Op::Add)),
        ("ADC", Operation::Alu(Op::Adc)),
        ("ANA", Operation::Alu(Op::Ana)),
        ("ADI", Operation::AluI(Op::Add)),
        ("ACI", Operation::AluI(Op::Adc)),
        ("ANI", Operation::AluI(Op::Ana)),
    ],
    &[],
    &[
        ("CMP", Operation::Alu(Op::Cmp)),
        ("CPI", Operation::AluI(Op::Cmp)),
        ("CMA", Operation::Bare(Instr80::Cma)),
        ("CMC", Operation::Bare(Instr80::Cmc)),
        ("CALL", Operation::Call),
        ("CNZ", Operation::Cif(Cond::Nz)),
        ("CZ", Operation::Cif(Cond::Z)),
        ("CNC", Operation::Cif(Cond::Nc)),
        ("CC", Operation::Cif(Cond::C)),
        ("CPO", Operation::Cif(Cond::Po)),
        ("CPE", Operation::Cif(Cond::Pe)),
        ("CP", Operation::Cif(Cond::P)),
        ("CM", Operation::Cif(Cond::M)),
    ],
    &[
        ("DCR", Operation::Dcr),
        ("DCX", Operation::Dcx),
        ("DAD", Operation::Dad),
        ("DAA", Operation::Bare(Instr80::Daa)),
        ("DI", Operation::Foreign),
        ("DB", Operation::Db),
        ("DW", Operation::Dw),
        ("DS", Operation::Ds),
    ],
    &[
        ("EI", Operation::Foreign),
        ("END", Operation::End),
        ("EQU", Operation::Equ),
        ("ENDIF", Operation::EndIf),
    ],
    &[],
    &[],
    &[("HLT", Operation::Foreign)],
    &[
        ("INR", Operation::Inr),
        ("INX", Operation::Inx),
        ("IN", Operation::In),
        ("IF", Operation::If),
    ],
    &[
        ("JMP", Operation::Jmp),
        ("JNZ", Operation::Jif(Cond::Nz)),
        ("JZ", Operation::Jif(Cond::Z)),
        ("JNC", Operation::Jif(Cond::Nc)),
        ("JC", Operation::Jif(Cond::C)),
        ("JPO", Operation::Jif(Cond::Po)),
        ("JPE", Operation::Jif(Cond::Pe)),
        ("JP", Operation::Jif(Cond::P)),
        ("JM", Operation::Jif(Cond::M)),
    ],
    &[],
    &[
        ("LXI", Operation::Lxi),
        ("LDA", Operation::Lda),
        ("LHLD", Operation::Lhld),
        ("LDAX", Operation::Ldax),
    ],
    &[("MOV", Operation::Mov), ("MVI", Operation::Mvi)],
    &[("NOP", Operation::Bare(Instr80::Nop))],
    &[
        ("ORA", Operation::Alu(Op::Ora)),
        ("ORI", Operation::AluI(Op::Ora)),
        ("OUT", Operation::Out),
        ("ORG", Operation::Org),
    ],
    &[
        ("PCHL", Operation::Bare(Instr80::Pchl)),
        ("PUSH", Operation::Push),
        ("POP", Operation::Pop),
    ],
    &[],
    &[
        ("RLC", Operation::Bare(Instr80::Rlc)),
        ("RRC", Operation::Bare(Instr80::Rrc)),
        ("RAL", Operation::Bare(Instr80::Ral)),
        ("RAR", Operation::Bare(Instr80::Rar)),
        ("RET", Operation::Bare(Instr80::Ret)),
        ("RNZ", Operation::Bare(Instr80::Rif(Cond::Nz))),
        ("RZ", Operation::Bare(Instr80::Rif(Cond::Z))),
        ("RNC", Operation::Bare(Instr80::Rif(Cond::Nc))),
        ("RC", Operation::Bare(Instr80::Rif(Cond::C))),
        ("RPO", Operation::Bare(Instr80::Rif(Cond::Po))),
        ("RPE", Operation::Bare(Instr80::Rif(Cond::Pe))),
        ("RP", Operation::Bare(Instr80::Rif(Cond::P))),
        ("RM", Operation::Bare(Instr80::Rif(Cond::M))),
        ("RST", Operation::Rst),
    ],
    &[
        ("STA", Operation::Sta),
        ("SHLD", Operation::Shld),
        ("STAX", Operation::Stax),
        ("SPHL", Operation::Bare(Instr80::Sphl)),
        ("SUB", Operation::Alu(Op::Sub)),
        ("SBB", Operation::Alu(Op::Sbb)),
        ("SUI", Operation::AluI(Op::Sub)),
        ("SBI", Operation::AluI(Op::Sbb)),
        ("STC", Operation::Bare(Instr80::Stc)),
        ("SET", Operation::Set),
    ],
    &[],
    &[],
    &[],
    &[],
    &[
        ("XCHG", Operation::Bare(Instr80::Xchg)),
        ("XTHL", Operation::Bare(Instr80::Xthl)),
        ("XRA", Operation::Alu(Op::Xra)),
        ("XRI", Operation::AluI(Op::Xra)),
    ],
    &[],
    &[],
];

/// What a word is, if it is an operation.
pub fn operation_of(word: &[u8]) -> Option<Operation>
    ensures { result ≡ operation_of word.now }
{
    find_in(&OPERATIONS, word)
}

/// A law: the operations are the words that a line's reader takes for operations.
pub fn operations_are_words()
    ensures { (word : List ℕ) → is_operation word ≡ is_some (operation_of word) }
{}

// What a word is in a table by first letters, of which the entries of its own letter alone are looked at.
fn find_in(lists: &[Entries<'_>; 26], word: &[u8]) -> Option<Operation>
    ensures { (entries : List (List ℕ × Operation)) → map (λ (list : Bor (List (Bor (List ℕ) × Operation))). entries_of list.now) lists.now ≡ by_letter 26 65 entries → list_all begins_with_letter entries ≡ true → result ≡ option_map (λ (x : List ℕ × Operation). x.1) (find (λ (x : List ℕ × Operation). bytes_eq x.0 word.now) entries) }
{
    let Some(letter) = word.first() else {
        return None;
    };
    if !letter.is_ascii_uppercase() {
        return None;
    }
    operation_among(lists[usize::from(*letter - b'A')], word)
}

// What a word is in a table.
fn operation_among(table: &[(&str, Operation)], word: &[u8]) -> Option<Operation>
    ensures { result ≡ option_map (λ (x : Bor (List ℕ) × Operation). x.1) (find (λ (x : Bor (List ℕ) × Operation). bytes_eq x.0.now word.now) table.now) }
{
    for entry in table {
        if entry.0.as_bytes() == word {
            return Some(entry.1);
        }
    }
    None
}
