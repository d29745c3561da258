//! The classes of operands.

ghost use Rattle.std.specs.Prelude.{◌≡◌, find, is_some, map, option_map, true};
ghost use Rattle.std.specs.Str.{bytes_eq};
ghost use Rattle.zilog80.specs.Operands.{Literal, Names, Spelt as Operand, nothing_if, of_name, of_name_at, operands, renamed};
ghost use Rattle.zilog80.specs.Read.{BareEntry, are_words, bare_of, class_of, given_by, spelt_of};

use crate::operand::Spelt;
use asm80_text::Name80;

/// A class of operands of instructions (Zilog, Z80 CPU User Manual, "Addressing Modes").
#[derive(Clone, Copy)]
pub enum Class {
    /// This name alone: it says which instruction it is, and is no operand in Intel's spelling.
    Is(&'static str),
    /// This name in parentheses, likewise.
    At(&'static str),
    /// A B C D E H L.
    Register,
    /// (HL).
    Memory,
    /// A register, or (HL).
    Source,
    /// BC DE HL SP.
    Pair,
    /// BC DE HL AF.
    StackPair,
    /// (BC) (DE).
    Indirect,
    /// A value that is not wholly one pair of parentheses.
    Bare,
    /// A value.
    Any,
    /// A value in one pair of parentheses.
    Cell,
    /// The number 0.
    Zero,
}

/// What an operand gives in Intel's spelling.
#[derive(Clone, Copy)]
pub enum Given {
    Nothing,
    /// A name of Intel's.
    Renamed(Name80),
    /// Its value.
    OfValue,
}

// Names with those of Intel's spelling.

static REGISTERS: [(&str, &str); 7] = [
    ("A", "A"),
    ("B", "B"),
    ("C", "C"),
    ("D", "D"),
    ("E", "E"),
    ("H", "H"),
    ("L", "L"),
];

static MEMORY: [(&str, &str); 1] = [("HL", "M")];

static PAIRS: [(&str, &str); 4] = [("BC", "B"), ("DE", "D"), ("HL", "H"), ("SP", "SP")];

static STACK_PAIRS: [(&str, &str); 4] = [("BC", "B"), ("DE", "D"), ("HL", "H"), ("AF", "PSW")];

static INDIRECTS: [(&str, &str); 2] = [("BC", "B"), ("DE", "D")];

impl Class {
    /// Whether an operand is of the class.
    pub fn takes(self, spelt: &Spelt) -> bool
        ensures { result ≡ is_some (operands (class_of self) (spelt_of spelt.now)) }
    {
        self.given(spelt).is_some()
    }

    /// What an operand gives that is of the class; None where it is not.
    pub fn given(self, spelt: &Spelt) -> Option<Given>
        ensures { option_map (given_by (spelt_of spelt.now)) result ≡ operands (class_of self) (spelt_of spelt.now) }
    {
        match spelt {
            Spelt::Name(name) => self.of_name(name.as_slice()),
            Spelt::AtName(name) => self.of_name_at(name.as_slice()),
            Spelt::Literal(n) => self.of_literal(*n),
            Spelt::Value(_) => match self {
                Class::Bare | Class::Any => Some(Given::OfValue),
                _ => None,
            },
            Spelt::AtValue(_) => match self {
                Class::Any | Class::Cell => Some(Given::OfValue),
                _ => None,
            },
        }
    }

    fn of_name(self, name: &[u8]) -> Option<Given>
        ensures { (a : Operand) → option_map (given_by a) result ≡ of_name (class_of self) name.now }
    {
        match self {
            Class::Is(exact) => nothing_if(exact.as_bytes() == name),
            Class::Register | Class::Source => renamed(&REGISTERS, name),
            Class::Pair => renamed(&PAIRS, name),
            Class::StackPair => renamed(&STACK_PAIRS, name),
            _ => None,
        }
    }

    fn of_name_at(self, name: &[u8]) -> Option<Given>
        ensures { (a : Operand) → option_map (given_by a) result ≡ of_name_at (class_of self) name.now }
    {
        match self {
            Class::At(exact) => nothing_if(exact.as_bytes() == name),
            Class::Memory | Class::Source => renamed(&MEMORY, name),
            Class::Indirect => renamed(&INDIRECTS, name),
            _ => None,
        }
    }

    fn of_literal(self, n: u16) -> Option<Given>
        ensures { option_map (given_by (Literal n)) result ≡ operands (class_of self) (Literal n) }
    {
        match self {
            Class::Bare | Class::Any => Some(Given::OfValue),
            Class::Zero => { if n == 0 { Some(Given::OfValue) } else { None } }
            _ => None,
        }
    }
}

fn nothing_if(same: bool) -> Option<Given>
    ensures { (a : Operand) → option_map (given_by a) result ≡ nothing_if same }
{
    if same { Some(Given::Nothing) } else { None }
}

// The name of Intel's spelling for a name.
fn renamed(names: &[(&str, &str)], name: &[u8]) -> Option<Given>
    requires { are_words (map (λ (x : BareEntry). x.1.now) names.now) ≡ true }
    ensures { (entries : Names) (a : Operand) → map bare_of names.now ≡ entries → option_map (given_by a) result ≡ renamed entries name.now }
{
    match beside(names, name) {
        Some(other) => Some(Given::Renamed(other)),
        None => None,
    }
}

/// The name that stands beside a word in a table.
pub fn beside(table: &[(&str, &str)], word: &[u8]) -> Option<Name80>
    requires { are_words (map (λ (x : BareEntry). x.1.now) table.now) ≡ true }
    ensures { result ≡ option_map (λ (x : BareEntry). x.1.now) (find (λ (x : BareEntry). bytes_eq x.0.now word.now) table.now) }
{
    for entry in table {
        if entry.0.as_bytes() == word {
            return Some(Name80::of(entry.1.as_bytes()));
        }
    }
    None
}
