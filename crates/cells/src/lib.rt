// The values that both sides speak of: what a register or a memory cell of the tagged 8080 is known to hold (abstract values), the five
// flags, conditions, places of a program, and sets of the twelve parts of the state (seven registers and five flags).
//
// Proved: the sets `Keep` act as sets (`none`, `all`, `with`, `has`, `join`, equality). `Flags::of_byte` takes S, Z, AC, P and CY from bits
// 7, 6, 4, 2 and 0 of a byte and looks at no other bit. `Flags::holds` answers whether a condition holds, and None exactly where its flag
// is unknown. `Place::is_same` answers whether two places are the same.
#![tactic(auto)]

ghost use Rattle.std.proofs.Common.{rules};
ghost use Rattle.std.specs.Cmp.Rules.{comparing};
ghost use Rattle.std.specs.Ordering.{on};
ghost use Rattle.std.specs.Prelude.{◌≡◌, ◌<◌, ◌==◌, ◌↔◌, IsTrue, not, option_map};
ghost use Rattle.cells.specs.Bits.{has_bit};
ghost use Rattle.cells.specs.Conditions.{unknown_flags, flags_of_byte, holds};
ghost use Rattle.cells.specs.Places.{same_place};
ghost use Rattle.cells.specs.Parts.{nothing, everything, only, union, has, bits_of_parts};

use std::marker::Model;

/// A place of the program: an instruction's 8080 address, or the point to which a program returns to end.
#[derive(Clone, Copy, PartialEq, Eq)]
pub enum Place {
    At(u16),
    Exit,
}

impl Place {
    /// Whether it is the other place.
    pub fn is_same(self, other: Place) -> bool
        ensures { result ≡ same_place self other }
    {
        match (self, other) {
            (Place::At(a), Place::At(b)) => a == b,
            (Place::Exit, Place::Exit) => true,
            _ => false,
        }
    }
}

/// The five flags of the 8080, each 0, 1 or unknown.
#[derive(Clone, Copy, PartialEq, Eq)]
pub struct Flags {
    pub s: Option<bool>,
    pub z: Option<bool>,
    pub ac: Option<bool>,
    pub p: Option<bool>,
    pub cy: Option<bool>,
}

/// What a register or a cell holds: a byte, half of a code address, the flag byte that PUSH PSW stores, or nothing known.
#[derive(Clone, Copy, PartialEq, Eq)]
pub enum Cell {
    Num(u8),
    Lo(Place),
    Hi(Place),
    Psw(Flags),
    Junk,
}

/// A register or a flag.
#[derive(Clone, Copy, PartialEq, Eq)]
pub enum Part {
    A,
    B,
    C,
    D,
    E,
    H,
    L,
    S,
    Z,
    Ac,
    P,
    Cy,
}

impl Part {
    /// The parts in their order: the registers, and then the flags.
    pub const ALL: [Part; 12] = [
        Part::A,
        Part::B,
        Part::C,
        Part::D,
        Part::E,
        Part::H,
        Part::L,
        Part::S,
        Part::Z,
        Part::Ac,
        Part::P,
        Part::Cy,
    ];
}

/// A condition of a jump, call or return (8080 Assembly Language Programming Manual, "Jump instructions").
#[derive(Clone, Copy)]
pub enum Cond {
    Nz,
    Z,
    Nc,
    C,
    Po,
    Pe,
    P,
    M,
}

/// Why a program left the profile; docs/PROFILE.md has the rules in full, and the order in which they are looked at.
#[derive(Clone, Copy, PartialEq, Eq)]
pub enum Rule {
    /// It goes on to a place where no instruction starts.
    P1,
    /// It reads a closed cell.
    P2,
    /// It writes a closed cell, or cell 6 or 7.
    P3,
    /// It reads or writes a word at 0FFFFH.
    P4,
    /// Arithmetic on what is no number.
    P5,
    /// It reads an unknown flag.
    P6,
    /// DAA of a value that the 8086 adjusts in another way.
    P7,
    /// An address that is no number.
    P8,
    /// A call of the system whose function is no number or not in the call table.
    P9,
    /// A call whose argument is no number, or that reads what it may not.
    P10,
    /// A call that could write what it may not.
    P11,
    /// A call with cell 6 or 7 among the eight below SP.
    P12,
}

/// A set of parts.
#[derive(Clone, Copy)]
pub struct Keep {
    bits: u16,
}

impl Model for Keep {
    ghost use Rattle.cells.specs.Parts.{Parts, AreParts, parts_of_bits, bits_of_parts};

    ghost Value = { Parts };

    ghost view = { λ k. parts_of_bits k.bits };

    ghost invariant = { λ k. AreParts k.bits };

    ghost inverse = { λ parts. record { bits = bits_of_parts parts } };

    ghost inverse_ok = { λ k known i. record { bits = known.1 i } };
}

impl PartialEq for Keep {
    ghost use Rattle.cells.specs.Parts.{bits_of_parts};

    ghost eq = { on bits_of_parts ◌==◌ };

    ghost laws = { Prim.search (comparing, rules) };

    fn eq(&self, other: &Keep) -> bool
        ensures gives { result ≡ (bits_of_parts self.now == bits_of_parts other.now) }
        ensures same { IsTrue result ↔ (self.now ≡ other.now) }
    {
        self.bits == other.bits
    }
}

impl Eq for Keep {
    ghost laws = { Prim.search (comparing, rules) };
}

impl Keep {
    /// The set without a member.
    pub fn none() -> Keep
        ensures { result ≡ nothing }
    {
        Keep { bits: 0 }
    }

    /// The set of all twelve parts.
    pub fn all() -> Keep
        ensures { result ≡ everything }
    {
        Keep { bits: 0xFFF }
    }

    /// The set with this part too.
    pub fn with(self, part: Part) -> Keep
        ensures { result ≡ union self (only part) }
    {
        Keep {
            bits: self.bits | 1 << part as u16,
        }
    }

    /// Whether the part is a member.
    pub fn has(self, part: Part) -> bool
        ensures { result ≡ has self part }
    {
        (self.bits >> part as u16) & 1 == 1
    }

    /// The members of both sets.
    pub fn join(self, other: Keep) -> Keep
        ensures { result ≡ union self other }
    {
        Keep {
            bits: self.bits | other.bits,
        }
    }
}

impl Flags {
    /// No flag is known.
    pub fn unknown() -> Flags
        ensures { result ≡ unknown_flags }
    {
        Flags {
            s: None,
            z: None,
            ac: None,
            p: None,
            cy: None,
        }
    }

    /// The flags in the byte that PUSH PSW stores: bits 7 6 4 2 0 are S Z AC P CY.
    pub fn of_byte(byte: u8) -> Flags
        ensures { result ≡ flags_of_byte byte }
    {
        Flags {
            s: Some(is_set(byte, 7)),
            z: Some(is_set(byte, 6)),
            ac: Some(is_set(byte, 4)),
            p: Some(is_set(byte, 2)),
            cy: Some(is_set(byte, 0)),
        }
    }

    /// Whether a condition holds; None where its flag is unknown.
    pub fn holds(self, cond: Cond) -> Option<bool>
        ensures { result ≡ holds self cond }
    {
        match cond {
            Cond::Nz => is_clear(self.z),
            Cond::Z => self.z,
            Cond::Nc => is_clear(self.cy),
            Cond::C => self.cy,
            Cond::Po => is_clear(self.p),
            Cond::Pe => self.p,
            Cond::P => is_clear(self.s),
            Cond::M => self.s,
        }
    }
}

fn is_set(byte: u8, place: u8) -> bool
    requires { place < 8 }
    ensures { result ≡ has_bit byte place }
{
    (byte >> place) & 1 == 1
}

fn is_clear(flag: Option<bool>) -> Option<bool>
    ensures { result ≡ option_map not flag }
{
    match flag {
        Some(value) => Some(!value),
        None => None,
    }
}
