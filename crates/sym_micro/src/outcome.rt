// What a block does, over the ids of terms.

use cells::{Part, Place};
use i80::Reg;
use sym_terms::Term;

/// A load or a store, of a byte or a word, at an address.
#[derive(Clone, Copy)]
pub enum Action {
    Load8(Term),
    Load16(Term),
    /// An address, and what is stored there.
    Store8(Term, Term),
    Store16(Term, Term),
}

/// A way out of a block.
#[derive(Clone, Copy)]
pub enum Way {
    /// To a place.
    Goto(Place),
    /// To the place that a high and a low byte name.
    ByTerms(Term, Term),
    /// A call of the instruction at the first place, which returns to the second.
    Call(Place, Place),
    /// A call of the system, which returns to this place.
    Sys(Place),
    /// A call of the system that returns as RET does.
    SysReturn,
    /// The end of the program.
    Boot,
    /// The program certainly leaves the profile.
    Leave,
    /// A byte from a port, and the place that comes next.
    In(u8, Place),
    /// A byte to a port, and the place that comes next.
    Out(u8, Place),
}

/// Where a block goes.
#[derive(Clone, Copy)]
pub enum Exit {
    One(Way),
    /// A flag, a value of it, the way where it has the value, and the way where it has not.
    Two(Term, bool, Way, Way),
}

/// The terms of the twelve parts.
#[derive(Clone, Copy)]
pub struct Held {
    pub a: Term,
    pub b: Term,
    pub c: Term,
    pub d: Term,
    pub e: Term,
    pub h: Term,
    pub l: Term,
    pub s: Term,
    pub z: Term,
    pub ac: Term,
    pub p: Term,
    pub cy: Term,
}

impl Held {
    ghost use Rattle.std.specs.Prelude.{◌≡◌};
    ghost use Rattle.sym_micro.specs.Stands.{id_of_part, id_of_reg};

    /// The term of a register.
    pub fn register(&self, reg: Reg) -> Term
        ensures { result ≡ id_of_reg self.now reg }
    {
        match reg {
            Reg::A => self.a,
            Reg::B => self.b,
            Reg::C => self.c,
            Reg::D => self.d,
            Reg::E => self.e,
            Reg::H => self.h,
            Reg::L => self.l,
        }
    }

    /// The term of a part.
    pub fn part(&self, part: Part) -> Term
        ensures { result ≡ id_of_part self.now part }
    {
        match part {
            Part::A => self.a,
            Part::B => self.b,
            Part::C => self.c,
            Part::D => self.d,
            Part::E => self.e,
            Part::H => self.h,
            Part::L => self.l,
            Part::S => self.s,
            Part::Z => self.z,
            Part::Ac => self.ac,
            Part::P => self.p,
            Part::Cy => self.cy,
        }
    }
}
