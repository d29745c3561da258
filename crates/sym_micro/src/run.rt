// A run: the terms that the registers hold, and the loads and stores so far.

ghost use Rattle.std.specs.Prelude.{◌≡◌};
ghost use Rattle.sym_micro.specs.Stands.{id_of_byte, id_of_word, run_with_byte, run_with_word, run_with_flag};

use crate::micro::{ByteSlot, FlagSlot, WordSlot};
use crate::outcome::{Action, Held};
use i80::Reg;
use i86::Reg8;
use sym_terms::Term;

/// The registers and the actions of a run.
#[derive(Drop)]
pub struct Run {
    pub held: Held,
    pub ah: Term,
    pub si: Term,
    pub sp: Term,
    pub t: Term,
    pub u: Term,
    pub v: Term,
    pub w: Term,
    pub x: Term,
    /// What the last operation gave.
    pub result: Term,
    /// What the last rotation gave.
    pub turned: Term,
    /// The loads and stores so far.
    pub actions: Vec<Action>,
    /// How many of them are loads.
    pub loads: u16,
}

impl Run {
    pub fn byte(&self, slot: ByteSlot) -> Term
        ensures { result ≡ id_of_byte self.now slot }
    {
        match slot {
            ByteSlot::Of80(reg) => self.held.register(reg),
            ByteSlot::Of86(reg) => match reg {
                Reg8::Al => self.held.a,
                Reg8::Cl => self.held.c,
                Reg8::Dl => self.held.e,
                Reg8::Bl => self.held.l,
                Reg8::Ah => self.ah,
                Reg8::Ch => self.held.b,
                Reg8::Dh => self.held.d,
                Reg8::Bh => self.held.h,
            },
            ByteSlot::T => self.t,
            ByteSlot::U => self.u,
        }
    }

    pub fn set_byte(&mut self, slot: ByteSlot, term: Term)
        ensures { self.new ≡ run_with_byte self.old slot term }
    {
        match slot {
            ByteSlot::Of80(reg) => match reg {
                Reg::A => self.held.a = term,
                Reg::B => self.held.b = term,
                Reg::C => self.held.c = term,
                Reg::D => self.held.d = term,
                Reg::E => self.held.e = term,
                Reg::H => self.held.h = term,
                Reg::L => self.held.l = term,
            },
            ByteSlot::Of86(reg) => match reg {
                Reg8::Al => self.held.a = term,
                Reg8::Cl => self.held.c = term,
                Reg8::Dl => self.held.e = term,
                Reg8::Bl => self.held.l = term,
                Reg8::Ah => self.ah = term,
                Reg8::Ch => self.held.b = term,
                Reg8::Dh => self.held.d = term,
                Reg8::Bh => self.held.h = term,
            },
            ByteSlot::T => self.t = term,
            ByteSlot::U => self.u = term,
        }
    }

    pub fn word(&self, slot: WordSlot) -> Term
        ensures { result ≡ id_of_word self.now slot }
    {
        match slot {
            WordSlot::V => self.v,
            WordSlot::W => self.w,
            WordSlot::X => self.x,
        }
    }

    pub fn set_word(&mut self, slot: WordSlot, term: Term)
        ensures { self.new ≡ run_with_word self.old slot term }
    {
        match slot {
            WordSlot::V => self.v = term,
            WordSlot::W => self.w = term,
            WordSlot::X => self.x = term,
        }
    }

    pub fn set_flag(&mut self, slot: FlagSlot, term: Term)
        ensures { self.new ≡ run_with_flag self.old slot term }
    {
        match slot {
            FlagSlot::S => self.held.s = term,
            FlagSlot::Z => self.held.z = term,
            FlagSlot::Ac => self.held.ac = term,
            FlagSlot::P => self.held.p = term,
            FlagSlot::Cy => self.held.cy = term,
        }
    }
}
