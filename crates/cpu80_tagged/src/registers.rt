// The registers.
ghost use Rattle.std.specs.Prelude.{◌≡◌};
ghost use Rattle.cpu80_tagged.specs.State.{reg80, with_reg80};

use cells::Cell;
use i80::Reg;

/// The registers A, B, C, D, E, H and L.
#[derive(Clone, Copy)]
pub struct Registers {
    pub a: Cell,
    pub b: Cell,
    pub c: Cell,
    pub d: Cell,
    pub e: Cell,
    pub h: Cell,
    pub l: Cell,
}

impl Registers {
    ghost use Rattle.cpu80_tagged.specs.Draft.{regs_of_draft};

    /// Reads a register.
    pub fn get(&self, reg: Reg) -> Cell
        ensures { result ≡ reg80 (regs_of_draft self.now) reg }
    {
        match reg {
            Reg::A => self.a,
            Reg::B => self.b,
            Reg::C => self.c,
            Reg::D => self.d,
            Reg::E => self.e,
            Reg::H => self.h,
            Reg::L => self.l,
        }
    }

    /// Writes a register.
    pub fn set(&mut self, reg: Reg, cell: Cell)
        ensures { regs_of_draft self.new ≡ with_reg80 (regs_of_draft self.old) reg cell }
    {
        match reg {
            Reg::A => self.a = cell,
            Reg::B => self.b = cell,
            Reg::C => self.c = cell,
            Reg::D => self.d = cell,
            Reg::E => self.e = cell,
            Reg::H => self.h = cell,
            Reg::L => self.l = cell,
        }
    }
}
