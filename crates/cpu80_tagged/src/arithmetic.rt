// Arithmetic (8080 Assembly Language Programming Manual, "Register or memory to accumulator instructions", "Single register
// instructions", "Register pair instructions", "Rotate accumulator instructions"). It is of numbers alone.
ghost use Rattle.std.specs.Prelude.{◌≡◌};
ghost use Rattle.base.specs.Arithmetic.{as_bit, turned_left, turned_right};

use crate::area::Area;
use crate::draft::{Draft, Word};
use crate::numbers::{
    address_in, adjusted, byte_flags, carry_in, is_excepted, number, outcome, outcome_flags,
};
use cells::{Cell, Flags, Rule};
use dialogue::join;
use i80::{Op, Pair, Src};

// A byte rotated left; the bit comes in at the right.
fn left(value: u8, bit: bool) -> u8
    ensures { result ≡ turned_left value (as_bit bit) }
{
    ((2 * u16::from(value) + u16::from(bit)) % 256) as u8
}

// A byte rotated right; the bit comes in at the left.
fn right(value: u8, bit: bool) -> u8
    ensures { result ≡ turned_right value (as_bit bit) }
{
    value / 2 + 128 * u8::from(bit)
}

impl Draft<'_> {
    ghost use Rattle.cells.specs.declared.Cell.TheVariants.{Num};
    ghost use Rattle.cpu80_tagged.specs.State.{with_a, with_cy};
    ghost use Rattle.cpu80_tagged.specs.Effect.{alu, alu_with, counted, pair_num, add_to_pair, dad, daa, cma, cmc, rlc, rrc, ral, rar};
    ghost use Rattle.cpu80_tagged.specs.Counting.{count_by};
    ghost use Rattle.cpu80_tagged.specs.Row.{IsRow};
    ghost use Rattle.cpu80_tagged.specs.Draft.{IsFresh, state_of_draft};

    /// An operation on A and a cell; CMP keeps A.
    pub fn operate_on(&mut self, op: Op, cell: Cell) -> Result<(), Rule>
        ensures row { IsRow (alu_with (state_of_draft self.old) op cell) result (state_of_draft self.old) (state_of_draft self.new) }
        ensures memory { self.new.memory.now ≡ self.old.memory.now }
    {
        let (Cell::Num(x), Cell::Num(y)) = (self.registers.a, cell) else {
            return Err(Rule::P5);
        };
        let carry = carry_in(op, self.flags)?;
        if !matches!(op, Op::Cmp) {
            self.registers.a = Cell::Num(outcome(op, x, y, carry));
        }
        self.flags = outcome_flags(op, x, y, carry);
        Ok(())
    }

    /// ADD, ADC, SUB, SBB, ANA, XRA, ORA and CMP.
    pub fn operate(&mut self, area: &Area, op: Op, from: Src) -> Result<(), Rule>
        requires { IsFresh self.old }
        ensures row { IsRow (alu area.now.program.now (state_of_draft self.old) op from) result (state_of_draft self.old) (state_of_draft self.new) }
        ensures memory { self.new.memory.now ≡ self.old.memory.now }
    {
        if op.gives_zero(from) {
            self.registers.a = Cell::Num(0);
            self.flags = byte_flags(0, None, Some(false));
            return Ok(());
        }
        let cell = self.source(area, from)?;
        self.operate_on(op, cell)
    }

    // The number that INR and DCR count; in memory its cell has to be one that can be written too.
    fn counted(&self, area: &Area, on: Src) -> Result<u8, Rule>
        requires { IsFresh self.now }
        ensures { result ≡ counted area.now.program.now (state_of_draft self.now) on }
    {
        match on {
            Src::Reg(register) => number(self.registers.get(register), Rule::P5),
            Src::Mem => {
                let at = address_in(self.registers.h, self.registers.l)?;
                let cell = self.read(area, at)?;
                area.may_write(at)?;
                number(cell, Rule::P5)
            }
        }
    }

    /// INR by ADD, DCR by SUB: an operation on the operand and 1, which keeps CY.
    pub fn count(&mut self, area: &Area, op: Op, on: Src) -> Result<(), Rule>
        requires { IsFresh self.old }
        ensures row { IsRow (count_by area.now.program.now (state_of_draft self.old) op on) result (state_of_draft self.old) (state_of_draft self.new) }
        ensures memory { self.new.memory.now ≡ self.old.memory.now }
    {
        let x = self.counted(area, on)?;
        self.put_into(area, on, Cell::Num(outcome(op, x, 1, 0)))?;
        self.flags = Flags {
            cy: self.flags.cy,
            ..outcome_flags(op, x, 1, 0)
        };
        Ok(())
    }

    // The number in a pair.
    fn pair_number(&self, pair: Pair) -> Result<u16, Rule>
        ensures { result ≡ pair_num (state_of_draft self.now) pair }
    {
        match self.pair(pair) {
            Word {
                high: Cell::Num(high),
                low: Cell::Num(low),
            } => Ok(join(high, low)),
            _ => Err(Rule::P5),
        }
    }

    /// INX adds 1, DCX adds 0FFFFH. No flag changes.
    pub fn add_to_pair(&mut self, pair: Pair, number: u16) -> Result<(), Rule>
        ensures row { IsRow (add_to_pair (state_of_draft self.old) pair number) result (state_of_draft self.old) (state_of_draft self.new) }
        ensures memory { self.new.memory.now ≡ self.old.memory.now }
    {
        let word = self.pair_number(pair)?;
        self.set_pair(pair, word.wrapping_add(number));
        Ok(())
    }

    /// DAD.
    pub fn add_pair(&mut self, pair: Pair) -> Result<(), Rule>
        ensures row { IsRow (dad (state_of_draft self.old) pair) result (state_of_draft self.old) (state_of_draft self.new) }
        ensures memory { self.new.memory.now ≡ self.old.memory.now }
    {
        let x = self.pair_number(Pair::H)?;
        let y = self.pair_number(pair)?;
        self.set_pair(Pair::H, x.wrapping_add(y));
        self.flags.cy = Some(u32::from(x) + u32::from(y) > 0xFFFF);
        Ok(())
    }

    /// DAA.
    pub fn adjust(&mut self) -> Result<(), Rule>
        ensures row { IsRow (daa (state_of_draft self.old)) result (state_of_draft self.old) (state_of_draft self.new) }
        ensures memory { self.new.memory.now ≡ self.old.memory.now }
    {
        let Cell::Num(x) = self.registers.a else {
            return Err(Rule::P5);
        };
        let (Some(half), Some(carry)) = (self.flags.ac, self.flags.cy) else {
            return Err(Rule::P6);
        };
        if is_excepted(x, half, carry) {
            return Err(Rule::P7);
        }
        let (value, carry) = adjusted(x, half, carry);
        self.registers.a = Cell::Num(value);
        self.flags = byte_flags(value, None, Some(carry));
        Ok(())
    }

    /// CMA.
    pub fn invert(&mut self) -> Result<(), Rule>
        ensures row { IsRow (cma (state_of_draft self.old)) result (state_of_draft self.old) (state_of_draft self.new) }
        ensures memory { self.new.memory.now ≡ self.old.memory.now }
    {
        let x = number(self.registers.a, Rule::P5)?;
        self.registers.a = Cell::Num(255 - x);
        Ok(())
    }

    /// CMC.
    pub fn invert_cy(&mut self) -> Result<(), Rule>
        ensures row { IsRow (cmc (state_of_draft self.old)) result (state_of_draft self.old) (state_of_draft self.new) }
        ensures memory { self.new.memory.now ≡ self.old.memory.now }
    {
        let Some(carry) = self.flags.cy else {
            return Err(Rule::P6);
        };
        self.flags.cy = Some(!carry);
        Ok(())
    }

    // A rotated byte in A, and the bit that went out in CY.
    fn turn(&mut self, value: u8, out: bool)
        ensures state { state_of_draft self.new ≡ with_cy (with_a (state_of_draft self.old) (Num value)) out }
        ensures memory { self.new.memory.now ≡ self.old.memory.now }
    {
        self.registers.a = Cell::Num(value);
        self.flags.cy = Some(out);
    }

    /// RLC.
    pub fn rotate_left(&mut self) -> Result<(), Rule>
        ensures row { IsRow (rlc (state_of_draft self.old)) result (state_of_draft self.old) (state_of_draft self.new) }
        ensures memory { self.new.memory.now ≡ self.old.memory.now }
    {
        let Cell::Num(x) = self.registers.a else {
            return Err(Rule::P5);
        };
        self.turn(left(x, x > 127), x > 127);
        Ok(())
    }

    /// RRC.
    pub fn rotate_right(&mut self) -> Result<(), Rule>
        ensures row { IsRow (rrc (state_of_draft self.old)) result (state_of_draft self.old) (state_of_draft self.new) }
        ensures memory { self.new.memory.now ≡ self.old.memory.now }
    {
        let Cell::Num(x) = self.registers.a else {
            return Err(Rule::P5);
        };
        self.turn(right(x, x % 2 == 1), x % 2 == 1);
        Ok(())
    }

    /// RAL.
    pub fn rotate_left_through_cy(&mut self) -> Result<(), Rule>
        ensures row { IsRow (ral (state_of_draft self.old)) result (state_of_draft self.old) (state_of_draft self.new) }
        ensures memory { self.new.memory.now ≡ self.old.memory.now }
    {
        let Cell::Num(x) = self.registers.a else {
            return Err(Rule::P5);
        };
        let Some(carry) = self.flags.cy else {
            return Err(Rule::P6);
        };
        self.turn(left(x, carry), x > 127);
        Ok(())
    }

    /// RAR.
    pub fn rotate_right_through_cy(&mut self) -> Result<(), Rule>
        ensures row { IsRow (rar (state_of_draft self.old)) result (state_of_draft self.old) (state_of_draft self.new) }
        ensures memory { self.new.memory.now ≡ self.old.memory.now }
    {
        let Cell::Num(x) = self.registers.a else {
            return Err(Rule::P5);
        };
        let Some(carry) = self.flags.cy else {
            return Err(Rule::P6);
        };
        self.turn(right(x, carry), x % 2 == 1);
        Ok(())
    }
}
