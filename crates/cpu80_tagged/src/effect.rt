// The table of the instructions (8080 Assembly Language Programming Manual, chapter 2).
ghost use Rattle.std.specs.Prelude.{◌≡◌};

use crate::area::Area;
use crate::draft::Draft;
use cells::{Cell, Rule};
use i80::{Instr80, Op, Pair};

impl Draft<'_> {
    ghost use Rattle.cpu80_tagged.specs.Effect.{effect};
    ghost use Rattle.cpu80_tagged.specs.Row.{IsRow};
    ghost use Rattle.cpu80_tagged.specs.Draft.{IsFresh, state_of_draft};

    /// What an instruction does before the place that comes next is looked at. Where a rule is broken nothing changes. A
    /// jump, call or return does nothing here, nor does what asks a port.
    pub fn effect(&mut self, area: &Area, instr: Instr80) -> Result<(), Rule>
        requires { IsFresh self.old }
        ensures row { IsRow (effect area.now.program.now (state_of_draft self.old) instr) result (state_of_draft self.old) (state_of_draft self.new) }
        ensures memory { self.new.memory.now ≡ self.old.memory.now }
    {
        match instr {
            Instr80::Nop => Ok(()),
            Instr80::Mov(to, from) => self.transfer(area, to, from),
            Instr80::Mvi(to, n) => self.put_into(area, to, Cell::Num(n)),
            Instr80::Lxi(pair, word) => Ok(self.load_immediate(pair, word)),
            Instr80::Lda(at) => self.load(area, at),
            Instr80::Sta(at) => self.write_cell(area, at, self.registers.a),
            Instr80::Lhld(at) => self.load_pair(area, at),
            Instr80::Shld(at) => self.write_word(area, at, self.pair(Pair::H)),
            Instr80::Ldax(pair) => self.load_at(area, pair),
            Instr80::Stax(pair) => self.store_at(area, pair),
            Instr80::Xchg => Ok(self.exchange()),
            Instr80::Xthl => self.exchange_top(area),
            Instr80::Sphl => self.set_sp(),
            Instr80::Alu(op, from) => self.operate(area, op, from),
            Instr80::AluI(op, n) => self.operate_on(op, Cell::Num(n)),
            Instr80::Inr(on) => self.count(area, Op::Add, on),
            Instr80::Dcr(on) => self.count(area, Op::Sub, on),
            Instr80::Inx(pair) => self.add_to_pair(pair, 1),
            Instr80::Dcx(pair) => self.add_to_pair(pair, 0xFFFF),
            Instr80::Dad(pair) => self.add_pair(pair),
            Instr80::Daa => self.adjust(),
            Instr80::Cma => self.invert(),
            Instr80::Stc => {
                self.flags.cy = Some(true);
                Ok(())
            }
            Instr80::Cmc => self.invert_cy(),
            Instr80::Rlc => self.rotate_left(),
            Instr80::Rrc => self.rotate_right(),
            Instr80::Ral => self.rotate_left_through_cy(),
            Instr80::Rar => self.rotate_right_through_cy(),
            Instr80::Push(pair) => self.push_pair(area, pair),
            Instr80::Pop(pair) => self.pop_pair(area, pair),
            Instr80::Pchl | Instr80::Jmp(_) | Instr80::Jif(_, _) | Instr80::Call(_) => Ok(()),
            Instr80::Cif(_, _) | Instr80::Ret | Instr80::Rif(_) | Instr80::Rst0 => Ok(()),
            Instr80::In(_) | Instr80::Out(_) => Ok(()),
        }
    }
}
