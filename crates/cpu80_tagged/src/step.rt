// One step: an instruction's effect and the place that comes next, a call of the system, a port that is asked, or the end.
ghost use Rattle.std.specs.Prelude.{◌≡◌, ◌+◌, ◌≤◌, IsTrue, Some};
ghost use Rattle.i80.specs.Columns.{is_well_formed, length80};

use crate::area::Area;
use crate::draft::Draft;
use crate::goto::place_named;
use crate::turn::Turn;
use cells::{Place, Rule};
use i80::{Instr80, length};

impl Draft<'_> {
    ghost use Rattle.cpu80_tagged.specs.Effect.{effect};
    ghost use Rattle.cpu80_tagged.specs.Step.{act, go_on, step80, return_of, return_at};
    ghost use Rattle.cpu80_tagged.specs.Conditional.{condition_of, unconditional, return_by};
    ghost use Rattle.cpu80_tagged.specs.Draft.{IsFresh, state_of_draft};
    ghost use Rattle.cpu80_tagged.specs.Turn.{IsAsking, AsksNothing, answer_of_turn};

    // Whether the condition of an instruction holds, if its flag is known; one that has none goes always.
    fn condition(&self, instr: Instr80) -> Option<bool>
        ensures { result ≡ condition_of self.now.flags instr }
    {
        match instr {
            Instr80::Jif(cond, _) | Instr80::Cif(cond, _) | Instr80::Rif(cond) => {
                self.flags.holds(cond)
            }
            _ => Some(true),
        }
    }

    // An instruction that is no goto: its effect, and then the place after it.
    fn go_on(&mut self, area: &Area, after: u16, instr: Instr80) -> Result<Turn, Rule>
        requires { IsFresh self.old }
        ensures answer { answer_of_turn area.now.program.now (state_of_draft self.old) result (state_of_draft self.new) ≡ go_on area.now.program.now after (effect area.now.program.now (state_of_draft self.old) instr) }
        ensures nothing_asked { AsksNothing result }
        ensures memory { self.new.memory.now ≡ self.old.memory.now }
    {
        self.effect(area, instr)?;
        self.go_to(area, after)
    }

    // An instruction whose condition, if it has one, holds; `after` is the place after it.
    fn go(&mut self, area: &Area, instr: Instr80, after: u16) -> Result<Turn, Rule>
        requires { IsFresh self.old }
        ensures answer { answer_of_turn area.now.program.now (state_of_draft self.old) result (state_of_draft self.new) ≡ act area.now.program.now (state_of_draft self.old) after (unconditional instr) }
        ensures asking { IsAsking area.now.program.now (state_of_draft self.old) (return_by area.now.program.now (state_of_draft self.old) after instr) result }
        ensures memory { self.new.memory.now ≡ self.old.memory.now }
    {
        match instr {
            Instr80::Pchl => {
                let place = place_named(area, self.registers.h, self.registers.l)?;
                Ok(self.leave_to(area, self.sp, place))
            }
            Instr80::Jmp(goal) | Instr80::Jif(_, goal) => self.jump(area, goal),
            Instr80::Call(goal) | Instr80::Cif(_, goal) => self.call(area, goal, after),
            Instr80::Ret | Instr80::Rif(_) => self.go_back(area),
            Instr80::Rst0 => Ok(Turn::Ended),
            Instr80::In(port) => self.read_port(area, port, after),
            Instr80::Out(port) => self.write_port(area, port, after),
            _ => self.go_on(area, after, instr),
        }
    }

    // The instruction at an address. Its condition is looked at first: P6 where its flag is unknown.
    fn act(&mut self, area: &Area, at: u16, instr: Instr80) -> Result<Turn, Rule>
        requires fresh { IsFresh self.old }
        requires well_formed { IsTrue (is_well_formed instr) }
        requires within { at + length80 instr ≤ 0xFF00 }
        ensures answer { answer_of_turn area.now.program.now (state_of_draft self.old) result (state_of_draft self.new) ≡ act area.now.program.now (state_of_draft self.old) (at + length80 instr) instr }
        ensures asking { IsAsking area.now.program.now (state_of_draft self.old) (return_of area.now.program.now (state_of_draft self.old) at (Some instr)) result }
        ensures memory { self.new.memory.now ≡ self.old.memory.now }
    {
        let after = at + length(instr);
        match self.condition(instr) {
            Some(true) => self.go(area, instr, after),
            Some(false) => self.go_to(area, after),
            None => Err(Rule::P6),
        }
    }

    /// One step. Only where it ran is the draft to be kept.
    pub fn step(&mut self, area: &Area) -> Result<Turn, Rule>
        requires { IsFresh self.old }
        ensures answer { answer_of_turn area.now.program.now (state_of_draft self.old) result (state_of_draft self.new) ≡ step80 area.now.program.now (state_of_draft self.old) }
        ensures asking { IsAsking area.now.program.now (state_of_draft self.old) (return_at area.now.program.now (state_of_draft self.old) self.old.place) result }
        ensures memory { self.new.memory.now ≡ self.old.memory.now }
    {
        let Place::At(at) = self.place else {
            return Ok(Turn::Ended);
        };
        match area.instr_at(at) {
            Some(instr) => self.act(area, at, instr),
            None => Err(Rule::P1),
        }
    }
}
