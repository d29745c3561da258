// Jumps, calls and returns (8080 Assembly Language Programming Manual, "Jump instructions", "Call subroutine instructions",
// "Return from subroutine instructions"), and the places that cells name.
ghost use Rattle.std.specs.Prelude.{◌≡◌};
ghost use Rattle.cpu80_tagged.specs.Call.{place_in};

use crate::area::Area;
use crate::draft::{Draft, Word};
use crate::turn::{Return, Turn};
use cells::{Cell, Place, Rule};
use i80::Goal;

/// The place that two cells name, the high and the low half of one code address: P1 where they name none.
pub fn place_named(area: &Area, high: Cell, low: Cell) -> Result<Place, Rule>
    ensures { result ≡ place_in area.now.program.now high low }
{
    match (high, low) {
        (Cell::Hi(Place::Exit), Cell::Lo(Place::Exit)) => Ok(Place::Exit),
        (Cell::Hi(Place::At(at)), Cell::Lo(Place::At(same))) if at == same && area.is_start(at) => {
            Ok(Place::At(at))
        }
        _ => Err(Rule::P1),
    }
}

impl Draft<'_> {
    ghost use Rattle.cpu80_tagged.specs.State.{State80};
    ghost use Rattle.cpu80_tagged.specs.Call.{popped_return, return_after};
    ghost use Rattle.cpu80_tagged.specs.Step.{go_to, go_back, leave_to, jump, call};
    ghost use Rattle.cpu80_tagged.specs.Draft.{IsFresh, state_of_draft};
    ghost use Rattle.cpu80_tagged.specs.Turn.{IsAsking, AsksNothing, answer_of_turn, returns_in};

    /// Goes on to an instruction: P1 where none starts there.
    pub(crate) fn go_to(&mut self, area: &Area, at: u16) -> Result<Turn, Rule>
        ensures answer { (before : State80) → answer_of_turn area.now.program.now before result (state_of_draft self.new) ≡ go_to area.now.program.now (state_of_draft self.old) at }
        ensures nothing_asked { AsksNothing result }
        ensures memory { self.new.memory.now ≡ self.old.memory.now }
    {
        if !area.is_start(at) {
            return Err(Rule::P1);
        }
        self.place = Place::At(at);
        Ok(Turn::Ran)
    }

    /// Goes to a place that cells named; the place of the end ends the program.
    pub fn leave_to(&mut self, area: &Area, sp: u16, place: Place) -> Turn
        ensures answer { answer_of_turn area.now.program.now (state_of_draft self.old) (Ok result) (state_of_draft self.new) ≡ leave_to (state_of_draft self.old) sp place }
        ensures nothing_asked { AsksNothing (Ok result) }
        ensures memory { self.new.memory.now ≡ self.old.memory.now }
    {
        match place {
            Place::At(_) => {
                self.sp = sp;
                self.place = place;
                Turn::Ran
            }
            Place::Exit => Turn::Ended,
        }
    }

    /// The return that a jump to 5, or RET, pops.
    pub fn popped_return(&self, area: &Area) -> Result<Return, Rule>
        requires { IsFresh self.now }
        ensures { returns_in result ≡ popped_return area.now.program.now (state_of_draft self.now) }
    {
        let word = self.read_word(area, self.sp)?;
        let place = place_named(area, word.high, word.low)?;
        Ok(Return {
            place,
            sp: self.sp.wrapping_add(2),
            is_popped: true,
        })
    }

    /// The place after a call, at which its return goes on: P1 where no instruction starts there.
    pub fn return_after(&self, area: &Area, after: u16) -> Result<Return, Rule>
        ensures { returns_in result ≡ return_after area.now.program.now (state_of_draft self.now) after }
    {
        if !area.is_start(after) {
            return Err(Rule::P1);
        }
        Ok(Return {
            place: Place::At(after),
            sp: self.sp,
            is_popped: false,
        })
    }

    /// RET.
    pub fn go_back(&mut self, area: &Area) -> Result<Turn, Rule>
        requires { IsFresh self.old }
        ensures answer { answer_of_turn area.now.program.now (state_of_draft self.old) result (state_of_draft self.new) ≡ go_back (state_of_draft self.old) (popped_return area.now.program.now (state_of_draft self.old)) }
        ensures nothing_asked { AsksNothing result }
        ensures memory { self.new.memory.now ≡ self.old.memory.now }
    {
        let back = self.popped_return(area)?;
        Ok(self.leave_to(area, back.sp, back.place))
    }

    /// JMP: to an instruction, to 0, which ends the program, or to 5, which calls the system and returns as RET does.
    pub fn jump(&mut self, area: &Area, goal: Goal) -> Result<Turn, Rule>
        requires { IsFresh self.old }
        ensures answer { answer_of_turn area.now.program.now (state_of_draft self.old) result (state_of_draft self.new) ≡ jump area.now.program.now (state_of_draft self.old) goal }
        ensures asking { IsAsking area.now.program.now (state_of_draft self.old) (popped_return area.now.program.now (state_of_draft self.old)) result }
        ensures memory { self.new.memory.now ≡ self.old.memory.now }
    {
        match goal {
            Goal::At(at) => self.go_to(area, at),
            Goal::Boot => Ok(Turn::Ended),
            Goal::Bdos => self.call_system(area, self.popped_return(area)),
        }
    }

    // CALL of an instruction: pushes the code address of the place after it, which has to be an instruction.
    fn enter(&mut self, area: &Area, at: u16, after: u16) -> Result<Turn, Rule>
        requires { IsFresh self.old }
        ensures answer { answer_of_turn area.now.program.now (state_of_draft self.old) result (state_of_draft self.new) ≡ call area.now.program.now (state_of_draft self.old) after (Goal.At at) }
        ensures nothing_asked { AsksNothing result }
        ensures memory { self.new.memory.now ≡ self.old.memory.now }
    {
        let place = Place::At(after);
        self.push(
            area,
            Word {
                high: Cell::Hi(place),
                low: Cell::Lo(place),
            },
        )?;
        if !area.is_start(after) {
            return Err(Rule::P1);
        }
        self.go_to(area, at)
    }

    /// CALL: of an instruction, of 0, which pushes nothing and ends the program, or of 5, the system.
    pub fn call(&mut self, area: &Area, goal: Goal, after: u16) -> Result<Turn, Rule>
        requires { IsFresh self.old }
        ensures answer { answer_of_turn area.now.program.now (state_of_draft self.old) result (state_of_draft self.new) ≡ call area.now.program.now (state_of_draft self.old) after goal }
        ensures asking { IsAsking area.now.program.now (state_of_draft self.old) (return_after area.now.program.now (state_of_draft self.old) after) result }
        ensures memory { self.new.memory.now ≡ self.old.memory.now }
    {
        match goal {
            Goal::At(at) => self.enter(area, at, after),
            Goal::Boot => Ok(Turn::Ended),
            Goal::Bdos => self.call_system(area, self.return_after(area, after)),
        }
    }
}
