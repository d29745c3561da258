// Calls of the system (CP/M 2.2 Operating System Manual, "BDOS functions").
ghost use Rattle.std.specs.Prelude.{◌≡◌};

use crate::area::Area;
use crate::draft::Draft;
use crate::numbers::number_in;
use crate::sight::{Sight, is_just_below};
use crate::turn::{Question, Return, Turn};
use cells::{Cell, Rule};
use dialogue::{Shape, row_of, shape_of};

/// The function that ends a program.
const SYSTEM_RESET: u8 = 0;

impl Draft<'_> {
    ghost use Rattle.cpu80_tagged.specs.Call.{call_system};
    ghost use Rattle.cpu80_tagged.specs.Draft.{IsFresh, state_of_draft};
    ghost use Rattle.cpu80_tagged.specs.Turn.{IsAsking, answer_of_turn, returns_in, shape_at};

    /// The shape of the call that the registers make, or the rule that it breaks: P9, P10 or P11.
    pub fn shape(&self, area: &Area, is_popped: bool) -> Result<Shape, Rule>
        requires { IsFresh self.now }
        ensures { result ≡ shape_at area.now.program.now (state_of_draft self.now) is_popped }
    {
        let sight = Sight {
            memory: self.memory,
            uses: area.uses,
            sp: self.sp,
            is_popped,
        };
        shape_of(
            number_in(self.registers.c),
            number_in(self.registers.d),
            number_in(self.registers.e),
            self.dma,
            &sight,
        )
    }

    /// A call of the system, with the return that it would have. First the function (P9), of which 0 ends the program; then
    /// the return; then the cells below SP (P12); then what the call asks for (P10, P11).
    pub fn call_system(&self, area: &Area, back: Result<Return, Rule>) -> Result<Turn, Rule>
        requires { IsFresh self.now }
        ensures answer { answer_of_turn area.now.program.now (state_of_draft self.now) result (state_of_draft self.now) ≡ call_system area.now.program.now (state_of_draft self.now) (returns_in back) }
        ensures asking { IsAsking area.now.program.now (state_of_draft self.now) (returns_in back) result }
    {
        let Cell::Num(function) = self.registers.c else {
            return Err(Rule::P9);
        };
        if row_of(function).is_none() {
            return Err(Rule::P9);
        }
        if function == SYSTEM_RESET {
            return Ok(Turn::Ended);
        }
        let back = back?;
        if is_just_below(self.sp, 6) || is_just_below(self.sp, 7) {
            return Err(Rule::P12);
        }
        self.shape(area, back.is_popped)?;
        Ok(Turn::Asked(Question::System, back))
    }
}
