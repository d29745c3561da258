// IN and OUT (8080 Assembly Language Programming Manual, "Input/output instructions").
ghost use Rattle.std.specs.Prelude.{◌≡◌, Ok};
ghost use Rattle.dialogue.specs.declared.request.Event.TheVariants.{In as AskedIn};

use crate::area::Area;
use crate::draft::Draft;
use crate::turn::{Question, Turn};
use cells::{Cell, Rule};

impl Draft<'_> {
    ghost use Rattle.cpu80_tagged.specs.Call.{return_after};
    ghost use Rattle.cpu80_tagged.specs.Step.{ask_port, sent};
    ghost use Rattle.cpu80_tagged.specs.Draft.{IsFresh, state_of_draft};
    ghost use Rattle.cpu80_tagged.specs.Turn.{IsAsking, answer_of_turn};

    /// IN: asks a port for a byte. P1 where no instruction follows.
    pub fn read_port(&self, area: &Area, port: u8, after: u16) -> Result<Turn, Rule>
        requires { IsFresh self.now }
        ensures answer { answer_of_turn area.now.program.now (state_of_draft self.now) result (state_of_draft self.now) ≡ ask_port area.now.program.now (state_of_draft self.now) after (Ok (AskedIn port)) }
        ensures asking { IsAsking area.now.program.now (state_of_draft self.now) (return_after area.now.program.now (state_of_draft self.now) after) result }
    {
        let back = self.return_after(area, after)?;
        Ok(Turn::Asked(Question::In(port), back))
    }

    /// OUT: sends the number in A to a port. P1 where no instruction follows, and then P10 where A holds no number.
    pub fn write_port(&self, area: &Area, port: u8, after: u16) -> Result<Turn, Rule>
        requires { IsFresh self.now }
        ensures answer { answer_of_turn area.now.program.now (state_of_draft self.now) result (state_of_draft self.now) ≡ ask_port area.now.program.now (state_of_draft self.now) after (sent (state_of_draft self.now) port) }
        ensures asking { IsAsking area.now.program.now (state_of_draft self.now) (return_after area.now.program.now (state_of_draft self.now) after) result }
    {
        let back = self.return_after(area, after)?;
        let Cell::Num(byte) = self.registers.a else {
            return Err(Rule::P10);
        };
        Ok(Turn::Asked(Question::Out(port, byte), back))
    }
}
