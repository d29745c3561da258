// What the loop knows of a machine: it takes turns, and its run is known from outside.
ghost use Rattle.std.specs.Prelude.{IfOk};

use cells::{Place, Rule};
use dialogue::{Event, Reply};
use std::alloc::{AllocError, Global};

/// Why a machine stopped, and where.
#[derive(Clone, Copy)]
pub enum Why {
    /// The 8080 left the profile, at the instruction of this place and by this rule.
    Left(Place, Rule),
    /// No instruction of the 8086's subset stands at this offset.
    NoInstruction(u16),
    /// The instruction at this offset uses the stack, and SS is not DS.
    StackSegment(u16),
    /// The INT at this offset calls this function in a way that the profile lacks.
    OddCall(u16, u8),
}

/// What one turn comes to: an instruction ran; it asks the system or a port and waits for a reply; it ended the program; or the machine
/// has stopped, and is as before.
#[derive(Drop)]
pub enum Turn {
    Ran,
    Asks(Event),
    Ended,
    Stopped(Why),
}

/// A machine that talks to a system, with its program.
pub trait Emulator {
    ghost use Rattle.std.specs.Prelude.{◌≡◌, ℕ, List, true};
    ghost use Rattle.dialogue.specs.Fits.{fits_event};
    ghost use Rattle.dialogue.specs.declared.request.Event.{Event};
    ghost use Rattle.dialogue.specs.declared.request.Reply.{Reply};
    ghost use Rattle.emulator_loop.specs.Talk.{SeenRun, HasOneRun};
    ghost use Rattle.emulator_loop.specs.Turns.{Past, no_past, IsTurn, StopsInPlace, AsksLawfully, MayTurn, BeginsCourse};

    // It may take a turn; it waits for the reply to an event.
    ghost runs: { Self → Type 0 };

    ghost waits: { Self → Event → Type 0 };

    // How its run goes on, seen from outside, by what is past, the replies that come, and the number of turns.
    ghost course: { Self → Past → List Reply → ℕ → SeenRun };

    // The same of a machine that waits, where it gets a reply first.
    ghost answered: { Self → Event → Reply → Past → List Reply → ℕ → SeenRun };

    /// One turn.
    fn turn(&mut self, alloc: Global) -> Result<Turn, AllocError>
        requires { runs self.old }
        ensures turn { IfOk result (λ t. IsTurn (course self.old) (course self.new) (answered self.new) t) }
        ensures still { IfOk result (λ t. StopsInPlace (course self.old) (course self.new) t) }
        ensures lawful { IfOk result (λ t. AsksLawfully t) }
        ensures ready { IfOk result (λ t. MayTurn (runs self.new) (waits self.new) t) };

    /// Takes the reply to what it asked.
    fn reply(&mut self, event: &Event, reply: &Reply)
        requires waits { waits self.old event.now }
        requires fits { fits_event event.now reply.now ≡ true }
        ensures answered { course self.new ≡ answered self.old event.now reply.now }
        ensures ready { runs self.new };

    // Before more turns a run stands as it is.
    ghost begins: { (m : Self) → BeginsCourse (course m) };

    ghost takes: { (m : Self) (e : Event) (y : Reply) → BeginsCourse (answered m e y) };

    // Over any devices it has one run.
    ghost single: { (m : Self) → HasOneRun (course m no_past) };
}
