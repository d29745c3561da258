// Jumps, calls and returns (8080 Assembly Language Programming Manual, "Jump instructions", "Call subroutine instructions",
// "Return from subroutine instructions"), the calls of the system and the ports.
ghost use Rattle.std.specs.Prelude.{◌≡◌};

use crate::fetch::Fetch80;
use crate::machine::{Pending, Untagged80, UntaggedStep};
use crate::system::Return as Kept;
use cells::Place;
use i80::{Goal, Instr80, Pair, length};

impl Untagged80 {
    ghost use Rattle.std.specs.Prelude.{Option, Some, ◌/◌, ◌%◌};
    ghost use Rattle.cells.specs.declared.Place.TheVariants.{At};
    ghost use Rattle.cpu80.specs.Call.{call_system, popped_return, Return};
    ghost use Rattle.cpu80.specs.Effect.{push, effect};
    ghost use Rattle.dialogue.specs.Run.{Ends};
    ghost use Rattle.dialogue.specs.Calls.{settled, IsOpen};
    ghost use Rattle.cpu80.specs.Step.{go_to, leave_to, ret, jump, call, act, step_untagged, return_at};
    ghost use Rattle.cpu80.specs.ProcessorState.{untagged_state};
    ghost use Rattle.cpu80.specs.Back.{back_of};
    ghost use Rattle.cpu80.specs.Standing.{standing, status_of, Keeps, goes_on_at};

    // The program ends.
    fn end(&mut self) -> UntaggedStep
        requires { self.old.pending ≡ Pending.Nothing }
        ensures step { (status_of result, standing self.new) ≡ settled (untagged_state self.old.processor) Ends }
        ensures said { IsOpen (status_of result) (standing self.new).said }
        ensures kept { (back : Option Return) → Keeps back (untagged_state self.old.processor) (untagged_state self.new.processor) self.new.pending }
    {
        self.pending = Pending::Ending;
        UntaggedStep::Ended
    }

    // Goes to an address.
    fn go_to(&mut self, at: u16) -> UntaggedStep
        requires { self.old.pending ≡ Pending.Nothing }
        ensures step { (status_of result, standing self.new) ≡ settled (untagged_state self.old.processor) (go_to (untagged_state self.old.processor) at) }
        ensures said { IsOpen (status_of result) (standing self.new).said }
        ensures kept { (back : Option Return) → Keeps back (untagged_state self.old.processor) (untagged_state self.new.processor) self.new.pending }
    {
        self.pending = Pending::Nothing;
        self.processor.place = Place::At(at);
        UntaggedStep::Ran
    }

    // RET and PCHL, with the SP after them: at address 0 the program ends.
    fn leave_to(&mut self, sp: u16, at: u16) -> UntaggedStep
        requires { self.old.pending ≡ Pending.Nothing }
        ensures step { (status_of result, standing self.new) ≡ settled (untagged_state self.old.processor) (leave_to (untagged_state self.old.processor) sp at) }
        ensures said { IsOpen (status_of result) (standing self.new).said }
        ensures kept { (back : Option Return) → Keeps back (untagged_state self.old.processor) (untagged_state self.new.processor) self.new.pending }
    {
        if at == 0 {
            return self.end();
        }
        self.pending = Pending::Nothing;
        self.processor.sp = sp;
        self.processor.place = Place::At(at);
        UntaggedStep::Ran
    }

    // RET.
    fn ret(&mut self) -> UntaggedStep
        requires { self.old.pending ≡ Pending.Nothing }
        ensures step { (status_of result, standing self.new) ≡ settled (untagged_state self.old.processor) (ret (untagged_state self.old.processor)) }
        ensures said { IsOpen (status_of result) (standing self.new).said }
        ensures kept { (back : Option Return) → Keeps back (untagged_state self.old.processor) (untagged_state self.new.processor) self.new.pending }
    {
        let at = self.processor.memory.word(self.processor.sp);
        self.leave_to(self.processor.sp.wrapping_add(2), at)
    }

    // A call of the system, which goes on at `back` after its reply. Function 0 ends the program.
    fn call_system(&mut self, back: Kept) -> UntaggedStep
        requires { self.old.pending ≡ Pending.Nothing }
        ensures step { (status_of result, standing self.new) ≡ settled (untagged_state self.old.processor) (call_system (untagged_state self.old.processor)) }
        ensures said { IsOpen (status_of result) (standing self.new).said }
        ensures kept { Keeps (Some (back_of back)) (untagged_state self.old.processor) (untagged_state self.new.processor) self.new.pending }
    {
        if self.processor.registers.c == 0 {
            return self.end();
        }
        match self.processor.shape() {
            Some(shape) => {
                self.pending = Pending::Answer(shape, back);
                UntaggedStep::Asked
            }
            None => {
                self.pending = Pending::Nothing;
                UntaggedStep::OddCall(self.processor.registers.c)
            }
        }
    }

    // A jump: to an instruction, to 0, which ends the program, or to 5, which calls the system and returns as RET does.
    fn jump(&mut self, goal: Goal) -> UntaggedStep
        requires { self.old.pending ≡ Pending.Nothing }
        ensures step { (status_of result, standing self.new) ≡ settled (untagged_state self.old.processor) (jump (untagged_state self.old.processor) goal) }
        ensures said { IsOpen (status_of result) (standing self.new).said }
        ensures kept { Keeps (Some (popped_return (untagged_state self.old.processor))) (untagged_state self.old.processor) (untagged_state self.new.processor) self.new.pending }
    {
        match goal {
            Goal::At(to) => self.go_to(to),
            Goal::Boot => self.end(),
            Goal::Bdos => {
                let back = self.processor.popped_return();
                self.call_system(back)
            }
        }
    }

    // A call: of an instruction, which pushes the address after it, of 0, which ends the program, or of 5, the system; these push
    // nothing. `next` is the address after it.
    fn call(&mut self, next: u16, goal: Goal) -> UntaggedStep
        requires { self.old.pending ≡ Pending.Nothing }
        ensures step { (status_of result, standing self.new) ≡ settled (untagged_state self.old.processor) (call (untagged_state self.old.processor) next goal) }
        ensures said { IsOpen (status_of result) (standing self.new).said }
        ensures kept { Keeps (Some (record { place = At next; sp = self.old.processor.sp })) (untagged_state self.old.processor) (untagged_state self.new.processor) self.new.pending }
    {
        match goal {
            Goal::At(to) => self.enter(next, to),
            Goal::Boot => self.end(),
            Goal::Bdos => {
                let back = self.going_on(next);
                self.call_system(back)
            }
        }
    }

    // A call of an instruction.
    fn enter(&mut self, next: u16, to: u16) -> UntaggedStep
        requires { self.old.pending ≡ Pending.Nothing }
        ensures step { (status_of result, standing self.new) ≡ settled (untagged_state self.old.processor) (go_to (push (untagged_state self.old.processor) (next / 256) (next % 256)) to) }
        ensures said { IsOpen (status_of result) (standing self.new).said }
        ensures kept { (back : Option Return) → Keeps back (untagged_state self.old.processor) (untagged_state self.new.processor) self.new.pending }
    {
        self.pending = Pending::Nothing;
        self.processor.push((next / 256) as u8, (next % 256) as u8);
        self.processor.place = Place::At(to);
        UntaggedStep::Ran
    }

    // Going on at an address after a reply.
    fn going_on(&self, next: u16) -> Kept
        ensures { back_of result ≡ record { place = At next; sp = self.now.processor.sp } }
    {
        Kept {
            place: Place::At(next),
            sp: self.processor.sp,
        }
    }

    // An effect, after which the instruction at an address comes next.
    fn run_on(&mut self, instr: Instr80, next: u16, choice: u128) -> UntaggedStep
        requires { self.old.pending ≡ Pending.Nothing }
        ensures step { (status_of result, standing self.new) ≡ settled (untagged_state self.old.processor) (go_to (effect (untagged_state self.old.processor) instr choice) next) }
        ensures said { IsOpen (status_of result) (standing self.new).said }
        ensures kept { (back : Option Return) → Keeps back (untagged_state self.old.processor) (untagged_state self.new.processor) self.new.pending }
    {
        self.pending = Pending::Nothing;
        self.processor.execute(instr, choice);
        self.processor.place = Place::At(next);
        UntaggedStep::Ran
    }

    // An instruction; `next` is the address after it.
    fn act(&mut self, instr: Instr80, next: u16, choice: u128) -> UntaggedStep
        requires { self.old.pending ≡ Pending.Nothing }
        ensures step { (status_of result, standing self.new) ≡ settled (untagged_state self.old.processor) (act (untagged_state self.old.processor) next instr choice) }
        ensures said { IsOpen (status_of result) (standing self.new).said }
        ensures kept { Keeps (goes_on_at (untagged_state self.old.processor) next instr) (untagged_state self.old.processor) (untagged_state self.new.processor) self.new.pending }
    {
        match instr {
            Instr80::Pchl => {
                let at = self.processor.pair(Pair::H);
                self.leave_to(self.processor.sp, at)
            }
            Instr80::Jmp(goal) => self.jump(goal),
            Instr80::Jif(condition, goal) => {
                if self.processor.flags.holds(condition) {
                    self.jump(goal)
                } else {
                    self.go_to(next)
                }
            }
            Instr80::Call(goal) => self.call(next, goal),
            Instr80::Cif(condition, goal) => {
                if self.processor.flags.holds(condition) {
                    self.call(next, goal)
                } else {
                    self.go_to(next)
                }
            }
            Instr80::Ret => self.ret(),
            Instr80::Rif(condition) => {
                if self.processor.flags.holds(condition) {
                    self.ret()
                } else {
                    self.go_to(next)
                }
            }
            Instr80::Rst0 => self.end(),
            Instr80::In(port) => {
                let back = self.going_on(next);
                self.pending = Pending::Byte(port, back);
                UntaggedStep::Asked
            }
            Instr80::Out(port) => {
                let back = self.going_on(next);
                self.pending = Pending::Taking(port, self.processor.registers.a, back);
                UntaggedStep::Asked
            }
            _ => self.run_on(instr, next, choice),
        }
    }

    /// One instruction, where nothing is open.
    pub(crate) fn run_one<F: Fetch80>(&mut self, code: &F, choice: u128) -> UntaggedStep
        requires { self.old.pending ≡ Pending.Nothing }
        ensures step { (status_of result, standing self.new) ≡ settled (untagged_state self.old.processor) (step_untagged (F.fetch code.now) (untagged_state self.old.processor) choice) }
        ensures said { IsOpen (status_of result) (standing self.new).said }
        ensures kept { Keeps (return_at (F.fetch code.now) (untagged_state self.old.processor) (untagged_state self.old.processor).place) (untagged_state self.old.processor) (untagged_state self.new.processor) self.new.pending }
    {
        let Place::At(at) = self.processor.place else {
            return self.end();
        };
        match code.fetch(&self.processor, at) {
            Some(instr) => self.act(instr, at.wrapping_add(length(instr)), choice),
            None => UntaggedStep::NoInstruction(at),
        }
    }
}
