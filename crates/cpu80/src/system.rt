// Calls of the system (CP/M 2.2 Operating System Manual, "BDOS functions").
ghost use Rattle.std.specs.Prelude.{◌≡◌, true, MatchOption};
ghost use Rattle.dialogue.specs.Run.{Stops};
ghost use Rattle.dialogue.specs.Fits.{fits};
ghost use Rattle.cpu80.specs.Call.{OddCall, ask, shape_in, popped_return, after_reply};
ghost use Rattle.cpu80.specs.ProcessorState.{untagged_state};
ghost use Rattle.cpu80.specs.Back.{back_of, IsUntaggedCall};

use crate::flags::FlagBits;
use crate::processor::Processor;
use crate::registers::Registers;
use cells::Place;
use dialogue::{Reply, Request, Shape, answer_of, dma_after, shape_of};

/// Where a call goes on after its reply.
#[derive(Clone, Copy)]
pub struct Return {
    pub place: Place,
    pub sp: u16,
}

impl Processor {
    /// The return that a jump to 5 pops: at address 0 the program ends.
    pub fn popped_return(&self) -> Return
        ensures { back_of result ≡ popped_return (untagged_state self.now) }
    {
        Return {
            place: match self.memory.word(self.sp) {
                0 => Place::Exit,
                at => Place::At(at),
            },
            sp: self.sp.wrapping_add(2),
        }
    }

    /// The shape of the call in the registers, over 64K of cells that may be read and written, if it has one.
    pub fn shape(&self) -> Option<Shape>
        ensures { MatchOption result (ask (untagged_state self.now) (shape_in (untagged_state self.now)) ≡ Stops (OddCall self.now.registers.c)) (λ shape. IsUntaggedCall (untagged_state self.now) shape) }
    {
        let Registers { c, d, e, .. } = self.registers;
        shape_of(Some(c), Some(d), Some(e), self.dma, &self.memory).ok()
    }

    /// Takes a reply that fits the request: the registers and the flags are the choice's, but for the answer; the DMA address is
    /// the argument's after function 26 and 80H after function 13; what the reply writes is in memory.
    pub fn take_reply(&mut self, back: Return, request: &Request, reply: &Reply, choice: u128)
        requires { fits request.now reply.now ≡ true }
        ensures { untagged_state self.new ≡ after_reply (untagged_state self.old) (back_of back) request.now reply.now choice }
    {
        self.registers = Registers::of_choice(choice).answered(answer_of(request), reply.answer);
        self.flags = FlagBits::of_choice(choice, 80);
        self.dma = dma_after(request, self.dma);
        self.memory.set_blocks(reply.writes.as_slice());
        self.sp = back.sp;
        self.place = back.place;
    }
}
