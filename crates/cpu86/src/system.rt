// INT 224, the call of the system (CP/M-86 System Guide, "BDOS calls").
ghost use Rattle.std.specs.Prelude.{◌≡◌, ◌<◌, true, Some};
ghost use Rattle.std.specs.Result.{result_ok};
ghost use Rattle.dialogue.specs.Shape.{shape_of};
ghost use Rattle.dialogue.specs.Fits.{answer_fits, fits};
ghost use Rattle.dialogue.specs.ByteMemory.{seen_by};
ghost use Rattle.cpu86.specs.Call.{chosen_regs, answered, after_reply};
ghost use Rattle.cpu86.specs.ProcessorState.{regs_of_86, state_of_86};
ghost use Rattle.cpu86.specs.System.{IsInterrupt};

use crate::flags::Flags;
use crate::processor::Processor;
use crate::registers::Registers;
use dialogue::{
    AnswerKind, Reply, Request, Shape, answer_of, choice_byte, dma_after, join, shape_of,
};

/// What INT 224 comes to.
pub enum Interrupt {
    /// The program ends.
    Ends,
    /// It asks the system and waits.
    Asks(Shape),
    /// The call is none of the profile; the byte is the function, as CL has it.
    Odd(u8),
}

impl Processor {
    /// INT 224, where the stack may be used and the next instruction stands at `next`. The function is in CL and the argument
    /// in DX; CL 0 with DL 0 ends. A call that asks spoils the six bytes below SP first; one that does not changes nothing.
    pub fn interrupt(&mut self, next: u16, choice: u128) -> Interrupt
        ensures { IsInterrupt (record (state_of_86 self.old) { ip = next }) choice result (state_of_86 self.old) (state_of_86 self.new) }
    {
        let function = self.registers.cl;
        if function == 0 {
            return if self.registers.dl == 0 {
                Interrupt::Ends
            } else {
                Interrupt::Odd(0)
            };
        }
        let below = self.sp.wrapping_sub(6);
        let before = self.memory.six_at(below);
        self.memory.spoil(self.sp, choice);
        match self.shape() {
            Some(shape) => {
                self.ip = next;
                Interrupt::Asks(shape)
            }
            None => {
                self.memory.set_bytes(below, &before);
                Interrupt::Odd(function)
            }
        }
    }

    // The shape of the call in the registers, if it has one.
    fn shape(&self) -> Option<Shape>
        ensures { result ≡ result_ok (shape_of (Some (state_of_86 self.now).regs.cl) (Some (state_of_86 self.now).regs.dh) (Some (state_of_86 self.now).regs.dl) (state_of_86 self.now).dma (seen_by (state_of_86 self.now).mem)) }
    {
        let Registers { cl, dh, dl, .. } = self.registers;
        shape_of(Some(cl), Some(dh), Some(dl), self.dma, &self.memory).ok()
    }

    /// Takes a reply that fits the request: AX, CX, DX, BX, SI and the flags are the choice's, but for the answer; the DMA
    /// address is the argument's after function 26 and 80H after function 13; what the reply writes is in memory.
    pub fn take_reply(&mut self, request: &Request, reply: &Reply, choice: u128)
        requires { fits request.now reply.now ≡ true }
        ensures { state_of_86 self.new ≡ after_reply (state_of_86 self.old) request.now reply.now choice }
    {
        self.registers = Registers::of_choice(choice).answered(answer_of(request), reply.answer);
        self.si = join(choice_byte(choice, 72), choice_byte(choice, 64));
        self.flags = Flags::of_choice(choice, 80);
        self.dma = dma_after(request, self.dma);
        self.memory.set_blocks(reply.writes.as_slice());
    }
}

impl Registers {
    /// AX, CX, DX and BX are bits 0 to 63 of the choice.
    pub fn of_choice(choice: u128) -> Registers
        ensures { regs_of_86 result ≡ chosen_regs choice }
    {
        Registers {
            al: choice_byte(choice, 0),
            ah: choice_byte(choice, 8),
            cl: choice_byte(choice, 16),
            ch: choice_byte(choice, 24),
            dl: choice_byte(choice, 32),
            dh: choice_byte(choice, 40),
            bl: choice_byte(choice, 48),
            bh: choice_byte(choice, 56),
        }
    }

    /// The registers with a call's answer: a byte is in AL, a word in AX and BX.
    pub fn answered(self, kind: AnswerKind, answer: u16) -> Registers
        requires { answer_fits kind answer ≡ true }
        ensures { regs_of_86 result ≡ answered kind answer (regs_of_86 self) }
    {
        let high = (answer / 256) as u8;
        let low = (answer % 256) as u8;
        match kind {
            AnswerKind::NoAnswer => self,
            AnswerKind::ByteAnswer => Registers { al: low, ..self },
            AnswerKind::WordAnswer => Registers {
                al: low,
                ah: high,
                bl: low,
                bh: high,
                ..self
            },
        }
    }
}
