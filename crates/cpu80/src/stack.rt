// The stack (8080 Assembly Language Programming Manual, "PUSH", "POP").
ghost use Rattle.std.specs.Prelude.{◌≡◌};
ghost use Rattle.cpu80.specs.Effect.{push, push_pair, pop_pair};
ghost use Rattle.cpu80.specs.ProcessorState.{untagged_state};

use crate::flags::FlagBits;
use crate::processor::Processor;
use i80::StackPair;

impl Processor {
    /// Pushes a word of two bytes: SP goes down by 2 first, and wraps.
    pub fn push(&mut self, high: u8, low: u8)
        ensures { untagged_state self.new ≡ push (untagged_state self.old) high low }
    {
        self.sp = self.sp.wrapping_add(0xFFFE);
        self.memory.set_word(self.sp, high, low);
    }

    /// PUSH.
    pub fn push_pair(&mut self, pair: StackPair, choice: u128)
        ensures { untagged_state self.new ≡ push_pair (untagged_state self.old) pair choice }
    {
        let registers = self.registers;
        match pair {
            StackPair::B => self.push(registers.b, registers.c),
            StackPair::D => self.push(registers.d, registers.e),
            StackPair::H => self.push(registers.h, registers.l),
            StackPair::Psw => self.push(registers.a, self.flags.byte(choice)),
        }
    }

    /// POP: SP goes up by 2, and wraps.
    pub fn pop_pair(&mut self, pair: StackPair)
        ensures { untagged_state self.new ≡ pop_pair (untagged_state self.old) pair }
    {
        let low = self.memory.get(self.sp);
        let high = self.memory.get(self.sp.wrapping_add(1));
        self.sp = self.sp.wrapping_add(2);
        match pair {
            StackPair::B => {
                self.registers.b = high;
                self.registers.c = low;
            }
            StackPair::D => {
                self.registers.d = high;
                self.registers.e = low;
            }
            StackPair::H => self.set_hl(high, low),
            StackPair::Psw => {
                self.registers.a = high;
                self.flags = FlagBits::of_byte(low);
            }
        }
    }
}
