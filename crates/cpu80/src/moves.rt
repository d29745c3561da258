// Moves, loads and stores (8080 Assembly Language Programming Manual, "Data transfer instructions", "Direct addressing
// instructions").
ghost use Rattle.std.specs.Prelude.{◌≡◌};
ghost use Rattle.cpu80.specs.Effect.{lhld, xchg, xthl};
ghost use Rattle.cpu80.specs.ProcessorState.{untagged_state};

use crate::processor::Processor;

impl Processor {
    /// LHLD.
    pub fn load_hl(&mut self, at: u16)
        ensures { untagged_state self.new ≡ lhld (untagged_state self.old) at }
    {
        let low = self.memory.get(at);
        let high = self.memory.get(at.wrapping_add(1));
        self.set_hl(high, low);
    }

    /// XCHG.
    pub fn exchange(&mut self)
        ensures { untagged_state self.new ≡ xchg (untagged_state self.old) }
    {
        let high = self.registers.d;
        let low = self.registers.e;
        self.registers.d = self.registers.h;
        self.registers.e = self.registers.l;
        self.registers.h = high;
        self.registers.l = low;
    }

    /// XTHL.
    pub fn exchange_top(&mut self)
        ensures { untagged_state self.new ≡ xthl (untagged_state self.old) }
    {
        let low = self.memory.get(self.sp);
        let high = self.memory.get(self.sp.wrapping_add(1));
        self.memory
            .set_word(self.sp, self.registers.h, self.registers.l);
        self.set_hl(high, low);
    }
}
