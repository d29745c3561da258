// The table of instructions (8080 Assembly Language Programming Manual, chapter 2).
ghost use Rattle.std.specs.Prelude.{◌≡◌};
ghost use Rattle.cpu80.specs.Effect.{effect};
ghost use Rattle.cpu80.specs.ProcessorState.{untagged_state};

use crate::arithmetic::{left, right};
use crate::processor::Processor;
use i80::{Instr80, Op, Pair, Word};

impl Processor {
    /// What an instruction does, but for the place that comes next: jumps, calls, returns and ports do nothing here.
    pub fn execute(&mut self, instr: Instr80, choice: u128)
        ensures { untagged_state self.new ≡ effect (untagged_state self.old) instr choice }
    {
        let a = self.registers.a;
        let carry = self.flags.cy;
        match instr {
            Instr80::Mov(to, from) => self.put_into(to, self.source(from)),
            Instr80::Mvi(to, byte) => self.put_into(to, byte),
            Instr80::Lxi(pair, Word::Num(word) | Word::Code(word)) => self.set_pair(pair, word),
            Instr80::Lda(at) => self.registers.a = self.memory.get(at),
            Instr80::Sta(at) => self.memory.set(at, a),
            Instr80::Lhld(at) => self.load_hl(at),
            Instr80::Shld(at) => self.memory.set_word(at, self.registers.h, self.registers.l),
            Instr80::Ldax(pair) => {
                let at = self.pair(pair);
                self.registers.a = self.memory.get(at);
            }
            Instr80::Stax(pair) => {
                let at = self.pair(pair);
                self.memory.set(at, a);
            }
            Instr80::Xchg => self.exchange(),
            Instr80::Xthl => self.exchange_top(),
            Instr80::Sphl => self.sp = self.pair(Pair::H),
            Instr80::Alu(op, from) => self.operate(op, self.source(from), choice),
            Instr80::AluI(op, byte) => self.operate(op, byte, choice),
            Instr80::Inr(on) => self.count(Op::Add, on, choice),
            Instr80::Dcr(on) => self.count(Op::Sub, on, choice),
            Instr80::Inx(pair) => self.add_to_pair(pair, 1),
            Instr80::Dcx(pair) => self.add_to_pair(pair, 0xFFFF),
            Instr80::Dad(pair) => self.add_pair(pair),
            Instr80::Daa => self.adjust(choice),
            Instr80::Cma => self.registers.a = 255 - a,
            Instr80::Stc => self.flags.cy = true,
            Instr80::Cmc => self.flags.cy = !carry,
            Instr80::Rlc => self.turn(left(a, a > 127), a > 127),
            Instr80::Rrc => self.turn(right(a, a % 2 == 1), a % 2 == 1),
            Instr80::Ral => self.turn(left(a, carry), a > 127),
            Instr80::Rar => self.turn(right(a, carry), a % 2 == 1),
            Instr80::Push(pair) => self.push_pair(pair, choice),
            Instr80::Pop(pair) => self.pop_pair(pair),
            Instr80::Nop
            | Instr80::Pchl
            | Instr80::Jmp(_)
            | Instr80::Jif(_, _)
            | Instr80::Call(_)
            | Instr80::Cif(_, _)
            | Instr80::Ret
            | Instr80::Rif(_)
            | Instr80::Rst0
            | Instr80::In(_)
            | Instr80::Out(_) => {}
        }
    }
}
