// Arithmetic (8080 Assembly Language Programming Manual, "Register or memory to accumulator instructions", "Single register
// instructions", "Register pair instructions", "Rotate accumulator instructions").
ghost use Rattle.std.specs.Prelude.{◌≡◌, ◌≤◌, Some, None};
ghost use Rattle.base.specs.Arithmetic.{as_bit, turned_left, turned_right};
ghost use Rattle.cpu80.specs.Effect.{carry_for, alu, add_to_pair, dad, daa, turned};
ghost use Rattle.cpu80.specs.Counting.{count_by};
ghost use Rattle.cpu80.specs.ProcessorState.{untagged_flags, untagged_state};

use crate::flags::FlagBits;
use crate::processor::Processor;
use cpu80_tagged::numbers::{adjusted, byte_flags, is_excepted, outcome, outcome_flags};
use dialogue::choice_byte;
use i80::{Op, Pair, Src};

// The carry that an operation takes: CY for ADC and SBB, else 0.
fn carry_for(op: Op, flags: FlagBits) -> u8
    ensures value { result ≡ carry_for op (untagged_flags flags) }
    ensures small { result ≤ 1 }
{
    match op {
        Op::Adc | Op::Sbb => u8::from(flags.cy),
        Op::Add | Op::Sub | Op::Ana | Op::Xra | Op::Ora | Op::Cmp => 0,
    }
}

/// A byte rotated left; the bit comes in at the right.
pub fn left(value: u8, flag: bool) -> u8
    ensures { result ≡ turned_left value (as_bit flag) }
{
    ((2 * u16::from(value) + u16::from(flag)) % 256) as u8
}

/// A byte rotated right; the bit comes in at the left.
pub fn right(value: u8, flag: bool) -> u8
    ensures { result ≡ turned_right value (as_bit flag) }
{
    value / 2 + 128 * u8::from(flag)
}

impl Processor {
    /// An operation on A and a byte; CMP keeps A.
    pub fn operate(&mut self, op: Op, byte: u8, choice: u128)
        ensures { untagged_state self.new ≡ alu (untagged_state self.old) op byte choice }
    {
        let a = self.registers.a;
        let carry = carry_for(op, self.flags);
        match op {
            Op::Cmp => {}
            _ => self.registers.a = outcome(op, a, byte, carry),
        }
        self.flags = FlagBits::settled(outcome_flags(op, a, byte, carry), choice);
    }

    /// INR by ADD, DCR by SUB: an operation on the operand and 1, which keeps CY.
    pub fn count(&mut self, op: Op, on: Src, choice: u128)
        ensures { untagged_state self.new ≡ count_by (untagged_state self.old) op on choice }
    {
        let byte = self.source(on);
        self.put_into(on, outcome(op, byte, 1, 0));
        self.flags = FlagBits {
            cy: self.flags.cy,
            ..FlagBits::settled(outcome_flags(op, byte, 1, 0), choice)
        };
    }

    /// INX adds 1, DCX adds 0FFFFH. No flag changes.
    pub fn add_to_pair(&mut self, pair: Pair, number: u16)
        ensures { untagged_state self.new ≡ add_to_pair (untagged_state self.old) pair number }
    {
        let word = self.pair(pair);
        self.set_pair(pair, word.wrapping_add(number));
    }

    /// DAD.
    pub fn add_pair(&mut self, pair: Pair)
        ensures { untagged_state self.new ≡ dad (untagged_state self.old) pair }
    {
        let x = self.pair(Pair::H);
        let y = self.pair(pair);
        self.set_pair(Pair::H, x.wrapping_add(y));
        self.flags.cy = u32::from(x) + u32::from(y) > 0xFFFF;
    }

    /// DAA: where the processors may differ, A is bits 0 to 7 of the choice, and S, Z, AC, P and CY are bits 8 to 12.
    pub fn adjust(&mut self, choice: u128)
        ensures { untagged_state self.new ≡ daa (untagged_state self.old) choice }
    {
        let a = self.registers.a;
        let FlagBits { ac, cy, .. } = self.flags;
        if is_excepted(a, ac, cy) {
            self.registers.a = choice_byte(choice, 0);
            self.flags = FlagBits::of_choice(choice, 8);
            return;
        }
        let (value, carry) = adjusted(a, ac, cy);
        self.registers.a = value;
        self.flags = FlagBits::settled(byte_flags(value, None, Some(carry)), choice);
    }

    /// A rotated byte in A, and the bit that went out in CY.
    pub fn turn(&mut self, value: u8, out: bool)
        ensures { untagged_state self.new ≡ turned (untagged_state self.old) value out }
    {
        self.registers.a = value;
        self.flags.cy = out;
    }
}
