// Exchanges, the stack and the flags in AH.

ghost use Rattle.std.specs.Prelude.{◌≡◌, ◌≤◌, length};
ghost use Rattle.i86.specs.declared.Instr86.{Instr86};
ghost use Rattle.sym_block_def.specs.Symbolic86.{effect86, pop};
ghost use Rattle.sym_micro.specs.Machine.{as86};
ghost use Rattle.sym_step.specs.Arithmetic.{past_moves86};
ghost use Rattle.sym_micro.specs.Stands.{machine_of, IsReady, GoesOn};

use crate::arithmetic86::arithmetic;
use crate::registers::stack_register;
use i86::{Instr86, Reg8, Reg16};
use sym_micro::{
    ByteSlot, ByteValue, FlagSet, FlagValue, Micro, Run, Wide, WordSlot, WordValue, perform, push,
};
use sym_terms::Terms;

// SAHF.
const FLAGS_FROM_AH: [Micro; 1] = [Micro::Flags(
    FlagSet::All,
    FlagValue::InByte(ByteSlot::Of86(Reg8::Ah)),
)];

// LAHF.
const FLAGS_TO_AH: [Micro; 1] = [Micro::FlagByte(ByteSlot::Of86(Reg8::Ah))];

/// What an instruction does that is no move. None only where the terms had no room for a node more.
pub fn past_moves(terms: &mut Terms, run: &mut Run, instr: Instr86) -> Option<()>
    requires ready { IsReady terms.old run.old }
    requires room { length run.old.actions.items ≤ 510 }
    ensures { GoesOn terms.old terms.new run.old run.new 24 2 (λ m. as86 m ≡ past_moves86 (as86 (machine_of terms.old run.old)) instr) result }
{
    match instr {
        Instr86::Push(from) => push(terms, run, Wide::Of86(stack_register(from))),
        Instr86::Pop(to) => pop(terms, run, stack_register(to)),
        Instr86::Xchg8(r, q) => exchange_bytes(terms, run, r, q),
        Instr86::Xchg16(r, q) => exchange_words(terms, run, r, q),
        Instr86::Sahf => perform(terms, run, &FLAGS_FROM_AH),
        Instr86::Lahf => perform(terms, run, &FLAGS_TO_AH),
        _ => arithmetic(terms, run, instr),
    }
}

// `XCHG r8,r8`.
fn exchange_bytes(terms: &mut Terms, run: &mut Run, r: Reg8, q: Reg8) -> Option<()>
    requires ready { IsReady terms.old run.old }
    requires room { length run.old.actions.items ≤ 510 }
    ensures { GoesOn terms.old terms.new run.old run.new 24 2 (λ m. as86 m ≡ effect86 (as86 (machine_of terms.old run.old)) (Instr86.Xchg8 r q)) result }
{
    perform(
        terms,
        run,
        &[
            Micro::Byte(ByteSlot::T, ByteValue::Of(ByteSlot::Of86(r))),
            Micro::Byte(ByteSlot::U, ByteValue::Of(ByteSlot::Of86(q))),
            Micro::Byte(ByteSlot::Of86(r), ByteValue::Of(ByteSlot::U)),
            Micro::Byte(ByteSlot::Of86(q), ByteValue::Of(ByteSlot::T)),
        ],
    )
}

// `XCHG r16,r16`.
fn exchange_words(terms: &mut Terms, run: &mut Run, r: Reg16, q: Reg16) -> Option<()>
    requires ready { IsReady terms.old run.old }
    requires room { length run.old.actions.items ≤ 510 }
    ensures { GoesOn terms.old terms.new run.old run.new 24 2 (λ m. as86 m ≡ effect86 (as86 (machine_of terms.old run.old)) (Instr86.Xchg16 r q)) result }
{
    perform(
        terms,
        run,
        &[
            Micro::Word(WordSlot::V, WordValue::Of(Wide::Of86(r))),
            Micro::Word(WordSlot::W, WordValue::Of(Wide::Of86(q))),
            Micro::Put(Wide::Of86(r), WordSlot::W),
            Micro::Put(Wide::Of86(q), WordSlot::V),
        ],
    )
}

// POP into a register.
fn pop(terms: &mut Terms, run: &mut Run, to: Reg16) -> Option<()>
    requires ready { IsReady terms.old run.old }
    requires room { length run.old.actions.items ≤ 510 }
    ensures { GoesOn terms.old terms.new run.old run.new 24 2 (λ m. as86 m ≡ pop (as86 (machine_of terms.old run.old)) to) result }
{
    perform(
        terms,
        run,
        &[
            Micro::Word(WordSlot::W, WordValue::Of(Wide::Of86(Reg16::Sp))),
            Micro::Word(WordSlot::V, WordValue::Loaded),
            Micro::Load16(WordSlot::W),
            Micro::Word(WordSlot::X, WordValue::Number(2)),
            Micro::Sum(WordSlot::X, WordSlot::W, WordSlot::X),
            Micro::Put(Wide::Of86(Reg16::Sp), WordSlot::X),
            Micro::Put(Wide::Of86(to), WordSlot::V),
        ],
    )
}
