// Moves that both processors do alike.

ghost use Rattle.std.specs.Prelude.{◌≡◌, ◌≤◌, length};
ghost use Rattle.sym_terms.specs.Term.{Num};
ghost use Rattle.sym_block_def.specs.Block80.{store8 as store8_80, store16 as store16_80};
ghost use Rattle.sym_block_def.specs.Symbolic86.{store8 as store8_86, store16 as store16_86, code_word};
ghost use Rattle.sym_micro.specs.Machine.{as80, as86, byte_in, with_byte, wide_in, with_wide, byte_value, word_value};
ghost use Rattle.sym_micro.specs.Alike.{word_pushed, byte_loaded, word_loaded};
ghost use Rattle.sym_micro.specs.Stands.{machine_of, IsReady, GoesOn};

use crate::micro::{ByteSlot, ByteValue, Micro, Wide, WordSlot, WordValue};
use crate::performing::perform;
use crate::run::Run;
use cells::Place;
use i80::Pair;
use sym_terms::Terms;

/// A byte register is given a value.
pub fn move_byte(terms: &mut Terms, run: &mut Run, to: ByteSlot, value: ByteValue) -> Option<()>
    requires ready { IsReady terms.old run.old }
    requires room { length run.old.actions.items ≤ 510 }
    ensures on_80 { let before = machine_of terms.old run.old in GoesOn terms.old terms.new run.old run.new 24 2 (λ m. as80 m ≡ as80 (with_byte before to (byte_value before value))) result }
    ensures on_86 { let before = machine_of terms.old run.old in GoesOn terms.old terms.new run.old run.new 24 2 (λ m. as86 m ≡ as86 (with_byte before to (byte_value before value))) result }
{
    perform(terms, run, &[Micro::Byte(to, value)])
}

/// A word of a processor is given a value.
pub fn move_word(terms: &mut Terms, run: &mut Run, to: Wide, value: WordValue) -> Option<()>
    requires ready { IsReady terms.old run.old }
    requires room { length run.old.actions.items ≤ 510 }
    ensures on_80 { let before = machine_of terms.old run.old in GoesOn terms.old terms.new run.old run.new 24 2 (λ m. as80 m ≡ as80 (with_wide before to (word_value before value))) result }
    ensures on_86 { let before = machine_of terms.old run.old in GoesOn terms.old terms.new run.old run.new 24 2 (λ m. as86 m ≡ as86 (with_wide before to (word_value before value))) result }
{
    perform(
        terms,
        run,
        &[Micro::Word(WordSlot::W, value), Micro::Put(to, WordSlot::W)],
    )
}

/// A word of a processor is given the code address of a place.
pub fn move_code(terms: &mut Terms, run: &mut Run, to: Wide, place: Place) -> Option<()>
    requires ready { IsReady terms.old run.old }
    requires room { length run.old.actions.items ≤ 510 }
    ensures on_80 { GoesOn terms.old terms.new run.old run.new 24 2 (λ m. as80 m ≡ as80 (with_wide (machine_of terms.old run.old) to (code_word place))) result }
    ensures on_86 { GoesOn terms.old terms.new run.old run.new 24 2 (λ m. as86 m ≡ as86 (with_wide (machine_of terms.old run.old) to (code_word place))) result }
{
    perform(
        terms,
        run,
        &[
            Micro::Byte(ByteSlot::T, ByteValue::Code(place, true)),
            Micro::Byte(ByteSlot::U, ByteValue::Code(place, false)),
            Micro::Word(WordSlot::W, WordValue::Join(ByteSlot::T, ByteSlot::U)),
            Micro::Put(to, WordSlot::W),
        ],
    )
}

/// A byte register is loaded from an address.
pub fn load_byte(terms: &mut Terms, run: &mut Run, to: ByteSlot, at: WordValue) -> Option<()>
    requires ready { IsReady terms.old run.old }
    requires room { length run.old.actions.items ≤ 510 }
    ensures on_80 { let before = machine_of terms.old run.old in GoesOn terms.old terms.new run.old run.new 24 2 (λ m. as80 m ≡ as80 (byte_loaded before to (word_value before at))) result }
    ensures on_86 { let before = machine_of terms.old run.old in GoesOn terms.old terms.new run.old run.new 24 2 (λ m. as86 m ≡ as86 (byte_loaded before to (word_value before at))) result }
{
    perform(
        terms,
        run,
        &[
            Micro::Word(WordSlot::W, at),
            Micro::Byte(ByteSlot::T, ByteValue::Loaded),
            Micro::Load8(WordSlot::W),
            Micro::Byte(to, ByteValue::Of(ByteSlot::T)),
        ],
    )
}

/// A word of a processor is loaded from an address.
pub fn load_word(terms: &mut Terms, run: &mut Run, to: Wide, at: WordValue) -> Option<()>
    requires ready { IsReady terms.old run.old }
    requires room { length run.old.actions.items ≤ 510 }
    ensures on_80 { let before = machine_of terms.old run.old in GoesOn terms.old terms.new run.old run.new 24 2 (λ m. as80 m ≡ as80 (word_loaded before to (word_value before at))) result }
    ensures on_86 { let before = machine_of terms.old run.old in GoesOn terms.old terms.new run.old run.new 24 2 (λ m. as86 m ≡ as86 (word_loaded before to (word_value before at))) result }
{
    perform(
        terms,
        run,
        &[
            Micro::Word(WordSlot::W, at),
            Micro::Word(WordSlot::V, WordValue::Loaded),
            Micro::Load16(WordSlot::W),
            Micro::Put(to, WordSlot::V),
        ],
    )
}

/// A byte register is stored at an address.
pub fn store_byte(terms: &mut Terms, run: &mut Run, at: WordValue, from: ByteSlot) -> Option<()>
    requires ready { IsReady terms.old run.old }
    requires room { length run.old.actions.items ≤ 510 }
    ensures on_80 { let before = machine_of terms.old run.old in GoesOn terms.old terms.new run.old run.new 24 2 (λ m. as80 m ≡ store8_80 (as80 before) (word_value before at) (byte_in before from)) result }
    ensures on_86 { let before = machine_of terms.old run.old in GoesOn terms.old terms.new run.old run.new 24 2 (λ m. as86 m ≡ store8_86 (as86 before) (word_value before at) (byte_in before from)) result }
{
    perform(
        terms,
        run,
        &[
            Micro::Word(WordSlot::W, at),
            Micro::Store8(WordSlot::W, from),
        ],
    )
}

/// A number is stored at an address.
pub fn store_number(terms: &mut Terms, run: &mut Run, at: WordValue, n: u8) -> Option<()>
    requires ready { IsReady terms.old run.old }
    requires room { length run.old.actions.items ≤ 510 }
    ensures on_80 { let before = machine_of terms.old run.old in GoesOn terms.old terms.new run.old run.new 24 2 (λ m. as80 m ≡ store8_80 (as80 before) (word_value before at) (Num n)) result }
    ensures on_86 { let before = machine_of terms.old run.old in GoesOn terms.old terms.new run.old run.new 24 2 (λ m. as86 m ≡ store8_86 (as86 before) (word_value before at) (Num n)) result }
{
    perform(
        terms,
        run,
        &[
            Micro::Word(WordSlot::W, at),
            Micro::Byte(ByteSlot::T, ByteValue::Number(n)),
            Micro::Store8(WordSlot::W, ByteSlot::T),
        ],
    )
}

/// A word of a processor is stored at an address that is a number.
pub fn store_word(terms: &mut Terms, run: &mut Run, a: u16, from: Wide) -> Option<()>
    requires ready { IsReady terms.old run.old }
    requires room { length run.old.actions.items ≤ 510 }
    ensures on_80 { let before = machine_of terms.old run.old in GoesOn terms.old terms.new run.old run.new 24 2 (λ m. as80 m ≡ store16_80 (as80 before) (Num a) (wide_in before from)) result }
    ensures on_86 { let before = machine_of terms.old run.old in GoesOn terms.old terms.new run.old run.new 24 2 (λ m. as86 m ≡ store16_86 (as86 before) (Num a) (wide_in before from)) result }
{
    perform(
        terms,
        run,
        &[
            Micro::Word(WordSlot::V, WordValue::Of(from)),
            Micro::Word(WordSlot::W, WordValue::Number(a)),
            Micro::Store16(WordSlot::W, WordSlot::V),
        ],
    )
}

/// PUSH of a word of a processor, which is read before SP is changed.
pub fn push(terms: &mut Terms, run: &mut Run, from: Wide) -> Option<()>
    requires ready { IsReady terms.old run.old }
    requires room { length run.old.actions.items ≤ 510 }
    ensures on_80 { GoesOn terms.old terms.new run.old run.new 24 2 (λ m. as80 m ≡ as80 (word_pushed (machine_of terms.old run.old) from)) result }
    ensures on_86 { GoesOn terms.old terms.new run.old run.new 24 2 (λ m. as86 m ≡ as86 (word_pushed (machine_of terms.old run.old) from)) result }
{
    perform(
        terms,
        run,
        &[
            Micro::Word(WordSlot::X, WordValue::Of(from)),
            Micro::Word(WordSlot::W, WordValue::Of(Wide::Of80(Pair::Sp))),
            Micro::Word(WordSlot::V, WordValue::Number(0xFFFE)),
            Micro::Sum(WordSlot::W, WordSlot::W, WordSlot::V),
            Micro::Put(Wide::Of80(Pair::Sp), WordSlot::W),
            Micro::Store16(WordSlot::W, WordSlot::X),
        ],
    )
}
