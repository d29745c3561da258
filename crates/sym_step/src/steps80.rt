// One instruction of the 8080.

ghost use Rattle.std.specs.Prelude.{◌≡◌, ◌≤◌, length};
ghost use Rattle.sym_block_def.specs.Block80.{effect80};
ghost use Rattle.sym_micro.specs.Machine.{as80};
ghost use Rattle.sym_micro.specs.Stands.{machine_of, IsReady, GoesOn};

use crate::stack80::past_moves;
use cells::Place;
use i80::{Instr80, Pair, Reg, Src, Word};
use sym_micro::{
    ByteSlot, ByteValue, Micro, Run, Wide, WordSlot, WordValue, load_byte, load_word, move_byte,
    move_code, move_word, perform, store_byte, store_number, store_word,
};
use sym_terms::Terms;

// `MOV M,M`, which the 8080 has not.
const LOAD_AND_STORE: [Micro; 4] = [
    Micro::Word(WordSlot::W, WordValue::Of(Wide::Of80(Pair::H))),
    Micro::Byte(ByteSlot::T, ByteValue::Loaded),
    Micro::Load8(WordSlot::W),
    Micro::Store8(WordSlot::W, ByteSlot::T),
];

/// What an instruction does beside where it goes. None only where the terms had no room for a node more.
pub fn step80(terms: &mut Terms, run: &mut Run, instr: Instr80) -> Option<()>
    requires ready { IsReady terms.old run.old }
    requires room { length run.old.actions.items ≤ 510 }
    ensures { GoesOn terms.old terms.new run.old run.new 24 2 (λ m. as80 m ≡ effect80 (as80 (machine_of terms.old run.old)) instr) result }
{
    let accumulator = ByteSlot::Of80(Reg::A);
    match instr {
        Instr80::Mov(to, from) => move_source(terms, run, to, from),
        Instr80::Mvi(to, n) => match to {
            Src::Reg(to) => move_byte(terms, run, ByteSlot::Of80(to), ByteValue::Number(n)),
            Src::Mem => store_number(terms, run, WordValue::Of(Wide::Of80(Pair::H)), n),
        },
        Instr80::Lxi(pair, word) => match word {
            Word::Num(w) => move_word(terms, run, Wide::Of80(pair), WordValue::Number(w)),
            Word::Code(a) => move_code(terms, run, Wide::Of80(pair), Place::At(a)),
        },
        Instr80::Lda(a) => load_byte(terms, run, accumulator, WordValue::Number(a)),
        Instr80::Sta(a) => store_byte(terms, run, WordValue::Number(a), accumulator),
        Instr80::Lhld(a) => load_word(terms, run, Wide::Of80(Pair::H), WordValue::Number(a)),
        Instr80::Shld(a) => store_word(terms, run, a, Wide::Of80(Pair::H)),
        Instr80::Ldax(pair) => load_byte(terms, run, accumulator, WordValue::Of(Wide::Of80(pair))),
        Instr80::Stax(pair) => store_byte(terms, run, WordValue::Of(Wide::Of80(pair)), accumulator),
        _ => past_moves(terms, run, instr),
    }
}

fn move_source(terms: &mut Terms, run: &mut Run, to: Src, from: Src) -> Option<()>
    requires ready { IsReady terms.old run.old }
    requires room { length run.old.actions.items ≤ 510 }
    ensures { GoesOn terms.old terms.new run.old run.new 24 2 (λ m. as80 m ≡ effect80 (as80 (machine_of terms.old run.old)) (Instr80.Mov to from)) result }
{
    match to {
        Src::Reg(to) => match from {
            Src::Reg(from) => move_byte(
                terms,
                run,
                ByteSlot::Of80(to),
                ByteValue::Of(ByteSlot::Of80(from)),
            ),
            Src::Mem => load_byte(
                terms,
                run,
                ByteSlot::Of80(to),
                WordValue::Of(Wide::Of80(Pair::H)),
            ),
        },
        Src::Mem => match from {
            Src::Reg(from) => store_byte(
                terms,
                run,
                WordValue::Of(Wide::Of80(Pair::H)),
                ByteSlot::Of80(from),
            ),
            Src::Mem => perform(terms, run, &LOAD_AND_STORE),
        },
    }
}
