// How a run begins.

ghost use Rattle.std.specs.Prelude.{◌≡◌, []};
ghost use Rattle.std.specs.Vec.{vec_capacity};
ghost use Rattle.cells.specs.Parts.{has};
ghost use Rattle.sym_terms.specs.Term.{Unknown};
ghost use Rattle.sym_terms.specs.Trees.{StandsFor, AreTerms};
ghost use Rattle.sym_block_def.specs.Symbolic86.{start86};
ghost use Rattle.sym_micro.specs.Machine.{nothing_known, as86};
ghost use Rattle.sym_micro.specs.Stands.{machine_of, IsReady, GoesOn, Runs};

use crate::micro::{ByteSlot, ByteValue, FlagSlot, FlagValue, Micro, Wide, WordSlot, WordValue};
use crate::outcome::Held;
use crate::performing::perform_each;
use crate::run::Run;
use cells::{Keep, Part};
use i80::{Pair, Reg};
use sym_terms::{Term, Terms};

// Nothing is known, and there are no actions.
fn clear(terms: &Terms, run: &mut Run, unknown: Term)
    requires terms { AreTerms terms.now }
    requires unknown { StandsFor terms.now unknown Unknown }
    requires capacity { vec_capacity run.old.actions ≡ 512 }
    ensures ready { IsReady terms.now run.new }
    ensures machine { machine_of terms.now run.new ≡ nothing_known }
    ensures empty { run.new.actions.items ≡ [] }
{
    run.held = Held {
        a: unknown,
        b: unknown,
        c: unknown,
        d: unknown,
        e: unknown,
        h: unknown,
        l: unknown,
        s: unknown,
        z: unknown,
        ac: unknown,
        p: unknown,
        cy: unknown,
    };
    run.ah = unknown;
    run.si = unknown;
    run.sp = unknown;
    run.t = unknown;
    run.u = unknown;
    run.v = unknown;
    run.w = unknown;
    run.x = unknown;
    run.result = unknown;
    run.turned = unknown;
    run.actions.clear();
    run.loads = 0;
}

/// A run begins: these parts and SP hold what they hold at the start, and nothing else is known. None only where the terms had no room
/// for a node more.
pub fn begin(terms: &mut Terms, run: &mut Run, keep: Keep) -> Option<()>
    requires { vec_capacity run.old.actions ≡ 512 }
    ensures { Runs terms.old terms.new run.new 16 0 (λ m. as86 m ≡ start86 keep) result }
{
    let unknown = terms.unknown()?;
    clear(terms, run, unknown);
    start(terms, run, keep)
}

// What is known at the start.
fn start(terms: &mut Terms, run: &mut Run, keep: Keep) -> Option<()>
    requires ready { IsReady terms.old run.old }
    requires machine { machine_of terms.old run.old ≡ nothing_known }
    ensures { GoesOn terms.old terms.new run.old run.new 15 0 (λ m. as86 m ≡ start86 keep) result }
{
    perform_each(
        terms,
        run,
        &[
            start_byte(keep, Reg::A, Part::A),
            start_byte(keep, Reg::B, Part::B),
            start_byte(keep, Reg::C, Part::C),
            start_byte(keep, Reg::D, Part::D),
            start_byte(keep, Reg::E, Part::E),
            start_byte(keep, Reg::H, Part::H),
            start_byte(keep, Reg::L, Part::L),
            start_flag(keep, FlagSlot::S, Part::S),
            start_flag(keep, FlagSlot::Z, Part::Z),
            start_flag(keep, FlagSlot::Ac, Part::Ac),
            start_flag(keep, FlagSlot::P, Part::P),
            start_flag(keep, FlagSlot::Cy, Part::Cy),
            Micro::Word(WordSlot::W, WordValue::StartSp),
            Micro::Put(Wide::Of80(Pair::Sp), WordSlot::W),
        ],
    )
}

fn start_byte(keep: Keep, reg: Reg, part: Part) -> Micro
    ensures { result ≡ Micro.Byte (ByteSlot.Of80 reg) (ByteValue.Start (has keep part) part) }
{
    Micro::Byte(ByteSlot::Of80(reg), ByteValue::Start(keep.has(part), part))
}

fn start_flag(keep: Keep, slot: FlagSlot, part: Part) -> Micro
    ensures { result ≡ Micro.Flag slot (FlagValue.Start (has keep part)) }
{
    Micro::Flag(slot, FlagValue::Start(keep.has(part)))
}
