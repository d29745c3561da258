// What is needed behind an instruction, and what a text leaves out by it.
ghost use Rattle.std.specs.Prelude.{◌≡◌, All, IsTrue};
ghost use Rattle.i80.specs.Columns.{is_well_formed};
ghost use Rattle.flow.specs.Blocks.{end_of};
ghost use Rattle.flow.specs.Cut.{EndsInMemory};
ghost use Rattle.flow.specs.Solving.{Needs, AreAllNeeds};
ghost use Rattle.templates.specs.Style.{ends_by_sahf, begins_by_lahf, is_pair, knows_function};
ghost use Rattle.templates.specs.Lean.{has_saved_flag, saves_by_need, loses_nothing, long_style};

use asm80_types::Placed;
use cells::{Keep, Part};
use flow::{Graph, is_word_sum, needs_are_closed};
use i80::{Instr80, Pair, Reg, Src, StackPair, Word};

// The parts that are needed behind an instruction.
fn needed_behind(graph: &Graph, placed: &Placed) -> Keep
    requires solved { IsTrue graph.now.is_solved }
    requires whole { EndsInMemory placed.now }
    ensures { (n : Needs) → AreAllNeeds graph.now.program n → result ≡ n.at (end_of placed.now) }
{
    needs_are_closed();
    match graph.need(placed.at + i80::length(placed.instr)) {
        Some(need) => need,
        None => Keep::none(),
    }
}

// Whether one of S Z AC P is among some parts.
fn has_saved_flag(need: Keep) -> bool
    ensures { result ≡ has_saved_flag need }
{
    need.has(Part::S) || need.has(Part::Z) || need.has(Part::Ac) || need.has(Part::P)
}

/// The save rule: INX, DCX and DAD keep S Z AC P, and the 8086's sums of words change them, so they are saved where one of them is
/// needed behind.
pub fn saves(graph: &Graph, placed: &Placed) -> bool
    requires solved { IsTrue graph.now.is_solved }
    requires whole { EndsInMemory placed.now }
    ensures { (n : Needs) → AreAllNeeds graph.now.program n → result ≡ saves_by_need n placed.now }
{
    has_saved_flag(needed_behind(graph, placed))
}

/// The direct-call rule: INT 224 leaves the answers of the system where CP/M-86 has them, so X_SYS, which puts them where CP/M 2.2 has
/// them, is not called where neither B nor L is needed behind.
pub fn loses_nothing(graph: &Graph, placed: &Placed) -> bool
    requires solved { IsTrue graph.now.is_solved }
    requires whole { EndsInMemory placed.now }
    ensures { (n : Needs) → AreAllNeeds graph.now.program n → result ≡ loses_nothing n placed.now }
{
    let need = needed_behind(graph, placed);
    !(need.has(Part::B) || need.has(Part::L))
}

// Whether the last statement of an instruction is SAHF.
fn ends_by_sahf(graph: &Graph, placed: &Placed) -> bool
    requires solved { IsTrue graph.now.is_solved }
    requires whole { EndsInMemory placed.now }
    ensures { (n : Needs) → AreAllNeeds graph.now.program n → result ≡ ends_by_sahf (saves_by_need n placed.now) placed.now.instr }
{
    match placed.instr {
        Instr80::Inx(_) | Instr80::Dcx(_) => saves(graph, placed),
        Instr80::Pop(StackPair::Psw) => true,
        _ => false,
    }
}

// Whether the first statement of an instruction is LAHF.
fn begins_by_lahf(graph: &Graph, placed: &Placed) -> bool
    requires solved { IsTrue graph.now.is_solved }
    requires whole { EndsInMemory placed.now }
    ensures { (n : Needs) → AreAllNeeds graph.now.program n → result ≡ begins_by_lahf (saves_by_need n placed.now) placed.now.instr }
{
    is_word_sum(placed.instr) && saves(graph, placed)
}

/// The pair rule: a SAHF and the LAHF that follows it in the block are both left out.
pub fn is_pair(graph: &Graph, placed: &Placed, rest: &[Placed]) -> bool
    requires solved { IsTrue graph.now.is_solved }
    requires whole { EndsInMemory placed.now }
    requires rest { All EndsInMemory rest.now }
    ensures { (n : Needs) → AreAllNeeds graph.now.program n → result ≡ is_pair (long_style n) placed.now rest.now }
{
    match rest.first() {
        Some(next) => ends_by_sahf(graph, placed) && begins_by_lahf(graph, next),
        None => false,
    }
}

/// Whether C holds a number other than 0 behind an instruction, where it was or was not known to do so before it.
pub fn knows_function(known: bool, instr: Instr80) -> bool
    requires { IsTrue (is_well_formed instr) }
    ensures { result ≡ knows_function known instr }
{
    match instr {
        Instr80::Mvi(Src::Reg(Reg::C), n) => n != 0,
        Instr80::Lxi(Pair::B, Word::Num(word)) => word % 256 != 0,
        _ => known && !i80::defs(instr).has(Part::C),
    }
}
