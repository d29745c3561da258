// Whether a block matches.

ghost use Rattle.std.specs.Prelude.{◌≡◌, true, ℕ, Some, Ok, IsTrue};
ghost use Rattle.asm80_types.specs.Program.{is_start};
ghost use Rattle.flow.specs.Blocks.{IsLeader, block_at};
ghost use Rattle.flow.specs.Solving.{Needs, AreAllNeeds};
ghost use Rattle.simulation_def.specs.Needed.{needed_by};
ghost use Rattle.simulation_def.specs.Ones.{all_kept};
ghost use Rattle.sym_block_def.specs.Block80.{MayRun, block80};
ghost use Rattle.sym_block_def.specs.Outcome.{Outcome};
ghost use Rattle.sym_block_def.specs.Walk86.{walk86};
ghost use Rattle.sym_block_def.specs.BlockMatch.{Keeps, block_reason};
ghost use Rattle.block_check.specs.Kept.{KeepsAre, AreFound};
ghost use Rattle.block_check.specs.Comparing.{HoldsOutcomes, AreReadyAfter, AreCompared, AfterShown, verdict_of};

use crate::kept::{Kept, kept_behind, kept_by_exit, kept_from};
use crate::outcomes::reason_of;
use asm80_types::Program80;
use flow::{Graph, blocks_cut_the_program};
use sym_run::{Index86, Reason, Work, ends_say_why};

/// What is found of a block.
#[derive(Clone, Copy, PartialEq, Eq)]
pub enum Verdict {
    /// The text does at its label what the block does, as far as it is kept.
    Shown,
    NotShown(Reason),
}

// The verdict where this reason is the first one.
fn verdict_of(reason: Option<Reason>) -> Verdict
    ensures { result ≡ verdict_of reason }
{
    match reason {
        Some(reason) => Verdict::NotShown(reason),
        None => Verdict::Shown,
    }
}

// Whether a block of so many instructions matches.
fn check_kept(
    work: &mut Work,
    program: &Program80,
    text: &Index86,
    kept: &Kept<'_>,
    leader: u16,
    count: u32,
) -> Verdict
    requires block { MayRun program.now leader count }
    requires found { AreFound kept.now }
    ensures verdict { (k : Keeps) → KeepsAre kept.now k → result ≡ verdict_of (block_reason program.now text.now k leader count) }
    ensures outcomes { (k : Keeps) → KeepsAre kept.now k → AfterShown result (HoldsOutcomes work.new (block80 program.now leader count) (walk86 program.now text.now (k.at leader) leader count)) }
    ensures ready { AreReadyAfter result work.new }
    ensures compared { (k : Keeps) (y : Outcome) → KeepsAre kept.now k → walk86 program.now text.now (k.at leader) leader count ≡ Ok y → AreCompared work.new (block80 program.now leader count) y }
{
    ends_say_why();
    work.reset();
    work.keep(kept_from(kept, leader));
    match work.run80(program, leader, count) {
        Some(()) => {}
        None => unreachable!(),
    }
    match work.run86(program, text, leader, count) {
        Some(Ok(())) => {
            let exit = work.first().exit();
            let wanted = kept_by_exit(kept, exit);
            let back = kept_behind(kept, exit);
            verdict_of(reason_of(work, &wanted, back))
        }
        Some(Err(reason)) => Verdict::NotShown(reason),
        None => unreachable!(),
    }
}

/// Whether what a text does at the label of an instruction is what the instruction does, with all parts kept, those after it at each
/// instruction and, where a place is taken, at a return. It takes no memory.
pub fn check_all_kept(work: &mut Work, program: &Program80, text: &Index86, at: u16) -> Verdict
    requires { is_start program.now at ≡ true }
    ensures verdict { result ≡ verdict_of (block_reason program.now text.now (all_kept program.now) at 1) }
    ensures outcomes { AfterShown result (HoldsOutcomes work.new (block80 program.now at 1) (walk86 program.now text.now ((all_kept program.now).at at) at 1)) }
{
    check_kept(work, program, text, &Kept::All(program), at, 1)
}

/// Whether what a text does at the label of a block is what the block does, with the parts kept that are needed at the first address
/// of each block and at a return, by the solved graph of the program. It takes no memory.
pub fn check(
    work: &mut Work,
    program: &Program80,
    graph: &Graph,
    text: &Index86,
    leader: u16,
) -> Verdict
    requires solved { IsTrue graph.now.is_solved }
    requires program { graph.now.program ≡ program.now }
    requires leader { IsLeader program.now leader }
    ensures verdict { (n : Needs) (count : ℕ) → AreAllNeeds program.now n → block_at program.now leader ≡ Some count
        → result ≡ verdict_of (block_reason program.now text.now (needed_by program.now n) leader count) }
    ensures outcomes { (n : Needs) (count : ℕ) → AreAllNeeds program.now n → block_at program.now leader ≡ Some count
        → AfterShown result (HoldsOutcomes work.new (block80 program.now leader count) (walk86 program.now text.now ((needed_by program.now n).at leader) leader count)) }
    ensures ready { AreReadyAfter result work.new }
    ensures compared { (n : Needs) (count : ℕ) (y : Outcome) → AreAllNeeds program.now n → block_at program.now leader ≡ Some count
        → walk86 program.now text.now ((needed_by program.now n).at leader) leader count ≡ Ok y → AreCompared work.new (block80 program.now leader count) y }
{
    blocks_cut_the_program();
    let _top = program.top();
    match graph.block(leader) {
        Some(count) => check_kept(work, program, text, &Kept::Needed(graph), leader, count),
        None => unreachable!(),
    }
}
