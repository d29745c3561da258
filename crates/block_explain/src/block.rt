// What is said of a block.

ghost use Rattle.std.specs.Prelude.{◌≡◌, ℕ, Some, IsTrue, IfOk};
ghost use Rattle.flow.specs.Blocks.{IsLeader, block_at};
ghost use Rattle.flow.specs.Solving.{Needs, AreAllNeeds};
ghost use Rattle.simulation_def.specs.Needed.{needed_by};
ghost use Rattle.block_explain.specs.Explained.{IsSaid};

use crate::explain::explain_outcomes;
use asm80_types::Program80;
use block_check::{Index86, Reason, Verdict, Work, check};
use flow::Graph;
use std::alloc::{AllocError, Global};
use sym_run::ends_say_why;

/// Why a block does not match, and what of both sides does not agree, in lines that each end with LF. There are none for a reason that the
/// walk through the text met.
#[derive(Drop)]
pub struct Said {
    pub reason: Reason,
    pub lines: String,
}

/// What is said of the block at an address, beside the text at its label; None where it matches.
pub fn explain_block(
    alloc: Global,
    work: &mut Work,
    program: &Program80,
    graph: &Graph,
    text: &Index86,
    leader: u16,
) -> Result<Option<Said>, AllocError>
    requires solved { IsTrue graph.now.is_solved }
    requires program { graph.now.program ≡ program.now }
    requires leader { IsLeader program.now leader }
    ensures { IfOk result (λ said. (n : Needs) (count : ℕ) → AreAllNeeds program.now n → block_at program.now leader ≡ Some count
        → IsSaid program.now text.now (needed_by program.now n) leader count said) }
{
    ends_say_why();
    match check(work, program, graph, text, leader) {
        Verdict::Shown => Ok(None),
        Verdict::NotShown(reason) => {
            let lines = explain_outcomes(alloc, work, reason)?;
            Ok(Some(Said { reason, lines }))
        }
    }
}
