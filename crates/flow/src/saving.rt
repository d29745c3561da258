// The flags that have to be saved.

ghost use Rattle.std.specs.Prelude.{◌≡◌, ◌&&◌, IfSome, IsTrue, is_some};
ghost use Rattle.cells.specs.declared.Part.{Part};
ghost use Rattle.cells.specs.Parts.{has};
ghost use Rattle.flow.specs.Saves.{is_word_sum, is_saved, is_sum_at, AreSaves};

use crate::graph::Graph;
use crate::search::without;
use asm80_types::Program80;
use cells::{Keep, Part};
use i80::Instr80;

/// Whether an instruction is INX, DCX or DAD, which the 8086 has as sums of words.
pub fn is_word_sum(instr: Instr80) -> bool
    ensures { result ≡ is_word_sum instr }
{
    matches!(instr, Instr80::Inx(_) | Instr80::Dcx(_) | Instr80::Dad(_))
}

// Those of S Z AC P that a set has.
fn saved_of(need: Keep) -> Keep
    ensures { (x : Part) → has result x ≡ (has need x && is_saved x) }
{
    let flags = Keep::none()
        .with(Part::S)
        .with(Part::Z)
        .with(Part::Ac)
        .with(Part::P);
    without(need, without(Keep::all(), flags))
}

/// Those of S Z AC P that are needed after the INX, DCX or DAD at an address: it keeps them, and the 8086's sum of words would
/// change them. None exactly where no such instruction starts. It takes no memory.
pub fn saves(program: &Program80, graph: &Graph, at: u16) -> Option<Keep>
    requires program { graph.now.program ≡ program.now }
    requires solved { IsTrue graph.now.is_solved }
    ensures place { is_some result ≡ is_sum_at program.now at }
    ensures saves { IfSome result (λ keep. AreSaves program.now at keep) }
{
    let instr = program.instr_at(at)?;
    if !is_word_sum(instr) {
        return None;
    }
    match graph.need(at + i80::length(instr)) {
        Some(need) => Some(saved_of(need)),
        None => Some(Keep::none()),
    }
}
