// The parts that are kept at the places of a program, and by the ways that go there.

ghost use Rattle.std.specs.Prelude.{◌≡◌, IsTrue};
ghost use Rattle.flow.specs.Blocks.{block_at};
ghost use Rattle.xlt_pool.specs.Contents.{Contents};
ghost use Rattle.sym_block_def.specs.BlockMatch.{Keeps, kept_at, kept_after_way, kept_by_exit};
ghost use Rattle.sym_micro.specs.Exits.{tree_of_way, tree_of_exit};
ghost use Rattle.block_check.specs.Kept.{wanted_parts, KeepsAre, AreFound, AreKept, kept_behind};

use crate::asked::{Wanted, all_of, both, of_system};
use asm80_types::Program80;
use cells::{Keep, Place};
use flow::{Graph, needs_are_closed};
use sym_run::{Exit, Way};

/// What is kept.
#[derive(Clone, Copy)]
pub enum Kept<'a> {
    /// All parts at each instruction of a program, and at a return where a place is taken.
    All(&'a Program80),
    /// What is needed at the first address of each block, and nothing at any other place; and what is needed at a return.
    Needed(&'a Graph),
}

// What is needed at an address, if a block begins there.
fn needed_at(graph: &Graph, at: u16) -> Keep
    requires { IsTrue graph.now.is_solved }
    ensures { AreKept graph.now.program at (block_at graph.now.program at) result }
{
    needs_are_closed();
    match graph.block(at) {
        Some(_) => match graph.need(at) {
            Some(keep) => keep,
            None => Keep::none(),
        },
        None => Keep::none(),
    }
}

/// The parts that are kept at an address.
pub fn kept_from(kept: &Kept<'_>, at: u16) -> Keep
    requires { AreFound kept.now }
    ensures { (k : Keeps) → KeepsAre kept.now k → result ≡ k.at at }
{
    match kept {
        Kept::All(program) => match program.instr_at(at) {
            Some(_) => Keep::all(),
            None => Keep::none(),
        },
        Kept::Needed(graph) => needed_at(graph, at),
    }
}

// The parts that are kept at a return.
fn kept_at_return(kept: &Kept<'_>) -> Keep
    requires { AreFound kept.now }
    ensures { (k : Keeps) → KeepsAre kept.now k → result ≡ k.returned }
{
    match kept {
        Kept::All(program) if program.taken().is_empty() => Keep::none(),
        Kept::All(_) => Keep::all(),
        Kept::Needed(graph) => graph.need_return(),
    }
}

// The parts that are kept at a place.
fn kept_at(kept: &Kept<'_>, place: Place) -> Keep
    requires { AreFound kept.now }
    ensures { (k : Keeps) → KeepsAre kept.now k → result ≡ kept_at k place }
{
    match place {
        Place::At(at) => kept_from(kept, at),
        Place::Exit => Keep::none(),
    }
}

// The parts that a way keeps.
fn kept_by(kept: &Kept<'_>, way: Way) -> Wanted
    requires { AreFound kept.now }
    ensures { (pool : Contents) (k : Keeps) → KeepsAre kept.now k → wanted_parts result ≡ kept_after_way k (tree_of_way pool way) }
{
    match way {
        Way::Goto(place) | Way::Call(place, _) => all_of(kept_at(kept, place)),
        Way::ByTerms(_, _) => all_of(kept_at_return(kept)),
        Way::Sys(_) | Way::SysReturn => of_system(),
        Way::Boot | Way::Leave => all_of(Keep::none()),
        Way::In(_, next) => Wanted {
            a: false,
            others: kept_at(kept, next),
        },
        Way::Out(_, next) => Wanted {
            a: true,
            others: kept_at(kept, next),
        },
    }
}

/// The parts that an exit keeps.
pub fn kept_by_exit(kept: &Kept<'_>, exit: Exit) -> Wanted
    requires { AreFound kept.now }
    ensures { (pool : Contents) (k : Keeps) → KeepsAre kept.now k → wanted_parts result ≡ kept_by_exit k (tree_of_exit pool exit) }
{
    match exit {
        Exit::One(way) => kept_by(kept, way),
        Exit::Two(_, _, where_so, otherwise) => both(
            kept_by(kept, where_so),
            kept_by(kept, otherwise),
        ),
    }
}

/// The parts that are kept where a call of the system goes on, which is the one way of an exit; none for another exit.
pub fn kept_behind(kept: &Kept<'_>, exit: Exit) -> Keep
    requires { AreFound kept.now }
    ensures { (pool : Contents) (k : Keeps) → KeepsAre kept.now k → result ≡ kept_behind k (tree_of_exit pool exit) }
{
    match exit {
        Exit::One(Way::Sys(back)) => kept_at(kept, back),
        _ => Keep::none(),
    }
}
