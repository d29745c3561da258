// Where a walk ends.

ghost use Rattle.std.specs.Prelude.{◌≡◌, ◌||◌, not, Ok, Err, true, false, cond};
ghost use Rattle.xlt_pool.specs.Contents.{Contents};
ghost use Rattle.dialogue.specs.Tried.{try_then};
ghost use Rattle.sym_block_def.specs.declared.reason.Reason.TheVariants.{Form};
ghost use Rattle.sym_block_def.specs.Outcome.{Way as WayTree, Sys as AskSystem, One};
ghost use Rattle.sym_block_def.specs.Walk86.{call_way, end_at, jump_to, one_way, comes_next, back_from_system, outcome86};
ghost use Rattle.sym_micro.specs.Exits.{WayIs};
ghost use Rattle.sym_run.specs.Around.{surroundings_of};
ghost use Rattle.sym_run.specs.Ends.{EndsWithoutTerm, Goes};

use crate::around::{Around, back_from_system, behind, comes_after, way_to};
use crate::lasts::call_way;
use asm86_line_types::{Label, Stmt86};
use sym_block_def::Reason;
use sym_micro::{Exit, Way};

/// Where a walk ends, and whether the text calls the system by INT 224 itself.
#[derive(Clone, Copy)]
pub struct End {
    pub exit: Exit,
    pub direct: bool,
}

/// What an instruction comes to: the walk ends, or is refused; or it goes on.
#[derive(Clone, Copy)]
pub enum Next<'a> {
    Ends(Result<End, Reason>),
    GoesOn(&'a [Stmt86]),
}

/// The end by an exit, but for INT 224.
pub fn by_exit(exit: Exit) -> End
    ensures { result ≡ record { exit = exit; direct = false } }
{
    End {
        exit,
        direct: false,
    }
}

/// A label that is not passed ends the walk.
pub fn end_at(label: Label) -> Result<End, Reason>
    ensures { EndsWithoutTerm (λ s. end_at (one_way s) label) result }
{
    match way_to(label) {
        Some(way) => Ok(by_exit(Exit::One(way))),
        None => Err(Reason::Form),
    }
}

/// A jump ends the walk, or the walk goes on behind its label.
pub fn jump<'a>(around: &Around<'a>, label: Label) -> Next<'a>
    ensures { Goes (λ s on. jump_to (surroundings_of around.now) (one_way s) (on s) label) result }
{
    if let Some(way) = way_to(label) {
        return Next::Ends(Ok(by_exit(Exit::One(way))));
    }
    match behind(around, label) {
        Some(rest) => Next::GoesOn(rest),
        None => Next::Ends(Err(Reason::Form)),
    }
}

/// A call ends the walk.
pub fn call(around: &Around<'_>, rest: &[Stmt86], label: Label) -> Result<End, Reason>
    ensures { EndsWithoutTerm (λ s. try_then (call_way (surroundings_of around.now) rest.now label) (one_way s)) result }
{
    let way = call_way(around, rest, label)?;
    Ok(by_exit(Exit::One(way)))
}

/// INT 224 ends the walk where it is a call of the system that comes back.
pub fn direct_call(around: &Around<'_>, rest: &[Stmt86], is_call: bool) -> Result<End, Reason>
    ensures { EndsWithoutTerm (λ s. cond is_call (Ok (outcome86 s true (One (AskSystem (back_from_system (surroundings_of around.now) rest.now))))) (Err Form)) result }
{
    if is_call {
        Ok(End {
            exit: Exit::One(Way::Sys(back_from_system(around, rest))),
            direct: true,
        })
    } else {
        Err(Reason::Form)
    }
}

/// IN and OUT end the walk, by this way, where it goes on at the address after the block.
pub fn port(around: &Around<'_>, rest: &[Stmt86], way: Way) -> Result<End, Reason>
    ensures { (tree : WayTree) → ((pool : Contents) → WayIs pool tree way) → EndsWithoutTerm (λ s. cond (comes_next (surroundings_of around.now) rest.now || not around.now.goes_on) (one_way s tree) (Err Form)) result }
{
    if comes_after(around, rest) {
        Ok(by_exit(Exit::One(way)))
    } else {
        Err(Reason::Form)
    }
}
