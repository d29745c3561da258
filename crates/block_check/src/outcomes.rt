// Whether the outcome of a text agrees with that of a block.

ghost use Rattle.std.specs.Prelude.{◌≡◌, ◌||◌};
ghost use Rattle.std.specs.List.{find};
ghost use Rattle.sym_block_def.specs.BlockMatch.{is_last, is_boot_alone, sp_agrees, kept_reason};
ghost use Rattle.sym_micro.specs.Exits.{tree_of_way, tree_of_exit};
ghost use Rattle.xlt_pool.specs.Contents.{Contents};
ghost use Rattle.block_check.specs.Kept.{wanted_parts, lost_of};
ghost use Rattle.block_check.specs.Comparing.{AreReady, first_outcome, second_of, is_bad_by, reason_by};

use crate::actions::actions_agree;
use crate::asked::{Wanted, loses, wants};
use crate::exits::exit_agrees;
use cells::{Keep, Part};
use sym_run::{Exit, Reason, Way, Work};

// Whether a part is lost, or is kept and does not agree.
fn is_bad(work: &Work, kept: &Wanted, back: Keep, part: Part) -> bool
    requires { AreReady work.now }
    ensures { result ≡ is_bad_by (wanted_parts kept.now) (lost_of back) (first_outcome work.now) (second_of work.now) part }
{
    let is_lost = work.second().direct() && loses(back, part);
    is_lost || wants(kept, part) && !work.agree(work.first().part(part), work.second().part(part))
}

// The first of some parts that is bad.
fn first_bad_of(work: &Work, kept: &Wanted, back: Keep, parts: &[Part]) -> Option<Part>
    requires { AreReady work.now }
    ensures { result ≡ find (is_bad_by (wanted_parts kept.now) (lost_of back) (first_outcome work.now) (second_of work.now)) parts.now }
{
    let mut rest = parts;
    while let Some((part, others)) = rest.split_first() {
        if is_bad(work, kept, back, *part) {
            return Some(*part);
        }
        rest = others;
    }
    None
}

// Whether the program ends on a way, or certainly leaves the profile.
fn is_last(way: Way) -> bool
    ensures { (pool : Contents) → result ≡ is_last (tree_of_way pool way) }
{
    match way {
        Way::Boot | Way::Leave => true,
        _ => false,
    }
}

// Whether it does so on every way.
fn is_end(exit: Exit) -> bool
    ensures { (pool : Contents) → result ≡ is_boot_alone (tree_of_exit pool exit) }
{
    match exit {
        Exit::One(way) => is_last(way),
        Exit::Two(_, _, where_so, otherwise) => is_last(where_so) && is_last(otherwise),
    }
}

// Whether SP agrees, where it is looked at.
fn sp_agrees(work: &Work) -> bool
    requires { AreReady work.now }
    ensures { result ≡ sp_agrees (first_outcome work.now) (second_of work.now) }
{
    let first = work.first();
    let agrees = work.agree(first.sp(), work.second().sp());
    is_end(first.exit()) || agrees
}

// What is found behind the actions and the exits: a bad part, or SP.
fn kept_reason(work: &Work, bad: Option<Part>) -> Option<Reason>
    requires { AreReady work.now }
    ensures { result ≡ kept_reason (first_outcome work.now) (second_of work.now) bad }
{
    match bad {
        Some(part) => Some(Reason::Kept(part)),
        None if sp_agrees(work) => None,
        None => Some(Reason::KeptSp),
    }
}

/// The first reason why the second outcome of a work does not match the first one, whose exit keeps some parts; a direct call goes on
/// where others are kept.
pub fn reason_of(work: &Work, kept: &Wanted, back: Keep) -> Option<Reason>
    requires { AreReady work.now }
    ensures { result ≡ reason_by (wanted_parts kept.now) (lost_of back) (first_outcome work.now) (second_of work.now) }
{
    let first = work.first();
    let second = work.second();
    if !actions_agree(work, first.actions(), second.actions()) {
        return Some(Reason::Actions);
    }
    if !exit_agrees(work, first.exit(), second.exit()) {
        return Some(Reason::Exits);
    }
    let bad = first_bad_of(work, kept, back, &Part::ALL);
    kept_reason(work, bad)
}
