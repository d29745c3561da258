// Whether two outcomes agree, part by part.

ghost use Rattle.sym_micro.specs.Stands.{ActionIsGiven, ActionsAreGiven};
ghost use Rattle.sym_micro.specs.Exits.{WayIsGiven, ExitIsGiven};
ghost use Rattle.sym_terms.specs.Trees.{IsGiven};
ghost use Rattle.block_check.specs.Comparing.{AreReady};

use cells::{Part, Place};
use sym_run::{Action, Exit, Way, Work};
use sym_terms::Term;

fn parts_agree(work: &Work) -> bool
    requires { AreReady work.now }
{
    for part in Part::ALL {
        let first = work.first().part(part);
        let second = work.second().part(part);
        if !work.agree(first, second) {
            return false;
        }
    }
    true
}

fn action_agrees(work: &Work, first: Action, second: Action) -> bool
    requires first { ActionIsGiven work.now.terms first }
    requires second { ActionIsGiven work.now.terms second }
{
    match (first, second) {
        (Action::Load8(a), Action::Load8(b)) => work.agree(a, b),
        (Action::Load16(a), Action::Load16(b)) => work.agree(a, b),
        (Action::Store8(a, v), Action::Store8(b, w)) => work.agree(a, b) && work.agree(v, w),
        (Action::Store16(a, v), Action::Store16(b, w)) => work.agree(a, b) && work.agree(v, w),
        _ => false,
    }
}

// Whether loads and stores agree one by one.
fn actions_agree(work: &Work, first: &[Action], second: &[Action]) -> bool
    requires first { ActionsAreGiven work.now.terms first.now }
    requires second { ActionsAreGiven work.now.terms second.now }
{
    match (first.split_first(), second.split_first()) {
        (Some((a, first)), Some((b, second))) => {
            action_agrees(work, *a, *b) && actions_agree(work, first, second)
        }
        (None, None) => true,
        _ => false,
    }
}

fn ways_agree(work: &Work, first: Way, second: Way) -> bool
    requires first { WayIsGiven work.now.terms first }
    requires second { WayIsGiven work.now.terms second }
{
    match first {
        Way::Leave => true,
        Way::Goto(place) => is_goto(second, place),
        Way::ByTerms(high, low) => by_terms_agree(work, high, low, second),
        Way::Call(place, back) => is_call(second, place, back),
        Way::Sys(back) => is_sys(second, back),
        Way::SysReturn => matches!(second, Way::SysReturn),
        Way::Boot => matches!(second, Way::Boot),
        Way::In(port, next) => is_in(second, port, next),
        Way::Out(port, next) => is_out(second, port, next),
    }
}

fn is_goto(way: Way, wanted: Place) -> bool {
    match way {
        Way::Goto(place) => place.is_same(wanted),
        _ => false,
    }
}

fn by_terms_agree(work: &Work, high: Term, low: Term, second: Way) -> bool
    requires high { IsGiven work.now.terms high }
    requires low { IsGiven work.now.terms low }
    requires second { WayIsGiven work.now.terms second }
{
    match second {
        Way::ByTerms(h, l) => work.agree(high, h) && work.agree(low, l),
        _ => false,
    }
}

fn is_call(way: Way, wanted: Place, wanted_back: Place) -> bool {
    match way {
        Way::Call(place, back) => place.is_same(wanted) && back.is_same(wanted_back),
        _ => false,
    }
}

fn is_sys(way: Way, wanted: Place) -> bool {
    match way {
        Way::Sys(back) => back.is_same(wanted),
        _ => false,
    }
}

fn is_in(way: Way, wanted: u8, wanted_next: Place) -> bool {
    match way {
        Way::In(port, next) => port == wanted && next.is_same(wanted_next),
        _ => false,
    }
}

fn is_out(way: Way, wanted: u8, wanted_next: Place) -> bool {
    match way {
        Way::Out(port, next) => port == wanted && next.is_same(wanted_next),
        _ => false,
    }
}

fn exits_agree(work: &Work) -> bool
    requires { AreReady work.now }
{
    let first = work.first().exit();
    let second = work.second().exit();
    match first {
        Exit::One(a) => is_one(work, a, second),
        Exit::Two(f, v, a, b) => is_two(work, f, second) && both_agree(work, v, a, b, second),
    }
}

fn is_one(work: &Work, way: Way, second: Exit) -> bool
    requires way { WayIsGiven work.now.terms way }
    requires second { ExitIsGiven work.now.terms second }
{
    match second {
        Exit::One(other) => ways_agree(work, way, other),
        Exit::Two(..) => false,
    }
}

// Whether an exit has two ways, by a flag that agrees.
fn is_two(work: &Work, flag: Term, second: Exit) -> bool
    requires flag { IsGiven work.now.terms flag }
    requires second { ExitIsGiven work.now.terms second }
{
    match second {
        Exit::One(_) => false,
        Exit::Two(other, _, _, _) => work.agree(flag, other),
    }
}

// Whether the ways agree in pairs: `there` is the way where the flag has this value.
fn both_agree(work: &Work, value: bool, there: Way, here: Way, second: Exit) -> bool
    requires there { WayIsGiven work.now.terms there }
    requires here { WayIsGiven work.now.terms here }
    requires second { ExitIsGiven work.now.terms second }
{
    match second {
        Exit::One(_) => false,
        Exit::Two(_, other, x, y) => if value == other {
            ways_agree(work, there, x) && ways_agree(work, here, y)
        } else {
            ways_agree(work, there, y) && ways_agree(work, here, x)
        },
    }
}

/// Whether the two outcomes agree in their actions, all parts, SP and their exits.
pub fn outcomes_agree(work: &Work) -> bool
    requires { AreReady work.now }
{
    let first = work.first().sp();
    let second = work.second().sp();
    let before = work.first().actions();
    let after = work.second().actions();
    parts_agree(work)
        && actions_agree(work, before, after)
        && exits_agree(work)
        && work.agree(first, second)
}

/// The number that a part holds in the second outcome.
pub fn number_held(work: &Work, part: Part) -> Option<u16>
    requires { AreReady work.now }
{
    let term = work.second().part(part);
    work.number_of(term)
}

// The numbers of the address and the byte of a store.
fn numbers_of(work: &Work, action: Action) -> Option<(u16, u16)>
    requires { ActionIsGiven work.now.terms action }
{
    match action {
        Action::Store8(address, value) => {
            let address = work.number_of(address)?;
            let value = work.number_of(value)?;
            Some((address, value))
        }
        _ => None,
    }
}

// The same of the k-th action.
fn numbers_at(work: &Work, actions: &[Action], k: usize) -> Option<(u16, u16)>
    requires { ActionsAreGiven work.now.terms actions.now }
{
    let (action, others) = actions.split_first()?;
    if k == 0 {
        numbers_of(work, *action)
    } else {
        numbers_at(work, others, k - 1)
    }
}

/// The numbers of the address and the byte of a store that is the k-th action of the first outcome.
pub fn number_stored(work: &Work, k: usize) -> Option<(u16, u16)>
    requires { AreReady work.now }
{
    let actions = work.first().actions();
    numbers_at(work, actions, k)
}
