// What of two outcomes does not agree.

ghost use Rattle.sym_terms.specs.Trees.{tree_in, IsGiven};
ghost use Rattle.sym_micro.specs.Stands.{trees_of_actions, ActionsAreGiven};
ghost use Rattle.sym_micro.specs.Exits.{tree_of_way, tree_of_exit, WayIsGiven, ExitIsGiven};
ghost use Rattle.block_explain.specs.Apart.{first_apart, if_apart, first_of, action_terms, way_terms, ways_terms, exit_terms};
ghost use Rattle.block_explain.specs.Pairs.{AreBothGiven, PairIsFound, ActionsStand, AreActionsGiven, tree_of_one};

use crate::smallest::{TermPair, pair};
use block_check::action_agrees;
use sym_run::{Action, Exit, Way, Work};
use sym_terms::Term;

/// A load or a store on either side, where there is one.
#[derive(Clone, Copy)]
pub struct ActionPair {
    pub ours: Option<Action>,
    pub theirs: Option<Action>,
}

/// The first two that do not agree, or the first one without a partner.
pub fn first_apart(work: &Work, ours: &[Action], theirs: &[Action]) -> ActionPair
    requires ours { ActionsAreGiven work.now.terms ours.now }
    requires theirs { ActionsAreGiven work.now.terms theirs.now }
    ensures { ActionsStand work.now.terms result (first_apart (trees_of_actions work.now.terms ours.now) (trees_of_actions work.now.terms theirs.now)) }
{
    let mut rest = ours;
    let mut partners = theirs;
    while let (Some((one, others)), Some((other, more))) = (
        rest.split_first(),
        partners.split_first(),
    ) {
        if !action_agrees(work, *one, *other) {
            return ActionPair {
                ours: Some(*one),
                theirs: Some(*other),
            };
        }
        rest = others;
        partners = more;
    }
    ActionPair {
        ours: rest.first().copied(),
        theirs: partners.first().copied(),
    }
}

// Two terms, where they do not agree.
fn if_apart(work: &Work, ours: Term, theirs: Term) -> Option<TermPair>
    requires ours { IsGiven work.now.terms ours }
    requires theirs { IsGiven work.now.terms theirs }
    ensures { PairIsFound work.now.terms (if_apart (tree_in work.now.terms ours) (tree_in work.now.terms theirs)) result }
{
    if work.agree(ours, theirs) {
        None
    } else {
        Some(TermPair { ours, theirs })
    }
}

// The first of two pairs of terms that do not agree.
fn first_if_apart(work: &Work, first: TermPair, second: TermPair) -> Option<TermPair>
    requires first { AreBothGiven work.now.terms first }
    requires second { AreBothGiven work.now.terms second }
    ensures { PairIsFound work.now.terms (first_of (if_apart (tree_in work.now.terms first.ours) (tree_in work.now.terms first.theirs)) (if_apart (tree_in work.now.terms second.ours) (tree_in work.now.terms second.theirs))) result }
{
    match if_apart(work, first.ours, first.theirs) {
        Some(pair) => Some(pair),
        None => if_apart(work, second.ours, second.theirs),
    }
}

/// The first terms of two loads or stores of one kind that do not agree.
pub fn action_terms(work: &Work, actions: ActionPair) -> Option<TermPair>
    requires { AreActionsGiven work.now.terms actions }
    ensures { PairIsFound work.now.terms (action_terms (tree_of_one work.now.terms actions.ours) (tree_of_one work.now.terms actions.theirs)) result }
{
    match (actions.ours, actions.theirs) {
        (Some(Action::Load8(a)), Some(Action::Load8(b))) => if_apart(work, a, b),
        (Some(Action::Load16(a)), Some(Action::Load16(b))) => if_apart(work, a, b),
        (Some(Action::Store8(a, v)), Some(Action::Store8(b, w))) => {
            first_if_apart(work, pair(a, b), pair(v, w))
        }
        (Some(Action::Store16(a, v)), Some(Action::Store16(b, w))) => {
            first_if_apart(work, pair(a, b), pair(v, w))
        }
        _ => None,
    }
}

// The first terms of two ways by terms that do not agree.
fn way_terms(work: &Work, one: Way, other: Way) -> Option<TermPair>
    requires one { WayIsGiven work.now.terms one }
    requires other { WayIsGiven work.now.terms other }
    ensures { PairIsFound work.now.terms (way_terms (tree_of_way work.now.terms one) (tree_of_way work.now.terms other)) result }
{
    match (one, other) {
        (Way::ByTerms(high, low), Way::ByTerms(x, y)) => {
            first_if_apart(work, pair(high, x), pair(low, y))
        }
        _ => None,
    }
}

// Those of two ways and two others, which stand in one order or in the other.
fn ways_terms(
    work: &Work,
    is_one_order: bool,
    ours: (Way, Way),
    theirs: (Way, Way),
) -> Option<TermPair>
    requires where_so { WayIsGiven work.now.terms ours.0 }
    requires otherwise { WayIsGiven work.now.terms ours.1 }
    requires first { WayIsGiven work.now.terms theirs.0 }
    requires second { WayIsGiven work.now.terms theirs.1 }
    ensures { PairIsFound work.now.terms (ways_terms is_one_order (tree_of_way work.now.terms ours.0) (tree_of_way work.now.terms ours.1) (tree_of_way work.now.terms theirs.0) (tree_of_way work.now.terms theirs.1)) result }
{
    let (first, second) = if is_one_order {
        theirs
    } else {
        (theirs.1, theirs.0)
    };
    match way_terms(work, ours.0, first) {
        Some(pair) => Some(pair),
        None => way_terms(work, ours.1, second),
    }
}

/// The first terms of two exits of one form that do not agree.
pub fn exit_terms(work: &Work, one: Exit, other: Exit) -> Option<TermPair>
    requires one { ExitIsGiven work.now.terms one }
    requires other { ExitIsGiven work.now.terms other }
    ensures { PairIsFound work.now.terms (exit_terms (tree_of_exit work.now.terms one) (tree_of_exit work.now.terms other)) result }
{
    match (one, other) {
        (Exit::One(way), Exit::One(partner)) => way_terms(work, way, partner),
        (Exit::Two(f, v, a, b), Exit::Two(g, w, x, y)) => match if_apart(work, f, g) {
            Some(flags) => Some(flags),
            None => ways_terms(work, v == w, (a, b), (x, y)),
        },
        _ => None,
    }
}
