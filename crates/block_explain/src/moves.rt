// Loads and stores, ways and exits in words.
ghost use Rattle.std.specs.Prelude.{◌≡◌, ◌++◌, codes, IfOk};
ghost use Rattle.std.specs.String.{string_bytes};
ghost use Rattle.sym_terms.specs.Trees.{tree_in, IsGiven};
ghost use Rattle.sym_micro.specs.Stands.{tree_of_action, ActionIsGiven};
ghost use Rattle.sym_micro.specs.Exits.{tree_of_way, tree_of_exit, WayIsGiven, ExitIsGiven};
ghost use Rattle.block_explain.specs.Names.{number_words, label_words};
ghost use Rattle.block_explain.specs.Words.{words};
ghost use Rattle.block_explain.specs.Moves.{action_words, way_words, exit_words};

use crate::names::{label_words, number_words};
use crate::terms::term_words;
use cells::Place;
use std::alloc::{AllocError, Global};
use sym_micro::{Action, Exit, Way};
use sym_terms::{Term, Terms};

/// A load or a store.
pub fn action_words(alloc: Global, terms: &Terms, action: Action) -> Result<String, AllocError>
    requires { ActionIsGiven terms.now action }
    ensures { IfOk result (λ text. string_bytes text ≡ action_words (tree_of_action terms.now action)) }
{
    match action {
        Action::Load8(at) => before_term(alloc, terms, "load byte at ", at),
        Action::Load16(at) => before_term(alloc, terms, "load word at ", at),
        Action::Store8(at, value) => store_words(alloc, terms, "store byte ", value, at),
        Action::Store16(at, value) => store_words(alloc, terms, "store word ", value, at),
    }
}

fn before_term(alloc: Global, terms: &Terms, before: &str, term: Term) -> Result<String, AllocError>
    requires { IsGiven terms.now term }
    ensures { IfOk result (λ text. string_bytes text ≡ before.now ++ words (tree_in terms.now term)) }
{
    let term = term_words(alloc, terms, term)?;
    format!(in alloc; "{before}{term}")
}

fn store_words(
    alloc: Global,
    terms: &Terms,
    what: &str,
    value: Term,
    at: Term,
) -> Result<String, AllocError>
    requires value { IsGiven terms.now value }
    requires at { IsGiven terms.now at }
    ensures { IfOk result (λ text. string_bytes text ≡ what.now ++ (words (tree_in terms.now value) ++ (codes " at " ++ words (tree_in terms.now at)))) }
{
    let value = term_words(alloc, terms, value)?;
    let at = term_words(alloc, terms, at)?;
    format!(in alloc; "{what}{value} at {at}")
}

// A way out of a block.
fn way_words(alloc: Global, terms: &Terms, way: Way) -> Result<String, AllocError>
    requires { WayIsGiven terms.now way }
    ensures { IfOk result (λ text. string_bytes text ≡ way_words (tree_of_way terms.now way)) }
{
    match way {
        Way::Goto(place) => before_label(alloc, "to ", place),
        Way::ByTerms(high, low) => halves_words(alloc, terms, high, low),
        Way::Call(place, back) => call_words(alloc, place, back),
        Way::Sys(back) => before_label(alloc, "system, back to ", back),
        Way::SysReturn => String::from_str(alloc, "system and return"),
        Way::Boot => String::from_str(alloc, "end"),
        Way::Leave => String::from_str(alloc, "out of the profile"),
        Way::In(port, next) => port_words(alloc, "in ", port, next),
        Way::Out(port, next) => port_words(alloc, "out ", port, next),
    }
}

fn halves_words(alloc: Global, terms: &Terms, high: Term, low: Term) -> Result<String, AllocError>
    requires high { IsGiven terms.now high }
    requires low { IsGiven terms.now low }
    ensures { IfOk result (λ text. string_bytes text ≡ codes "to " ++ (words (tree_in terms.now high) ++ (codes ":" ++ words (tree_in terms.now low)))) }
{
    let high = term_words(alloc, terms, high)?;
    let low = term_words(alloc, terms, low)?;
    format!(in alloc; "to {high}:{low}")
}

fn call_words(alloc: Global, place: Place, back: Place) -> Result<String, AllocError>
    ensures { IfOk result (λ text. string_bytes text ≡ codes "call " ++ (label_words place ++ (codes ", back to " ++ label_words back))) }
{
    let place = label_words(alloc, place)?;
    let back = label_words(alloc, back)?;
    format!(in alloc; "call {place}, back to {back}")
}

fn before_label(alloc: Global, before: &str, place: Place) -> Result<String, AllocError>
    ensures { IfOk result (λ text. string_bytes text ≡ before.now ++ label_words place) }
{
    let label = label_words(alloc, place)?;
    format!(in alloc; "{before}{label}")
}

fn port_words(alloc: Global, what: &str, port: u8, next: Place) -> Result<String, AllocError>
    ensures { IfOk result (λ text. string_bytes text ≡ what.now ++ (number_words port ++ (codes ", on to " ++ label_words next))) }
{
    let number = number_words(alloc, u16::from(port))?;
    let next = label_words(alloc, next)?;
    format!(in alloc; "{what}{number}, on to {next}")
}

/// Where a block goes.
pub fn exit_words(alloc: Global, terms: &Terms, exit: Exit) -> Result<String, AllocError>
    requires { ExitIsGiven terms.now exit }
    ensures { IfOk result (λ text. string_bytes text ≡ exit_words (tree_of_exit terms.now exit)) }
{
    match exit {
        Exit::One(way) => way_words(alloc, terms, way),
        Exit::Two(flag, value, where_so, otherwise) => {
            let condition = if value { "if " } else { "if not " };
            let condition = before_term(alloc, terms, condition, flag)?;
            ways_words(alloc, terms, condition.as_str(), where_so, otherwise)
        }
    }
}

// Two ways under a condition.
fn ways_words(
    alloc: Global,
    terms: &Terms,
    condition: &str,
    where_so: Way,
    otherwise: Way,
) -> Result<String, AllocError>
    requires where_so { WayIsGiven terms.now where_so }
    requires otherwise { WayIsGiven terms.now otherwise }
    ensures { IfOk result (λ text. string_bytes text ≡ condition.now ++ (codes " then " ++ (way_words (tree_of_way terms.now where_so) ++ (codes " else " ++ way_words (tree_of_way terms.now otherwise))))) }
{
    let where_so = way_words(alloc, terms, where_so)?;
    let otherwise = way_words(alloc, terms, otherwise)?;
    format!(in alloc; "{condition} then {where_so} else {otherwise}")
}
