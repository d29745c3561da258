// Why an outcome does not match, in lines.

ghost use Rattle.std.specs.Prelude.{◌≡◌, ◌++◌, codes, IfOk};
ghost use Rattle.std.specs.String.{string_bytes};
ghost use Rattle.sym_terms.specs.Trees.{tree_in, IsGiven};
ghost use Rattle.block_check.specs.Comparing.{AreReady, AreReadyFor, first_outcome, second_of};
ghost use Rattle.block_explain.specs.Pairs.{IsOneGiven, tree_of_one, trees_if_any, GivenIfAny, trees_of, AreBothGiven};
ghost use Rattle.block_explain.specs.Explained.{Sides, action_or_none, terms_told, is_lost, sides_lines, DiffersIn, SidesDiffer, AreToldLines, Explains};

use crate::apart::{action_terms, exit_terms, first_apart};
use crate::moves::{action_words, exit_words};
use crate::smallest::{TermPair, pair, smallest_pair};
use crate::terms::term_words;
use block_check::Work;
use cells::Part;
use std::alloc::{AllocError, Global};
use sym_run::{Action, Exit, Reason, Way};
use sym_terms::{Term, Terms};

/// The lines that say why the second outcome of a work does not match the first one, for the reason that was found. There are none for
/// a reason that is not of outcomes.
pub fn explain_outcomes(alloc: Global, work: &Work, reason: Reason) -> Result<String, AllocError>
    requires { AreReadyFor reason work.now }
    ensures { IfOk result (λ text. Explains reason (first_outcome work.now) (second_of work.now) (string_bytes text)) }
{
    match reason {
        Reason::Actions => explain_actions(alloc, work),
        Reason::Exits => explain_exits(alloc, work),
        Reason::Kept(part) if is_lost(work, part) => String::from_str(alloc, "lost by INT 224\n"),
        Reason::Kept(part) => {
            explain_terms(
                alloc,
                work,
                work.first().part(part),
                work.second().part(part),
            )
        }
        Reason::KeptSp => explain_terms(alloc, work, work.first().sp(), work.second().sp()),
        Reason::Opening
        | Reason::Runtime
        | Reason::DataPart
        | Reason::Missing
        | Reason::Length
        | Reason::Form => Ok(String::new(alloc)),
    }
}

// The loads and stores.
fn explain_actions(alloc: Global, work: &Work) -> Result<String, AllocError>
    requires { AreReady work.now }
    ensures { IfOk result (λ text. Explains Reason.Actions (first_outcome work.now) (second_of work.now) (string_bytes text)) }
{
    let terms = work.terms();
    let apart = first_apart(work, work.first().actions(), work.second().actions());
    let ours = action_or_none(alloc, terms, apart.ours)?;
    let theirs = action_or_none(alloc, terms, apart.theirs)?;
    lines(
        alloc,
        terms,
        ours.as_str(),
        theirs.as_str(),
        action_terms(work, apart),
    )
}

// A load or a store in words, or that there is none.
fn action_or_none(
    alloc: Global,
    terms: &Terms,
    action: Option<Action>,
) -> Result<String, AllocError>
    requires { IsOneGiven terms.now action }
    ensures { IfOk result (λ text. string_bytes text ≡ action_or_none (tree_of_one terms.now action)) }
{
    match action {
        Some(action) => action_words(alloc, terms, action),
        None => String::from_str(alloc, "none"),
    }
}

// The exits.
fn explain_exits(alloc: Global, work: &Work) -> Result<String, AllocError>
    requires { AreReady work.now }
    ensures { IfOk result (λ text. Explains Reason.Exits (first_outcome work.now) (second_of work.now) (string_bytes text)) }
{
    let terms = work.terms();
    let one = work.first().exit();
    let other = work.second().exit();
    let ours = exit_words(alloc, terms, one)?;
    let theirs = exit_words(alloc, terms, other)?;
    lines(
        alloc,
        terms,
        ours.as_str(),
        theirs.as_str(),
        exit_terms(work, one, other),
    )
}

// Whether INT 224 loses a part that is kept and bad.
fn is_lost(work: &Work, part: Part) -> bool
    ensures { result ≡ is_lost (first_outcome work.now) (second_of work.now) part }
{
    let is_system_call = matches!(work.first().exit(), Exit::One(Way::Sys(_)));
    let may_be_lost = matches!(part, Part::B | Part::L);
    work.second().direct() && (is_system_call && may_be_lost)
}

// Two terms that do not agree.
fn explain_terms(alloc: Global, work: &Work, ours: Term, theirs: Term) -> Result<String, AllocError>
    requires ours { IsGiven work.now.terms ours }
    requires theirs { IsGiven work.now.terms theirs }
    ensures { IfOk result (λ text. AreToldLines (terms_told (tree_in work.now.terms ours) (tree_in work.now.terms theirs)) (string_bytes text)) }
{
    let terms = work.terms();
    let one = term_words(alloc, terms, ours)?;
    let other = term_words(alloc, terms, theirs)?;
    lines(
        alloc,
        terms,
        one.as_str(),
        other.as_str(),
        Some(pair(ours, theirs)),
    )
}

// Both sides, and the terms in which they differ.
fn lines(
    alloc: Global,
    terms: &Terms,
    ours: &str,
    theirs: &str,
    apart: Option<TermPair>,
) -> Result<String, AllocError>
    requires { GivenIfAny terms.now apart }
    ensures { IfOk result (λ text. AreToldLines (Sides ours.now theirs.now (trees_if_any terms.now apart)) (string_bytes text)) }
{
    match apart {
        Some(apart) => lines_with_difference(alloc, terms, ours, theirs, apart),
        None => sides_lines(alloc, ours, theirs),
    }
}

fn sides_lines(alloc: Global, ours: &str, theirs: &str) -> Result<String, AllocError>
    ensures { IfOk result (λ text. string_bytes text ≡ sides_lines ours.now theirs.now) }
{
    format!(in alloc; "80 {ours}\n86 {theirs}\n")
}

fn lines_with_difference(
    alloc: Global,
    terms: &Terms,
    ours: &str,
    theirs: &str,
    apart: TermPair,
) -> Result<String, AllocError>
    requires { AreBothGiven terms.now apart }
    ensures { IfOk result (λ text. SidesDiffer ours.now theirs.now (trees_of terms.now apart) (string_bytes text)) }
{
    let sides = sides_lines(alloc, ours, theirs)?;
    let differing = differing_lines(alloc, terms, apart)?;
    format!(in alloc; "{sides}{differing}")
}

// The smallest terms in which two differ.
fn differing_lines(alloc: Global, terms: &Terms, apart: TermPair) -> Result<String, AllocError>
    requires { AreBothGiven terms.now apart }
    ensures { IfOk result (λ text. DiffersIn (trees_of terms.now apart) (string_bytes text)) }
{
    let smallest = smallest_pair(terms, apart);
    let one = term_words(alloc, terms, smallest.ours)?;
    let other = term_words(alloc, terms, smallest.theirs)?;
    format!(in alloc; "80 differs: {one}\n86 differs: {other}\n")
}
