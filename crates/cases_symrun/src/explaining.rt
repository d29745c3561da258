// What is said of two outcomes that do not match.

ghost use Rattle.block_check.specs.Comparing.{AreReady};

use block_explain::explain_outcomes;
use cells::Part;
use std::alloc::{AllocError, Global};
use sym_run::{Reason, Work};

/// The reason of a word: the actions, the exits, SP, or else the part of this name.
pub fn reason_of(word: &str) -> Reason {
    match word {
        "actions" => Reason::Actions,
        "exits" => Reason::Exits,
        "sp" => Reason::KeptSp,
        "b" => Reason::Kept(Part::B),
        "c" => Reason::Kept(Part::C),
        "h" => Reason::Kept(Part::H),
        "s" => Reason::Kept(Part::S),
        "z" => Reason::Kept(Part::Z),
        "ac" => Reason::Kept(Part::Ac),
        "p" => Reason::Kept(Part::P),
        "cy" => Reason::Kept(Part::Cy),
        _ => Reason::Kept(Part::A),
    }
}

/// The lines, one after the other.
pub fn explained(alloc: Global, work: &Work, reason: Reason) -> Result<String, AllocError>
    requires { AreReady work.now }
{
    let lines = explain_outcomes(alloc, work, reason)?;
    let mut text = String::new(alloc);
    let mut is_first = true;
    for line in lines.as_str().lines() {
        if !is_first {
            text.push_str(" / ")?;
        }
        text.push_str(line)?;
        is_first = false;
    }
    Ok(text)
}
