// The way of a return.

ghost use Rattle.sym_terms.specs.Term.{Loaded16};
ghost use Rattle.sym_terms.specs.Making.{high, low};
ghost use Rattle.sym_block_def.specs.Outcome.{ByTerms};
ghost use Rattle.sym_micro.specs.Stands.{IsReady};
ghost use Rattle.sym_micro.specs.Exits.{FindsWay};

use crate::outcome::Way;
use crate::run::Run;
use sym_terms::Terms;

/// The way of a return: to the place that the next load of a word brings. None only where the terms had no room for a node more.
pub fn return_way(terms: &mut Terms, run: &Run) -> Option<Way>
    requires { IsReady terms.old run.now }
    ensures { FindsWay terms.old terms.new 3 (ByTerms (high (Loaded16 run.now.loads)) (low (Loaded16 run.now.loads))) result }
{
    let word = terms.loaded(run.loads, true)?;
    let high = terms.half(word, true)?;
    let low = terms.half(word, false)?;
    Some(Way::ByTerms(high, low))
}
