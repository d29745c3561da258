// Whether nothing unknown stands in a term. An Unknown shows in a made term where the term is one itself, or a half of a Join or a
// flag of a FlagByte is, so that no term is walked.

ghost use Rattle.std.specs.Prelude.{◌≡◌, not, false, MatchOption};
ghost use Rattle.sym_terms.specs.Term.{is_bit, is_byte};
ghost use Rattle.sym_terms.specs.Trees.{tree_in, IsGiven, IsA};
ghost use Rattle.sym_block_def.specs.Agree.{has_unknown};
ghost use Rattle.sym_run.specs.Five.{is_byte_of_flags, FiveAre};

use crate::seen::is_unknown;
use sym_terms::{Head, Term, Terms, made_terms_have_sorts};

/// The flags of a FlagByte.
#[derive(Clone, Copy)]
pub struct Five {
    pub s: Term,
    pub z: Term,
    pub ac: Term,
    pub p: Term,
    pub cy: Term,
}

/// The flags of a term that is a FlagByte.
pub fn flags_of(terms: &Terms, term: Term) -> Option<Five>
    requires { IsGiven terms.now term }
    ensures { MatchOption result (is_byte_of_flags (tree_in terms.now term) ≡ false) (FiveAre terms.now (tree_in terms.now term)) }
{
    match terms.head(term) {
        Head::FlagByte(s, z, ac, p, cy) => Some(Five { s, z, ac, p, cy }),
        _ => None,
    }
}

/// Whether a bit is known.
pub fn knows_bit(terms: &Terms, bit: Term) -> bool
    requires { IsA is_bit terms.now bit }
    ensures { result ≡ not (has_unknown (tree_in terms.now bit)) }
{
    made_terms_have_sorts();
    // for its contract alone: the terms are terms
    let _mark = terms.mark();
    !is_unknown(terms, bit)
}

/// Whether nothing unknown stands in a byte.
pub fn knows_byte(terms: &Terms, byte: Term) -> bool
    requires { IsA is_byte terms.now byte }
    ensures { result ≡ not (has_unknown (tree_in terms.now byte)) }
{
    made_terms_have_sorts();
    // for its contract alone: the terms are terms
    let _mark = terms.mark();
    match flags_of(terms, byte) {
        Some(five) => knows_five(terms, byte, five),
        None => !is_unknown(terms, byte),
    }
}

/// Whether nothing unknown stands in a FlagByte.
pub fn knows_five(terms: &Terms, byte: Term, five: Five) -> bool
    requires { FiveAre terms.now (tree_in terms.now byte) five }
    ensures { result ≡ not (has_unknown (tree_in terms.now byte)) }
{
    let s = knows_bit(terms, five.s);
    let z = knows_bit(terms, five.z);
    let ac = knows_bit(terms, five.ac);
    let p = knows_bit(terms, five.p);
    let cy = knows_bit(terms, five.cy);
    s && z && ac && p && cy
}
