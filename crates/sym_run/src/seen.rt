// What a term is compared with, which need not be a node.

ghost use Rattle.std.specs.Prelude.{◌≡◌};
ghost use Rattle.sym_terms.specs.Term.{Unknown, same_term};
ghost use Rattle.sym_terms.specs.Making.{half_of};
ghost use Rattle.sym_terms.specs.Trees.{tree_in, IsGiven};
ghost use Rattle.sym_run.specs.Seen.{tree_of_seen, SeenIsGiven};

use sym_terms::{Head, Term, Terms};

/// A term, or the half of a word, read off the word.
#[derive(Clone, Copy)]
pub enum Seen {
    Of(Term),
    /// The high half of a word that is no number and no two bytes, or the low one.
    Half(Term, bool),
    Number(u16),
    Unknown,
}

/// The half of a word.
pub fn half_of(terms: &Terms, word: Term, high: bool) -> Seen
    requires { IsGiven terms.now word }
    ensures given { SeenIsGiven terms.now result }
    ensures tree { tree_of_seen terms.now result ≡ half_of high (tree_in terms.now word) }
{
    match terms.head(word) {
        Head::Num(n) => Seen::Number(if high { n / 256 } else { n % 256 }),
        Head::Join(first, second) => Seen::Of(if high { first } else { second }),
        Head::Turned(_) | Head::Unknown => Seen::Unknown,
        _ => Seen::Half(word, high),
    }
}

/// Whether two terms are one.
pub fn same(terms: &Terms, s: Term, t: Term) -> bool
    requires s { IsGiven terms.now s }
    requires t { IsGiven terms.now t }
    ensures { result ≡ same_term (tree_in terms.now s) (tree_in terms.now t) }
{
    // for its contract alone: the terms are terms
    let _mark = terms.mark();
    s == t
}

/// Whether a term is what is seen.
pub fn is(terms: &Terms, s: Term, seen: Seen) -> bool
    requires s { IsGiven terms.now s }
    requires seen { SeenIsGiven terms.now seen }
    ensures { result ≡ same_term (tree_in terms.now s) (tree_of_seen terms.now seen) }
{
    match seen {
        Seen::Of(t) => same(terms, s, t),
        Seen::Half(word, high) => is_half(terms, s, word, high),
        Seen::Number(n) => match terms.head(s) {
            Head::Num(m) => m == n,
            _ => false,
        },
        Seen::Unknown => is_unknown(terms, s),
    }
}

fn is_half(terms: &Terms, s: Term, word: Term, high: bool) -> bool
    requires s { IsGiven terms.now s }
    requires word { IsGiven terms.now word }
    ensures { result ≡ same_term (tree_in terms.now s) (tree_of_seen terms.now (Seen.Half word high)) }
{
    match terms.head(s) {
        Head::High(other) => high && same(terms, other, word),
        Head::Low(other) => !high && same(terms, other, word),
        _ => false,
    }
}

/// Whether a term is Unknown.
pub fn is_unknown(terms: &Terms, s: Term) -> bool
    requires { IsGiven terms.now s }
    ensures { result ≡ same_term (tree_in terms.now s) Unknown }
{
    match terms.head(s) {
        Head::Unknown => true,
        _ => false,
    }
}
