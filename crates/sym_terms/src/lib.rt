// Terms over the pool: what stands in a symbolic execution for a value that is not a number yet. Two terms are equal exactly where their
// ids are.
//
// Proved: each maker of `Terms` answers the one id of the definition's term of its operands' terms (`Makes`): at most one node joins (for
// `sum16` and `flag_byte` two), ids that were given keep their terms, and None comes only where there is no room and no id stands for the
// term. Each term is made by the equations (`AreTerms`). Law `made_terms_keep_values`: under every environment of either processor each
// value that an operation may have on made operands is one that the made term may have; a term has at most one value of each kind on the
// 8080's side, and so has a made term in which nothing open and no decimal adjustment stands on the 8086's. Law `made_terms_have_sorts`:
// what a maker makes is made and of its sort.
#![tactic(auto)]

mod head;
mod laws;
mod makers;
mod nodes;
mod numbers;
mod terms;

pub use head::{Head, Term};
pub use laws::{made_terms_have_sorts, made_terms_keep_values};
pub use terms::Terms;
