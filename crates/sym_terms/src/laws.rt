// Laws over the definitions of terms.

ghost use Rattle.sym_terms.specs.Laws.{MadeTermsKeepValues, MadeTermsHaveSorts};

/// A law: under every environment of either processor, each value that an operation may have on made operands of their sorts is one
/// that the made term may have; and where nothing open stands in it, a made term has at most one value of each kind.
pub fn made_terms_keep_values()
    ensures { MadeTermsKeepValues }
{}

/// A law: what a maker makes of made operands of their sorts is made, and of its sort.
pub fn made_terms_have_sorts()
    ensures { MadeTermsHaveSorts }
{}
