// Whether two terms of one outcome agree with two of another.

ghost use Rattle.std.specs.Prelude.{◌≡◌, ◌&&◌};
ghost use Rattle.sym_terms.specs.Trees.{tree_in, IsGiven};
ghost use Rattle.sym_block_def.specs.Agree.{agrees};

use sym_run::Work;
use sym_terms::Term;

/// Whether the first terms of two pairs agree, and the second ones too.
pub fn pairs_agree(work: &Work, ours: (Term, Term), theirs: (Term, Term)) -> bool
    requires first { IsGiven work.now.terms ours.0 }
    requires second { IsGiven work.now.terms ours.1 }
    requires partner { IsGiven work.now.terms theirs.0 }
    requires other { IsGiven work.now.terms theirs.1 }
    ensures { result ≡ (agrees (tree_in work.now.terms ours.0) (tree_in work.now.terms theirs.0) && agrees (tree_in work.now.terms ours.1) (tree_in work.now.terms theirs.1)) }
{
    let first = work.agree(ours.0, theirs.0);
    let second = work.agree(ours.1, theirs.1);
    first && second
}
