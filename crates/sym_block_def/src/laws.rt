// Laws over the definitions of runs.

ghost use Rattle.sym_block_def.specs.Sorts.{StepsKeepSorts};

use sym_terms::made_terms_have_sorts;

/// A law: where instructions have their numbers in range, the terms of a run of either processor are made and of their sorts, from
/// its start to its outcome.
pub fn steps_keep_sorts()
    ensures { StepsKeepSorts }
{
    made_terms_have_sorts();
}
