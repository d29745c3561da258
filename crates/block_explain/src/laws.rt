// Laws of what is said of terms and outcomes.
ghost use Rattle.block_explain.specs.Smallest.{OneSmallest};
ghost use Rattle.block_explain.specs.Explained.{OneExplanation};

/// A law: of two terms just one pair is the smallest that differs.
pub fn smallest_pairs_are_one()
    ensures { OneSmallest }
{}

/// A law: of a reason and two outcomes the lines are just these.
pub fn explanations_are_one()
    ensures { OneExplanation }
{}
