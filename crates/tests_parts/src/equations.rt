// Each equation by which terms are made, from both sides: a proof alone, since each maker is its equation.
ghost use Rattle.tests_parts.specs.Equations.{EquationsHold};

/// A law: what terms are made of chosen operands.
pub fn equations_hold()
    ensures { EquationsHold }
{}
