// The types of a place at which a run leaves the profile.

use cells::Rule;

/// Whether a run that comes to a place leaves the profile there, or only may.
#[derive(Clone, Copy, PartialEq, Eq)]
pub enum Certainty {
    /// It leaves there.
    Sure,
    /// It leaves there unless a condition does not hold or a function is 0.
    May,
}

/// A place at which a run leaves the profile: the address of the instruction, and the rule.
#[derive(Clone, Copy)]
pub struct Departure {
    pub at: u16,
    pub rule: Rule,
    pub certainty: Certainty,
}
