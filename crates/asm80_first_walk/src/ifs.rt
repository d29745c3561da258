//! IFs that are open.

ghost use Rattle.std.specs.Prelude.{◌≡◌, not};
ghost use Rattle.std.specs.List.{list_any};
ghost use Rattle.asm80_first_walk.specs.declared.ifs.OpenIf.{OpenIf};

use asm80_source_def::AsmRule;

/// An IF that is open.
#[derive(Clone, Copy)]
pub struct OpenIf {
    /// Whether its statements are taken.
    pub is_taken: bool,
    /// What the source is refused for if it stays open: an earlier fault, or rule V6 at its line.
    pub refusal: (u32, AsmRule),
}

/// Whether one of the IFs skips its statements.
pub fn some_skips(ifs: &[OpenIf]) -> bool
    ensures { result ≡ list_any (λ (i : OpenIf). not i.is_taken) ifs.now }
{
    for open in ifs {
        if !open.is_taken {
            return true;
        }
    }
    false
}
