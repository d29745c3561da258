// Whether the loads and stores of two outcomes agree.

ghost use Rattle.std.specs.Prelude.{◌≡◌};
ghost use Rattle.sym_block_def.specs.Agree.{action_agrees, actions_agree};
ghost use Rattle.sym_micro.specs.Stands.{tree_of_action, trees_of_actions, ActionIsGiven, ActionsAreGiven};

use crate::pairs::pairs_agree;
use sym_run::{Action, Work};

/// Whether a load or store agrees with its partner.
pub fn action_agrees(work: &Work, one: Action, other: Action) -> bool
    requires one { ActionIsGiven work.now.terms one }
    requires other { ActionIsGiven work.now.terms other }
    ensures { result ≡ action_agrees (tree_of_action work.now.terms one) (tree_of_action work.now.terms other) }
{
    match (one, other) {
        (Action::Load8(a), Action::Load8(b)) => work.agree(a, b),
        (Action::Load16(a), Action::Load16(b)) => work.agree(a, b),
        (Action::Store8(a, v), Action::Store8(b, w)) => pairs_agree(work, (a, v), (b, w)),
        (Action::Store16(a, v), Action::Store16(b, w)) => pairs_agree(work, (a, v), (b, w)),
        _ => false,
    }
}

/// Whether loads and stores agree one by one, in the same order.
pub fn actions_agree(work: &Work, ours: &[Action], theirs: &[Action]) -> bool
    requires ours { ActionsAreGiven work.now.terms ours.now }
    requires theirs { ActionsAreGiven work.now.terms theirs.now }
    ensures { result ≡ actions_agree (trees_of_actions work.now.terms ours.now) (trees_of_actions work.now.terms theirs.now) }
{
    let mut rest = ours;
    let mut partners = theirs;
    while let Some((one, others)) = rest.split_first() {
        match partners.split_first() {
            Some((other, more)) if action_agrees(work, *one, *other) => {
                rest = others;
                partners = more;
            }
            _ => return false,
        }
    }
    partners.is_empty()
}
