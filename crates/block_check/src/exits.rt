// Whether the exits of two outcomes agree.

ghost use Rattle.std.specs.Prelude.{◌≡◌};
ghost use Rattle.sym_block_def.specs.Agree.{way_agrees, ways_agree, exit_agrees};
ghost use Rattle.sym_micro.specs.Exits.{tree_of_way, tree_of_exit, WayIsGiven, ExitIsGiven};

use crate::pairs::pairs_agree;
use sym_run::{Exit, Way, Work};

// Whether a way agrees with its partner.
fn way_agrees(work: &Work, one: Way, other: Way) -> bool
    requires one { WayIsGiven work.now.terms one }
    requires other { WayIsGiven work.now.terms other }
    ensures { result ≡ way_agrees (tree_of_way work.now.terms one) (tree_of_way work.now.terms other) }
{
    match (one, other) {
        (Way::Leave, _) => true,
        (Way::Goto(q), Way::Goto(r)) => q.is_same(r),
        (Way::ByTerms(h, l), Way::ByTerms(u, v)) => pairs_agree(work, (h, l), (u, v)),
        (Way::Call(q, back), Way::Call(r, other_back)) => q.is_same(r) && back.is_same(other_back),
        (Way::Sys(back), Way::Sys(other_back)) => back.is_same(other_back),
        (Way::SysReturn, Way::SysReturn) | (Way::Boot, Way::Boot) => true,
        (Way::In(port, next), Way::In(other_port, other_next)) => port == other_port
            && next.is_same(other_next),
        (Way::Out(port, next), Way::Out(other_port, other_next)) => port == other_port
            && next.is_same(other_next),
        _ => false,
    }
}

// Whether two ways agree with two, by the same value of a flag in their order, by opposite values crosswise.
fn ways_agree(work: &Work, same: bool, ours: (Way, Way), theirs: (Way, Way)) -> bool
    requires where_so { WayIsGiven work.now.terms ours.0 }
    requires otherwise { WayIsGiven work.now.terms ours.1 }
    requires first { WayIsGiven work.now.terms theirs.0 }
    requires second { WayIsGiven work.now.terms theirs.1 }
    ensures { result ≡ ways_agree same (tree_of_way work.now.terms ours.0) (tree_of_way work.now.terms ours.1) (tree_of_way work.now.terms theirs.0) (tree_of_way work.now.terms theirs.1) }
{
    let (where_so, otherwise) = ours;
    let (first, second) = theirs;
    if same {
        way_agrees(work, where_so, first) && way_agrees(work, otherwise, second)
    } else {
        way_agrees(work, where_so, second) && way_agrees(work, otherwise, first)
    }
}

/// Whether an exit agrees with its partner.
pub fn exit_agrees(work: &Work, one: Exit, other: Exit) -> bool
    requires one { ExitIsGiven work.now.terms one }
    requires other { ExitIsGiven work.now.terms other }
    ensures { result ≡ exit_agrees (tree_of_exit work.now.terms one) (tree_of_exit work.now.terms other) }
{
    match (one, other) {
        (Exit::One(Way::Leave), _) => true,
        (Exit::One(way), Exit::One(partner)) => way_agrees(work, way, partner),
        (Exit::Two(f, v, a, b), Exit::Two(g, w, x, y)) => {
            let flags = work.agree(f, g);
            let ways = ways_agree(work, v == w, (a, b), (x, y));
            flags && ways
        }
        _ => false,
    }
}
