// Whether one block alone can come to a place in a text.
ghost use Rattle.std.specs.Prelude.{◌≡◌, ◌<◌, ◌≤◌, ◌↔◌, IsTrue, IfSome, length};
ghost use Rattle.std.specs.List.{list_all};
ghost use Rattle.asm86_line_types.specs.Image.{statements};
ghost use Rattle.shrink.specs.Apart.{is_inner, is_label, begins_with_label, LabelStands, IsApart, IsBlockLabel};

use asm86_line_types::{Label, Line86, Stmt86};
use flow::Graph;

/// The place of the last label of a block before a place, and the block.
pub fn label_before(graph: &Graph, lines: &[Line86], place: usize) -> Option<(usize, u16)>
    requires { place ≤ length lines.now }
    ensures { IfSome result (λ b. (b.0 < place) × LabelStands graph.now.program lines.now b.0 b.1) }
{
    let mut at = place;
    while at > 0 {
        at -= 1;
        if let Some(leader) = leader_of(graph, lines[at].stmt) {
            return Some((at, leader));
        }
    }
    None
}

// The block whose label a statement is.
fn leader_of(graph: &Graph, stmt: Stmt86) -> Option<u16>
    ensures { IfSome result (λ a. IsBlockLabel graph.now.program stmt a) }
{
    let Stmt86::Mark(Label::At(a)) = stmt else {
        return None;
    };
    graph.block(a)?;
    Some(a)
}

/// Whether between the label of a block and a place there are inner statements alone, and a label before the place is not joined to one
/// that follows it.
pub fn is_apart(graph: &Graph, inner: &[Line86], rest: &[Line86]) -> bool
    ensures { IsTrue result ↔ IsApart graph.now.program inner.now rest.now }
{
    are_inner(graph, inner) && !(are_labels(inner) && begins_with_label(rest))
}

fn are_inner(graph: &Graph, lines: &[Line86]) -> bool
    ensures { result ≡ list_all (λ line. is_inner graph.now.program line.stmt) lines.now }
{
    for line in lines {
        if !is_inner(graph, line.stmt) {
            return false;
        }
    }
    true
}

fn are_labels(lines: &[Line86]) -> bool
    ensures { result ≡ list_all (λ line. is_label line.stmt) lines.now }
{
    for line in lines {
        if !matches!(line.stmt, Stmt86::Mark(_)) {
            return false;
        }
    }
    true
}

fn begins_with_label(lines: &[Line86]) -> bool
    ensures { result ≡ begins_with_label (statements lines.now) }
{
    match lines.first() {
        Some(line) => matches!(line.stmt, Stmt86::Mark(_)),
        None => false,
    }
}

// Whether no walk begins at a statement, nor comes to it by a jump.
fn is_inner(graph: &Graph, stmt: Stmt86) -> bool
    ensures { result ≡ is_inner graph.now.program stmt }
{
    match stmt {
        Stmt86::Mark(Label::At(a)) => graph.block(a).is_none(),
        Stmt86::Mark(Label::Skip(_) | Label::User(_)) => false,
        _ => true,
    }
}
