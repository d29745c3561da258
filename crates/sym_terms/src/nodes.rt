// Heads as nodes, and nodes as heads.

ghost use Rattle.std.specs.Prelude.{◌≡◌, ◌<◌};
ghost use Rattle.sym_terms.specs.Heads.{node_of, marked_node, head_by, rest_node, node_with, code_node, term_of};
ghost use Rattle.sym_terms.specs.Numbers.{kind_number, place_numbered};

use crate::head::{Head, Term};
use crate::numbers::{ADJUSTED, Kind, kind_number, op_number, op_of, part_number, part_of};
use cells::Place;
use xlt_pool::{Id, Node};

/// The node of a head, not yet marked; `rest` is the id of a FlagByte's further node.
pub fn node_of(head: Head, rest: u32) -> Node
    ensures { result ≡ node_of head rest }
{
    match head {
        Head::Num(n) => node(Kind::Num, n, 0, 0, 0),
        Head::Start(part) => node(Kind::Start, part_number(part), 0, 0, 0),
        Head::StartSp => node(Kind::StartSp, 0, 0, 0, 0),
        Head::Loaded8(index) => node(Kind::Loaded8, index, 0, 0, 0),
        Head::Loaded16(index) => node(Kind::Loaded16, index, 0, 0, 0),
        Head::Alu(op, a, b, c) => node(Kind::Alu, op_number(op), a.0.0, b.0.0, c.0.0),
        Head::Flag(part, of) => node(Kind::Flag, part_number(part), of.0.0, 0, 0),
        Head::Sum16(a, b) => node(Kind::Sum16, 0, a.0.0, b.0.0, 0),
        Head::High(word) => node(Kind::High, 0, word.0.0, 0, 0),
        Head::Low(word) => node(Kind::Low, 0, word.0.0, 0, 0),
        Head::Join(high, low) => node(Kind::Join, 0, high.0.0, low.0.0, 0),
        Head::FlagByte(s, z, _, _, _) => node(Kind::FlagByte, 0, s.0.0, z.0.0, rest),
        Head::Bit(byte, part) => node(Kind::Bit, part_number(part), byte.0.0, 0, 0),
        Head::Turn(kind, a, c) => node(Kind::Turn, kind, a.0.0, c.0.0, 0),
        Head::Turned(c) => node(Kind::Turned, 0, c.0.0, 0, 0),
        Head::Adjust(a, ac, cy) => node(Kind::Adjust, 0, a.0.0, ac.0.0, cy.0.0),
        Head::Code(place, high) => code_node(place, high),
        Head::Unknown => node(Kind::Unknown, 0, 0, 0, 0),
    }
}

/// A node marked where an Adjust stands in its term.
pub fn marked(node: Node, adjusted: bool) -> Node
    requires { node.op < 32 }
    ensures { result ≡ marked_node adjusted node }
{
    if adjusted {
        Node {
            op: node.op + ADJUSTED,
            ..node
        }
    } else {
        node
    }
}

// A half of a code address; EXIT has the last number 1.
fn code_node(place: Place, high: bool) -> Node
    ensures { result ≡ code_node place high }
{
    match place {
        Place::At(address) => node(Kind::Code, address, u32::from(high), 0, 0),
        Place::Exit => node(Kind::Code, 0, u32::from(high), 1, 0),
    }
}

/// The further node of a FlagByte.
pub fn rest_node(ac: Term, p: Term, cy: Term) -> Node
    ensures { result ≡ rest_node ac p cy }
{
    node(Kind::Rest, 0, ac.0.0, p.0.0, cy.0.0)
}

fn node(kind: Kind, num: u16, a: u32, b: u32, c: u32) -> Node
    ensures { result ≡ node_with (kind_number kind) num a b c }
{
    Node {
        op: kind_number(kind),
        num,
        a,
        b,
        c,
    }
}

/// The head of a node of this kind, but for a FlagByte and its further node.
pub fn head_by(kind: Kind, node: Node) -> Head
    ensures { result ≡ head_by kind node }
{
    let Node { num, a, b, c, .. } = node;
    match kind {
        Kind::Num => Head::Num(num),
        Kind::Start => Head::Start(part_of(num)),
        Kind::StartSp => Head::StartSp,
        Kind::Loaded8 => Head::Loaded8(num),
        Kind::Loaded16 => Head::Loaded16(num),
        Kind::Alu => Head::Alu(op_of(num), term(a), term(b), term(c)),
        Kind::Flag => Head::Flag(part_of(num), term(a)),
        Kind::Sum16 => Head::Sum16(term(a), term(b)),
        Kind::High => Head::High(term(a)),
        Kind::Low => Head::Low(term(a)),
        Kind::Join => Head::Join(term(a), term(b)),
        Kind::Bit => Head::Bit(term(a), part_of(num)),
        Kind::Turn => Head::Turn(num, term(a), term(b)),
        Kind::Turned => Head::Turned(term(a)),
        Kind::Adjust => Head::Adjust(term(a), term(b), term(c)),
        Kind::Code => Head::Code(place_of(b, num), a == 1),
        Kind::FlagByte | Kind::Rest | Kind::Unknown => Head::Unknown,
    }
}

fn place_of(zero_if_at: u32, address: u16) -> Place
    ensures { result ≡ place_numbered zero_if_at address }
{
    if zero_if_at == 0 {
        Place::At(address)
    } else {
        Place::Exit
    }
}

/// The term of an id.
pub fn term(id: u32) -> Term
    ensures { result ≡ term_of id }
{
    Term(Id(id))
}
