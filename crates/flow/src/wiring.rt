// The edges of a program, kept by their ends.

ghost use Rattle.std.specs.Prelude.{◌≡◌, ◌+◌, ◌-◌, ◌^◌, ◌<◌, ◌++◌, [], ℕ, List, true, if◌then◌else◌, length, option_to_list, IfOk, OnOk, MatchOption, IsTrue, Some, None};
ghost use Rattle.std.specs.List.{Contains};
ghost use Rattle.i80.specs.Columns.{is_well_formed, length80};
ghost use Rattle.asm80_types.specs.Program.{IsProgram, instr_at, named_by, starts};
ghost use Rattle.flow.specs.declared.node.Node.{Node as NodeOf};
ghost use Rattle.flow.specs.declared.node.Node.TheVariants.{Start, Return};
ghost use Rattle.flow.specs.Graph.{edges, nodes, successors};
ghost use Rattle.flow.specs.Wiring.{IsNumber, IsWiredTo, IsWired, edge_if_node, edges_if};

use crate::node::Node;
use crate::sources::Sources;
use asm80_types::{Placed, Program80};
use i80::{Goal, Instr80};
use std::alloc::{AllocError, Global};

// Where control may go from an instruction: to a node, and to the place after it.
#[derive(Clone, Copy)]
struct Ways {
    node: Option<Node>,
    next: bool,
}

fn ways_from(instr: Instr80) -> Ways
    ensures named { (t : ℕ) → result.node ≡ Some (Start t) → named_by instr ≡ Some t }
    ensures edges { (next : List NodeOf) → edges next instr ≡ option_to_list result.node ++ (if result.next then next else []) }
{
    let (node, next) = match instr {
        Instr80::Jmp(Goal::At(at)) => (Some(Node::Start(at)), false),
        Instr80::Jmp(Goal::Bdos) => (Some(Node::Return), false),
        Instr80::Jmp(Goal::Boot) => (None, false),
        Instr80::Jif(_, Goal::At(at)) => (Some(Node::Start(at)), true),
        Instr80::Jif(_, Goal::Bdos) => (Some(Node::Return), true),
        Instr80::Call(Goal::At(at)) => (Some(Node::Start(at)), false),
        Instr80::Call(Goal::Boot) => (None, false),
        Instr80::Cif(_, Goal::At(at)) => (Some(Node::Start(at)), true),
        Instr80::Ret | Instr80::Pchl => (Some(Node::Return), false),
        Instr80::Rif(_) => (Some(Node::Return), true),
        Instr80::Rst0 => (None, false),
        _ => (None, true),
    };
    Ways { node, next }
}

/// The number of a node: the starts are counted in order, and Return comes last. None exactly where it is no node of the program.
pub fn number_of(program: &Program80, node: Node) -> Option<usize>
    requires { IsProgram program.now }
    ensures { MatchOption result (Contains (nodes program.now) node → ⊥) (λ k. IsNumber program.now k node) }
{
    match node {
        Node::Start(at) => program.starts().binary_search(&at).ok(),
        Node::Return => Some(program.starts().len()),
    }
}

// The number of a node, looked for first at a number that it may well have.
fn number_near(program: &Program80, near: usize, node: Node) -> Option<usize>
    requires { IsProgram program.now }
    ensures { MatchOption result (Contains (nodes program.now) node → ⊥) (λ k. IsNumber program.now k node) }
{
    match node {
        Node::Start(at) => match program.starts().get(near) {
            Some(start) if *start == at => Some(near),
            _ => number_of(program, node),
        },
        Node::Return => number_of(program, node),
    }
}

// Keeps an edge, where its end is a node of the program: most lead to the next instruction.
fn keep_edge(
    sources: &mut Sources,
    program: &Program80,
    from: usize,
    to: Node,
) -> Result<(), AllocError>
    requires program { IsProgram program.now }
    requires sized { length sources.old ≡ length (nodes program.now) }
    ensures sized { OnOk result (length sources.new ≡ length sources.old) }
    ensures kept { (some : List NodeOf) → IsWiredTo program.now sources.old from some → OnOk result (IsWiredTo program.now sources.new from (some ++ edge_if_node program.now to)) }
{
    match number_near(program, from.wrapping_add(1), to) {
        Some(number) => sources.add(from, number),
        None => Ok(()),
    }
}

// The same of a node, if there is one.
fn keep_if(
    sources: &mut Sources,
    program: &Program80,
    from: usize,
    to: Option<Node>,
) -> Result<(), AllocError>
    requires program { IsProgram program.now }
    requires sized { length sources.old ≡ length (nodes program.now) }
    ensures sized { OnOk result (length sources.new ≡ length sources.old) }
    ensures kept { (some : List NodeOf) → IsWiredTo program.now sources.old from some → OnOk result (IsWiredTo program.now sources.new from (some ++ edges_if program.now to)) }
{
    match to {
        Some(node) => keep_edge(sources, program, from, node),
        None => Ok(()),
    }
}

// Keeps the edges of an instruction.
fn wire(
    sources: &mut Sources,
    program: &Program80,
    from: usize,
    placed: &Placed,
) -> Result<(), AllocError>
    requires program { IsProgram program.now }
    requires wired { IsWiredTo program.now sources.old from [] }
    requires found { instr_at program.now placed.now.at ≡ Some placed.now.instr }
    requires well_formed { IsTrue (is_well_formed placed.now.instr) }
    requires within { placed.now.at + length80 placed.now.instr < 2 ^ 16 }
    ensures { OnOk result (IsWiredTo program.now sources.new from (successors program.now (Start placed.now.at))) }
{
    let ways = ways_from(placed.instr);
    let next = Node::Start(placed.at + i80::length(placed.instr));
    keep_if(sources, program, from, ways.node)?;
    keep_if(sources, program, from, ways.next.then_some(next))
}

// Keeps the edges of Return.
fn wire_return(sources: &mut Sources, program: &Program80) -> Result<(), AllocError>
    requires program { IsProgram program.now }
    requires wired { IsWiredTo program.now sources.old (length (starts program.now)) [] }
    ensures { OnOk result (IsWired program.now sources.new) }
{
    let number = program.starts().len();
    for at in program.taken() {
        keep_edge(sources, program, number, Node::Start(*at))?;
    }
    Ok(())
}

// Keeps the edges of all nodes.
fn wire_all(sources: &mut Sources, program: &Program80) -> Result<(), AllocError>
    requires program { IsProgram program.now }
    requires wired { IsWiredTo program.now sources.old 0 [] }
    ensures { OnOk result (IsWired program.now sources.new) }
{
    for (from, placed) in program.instrs().iter().enumerate() {
        wire(sources, program, from, placed)?;
    }
    wire_return(sources, program)
}

/// The edges of a program.
pub fn sources_of(alloc: Global, program: &Program80) -> Result<Sources, AllocError>
    requires { IsProgram program.now }
    ensures { IfOk result (λ sources. IsWired program.now sources) }
{
    let mut sources = Sources::new(alloc, program.starts().len() + 1)?;
    wire_all(&mut sources, program)?;
    Ok(sources)
}
