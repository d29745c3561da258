// The flow graph of a program, with what is needed at each of its nodes.

ghost use Rattle.std.specs.Prelude.{◌≡◌, ◌+◌, ◌*◌, ◌<◌, ◌≤◌, IfOk, IfSome, IsTrue, is_some};
ghost use Rattle.asm80_types.specs.Program.{IsProgram, is_start};
ghost use Rattle.flow.specs.declared.node.Node.TheVariants.{Start, Return};
ghost use Rattle.flow.specs.Blocks.{leaders, block_at};
ghost use Rattle.flow.specs.Graph.{edge_count};
ghost use Rattle.flow.specs.Solving.{AreNeeds, HasNeeds};

use crate::begin::{numbers, vertices_of};
use crate::cut::{Cut, cut_of};
use crate::laws::needs_are_closed;
use crate::node::Node;
use crate::search::{Vertex, run};
use crate::sources::Sources;
use crate::wiring::{number_of, sources_of};
use asm80_types::Program80;
use base::Steps;
use cells::Keep;
use std::alloc::{AllocError, Global};
use std::marker::{Brand, Model};
use std::sync::ledger::{Blank, Ledger};

/// The graph of a program, with a copy of it, and the search for its needs.
pub struct Graph {
    program: Program80,
    sources: Sources,
    vertices: Vec<Vertex>,
    work: Vec<usize>,
    leaders: Vec<u16>,
    counts: Vec<u32>,
}

// Written out, so that letting one go is one call wherever it is done.
impl Drop for Graph {
    fn drop(self) {
        let Graph {
            program: _program,
            sources: _sources,
            vertices: _vertices,
            work: _work,
            leaders: _leaders,
            counts: _counts,
        } = self;
    }
}

impl Model for Graph {
    ghost use Rattle.flow.specs.Solving.{Solving};

    ghost Value = { Solving };

    ghost use Rattle.flow.specs.Inside.{solving_of, IsGraph};

    ghost view = { solving_of };

    ghost invariant = { IsGraph };
}

// A copy of a program.
fn copy_of(alloc: Global, program: &Program80) -> Result<Program80, AllocError>
    ensures same { IfOk result (λ copy. copy ≡ program.now) }
    ensures program { IfOk result (λ copy. IsProgram copy) }
{
    let instrs = Vec::from_slice(alloc, program.instrs())?;
    let cells = Vec::from_slice(alloc, program.cells())?;
    Program80::new(alloc, instrs, cells, program.top())
}

// Finds the needs, with the steps counted on a new ledger.
fn solve_on<L: Ledger>(graph: &mut Graph, blank: Blank)
    requires name { blank.name ≡ L.name }
    requires parts { blank.parts ≡ L.parts }
    requires some { 0 < blank.parts }
    ensures program { graph.new.program ≡ graph.old.program }
    ensures solved { IsTrue graph.new.is_solved }
{
    let mut steps: Steps<L> = Steps::open(blank);
    graph.solve(&mut steps);
}

impl Graph {
    /// The graph of a program. It takes all the memory that the other calls need.
    pub fn of(alloc: Global, program: &Program80) -> Result<Graph, AllocError>
        ensures { IfOk result (λ graph. graph.program ≡ program.now) }
    {
        let program = copy_of(alloc, program)?;
        let sources = sources_of(alloc, &program)?;
        let vertices = vertices_of(alloc, &program)?;
        let work = numbers(alloc, vertices.len())?;
        let Cut { leaders, counts } = cut_of(alloc, &program)?;
        Ok(Graph {
            program,
            sources,
            vertices,
            work,
            leaders,
            counts,
        })
    }

    /// The graph of a program with its needs found, for a caller that counts no steps.
    pub fn solved(alloc: Global, program: &Program80) -> Result<Graph, AllocError>
        ensures program { IfOk result (λ graph. graph.program ≡ program.now) }
        ensures solved { IfOk result (λ graph. IsTrue graph.is_solved) }
    {
        let mut graph = Graph::of(alloc, program)?;
        solve_on::<Brand>(&mut graph, Blank::new(1));
        Ok(graph)
    }

    /// Finds the needs. A step is one visit of one edge. It takes no memory.
    pub fn solve<L: Ledger>(&mut self, steps: &mut Steps<L>)
        ensures program { self.new.program ≡ self.old.program }
        ensures solved { IsTrue self.new.is_solved }
        ensures cost { steps.new ≤ steps.old + 13 * edge_count self.old.program }
    {
        run(&self.sources, &mut self.vertices, &mut self.work, steps);
    }

    /// The parts that are needed at the instruction that starts at an address; None exactly where none starts there.
    pub fn need(&self, at: u16) -> Option<Keep>
        requires { IsTrue self.now.is_solved }
        ensures start { is_some result ≡ is_start self.now.program at }
        ensures needs { IfSome result (λ keep. AreNeeds self.now.program (Start at) keep) }
    {
        let number = number_of(&self.program, Node::Start(at))?;
        Some(self.vertices[number].need)
    }

    /// The parts that are needed where control goes back to an address that was stored or loaded.
    pub fn need_return(&self) -> Keep
        requires { IsTrue self.now.is_solved }
        ensures { AreNeeds self.now.program Return result }
    {
        self.vertices[self.program.starts().len()].need
    }

    /// A law of a program whose needs are found: what is needed at each address and at a return is a set of parts.
    pub fn needs_are_sets(&self)
        requires { IsTrue self.now.is_solved }
        ensures { HasNeeds self.now.program }
    {
        let _vertices = &self.vertices;
        needs_are_closed();
    }

    /// The addresses at which blocks begin, ascending.
    pub fn leaders(&self) -> &[u16]
        ensures { result.now ≡ leaders self.now.program }
    {
        &self.leaders
    }

    /// The number of instructions of the block that begins at an address, 1 to 16; None exactly where none begins there.
    pub fn block(&self, leader: u16) -> Option<u32>
        ensures { result ≡ block_at self.now.program leader }
    {
        match self.leaders.binary_search(&leader) {
            Ok(number) => Some(self.counts[number]),
            Err(_) => None,
        }
    }
}
