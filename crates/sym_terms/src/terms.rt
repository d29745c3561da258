// The terms: nodes in a pool.

ghost use Rattle.std.specs.Prelude.{◌≡◌, ◌+◌, ◌-◌, ◌<◌, ◌≤◌, false, true, [], All, IfOk, length, take};
ghost use Rattle.xlt_pool.specs.Contents.{NodeStandsAt};
ghost use Rattle.sym_terms.specs.Making.{IsTermMade};
ghost use Rattle.sym_terms.specs.Term.{FlagByte, is_bit, is_adjusted};
ghost use Rattle.sym_terms.specs.Heads.{operands, is_flag_byte_head, is_leaf_head, number_of_id, term_of};
ghost use Rattle.sym_terms.specs.Trees.{tree_of_head, entries_of, tree_in, flag_byte_of, StandsFor, IsGiven, AreGiven, IsA, AreTerms, Makes, MakesRest};
ghost use Rattle.sym_terms.specs.Forms.{HasRest};

use crate::head::{Head, Term};
use crate::nodes::{head_by, marked, node_of, rest_node, term};
use crate::numbers::{Kind, kind_of, says_adjusted};
use std::alloc::{AllocError, Global};
use std::marker::Model;
use xlt_pool::{Id, Mark, Node, Pool};

/// Terms over a pool: each is kept once, so that two are equal exactly where their ids are.
#[derive(Drop)]
pub struct Terms {
    pool: Pool,
}

impl Model for Terms {
    ghost use Rattle.xlt_pool.specs.Contents.{Contents};

    ghost Value = { Contents };

    ghost use Rattle.sym_terms.specs.Forms.{IsTermList};

    ghost view = { λ terms. terms.pool };

    ghost invariant = { λ terms. IsTermList terms.pool.nodes };
}

impl Terms {
    /// No terms, and room for so many nodes. No other call takes memory.
    pub fn new(alloc: Global, room: u32) -> Result<Terms, AllocError>
        ensures { IfOk result (λ terms. (terms.nodes ≡ []) × (terms.spare ≡ room)) }
    {
        Ok(Terms {
            pool: Pool::new(alloc, room)?,
        })
    }

    /// How many nodes there are.
    pub fn mark(&self) -> Mark
        ensures mark { result.0 ≡ length self.now.nodes }
        ensures terms { AreTerms self.now }
    {
        // a look at the pool, for what it keeps to
        let _terms = &self.pool;
        self.pool.mark()
    }

    /// Takes away the terms that came after a mark.
    pub fn reset(&mut self, mark: Mark)
        requires { mark.0 ≤ length self.old.nodes }
        ensures nodes { self.new.nodes ≡ take mark.0 self.old.nodes }
        ensures spare { self.new.spare ≡ self.old.spare + (length self.old.nodes - mark.0) }
        ensures kept { (t : Term) → number_of_id t < mark.0 → IsGiven self.old t → StandsFor self.new t (tree_in self.old t) }
        ensures terms { AreTerms self.new }
    {
        self.pool.reset(mark);
    }

    /// The node of a term.
    pub fn node(&self, term: Term) -> Node
        requires { number_of_id term < length self.now.nodes }
        ensures { NodeStandsAt self.now.nodes (number_of_id term) result }
    {
        self.pool.node(term.0)
    }

    /// What a term is made of.
    pub fn head(&self, term: Term) -> Head
        requires { IsGiven self.now term }
        ensures tree { tree_in self.now term ≡ tree_of_head (entries_of self.now.nodes) result }
        ensures operands { AreGiven self.now (operands result) }
        ensures terms { AreTerms self.now }
    {
        let node = self.pool.node(term.0);
        match kind_of(node.op) {
            Kind::FlagByte => {
                let rest = self.pool.node(Id(node.c));
                flag_byte(node, rest)
            }
            kind => head_by(kind, node),
        }
    }

    /// Whether an Adjust stands in a term. It is marked in the node, so that no operand is looked at.
    pub(crate) fn is_adjusted(&self, term: Term) -> bool
        requires { IsGiven self.now term }
        ensures { result ≡ is_adjusted (tree_in self.now term) }
    {
        let node = self.pool.node(term.0);
        says_adjusted(node.op)
    }

    // Whether one stands in the term of a head.
    fn adjusts(&self, head: Head) -> bool
        requires { AreGiven self.now (operands head) }
        ensures { result ≡ is_adjusted (tree_of_head (entries_of self.now.nodes) head) }
    {
        match head {
            Head::Num(_)
            | Head::Start(_)
            | Head::StartSp
            | Head::Loaded8(_)
            | Head::Loaded16(_)
            | Head::Code(..)
            | Head::Unknown => false,
            Head::Alu(_, a, b, c) => self.is_adjusted(a)
                || self.is_adjusted(b)
                || self.is_adjusted(c),
            Head::Flag(_, a) | Head::High(a) | Head::Low(a) | Head::Bit(a, _) | Head::Turned(a) =>
                self.is_adjusted(a),
            Head::Sum16(a, b) | Head::Join(a, b) | Head::Turn(_, a, b) => self.is_adjusted(a)
                || self.is_adjusted(b),
            Head::FlagByte(s, z, ac, p, cy) => {
                self.is_adjusted(s)
                    || self.is_adjusted(z)
                    || self.is_adjusted(ac)
                    || self.is_adjusted(p)
                    || self.is_adjusted(cy)
            }
            Head::Adjust(..) => true,
        }
    }

    /// The byte of S, Z, AC, P and CY.
    pub fn flag_byte(&mut self, flags: [Term; 5]) -> Option<Term>
        requires { All (IsA is_bit self.old) flags }
        ensures { Makes self.old self.new 2 (flag_byte_of (entries_of self.old.nodes) flags) result }
    {
        // for its contract alone: the terms are terms
        let _mark = self.mark();
        let [s, z, ac, p, cy] = flags;
        self.flags(s, z, ac, p, cy)
    }

    fn flags(&mut self, s: Term, z: Term, ac: Term, p: Term, cy: Term) -> Option<Term>
        requires s { IsA is_bit self.old s }
        requires z { IsA is_bit self.old z }
        requires ac { IsA is_bit self.old ac }
        requires p { IsA is_bit self.old p }
        requires cy { IsA is_bit self.old cy }
        requires terms { AreTerms self.old }
        ensures { Makes self.old self.new 2 (FlagByte (tree_in self.old s) (tree_in self.old z) (tree_in self.old ac) (tree_in self.old p) (tree_in self.old cy)) result }
    {
        let rest = self.keep_rest(ac, p, cy)?;
        let head = Head::FlagByte(s, z, ac, p, cy);
        let adjusted = self.adjusts(head);
        self.keep_with(head, rest, adjusted)
    }

    /// The term of a head other than a FlagByte.
    pub(crate) fn keep(&mut self, head: Head) -> Option<Term>
        requires plain { is_flag_byte_head head ≡ false }
        requires given { AreGiven self.old (operands head) }
        requires made { IsTermMade (tree_of_head (entries_of self.old.nodes) head) }
        ensures { Makes self.old self.new 1 (tree_of_head (entries_of self.old.nodes) head) result }
    {
        let adjusted = self.adjusts(head);
        self.keep_with(head, Id(0), adjusted)
    }

    /// The term of a head without operands, in which no Adjust can stand.
    pub(crate) fn keep_leaf(&mut self, head: Head) -> Option<Term>
        requires leaf { is_leaf_head head ≡ true }
        requires made { IsTermMade (tree_of_head (entries_of self.old.nodes) head) }
        ensures { Makes self.old self.new 1 (tree_of_head (entries_of self.old.nodes) head) result }
    {
        self.keep_with(head, Id(0), false)
    }

    // The term of a head, in which an Adjust stands or does not; that of a FlagByte has this further node.
    fn keep_with(&mut self, head: Head, rest: Id, adjusted: bool) -> Option<Term>
        requires given { AreGiven self.old (operands head) }
        requires rest { HasRest (entries_of self.old.nodes) head rest.0 }
        requires made { IsTermMade (tree_of_head (entries_of self.old.nodes) head) }
        requires adjusted { adjusted ≡ is_adjusted (tree_of_head (entries_of self.old.nodes) head) }
        ensures { Makes self.old self.new 1 (tree_of_head (entries_of self.old.nodes) head) result }
    {
        let node = node_of(head, rest.0);
        let id = self.pool.intern(marked(node, adjusted))?;
        Some(Term(id))
    }

    // The further node of a FlagByte.
    fn keep_rest(&mut self, ac: Term, p: Term, cy: Term) -> Option<Id>
        requires ac { IsGiven self.old ac }
        requires p { IsGiven self.old p }
        requires cy { IsGiven self.old cy }
        ensures { MakesRest self.old self.new (tree_in self.old ac) (tree_in self.old p) (tree_in self.old cy) result }
    {
        self.pool.intern(rest_node(ac, p, cy))
    }
}

// A FlagByte of its two nodes.
fn flag_byte(node: Node, rest: Node) -> Head
    ensures { result ≡ Head.FlagByte (term_of node.a) (term_of node.b) (term_of rest.a) (term_of rest.b) (term_of rest.c) }
{
    Head::FlagByte(
        term(node.a),
        term(node.b),
        term(rest.a),
        term(rest.b),
        term(rest.c),
    )
}
