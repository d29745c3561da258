// The pool: a list of nodes, and a table that finds each of them.

ghost use Rattle.std.specs.Prelude.{◌≡◌, ◌+◌, ◌-◌, ◌*◌, ◌<◌, ◌≤◌, ◌⊎◌, [], None, IfOk, MatchOption, length, take};
ghost use Rattle.xlt_pool.specs.Contents.{NodeStandsAt, AreDistinct, IsFound, IsAdded, HasNoRoom};

use crate::node::{Id, Mark, Node};
use crate::table::slot_of;
use std::alloc::{AllocError, Global};
use std::marker::Model;

/// Distinct nodes in the order in which they came, and room for so many more.
pub struct Pool {
    nodes: Vec<Node>,
    slots: Vec<Option<u32>>,
    // the slot of each node's id, so that none is searched for where the node is taken away
    places: Vec<usize>,
    room: u32,
}

// Written out, so that letting one go is one call wherever it is done.
impl Drop for Pool {
    fn drop(self) {
        let Pool {
            nodes: _nodes,
            slots: _slots,
            places: _places,
            room: _room,
        } = self;
    }
}

impl Model for Pool {
    ghost use Rattle.xlt_pool.specs.Contents.{Contents};

    ghost Value = { Contents };

    ghost use Rattle.xlt_pool.specs.Inside.{contents_of, IsPool};

    ghost view = { contents_of };

    ghost invariant = { IsPool };
}

impl Pool {
    /// An empty pool with room for so many nodes. No other call takes memory.
    pub fn new(alloc: Global, room: u32) -> Result<Pool, AllocError>
        ensures { IfOk result (λ pool. (pool.nodes ≡ []) × (pool.spare ≡ room)) }
    {
        // A table of twice the room is at most half full, so that a search meets an empty slot soon; and one slot at least is always
        // empty, so that each search ends.
        let slots = if room == 0 { 1 } else { 2 * room as usize };
        Ok(Pool {
            nodes: Vec::with_capacity(alloc, room as usize)?,
            slots: Vec::from_elem(alloc, None, slots)?,
            places: Vec::with_capacity(alloc, room as usize)?,
            room,
        })
    }

    /// The id of a node, which joins the pool if it is new; None where it is new and there is no room. It takes no memory.
    pub fn intern(&mut self, node: Node) -> Option<Id>
        ensures distinct { AreDistinct self.new.nodes }
        ensures place { MatchOption result (HasNoRoom self.old node self.new) (λ id. IsFound self.old node id.0 self.new ⊎ IsAdded self.old node id.0 self.new) }
    {
        let slot = slot_of(&self.nodes, &self.slots, node);
        if let Some(id) = self.slots[slot] {
            return Some(Id(id));
        }
        if self.nodes.len() == self.room as usize {
            return None;
        }
        let id = self.nodes.len() as u32;
        self.nodes.push_reserved(node);
        self.places.push_reserved(slot);
        self.slots[slot] = Some(id);
        Some(Id(id))
    }

    /// The node of an id.
    pub fn node(&self, id: Id) -> Node
        requires { id.0 < length self.now.nodes }
        ensures distinct { AreDistinct self.now.nodes }
        ensures node { NodeStandsAt self.now.nodes id.0 result }
    {
        self.nodes[id.0 as usize]
    }

    /// How many nodes there are.
    pub fn mark(&self) -> Mark
        ensures { result.0 ≡ length self.now.nodes }
    {
        Mark(self.nodes.len() as u32)
    }

    /// Takes away the nodes that came after a mark, at a cost in proportion to their number.
    pub fn reset(&mut self, mark: Mark)
        requires { mark.0 ≤ length self.old.nodes }
        ensures nodes { self.new.nodes ≡ take mark.0 self.old.nodes }
        ensures spare { self.new.spare ≡ self.old.spare + (length self.old.nodes - mark.0) }
    {
        while self.mark().0 > mark.0 {
            self.drop_last();
        }
    }

    // The last node came last, so no search passes its slot for an earlier one: it is simply emptied.
    fn drop_last(&mut self)
        requires { 0 < length self.old.nodes }
        ensures nodes { self.new.nodes ≡ take (length self.old.nodes - 1) self.old.nodes }
        ensures spare { self.new.spare ≡ self.old.spare + 1 }
    {
        if let Some(slot) = self.places.pop() {
            self.slots[slot] = None;
            let _ = self.nodes.pop();
        }
    }
}
