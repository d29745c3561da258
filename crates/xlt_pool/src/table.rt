// Where the ids stand: a table with open addressing. The search for a node begins at its home slot, and goes from slot to slot, round
// the end to the first, until it meets the node's id or an empty slot.

ghost use Rattle.std.specs.Prelude.{◌≡◌, ◌+◌, ◌%◌, ◌<◌, None, MatchOption, length, slice_index_or};
ghost use Rattle.xlt_pool.specs.Contents.{NodeStandsAt};
ghost use Rattle.xlt_pool.specs.Table.{IsTable, IsFreeFor, mixed, home_of};

use crate::node::Node;

/// Where a node's id stands, or the empty slot where a search for it ends.
pub fn slot_of(nodes: &[Node], slots: &[Option<u32>], node: Node) -> usize
    requires { IsTable nodes.now slots.now }
    ensures within { result < length slots.now }
    ensures slot { MatchOption (slice_index_or slots.now result None) (IsFreeFor nodes.now slots.now node result) (λ id. NodeStandsAt nodes.now id node) }
{
    let home = home(node, slots.len());
    for distance in 0..slots.len() {
        let slot = round(home, distance, slots.len());
        match slots[slot] {
            None => return slot,
            Some(id) => {
                if nodes[id as usize] == node {
                    return slot;
                }
            }
        }
    }
    unreachable!()
}

// The slot so many behind another, of so many, counted round the end: no division, since neither is above their number.
fn round(home: usize, distance: usize, slots: usize) -> usize
    requires home { home < slots }
    requires distance { distance < slots }
    ensures within { result < slots }
    ensures value { result ≡ (home + distance) % slots }
{
    if distance < slots - home {
        home + distance
    } else {
        distance - (slots - home)
    }
}

// The slot at which the search for a node begins.
fn home(node: Node, slots: usize) -> usize
    requires { 0 < slots }
    ensures within { result < slots }
    ensures value { result ≡ home_of node slots }
{
    let operation = mix(mix(0, u64::from(node.op)), u64::from(node.num));
    let operands = mix(mix(operation, u64::from(node.a)), u64::from(node.b));
    let hash = mix(operands, u64::from(node.c));
    (hash >> 32) as usize % slots
}

// Multiplication by a large odd number spreads each bit over those above it, so that the upper half of the last product depends on
// every field.
fn mix(hash: u64, field: u64) -> u64
    ensures { result ≡ mixed hash field }
{
    hash.wrapping_add(field).wrapping_mul(0x9E37_79B9_7F4A_7C15)
}
