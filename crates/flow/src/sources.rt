// Which nodes have an edge to a node.

ghost use Rattle.std.specs.Prelude.{◌≡◌, ◌<◌, ◌++◌, ◌∷◌, [], length, IfOk, OnOk, replicate, slice_set, slice_index_or};
ghost use Rattle.flow.specs.Wiring.{items_of};

use std::alloc::{AllocError, Global};
use std::marker::Model;
use std::mem;

/// The numbers of the nodes with an edge to one node: of most nodes it is one, which takes no memory of its own.
#[derive(Drop)]
enum Row {
    None,
    One([usize; 1]),
    More(Vec<usize>),
}

impl Row {
    // One number more, as the last.
    fn with(self, alloc: Global, from: usize) -> Result<Row, AllocError>
        ensures { IfOk result (λ row. items_of row ≡ items_of self ++ from ∷ []) }
    {
        match self {
            Row::None => Ok(Row::One([from])),
            Row::One(number) => {
                let [first] = number;
                Ok(Row::More(Vec::from_slice(alloc, &[first, from])?))
            }
            Row::More(numbers) => one_more(numbers, from),
        }
    }

    fn numbers(&self) -> &[usize]
        ensures { result.now ≡ items_of self.now }
    {
        match self {
            Row::None => &[],
            Row::One(number) => number,
            Row::More(numbers) => numbers,
        }
    }
}

// Some numbers, and one as the last.
fn one_more(numbers: Vec<usize>, number: usize) -> Result<Row, AllocError>
    ensures { IfOk result (λ row. items_of row ≡ numbers.items ++ number ∷ []) }
{
    let mut numbers = numbers;
    numbers.push(number)?;
    Ok(Row::More(numbers))
}

/// For each node, the numbers of the nodes with an edge to it.
pub struct Sources {
    alloc: Global,
    rows: Vec<Row>,
}

// Written out, so that letting one go is one call wherever it is done.
impl Drop for Sources {
    fn drop(self) {
        let Sources {
            alloc: _alloc,
            rows: _rows,
        } = self;
    }
}

impl Model for Sources {
    ghost use Rattle.std.specs.Prelude.{ℕ, List};
    ghost use Rattle.flow.specs.Wiring.{rows_of};

    ghost Value = { List (List ℕ) };

    ghost view = { λ s. rows_of s.rows.items };
}

impl Sources {
    /// No edges between so many nodes.
    pub fn new(alloc: Global, count: usize) -> Result<Sources, AllocError>
        ensures { IfOk result (λ s. s ≡ replicate count []) }
    {
        let mut rows = Vec::with_capacity(alloc, count)?;
        for _ in 0..count {
            rows.push_reserved(Row::None);
        }
        Ok(Sources { alloc, rows })
    }

    /// Adds an edge from a node to a node.
    pub fn add(&mut self, from: usize, to: usize) -> Result<(), AllocError>
        requires { to < length self.old }
        ensures { OnOk result (self.new ≡ slice_set self.old to (slice_index_or self.old to [] ++ from ∷ [])) }
    {
        let row = mem::replace(&mut self.rows[to], Row::None);
        self.rows[to] = row.with(self.alloc, from)?;
        Ok(())
    }

    /// The nodes with an edge to a node.
    pub fn of(&self, to: usize) -> &[usize]
        requires { to < length self.now }
        ensures { result.now ≡ slice_index_or self.now to [] }
    {
        self.rows[to].numbers()
    }
}
