// What a call brings, and replies that write.
ghost use Rattle.std.specs.Prelude.{◌≡◌, ◌++◌, [], ◌∷◌, IfOk, OnOk};
ghost use Rattle.bdos_small.specs.Console.{place_in};
ghost use Rattle.bdos_small.specs.Calls.{block_read, telling, reply_writing, writing_both};

use dialogue::{Block, Blocks, Bytes, Range, Reply, Request};
use std::alloc::{AllocError, Global};

/// The bytes of the k-th block that a call reads.
pub fn block_at(request: &Request, k: usize) -> &[u8]
    ensures { result.now ≡ block_read k request.now }
{
    match request.blocks.as_slice().get(k) {
        None => &[],
        Some(block) => block.bytes.as_slice(),
    }
}

/// A reply that writes nothing.
pub fn telling(alloc: Global, answer: u16) -> Reply
    ensures { result ≡ telling answer }
{
    Reply {
        answer,
        writes: Blocks::from_vec(Vec::new(alloc)),
    }
}

/// A reply that answers 0 and writes the first range.
pub fn writing(alloc: Global, request: &Request, bytes: &[u8]) -> Result<Reply, AllocError>
    ensures { IfOk result (λ y. y ≡ reply_writing request.now 0 bytes.now) }
{
    let [first, _] = request.shape.writes;
    let mut writes = Vec::new(alloc);
    push_block(alloc, &mut writes, first, bytes)?;
    Ok(Reply {
        answer: 0,
        writes: Blocks::from_vec(writes),
    })
}

/// A reply that answers 0 and writes both ranges.
pub fn writing_both(
    alloc: Global,
    request: &Request,
    bytes: &[u8],
    others: &[u8],
) -> Result<Reply, AllocError>
    ensures { IfOk result (λ y. y ≡ writing_both request.now 0 bytes.now others.now) }
{
    let [first, second] = request.shape.writes;
    let mut writes = Vec::new(alloc);
    push_block(alloc, &mut writes, first, bytes)?;
    push_block(alloc, &mut writes, second, others)?;
    Ok(Reply {
        answer: 0,
        writes: Blocks::from_vec(writes),
    })
}

// Adds the block that writes bytes where a range begins.
fn push_block(
    alloc: Global,
    writes: &mut Vec<Block>,
    range: Option<Range>,
    bytes: &[u8],
) -> Result<(), AllocError>
    ensures { OnOk result (writes.new.items ≡ writes.old.items ++ (record { at = place_in (range ∷ []); bytes = bytes.now }) ∷ []) }
{
    let at = match range {
        None => 0,
        Some(range) => range.at,
    };
    let bytes = Bytes::from_vec(Vec::from_slice(alloc, bytes)?);
    writes.push(Block { at, bytes })?;
    Ok(())
}
