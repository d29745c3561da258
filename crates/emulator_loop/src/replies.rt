// The numbers in replies.
ghost use Rattle.std.specs.Prelude.{◌<◌, All};
ghost use Rattle.dialogue.specs.Replies.{IsReplyBlock as IsBlock, IsReply};

use dialogue::{Block, Reply};

/// A law of replies: their numbers are within the ranges of their types.
pub fn reply_is_in_range(reply: &Reply)
    ensures { IsReply reply.now }
{
    let _answer = reply.answer;
    blocks_are_in_range(reply.writes.as_slice());
}

fn blocks_are_in_range(blocks: &[Block])
    ensures { All IsBlock blocks.now }
{
    for block in blocks {
        block_is_in_range(block);
    }
}

fn block_is_in_range(block: &Block)
    ensures { IsBlock block.now }
{
    let _at = block.at;
    bytes_are_in_range(block.bytes.as_slice());
}

fn bytes_are_in_range(bytes: &[u8])
    ensures { All (λ n. n < 256) bytes.now }
{}
