//! The sequence of blocks that begins at a number.
ghost use Rattle.std.specs.Prelude.{◌≡◌};
ghost use Rattle.ct_gen.specs.Blocks.{block_of, next_block, after_block, IsBlock};

use crate::block::Block;

/// The most blocks that follow a secret byte.
const MOST_FOLLOWED: u32 = 64;

/// The sequence of blocks that begins at a number.
#[derive(Drop)]
pub struct Generator {
    /// The number of the last block.
    pub number: u32,
    /// How many blocks followed a secret byte.
    pub followed: u32,
}

/// The block of a number, after so many blocks that follow a secret byte.
#[tactic(auto, unfolding(crate::specs::Blocks::block_of))]
fn block_of(number: u32, followed: u32) -> Block
    ensures block { result ≡ block_of number followed }
    ensures fits { IsBlock result }
{
    let detail = (number >> 24) % 64;
    match number >> 30 {
        1 => Block::Keep {
            offset: 4 * (detail % 16),
        },
        2 => Block::Scale {
            amount: detail % 32,
        },
        3 if followed < MOST_FOLLOWED => Block::Follow { offset: followed },
        _ => Block::Mix { offset: detail },
    }
}

impl Generator {
    /// The next block.
    pub fn next_block(&mut self) -> Block
        ensures block { result ≡ next_block self.old }
        ensures fits { IsBlock result }
        ensures after { self.new ≡ after_block self.old }
    {
        self.number = self
            .number
            .wrapping_mul(1_664_525)
            .wrapping_add(1_013_904_223);
        let block = block_of(self.number, self.followed);
        if let Block::Follow { .. } = block {
            self.followed += 1;
        }
        block
    }
}
