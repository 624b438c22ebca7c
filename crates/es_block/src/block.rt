//! One Shared Data Block.

ghost use Rattle.std.specs.Prelude.{◌≡◌, ◌<◌, length, replicate, IfOk};
ghost use Rattle.es_block.specs.Words.{word, with_word};

use es_value::NoMemory;
use std::alloc::Global;
use std::marker::Model;

/// A Shared Data Block: a list of words of 32 bits (ECMA-262, Data Blocks).
///
/// A word is named by its index, from 0. It is read and written as the operations of Atomics do with a
/// Uint32Array over the block.
#[derive(Drop, Debug)]
pub struct Block {
    words: Vec<u32>,
}

impl Model for Block {
    ghost use Rattle.std.specs.Prelude.{ℕ, List};

    ghost Value = { List ℕ };

    ghost view = { λ b. b.words.items };
}

impl Block {
    /// A block of so many words, each 0 (ECMA-262, CreateSharedByteDataBlock).
    pub fn new(alloc: Global, words: usize) -> Result<Block, NoMemory>
        ensures { IfOk result (λ b. b ≡ replicate words 0) }
    {
        let mut zeros = Vec::with_capacity(alloc, words)?;
        zeros.resize(words, 0)?;
        Ok(Block { words: zeros })
    }

    /// How many words it has.
    pub fn words(&self) -> usize
        ensures { result ≡ length self.now }
    {
        self.words.len()
    }

    /// The word at an index that is in range (ECMA-262, Atomics.load).
    pub fn load(&self, index: usize) -> u32
        requires { index < length self.now }
        ensures { result ≡ word self.now index }
    {
        self.words[index]
    }

    /// Writes a word at an index that is in range (ECMA-262, Atomics.store).
    pub fn store(&mut self, index: usize, word: u32)
        requires { index < length self.old }
        ensures { self.new ≡ with_word self.old index word }
    {
        self.words[index] = word;
    }
}
