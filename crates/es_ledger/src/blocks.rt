//! The blocks of a ledger: the words of each, and how many tickets of it are not spent.

ghost use Rattle.std.specs.Prelude.{◌≡◌, ◌<◌, ◌^◌, ◌≤◌, ◌+◌, ◌-◌, ◌++◌, ◌∷◌, [], ◌↔◌, IsTrue, length, replicate, IfOk, OnOk, Some};
ghost use Rattle.es_event.specs.Access.{IsStorable, change_by, written};
ghost use Rattle.es_block.specs.Words.{word};
ghost use Rattle.es_ledger.specs.Blocks.{tickets_at, words_at, lost, gained, with_written, words_written};

use es_block::Block;
use es_event::{Change, Edit};
use es_value::NoMemory;
use std::alloc::Global;
use std::marker::Model;

/// A block that was made: its words, until it is released, and how many tickets of it there are.
#[derive(Drop, Debug)]
pub(crate) struct Counted {
    words: Option<Block>,
    tickets: u64,
}

/// All blocks that were made, by number, from 1.
#[derive(Drop, Debug)]
pub(crate) struct Blocks {
    all: Vec<Counted>,
}

impl Model for Blocks {
    ghost use Rattle.std.specs.Prelude.{◌-◌, vec_len, vec_capacity};
    ghost use Rattle.es_ledger.specs.Blocks.{BlocksView};

    ghost Value = { BlocksView };

    ghost view = { λ b. record { all = b.all.items; room = vec_capacity b.all - vec_len b.all } };
}

impl Blocks {
    pub fn new(alloc: Global) -> Blocks
        ensures { result.all ≡ [] }
    {
        Blocks {
            all: Vec::new(alloc),
        }
    }

    /// How many were made.
    pub fn made(&self) -> usize
        ensures count { result ≡ length self.now.all }
        ensures small { result < 2 ^ 63 }
    {
        self.all.len()
    }

    /// Makes room for one more.
    pub fn reserve(&mut self) -> Result<(), NoMemory>
        ensures same { self.new.all ≡ self.old.all }
        ensures room { OnOk result (0 < self.new.room) }
    {
        self.all.reserve(1)?;
        Ok(())
    }

    /// One more, with one ticket.
    pub fn push(&mut self, block: Block)
        requires { 0 < self.old.room }
        ensures { self.new.all ≡ self.old.all ++ (record { words = Some block; tickets = 1 }) ∷ [] }
    {
        self.all.push_reserved(Counted {
            words: Some(block),
            tickets: 1,
        });
    }

    /// How many tickets there are of the block of this number, 0 where it was not made.
    pub fn tickets(&self, number: u64) -> u64
        ensures { result ≡ tickets_at self.now.all number }
    {
        if number == 0 {
            return 0;
        }
        match self.all.get(number as usize - 1) {
            Some(counted) => counted.tickets,
            None => 0,
        }
    }

    /// Does this to the word at an index of a block that is not released, and gives the word that was there, and what
    /// became of it.
    pub fn edit(&mut self, number: u64, index: usize, edit: Edit) -> (u32, Change)
        requires { index < length (words_at self.old.all number) }
        ensures was { result.0 ≡ word (words_at self.old.all number) index }
        ensures becomes { result.1 ≡ change_by edit result.0 }
        ensures now { self.new.all ≡ with_written self.old.all number index (written result.1 (word (words_at self.old.all number) index)) }
        ensures fits { IsStorable result.1 }
    {
        match &mut self.all[number as usize - 1].words {
            Some(words) => {
                let change = edit.on(words.load(index));
                (change_word(words, index, change), change)
            }
            None => unreachable!(),
        }
    }

    /// The word at an index of a block that is not released.
    pub fn word(&self, number: u64, index: usize) -> u32
        requires { index < length (words_at self.now.all number) }
        ensures { result ≡ word (words_at self.now.all number) index }
    {
        match &self.all[number as usize - 1].words {
            Some(words) => words.load(index),
            None => unreachable!(),
        }
    }

    /// One ticket more of a block that has one.
    pub fn gain(&mut self, number: u64)
        requires there { 0 < tickets_at self.old.all number }
        requires few { tickets_at self.old.all number < 2 ^ 63 }
        ensures { self.new.all ≡ gained self.old.all number }
    {
        self.all[number as usize - 1].tickets += 1;
    }

    /// One ticket less of a block that has one. With the last one its words are given back.
    pub fn lose(&mut self, number: u64) -> bool
        requires { 0 < tickets_at self.old.all number }
        ensures now { self.new.all ≡ lost self.old.all number }
        ensures released { IsTrue result ↔ (tickets_at self.old.all number ≡ 1) }
    {
        let counted = &mut self.all[number as usize - 1];
        counted.tickets -= 1;
        if counted.tickets == 0 {
            counted.words = None;
            true
        } else {
            false
        }
    }
}

/// Does this to the word at an index of a block, and gives the word that was there.
fn change_word(words: &mut Block, index: usize, change: Change) -> u32
    requires { index < length words.old }
    ensures was { result ≡ word words.old index }
    ensures now { words.new ≡ words_written words.old index (written change (word words.old index)) }
    ensures fits { IsStorable change }
{
    let old = words.load(index);
    if let Some(word) = written(change, old) {
        words.store(index, word);
    }
    old
}

/// The word that is written over the old one, if one is; a sum is taken modulo 2^32.
fn written(change: Change, old: u32) -> Option<u32>
    ensures written { result ≡ written change old }
    ensures fits { IsStorable change }
{
    match change {
        Change::Keep => None,
        Change::Write(word) => Some(word),
        Change::Add(addend) => Some(old.wrapping_add(addend)),
    }
}
