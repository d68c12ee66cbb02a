//! The blocks of a core, by numbers that are given once.

ghost use Rattle.std.specs.Prelude.{◌≡◌, ◌≤◌, ◌<◌, [], ◌↔◌, IsTrue, IfSome, OnOk, OnErr, Some, length, nat_eq};
ghost use Rattle.std.specs.List.{list_any};
ghost use Rattle.work_item.specs.declared.ids.BlockId.{BlockId};
ghost use Rattle.finish_block.specs.Table.{block_at, next_block, parent_at, entered, begun, woken, ended, arrival, arrived, marked};
ghost use Rattle.finish_block.specs.Conditions.{Lives, ParentLives, CanCountMore, HasThread, ChildlessAtEnd, ChildlessAtFinish, IsRooted};
ghost use Rattle.finish_block.specs.Ancestors.{AncestorsLive, IsRound, IsCancelled, any_marked, is_marked, round};

use crate::block::Block;
use ac_base::NoMemory;
use birth_table::BirthTable;
use std::alloc::Global;
use std::marker::Model;
use work_item::{BlockId, Item};

/// What an owner does at the `finish` of its block.
#[derive(Clone, Copy, Debug, PartialEq, Eq)]
pub enum Arrival {
    /// It goes on after the `finish`.
    Passes,
    /// It stays there until the last thread of the block has ended.
    Waits,
}

/// The blocks of a core. They keep the allocator with which they are made, and take memory for so many
/// as live at once: the place of one that was given back is used again.
///
/// Contracts see the blocks at their numbers, in which one that was given back is none, and the
/// spare: the number of further blocks for which there is room. Only `reserve` takes memory.
#[derive(Drop)]
pub struct Blocks {
    table: BirthTable<Block>,
}

impl Model for Blocks {
    ghost use Rattle.finish_block.specs.Table.{Table};
    ghost use Rattle.finish_block.specs.Conditions.{IsRooted};

    ghost Value = { Table };

    ghost view = { λ s. record { blocks = s.table.items; spare = s.table.spare } };

    ghost invariant = { λ s. IsRooted s.table.items };
}

impl Blocks {
    /// No blocks.
    pub fn new(alloc: Global) -> Blocks
        ensures { result.blocks ≡ [] }
    {
        Blocks {
            table: BirthTable::new(alloc),
        }
    }

    /// Makes the spare at least n, so that n calls of `enter` have room. After want of memory all is
    /// as before.
    pub fn reserve(&mut self, n: u32) -> Result<(), NoMemory>
        ensures blocks { self.new.blocks ≡ self.old.blocks }
        ensures ok { OnOk result (n ≤ self.new.spare) }
        ensures spare { self.old.spare ≤ self.new.spare }
        ensures err { OnErr result (self.new ≡ self.old) }
    {
        self.table.reserve(n)
    }

    /// The number of the next block.
    pub fn next(&self) -> BlockId
        ensures { result ≡ next_block self.now.blocks }
    {
        BlockId {
            number: self.table.len(),
        }
    }

    /// Makes a block that no thread was started in, and gives its number, which is the next one. It
    /// takes one from the spare and no memory, so it always succeeds.
    ///
    /// Condition: the spare is positive, and the parent lives, where one is given.
    pub fn enter(&mut self, parent: Option<BlockId>, owner: Item) -> BlockId
        requires spare { 0 < self.old.spare }
        requires parent { ParentLives self.old.blocks parent }
        ensures number { result ≡ next_block self.old.blocks }
        ensures made { self.new ≡ entered self.old parent owner }
    {
        let number = self.table.push_reserved(Block {
            parent,
            owner,
            count: 0,
            waits: false,
            cancelled: false,
        });
        BlockId { number }
    }

    /// Counts a thread in that is started directly in the block.
    ///
    /// Condition: the block lives, and its count is below the greatest `u64`.
    pub fn begin(&mut self, block: BlockId)
        requires { CanCountMore self.old.blocks block }
        ensures { self.new ≡ begun self.old block }
    {
        self.table.value_mut(block.number).count += 1;
    }

    /// Counts a thread out that has ended. It gives the owner exactly where the count is now 0 and
    /// the owner waits, and then gives the block back.
    ///
    /// Condition: the block lives, its count is positive, and where it is given back no live block
    /// has it as its parent.
    pub fn end(&mut self, block: BlockId) -> Option<Item>
        requires thread { HasThread self.old.blocks block }
        requires childless { ChildlessAtEnd self.old.blocks block }
        ensures owner { result ≡ woken self.old.blocks block }
        ensures state { self.new ≡ ended self.old block }
    {
        let was = self.kept(block);
        if was.count == 1 && was.waits {
            self.table.give_back(block.number);
            return Some(was.owner);
        }
        self.table.value_mut(block.number).count -= 1;
        None
    }

    /// The owner arrives at the `finish`. It passes exactly where the count is 0, and the block is
    /// then given back; else it waits from now on.
    ///
    /// Condition: the block lives, and where it is given back no live block has it as its parent.
    pub fn at_finish(&mut self, block: BlockId) -> Arrival
        requires lives { Lives self.old.blocks block }
        requires childless { ChildlessAtFinish self.old.blocks block }
        ensures arrival { result ≡ arrival self.old.blocks block }
        ensures state { self.new ≡ arrived self.old block }
    {
        let was = self.kept(block);
        if was.count == 0 {
            self.table.give_back(block.number);
            return Arrival::Passes;
        }
        self.table.value_mut(block.number).waits = true;
        Arrival::Waits
    }

    /// Marks the block as cancelled, for good. Where it was given back, nothing changes.
    pub fn mark_cancelled(&mut self, block: BlockId)
        ensures { self.new ≡ marked self.old block }
    {
        if self.find(block).is_some() {
            self.table.value_mut(block.number).cancelled = true;
        }
    }

    /// Whether the block or one of those round it is marked, where a block is given.
    pub fn is_cancelled(&self, block: Option<BlockId>) -> bool
        ensures answer { result ≡ any_marked self.now.blocks (round self.now.blocks block) }
        ensures means { IfSome block (λ b. Lives self.now.blocks b → (IsTrue result ↔ IsCancelled self.now.blocks b)) }
    {
        let mut current = block;
        'up: for _ in 0..self.len() {
            let Some(here) = current else {
                return false;
            };
            if self.is_marked(here) {
                return true;
            }
            current = self.parent_of(here);
        }
        false
    }

    /// Whether the outer block is the other, where one is given, or lies round it.
    pub fn is_within(&self, block: Option<BlockId>, outer: BlockId) -> bool
        ensures answer { result ≡ list_any (λ (b : BlockId). nat_eq outer.number b.number) (round self.now.blocks block) }
        ensures means { IfSome block (λ b. Lives self.now.blocks b → (IsTrue result ↔ IsRound self.now.blocks outer b)) }
    {
        let mut current = block;
        'up: for _ in 0..self.len() {
            let Some(here) = current else {
                return false;
            };
            if outer == here {
                return true;
            }
            current = self.parent_of(here);
        }
        false
    }

    /// The block in which this one lies. All those round it live, and each is older than the one
    /// that lies in it.
    ///
    /// Condition: the block lives.
    pub fn parent(&self, block: BlockId) -> Option<BlockId>
        requires { Lives self.now.blocks block }
        ensures value { result ≡ parent_at (block_at self.now.blocks block) }
        ensures rooted { IsRooted self.now.blocks }
        ensures round { AncestorsLive self.now.blocks block }
    {
        self.kept(block).parent
    }

    // How many blocks there have been. Each lies in older ones, so there are not more round one.
    fn len(&self) -> u64
        ensures many { result ≡ length self.now.blocks }
        ensures rooted { IsRooted self.now.blocks }
    {
        self.table.len()
    }

    // What is kept of a block, if it lives.
    fn find(&self, block: BlockId) -> Option<Block>
        ensures { result ≡ block_at self.now.blocks block }
    {
        self.table.get(block.number).copied()
    }

    // The block in which a block lies, if it lives and lies in one.
    fn parent_of(&self, block: BlockId) -> Option<BlockId>
        ensures { result ≡ parent_at (block_at self.now.blocks block) }
    {
        self.find(block)?.parent
    }

    // Whether the block itself is marked.
    fn is_marked(&self, block: BlockId) -> bool
        ensures { result ≡ is_marked (block_at self.now.blocks block) }
    {
        matches!(self.find(block), Some(here) if here.cancelled)
    }

    // What is kept of a block that lives.
    fn kept(&self, block: BlockId) -> Block
        requires { Lives self.now.blocks block }
        ensures block { block_at self.now.blocks block ≡ Some result }
        ensures rooted { IsRooted self.now.blocks }
    {
        *self.table.get(block.number).unwrap()
    }
}
