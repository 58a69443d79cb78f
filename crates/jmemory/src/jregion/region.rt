ghost use Rattle.std.specs.Prelude.{◌≡◌, IfOk, IfSome, Some, replicate, slice_get};
ghost use Rattle.jmemory.specs.jregion.Regions.{HasCell, KeepCells, Places, StayCells, cells_of, opened, with_cell};

use std::alloc::{AllocError, Global};
use std::marker::Model;

/// A block of a region: the number of its first cell in the region, and how many cells it has.
#[derive(Clone, Copy, Debug, PartialEq, Eq)]
pub struct Block {
    first: u32,
    len: u32,
}

/// Cells that are reserved when the region is opened, and handed out as blocks, one behind the other. Contracts see the cells of all
/// blocks, and how many are left.
#[derive(Drop)]
pub struct Region {
    cells: Vec<u64>,
    unused: u32,
}

impl Block {
    /// How many cells the block has.
    #[inline]
    pub fn len(self) -> u32
        ensures { result ≡ self.len }
    {
        self.len
    }
}

impl Model for Region {
    ghost use Rattle.std.specs.Prelude.{◌<◌, ◌≤◌, ◌+◌, ◌^◌, length, vec_capacity};
    ghost use Rattle.jmemory.specs.jregion.Regions.{Regioned};

    ghost Value = { Regioned };

    ghost view = { λ r. record { cells = r.cells.items; room = r.unused } };

    ghost invariant = { λ r. (length r.cells.items + r.unused ≤ vec_capacity r.cells) × (length r.cells.items + r.unused < 2 ^ 32) };
}

impl Region {
    /// A region of so many cells, all of them left.
    pub fn open(alloc: Global, cells: u32) -> Result<Region, AllocError>
        ensures { IfOk result (λ r. r ≡ opened cells) }
    {
        Ok(Region {
            cells: Vec::with_capacity(alloc, cells as usize)?,
            unused: cells,
        })
    }

    /// How many cells are left.
    #[inline]
    pub fn room(&self) -> u32
        ensures { result ≡ self.now.room }
    {
        self.unused
    }

    /// Makes a block of so many cells, all of them 0. None is answered exactly where they are more than are left, and then nothing
    /// changes. It takes no memory.
    #[inline]
    pub fn place(&mut self, len: u32) -> Option<Block>
        ensures value { Places len self.old self.new result }
        ensures zero { IfSome result (λ b. cells_of self.new b ≡ replicate len 0) }
        // The cells of the blocks that are there stay.
        ensures stay { StayCells self.old self.new }
    {
        if self.unused < len {
            return None;
        }
        let first = self.cells.len();
        self.cells.resize(first + len as usize, 0).unwrap();
        self.unused -= len;
        Some(Block {
            first: first as u32,
            len,
        })
    }

    /// The number that a cell of a block holds. The block is this region's and has the cell.
    #[inline]
    pub fn read(&self, b: Block, i: u32) -> u64
        requires { HasCell self.now b i }
        ensures { Some result ≡ slice_get (cells_of self.now b) i }
    {
        self.cells[(b.first + i) as usize]
    }

    /// Puts a number into a cell of a block. The block is this region's and has the cell.
    #[inline]
    pub fn write(&mut self, b: Block, i: u32, n: u64)
        requires { HasCell self.old b i }
        ensures value { self.new ≡ with_cell self.old b i n }
        // No block loses a cell.
        ensures cells { KeepCells self.old self.new }
    {
        self.cells[(b.first + i) as usize] = n;
    }
}
