ghost use Rattle.std.specs.Prelude.{◌≡◌, ◌+◌, ◌<◌, ◌≤◌, ◌^◌, ◌%◌, ◌∷◌, ◌++◌, [], IfOk, OnErr, OnOk, Some, length, replicate, slice_set, get_or, is_some, true, vec_capacity};
ghost use Rattle.jmemory.specs.declared.jheap.cell.Kind.TheVariants as kinds;
ghost use Rattle.jmemory.specs.jheap.Heaps.{AreSmall, HasCell, Makes, before_at, cell_at, cells_at, kind_at, look_at, object_at, opened, with_before, with_cell, with_statics};
ghost use Rattle.jmemory.specs.jheap.ObjectLayout.{headed, header as header_of, kind_of as kind_in_header};
ghost use Rattle.jmemory.specs.jheap.RawValues.{of_raw as raw_value, raw as raw_number};
ghost use Rattle.jmemory.specs.jregion.Regions.{next_block};

use crate::jheap::cell::{
    CellType, Kind, Look, behind, charge, header, kind_of, low_32, of_raw, raw,
};
use crate::jregion::{Block, Region, region_laws};
use jvalues::jops::Value;
use std::alloc::{AllocError, Global};
use std::marker::Model;

/// Places a block of so many cells that are left, and writes what its object is into the first one.
fn place(region: &mut Region, kind: Kind, cells: u32) -> Block
    requires some { 1 ≤ cells }
    requires room { cells ≤ region.old.room }
    ensures block { result ≡ next_block region.old cells }
    ensures region { region.new ≡ headed region.old cells (header_of kind) }
    ensures back { kind_in_header (header_of kind) ≡ kind }
{
    let Some(block) = region.place(cells) else {
        unreachable!()
    };
    region.write(block, 0, header(kind));
    block
}

/// Puts a block behind the others, for which there is room.
fn list(blocks: &mut Vec<Block>, block: Block)
    requires { length blocks.old.items < vec_capacity blocks.old }
    ensures items { blocks.new.items ≡ blocks.old.items ++ block ∷ [] }
    ensures capacity { vec_capacity blocks.old ≤ vec_capacity blocks.new }
{
    blocks.push(block).unwrap();
}

/// The heap. Contracts see its objects in order of making, each with its kind, its cells as numbers, and of a piece the number of
/// the one in front of it; the statics as numbers; and the cells that are left.
#[derive(Drop)]
pub struct Heap {
    region: Region,
    blocks: Vec<Block>,
    kept: Vec<u64>,
}

impl Model for Heap {
    ghost use Rattle.std.specs.Prelude.{◌≡◌, ◌<◌, ◌≤◌, ◌+◌, ◌^◌, length, vec_capacity};
    ghost use Rattle.jmemory.specs.jheap.Heaps.{Heaped};
    ghost use Rattle.jmemory.specs.jheap.ObjectLayout.{AreWhole, objects_of};
    ghost use Rattle.jmemory.specs.jregion.Blocks.{AreBlocks, blocks_of};

    ghost Value = { Heaped };

    ghost view = { λ h. record { objects = objects_of h.region h.blocks.items; statics = h.kept.items; left = h.region.room } };

    ghost invariant = { λ h. AreBlocks h.blocks.items h.region × AreWhole (blocks_of h.region h.blocks.items)
        × (length h.blocks.items + h.region.room ≤ vec_capacity h.blocks) × (length h.blocks.items + h.region.room < 2 ^ 31)
        × (length h.region.cells + h.region.room < 2 ^ 31) };
}

impl Heap {
    /// A heap with so many cells, fewer than 2 ^ 31, without objects and statics. All memory of its objects is taken here.
    pub fn open(alloc: Global, cells: u32) -> Result<Heap, AllocError>
        requires { cells < 2 ^ 31 }
        ensures { IfOk result (λ h. h ≡ opened cells) }
    {
        Ok(Heap {
            region: Region::open(alloc, cells)?,
            blocks: Vec::with_capacity(alloc, cells as usize)?,
            kept: Vec::new(alloc),
        })
    }

    /// The law of sizes: no object has 2 ^ 31 cells or more. It does nothing; its contract is the law.
    pub fn small(&self)
        ensures { AreSmall self.now }
    {
        let _ = self.region.room();
    }

    /// The cells that are left.
    #[inline]
    pub fn left(&self) -> u32
        ensures { result ≡ self.now.left }
    {
        self.region.room()
    }

    /// Makes an object of so many cells, all of them 0, and answers its number. None is answered exactly where its charge is above
    /// what is left, and then nothing changes. It takes no memory.
    #[inline]
    pub fn make(&mut self, kind: Kind, len: u32) -> Option<u32>
        ensures { Makes kind len self.old self.new result }
    {
        region_laws();
        let cost = charge(kind, len);
        if u64::from(self.region.room()) < cost {
            return None;
        }
        let block = place(&mut self.region, kind, cost as u32);
        list(&mut self.blocks, block);
        Some(self.blocks.len() as u32)
    }

    /// The number that a cell holds.
    #[inline]
    fn number(&self, o: u32, i: u32) -> u64
        requires { HasCell self.now o i }
        ensures { result ≡ cell_at self.now o i }
    {
        self.region.read(self.blocks[(o - 1) as usize], i + 1)
    }

    /// Puts a number into a cell.
    #[inline]
    fn set_number(&mut self, o: u32, i: u32, n: u64)
        requires { HasCell self.old o i }
        ensures { self.new ≡ with_cell self.old o i n }
    {
        region_laws();
        self.region.write(self.blocks[(o - 1) as usize], i + 1, n);
    }

    /// The value of a cell of an object or an array, read as a type. The cell is there.
    #[inline]
    pub fn cell(&self, o: u32, i: u32, of: CellType) -> Value
        requires { HasCell self.now o i }
        ensures { result ≡ raw_value of (cell_at self.now o i) }
    {
        of_raw(of, self.number(o, i))
    }

    /// Puts a value into a cell of an object or an array. The cell is there.
    #[inline]
    pub fn set_cell(&mut self, o: u32, i: u32, value: Value)
        requires { HasCell self.old o i }
        ensures { self.new ≡ with_cell self.old o i (raw_number value) }
    {
        self.set_number(o, i, raw(value));
    }

    /// What an object is. It is there.
    #[inline]
    pub fn kind(&self, o: u32) -> Kind
        requires { is_some (object_at self.now o) ≡ true }
        ensures { Some result ≡ kind_at self.now o }
    {
        region_laws();
        kind_of(self.region.read(self.blocks[(o - 1) as usize], 0))
    }

    /// What the object of a number is, where there is one.
    #[inline]
    pub fn found(&self, o: u32) -> Option<Kind>
        ensures { result ≡ kind_at self.now o }
    {
        if o == 0 || (o - 1) as usize >= self.blocks.len() {
            return None;
        }
        Some(self.kind(o))
    }

    /// A look at an object that is there.
    #[inline]
    pub fn looked(&self, o: u32) -> Look
        requires { is_some (object_at self.now o) ≡ true }
        ensures look { Some result ≡ look_at self.now o }
        ensures good { look_at self.now result.object ≡ Some result }
        ensures object { result.object ≡ o }
        ensures len { result.len ≡ length (cells_at self.now o) }
    {
        region_laws();
        let block = self.blocks[(o - 1) as usize];
        let kind = kind_of(self.region.read(block, 0));
        let len = block.len() - 1 - behind(kind);
        Look {
            object: o,
            kind,
            len,
            block,
        }
    }

    /// A look at the object of a number, where there is one.
    #[inline]
    pub fn look(&self, o: u32) -> Option<Look>
        ensures { result ≡ look_at self.now o }
    {
        if o == 0 || (o - 1) as usize >= self.blocks.len() {
            return None;
        }
        Some(self.looked(o))
    }

    /// The value of a cell of an object that was looked at, read as a type. The cell is there.
    #[inline]
    pub fn at(&self, look: Look, i: u32, of: CellType) -> Value
        requires good { look_at self.now look.object ≡ Some look }
        requires there { i < look.len }
        ensures { result ≡ raw_value of (cell_at self.now look.object i) }
    {
        region_laws();
        of_raw(of, self.region.read(look.block, i + 1))
    }

    /// Puts a value into a cell of an object that was looked at. The cell is there.
    #[inline]
    pub fn set_at(&mut self, look: Look, i: u32, value: Value)
        requires good { look_at self.old look.object ≡ Some look }
        requires there { i < look.len }
        ensures { self.new ≡ with_cell self.old look.object i (raw_number value) }
    {
        region_laws();
        self.region.write(look.block, i + 1, raw(value));
    }

    /// How many cells an object has. It is there.
    #[inline]
    pub fn len(&self, o: u32) -> u32
        requires { is_some (object_at self.now o) ≡ true }
        ensures { result ≡ length (cells_at self.now o) }
    {
        region_laws();
        let block = self.blocks[(o - 1) as usize];
        block.len() - 1 - behind(kind_of(self.region.read(block, 0)))
    }

    /// A unit of a text or a piece. The cell is there.
    #[inline]
    pub fn unit(&self, o: u32, i: u32) -> u16
        requires { HasCell self.now o i }
        ensures { result ≡ cell_at self.now o i % 2 ^ 16 }
    {
        (self.number(o, i) % 0x1_0000) as u16
    }

    /// Puts a unit into a text or a piece. The cell is there.
    #[inline]
    pub fn set_unit(&mut self, o: u32, i: u32, unit: u16)
        requires { HasCell self.old o i }
        ensures { self.new ≡ with_cell self.old o i unit }
    {
        self.set_number(o, i, u64::from(unit));
    }

    /// The number of the piece in front of a piece, 0 for none, and 0 of what is no piece. It is there.
    #[inline]
    pub fn read_previous(&self, o: u32) -> u32
        requires { is_some (object_at self.now o) ≡ true }
        ensures { Some result ≡ before_at self.now o }
    {
        region_laws();
        let block = self.blocks[(o - 1) as usize];
        match kind_of(self.region.read(block, 0)) {
            Kind::Object(_) => 0,
            Kind::Array(_) => 0,
            Kind::Text => 0,
            Kind::Piece => low_32(self.region.read(block, block.len() - 1)),
        }
    }

    /// Says which piece stands in front of a piece.
    #[inline]
    pub fn set_before(&mut self, o: u32, before: u32)
        requires { kind_at self.old o ≡ Some kinds.Piece }
        ensures { self.new ≡ with_before self.old o before }
    {
        region_laws();
        let block = self.blocks[(o - 1) as usize];
        self.region.write(block, block.len() - 1, u64::from(before));
    }

    /// Makes so many statics, all of them 0, where none are there. After an error all is as before.
    pub fn add_statics(&mut self, alloc: Global, count: u32) -> Result<(), AllocError>
        requires { self.old.statics ≡ [] }
        ensures ok { OnOk result (self.new ≡ with_statics self.old (replicate count 0)) }
        ensures err { OnErr result (self.new ≡ self.old) }
    {
        self.kept = Vec::from_elem(alloc, 0, count as usize)?;
        Ok(())
    }

    /// How many statics there are.
    #[inline]
    pub fn static_count(&self) -> usize
        ensures { result ≡ length self.now.statics }
    {
        self.kept.len()
    }

    /// The value of a static, read as a type. It is there.
    #[inline]
    pub fn static_at(&self, i: u32, of: CellType) -> Value
        requires { i < length self.now.statics }
        ensures { result ≡ raw_value of (get_or self.now.statics i 0) }
    {
        of_raw(of, self.kept[i as usize])
    }

    /// Puts a value into a static. It is there.
    #[inline]
    pub fn set_static(&mut self, i: u32, value: Value)
        requires { i < length self.old.statics }
        ensures { self.new ≡ with_statics self.old (slice_set self.old.statics i (raw_number value)) }
    {
        self.kept[i as usize] = raw(value);
    }
}
