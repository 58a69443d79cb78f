ghost use Rattle.std.specs.Prelude.{◌≡◌, ◌<◌, ◌+◌, ◌^◌, [], IfOk, OnOk};
ghost use Rattle.jsemantics.specs.jmachine.Store.{constant_at};
ghost use Rattle.jruntime.specs.jstate.ObjectCells.{StayCelled};
ghost use Rattle.jruntime.specs.jstate.HeapMeanings.{AreBuilt};
ghost use Rattle.jlibcalls.specs.jconstants.ConstantLoads.{Loads, Pushes, RaisesNothing, RunsLoad};
ghost use Rattle.jlibcalls.specs.jconstants.StringConstants.{units_at};

use crate::jconstants::known::number_at;
use crate::jconstants::loading::{first_get, found};
use crate::jconstants::table::{Table, table_of};
use jlinking::jlink::LinkedProgram;
use jmemory::jheap::Heap;
use jrows::jacts::Way;
use jrows::jtexts::constant_laws;
use jruntime::jstate::Frames;
use jvalues::jops::Value;
use std::alloc::{AllocError, Global};
use std::marker::Model;

/// The string constants of a program that were made: one object for each text. Contracts see the program, and the constants in the order
/// in which they were made, each with its units.
#[derive(Drop)]
pub struct Constants<'p> {
    table: Table<'p>,
}

impl<'p> Model for Constants<'p> {
    ghost use Rattle.jlibcalls.specs.jconstants.StringConstants.{IsTable, Made, made_in};

    ghost Value = { Made };

    ghost view = { λ c. made_in c.table };

    ghost invariant = { λ c. IsTable c.table };
}

/// The frame goes on behind its instruction with an object as one more operand, where there was room for it.
#[inline]
fn give<M: Copy>(frames: &mut Frames<M>, object: Option<u32>) -> Result<Way, AllocError>
    requires { frames.old.newest.place + 1 < 2 ^ 32 }
    ensures pushes { IfOk result (λ way. Pushes object frames.old way frames.new) }
    ensures raises { IfOk result RaisesNothing }
    ensures below { OnOk result (frames.new.below ≡ frames.old.below) }
    ensures method { OnOk result (frames.new.newest.method ≡ frames.old.newest.method) }
{
    let Some(o) = object else {
        return Ok(Way::Full);
    };
    frames.push(Value::Ref(o))?;
    frames.go_on();
    Ok(Way::Went)
}

impl<'p> Constants<'p> {
    /// None was made of a program's constants.
    pub fn of(alloc: Global, program: &'p LinkedProgram) -> Result<Constants<'p>, AllocError>
        ensures { IfOk result (λ c. c ≡ record { program = program.now; constants = [] }) }
    {
        let table = table_of(alloc, program)?;
        Ok(Constants { table })
    }

    /// The object of the constant whose text stands at an index of a class's pool, where it was made.
    pub fn find(&self, alloc: Global, class: u32, index: u16) -> Result<Option<u32>, AllocError>
        ensures { IfOk result (λ o. o ≡ constant_at self.now.constants (units_at self.now.program class index)) }
    {
        let known = number_at(self.table.known.as_slice(), class, index);
        if known != 0 {
            return Ok(Some(known));
        }
        found(alloc, &self.table, class, index)
    }

    /// The object of the constant whose text stands at an index of a class's pool. It is made where none of its units was; then it is
    /// behind the others. None exactly where the cells for it aren't left, and then nothing has changed. An index is looked up by its
    /// units once, at the first time. `M` is what frames carry, which no constant looks at.
    #[inline]
    pub fn get<M>(
        &mut self,
        alloc: Global,
        heap: &mut Heap,
        class: u32,
        index: u16,
    ) -> Result<Option<u32>, AllocError>
        requires { AreBuilt heap.old.objects }
        ensures row { IfOk result (λ o. Loads M class index self.old heap.old o self.new heap.new) }
        ensures program { self.new.program ≡ self.old.program }
        ensures statics { OnOk result (heap.new.statics ≡ heap.old.statics) }
        ensures built { OnOk result (AreBuilt heap.new.objects) }
        ensures celled { OnOk result (StayCelled heap.old.objects heap.new.objects) }
    {
        constant_laws::<M>();
        let known = number_at(self.table.known.as_slice(), class, index);
        if known != 0 {
            return Ok(Some(known));
        }
        first_get::<M>(alloc, &mut self.table, heap, class, index)
    }

    /// The load of a string constant (JVMS 6.5: ldc), whose text stands at an index of a class's pool.
    #[inline]
    pub fn load<M: Copy>(
        &mut self,
        alloc: Global,
        frames: &mut Frames<M>,
        heap: &mut Heap,
        class: u32,
        index: u16,
    ) -> Result<Way, AllocError>
        requires place { frames.old.newest.place + 1 < 2 ^ 32 }
        requires built { AreBuilt heap.old.objects }
        ensures row { IfOk result (λ way. RunsLoad class index self.old frames.old heap.old way self.new frames.new heap.new) }
        ensures raises { IfOk result RaisesNothing }
        ensures below { OnOk result (frames.new.below ≡ frames.old.below) }
        ensures method { OnOk result (frames.new.newest.method ≡ frames.old.newest.method) }
        ensures program { self.new.program ≡ self.old.program }
        ensures statics { OnOk result (heap.new.statics ≡ heap.old.statics) }
        ensures built { OnOk result (AreBuilt heap.new.objects) }
        ensures celled { OnOk result (StayCelled heap.old.objects heap.new.objects) }
    {
        let object = self.get::<M>(alloc, heap, class, index)?;
        let way = give(frames, object)?;
        Ok(way)
    }
}
