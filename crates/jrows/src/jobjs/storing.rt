ghost use Rattle.std.specs.Prelude.{◌≡◌, ◌<◌, ◌≤◌, ◌+◌, ◌^◌, [], ℕ, List, Bool, is_some, length, slice_get, true};
ghost use Rattle.jparts.specs.declared.jcode.names.Element.TheVariants as items;
ghost use Rattle.jparts.specs.declared.jcode.op_form.ArrayForm.TheVariants as forms;
ghost use Rattle.jmemory.specs.jheap.Heaps.{cells_at, object_at};
ghost use Rattle.jsemantics.specs.jmachine.ArrayInstructions as rows;
ghost use Rattle.jsemantics.specs.jmachine.Narrowing.{place as place_of};
ghost use Rattle.jsemantics.specs.jmachine.InstructionSites.{Site};
ghost use Rattle.jresolution.specs.jprogram.ProgramClasses.{Program};
ghost use Rattle.jresolution.specs.declared.jprogram.member.Member.{Member};
ghost use Rattle.jresolution.specs.juses.IndexedInstructions as instructions;
ghost use Rattle.jruntime.specs.jstate.ObjectCells.{StayCelled};
ghost use Rattle.jruntime.specs.jstate.HeapMeanings.{AreBuilt, Things, store_by};
ghost use Rattle.jruntime.specs.declared.jstate.shapes.Shapes.{Shapes};
ghost use Rattle.jrows.specs.jacts.RowOutcomes.{ActsWhere, Rests, leaves};
ghost use Rattle.jrows.specs.jobjs.StoredReferences.{HasStored, MayStore, ServeStore, held_seen};
ghost use Rattle.jrows.specs.jobjs.RowFrames.{Stays};

use crate::jacts::{Way, int_at, put_at, way_laws, within};
use jlib::{LibClass, Thrown};
use jmemory::jheap::{Heap, Kind};
use jruntime::jstate::{Frames, built_laws, celled_laws, heap_laws};
use jvalues::jops::Value;

/// What stands below the index of a store.
#[derive(Clone, Copy)]
pub enum Held {
    /// No array.
    Other,
    Null,
    /// The array of a number, with the heap's number for its type.
    Array(u32, u32),
}

#[inline]
fn array_at<M: Copy>(frames: &Frames<M>, heap: &Heap) -> Held
    ensures { result ≡ held_seen heap.now (slice_get frames.now.newest.operands 2) }
{
    if frames.count() <= 2 {
        return Held::Other;
    }
    match frames.operand(2) {
        Value::Int(_) => Held::Other,
        Value::Long(_) => Held::Other,
        Value::Ctx(_) => Held::Other,
        Value::Ref(o) => {
            if o == 0 {
                return Held::Null;
            }
            match heap.found(o) {
                Some(Kind::Array(a)) => Held::Array(o, a),
                Some(Kind::Object(_)) => Held::Other,
                Some(Kind::Text) => Held::Other,
                Some(Kind::Piece) => Held::Other,
                None => Held::Other,
            }
        }
    }
}

/// The item of an index is written, where it is there and holds what is stored, and the frame loses what it took. The index comes first.
#[inline]
fn put_item<M: Copy>(
    frames: &mut Frames<M>,
    heap: &mut Heap,
    o: u32,
    i: i32,
    value: Value,
    is: bool,
) -> Way
    requires place { frames.old.newest.place + 1 < 2 ^ 32 }
    requires few { 3 ≤ length frames.old.newest.operands }
    requires there { is_some (object_at heap.old o) ≡ true }
    ensures { HasStored is o value frames.old heap.old result frames.new heap.new (rows.within (length (cells_at heap.old o)) (place_of i)) }
{
    let look = heap.looked(o);
    match within(look.len, i) {
        None => Way::Raises(LibClass::Thrown(Thrown::ArrayIndexOutOfBoundsException)),
        Some(k) => {
            if !is {
                return Way::Raises(LibClass::Thrown(Thrown::ArrayStoreException));
            }
            put_at(heap, look, k, value);
            frames.shrink(3);
            frames.go_on();
            Way::Went
        }
    }
}

/// A store of a reference into an array (JVMS 6.5: aastore). A null array comes before an index that isn't there, and that before the class
/// of what is stored. `serve` says that the operands serve, `is` that the array holds what is stored.
#[inline]
pub fn store_ref<M: Copy>(frames: &mut Frames<M>, heap: &mut Heap, serve: bool, is: bool) -> Way
    requires place { frames.old.newest.place + 1 < 2 ^ 32 }
    ensures row { (p : Program) (shapes : Shapes) (things : Things) (constants : List (List ℕ × ℕ)) →
        let s = store_by p shapes things constants heap.old in
        ActsWhere (λ (at : Site) (own : Member → Bool). ServeStore at s frames.old.newest.operands serve × MayStore at.world p shapes s heap.old frames.old.newest.operands is)
        (instructions.Array (forms.Store items.Ref)) frames.old.newest s (leaves result [] frames.new.newest (store_by p shapes things constants heap.new)) }
    ensures stays { Stays result frames.old.newest frames.new.newest }
    ensures below { frames.new.below ≡ frames.old.below }
    ensures rests { Rests result frames.old frames.new }
    ensures kept { Rests result heap.old heap.new }
    ensures built { AreBuilt heap.old.objects → AreBuilt heap.new.objects }
    ensures celled { StayCelled heap.old.objects heap.new.objects }
{
    heap_laws();
    built_laws();
    celled_laws();
    way_laws::<M>();
    if !serve {
        return Way::Stuck;
    }
    let Some(i) = int_at(frames, 1) else {
        return Way::Stuck;
    };
    match array_at(frames, heap) {
        Held::Other => Way::Stuck,
        Held::Null => Way::Raises(LibClass::Thrown(Thrown::NullPointerException)),
        Held::Array(o, _) => {
            let value = frames.operand(0);
            put_item(frames, heap, o, i, value, is)
        }
    }
}
