ghost use Rattle.std.specs.Prelude.{◌≡◌, ℕ, List, slice_get};
ghost use Rattle.jparts.specs.declared.jcode.names.CastOp.{CastOp};
ghost use Rattle.jparts.specs.declared.jcode.names.FieldOp.TheVariants as ops;
ghost use Rattle.jsemantics.specs.jmachine.InstructionSites.{Site};
ghost use Rattle.jsemantics.specs.jmachine.World.{world};
ghost use Rattle.jrows.specs.jobjs.ReferenceBranches.{ServeTest};
ghost use Rattle.jrows.specs.jobjs.EntryOperands.{IsOne};
ghost use Rattle.jrows.specs.jobjs.StoredReferences.{MayStore, ServeStore};
ghost use Rattle.jtypes.specs.declared.vtype.VType.{VType};
ghost use Rattle.jresolution.specs.juses.InstructionMeanings as meanings;
ghost use Rattle.jresolution.specs.juses.InstructionMeanings.{FieldMeaning};
ghost use Rattle.jresolution.specs.juses.InternedTypes.{class_named, named};
ghost use Rattle.jruntime.specs.jstate.HeapMeanings.{Things, store_by};
ghost use Rattle.jstepping.specs.jrefs.NamedEntries.{NamesField};
ghost use Rattle.jstepping.specs.jrefs.ReferenceRows.{IsLasting};
ghost use Rattle.jstepping.specs.jrefs.RowInvariance.{AreSeen, ServesAs, ServesOwn};

use crate::jrefs::lasting::Lasting;
use crate::jrefs::looking::{FieldAt, writes_own};
use jmemory::jheap::Heap;
use jparts::jcode::RefTest;
use jresolution::jprogram::ClassRef;
use jresolution::juses::TypeRef;
use jrows::jcalls::Counts;
use jruntime::jstate::Frames;
use jserving::jserve::{
    Objects, get_field_serves, is_one, may_store, put_field_serves, put_static_serves, ref_serves,
    refs_serve, store_serves,
};

// ---- fields

/// Whether the operand of a read of a field serves, by the class by which the field is named.
#[inline]
pub(crate) fn serves_read<M: Copy>(
    frames: &Frames<M>,
    heap: &Heap,
    x: &Lasting<'_, '_>,
    counts: Counts,
    owner: ClassRef,
) -> bool
    ensures { (f : FieldMeaning) → f.owner ≡ class_named x.now.ancestors.now owner
        → ServesAs x.now counts frames.now.newest.method (meanings.Field ops.GetField f) heap.now frames.now.newest.operands result }
{
    let objects = Objects {
        shapes: x.shapes,
        heap,
        counts,
    };
    get_field_serves(x.ancestors, &objects, frames, owner)
}

/// Whether the operand of a write of a static serves, by the field's type.
#[inline]
pub(crate) fn serves_static<M: Copy>(
    frames: &Frames<M>,
    heap: &Heap,
    x: &Lasting<'_, '_>,
    counts: Counts,
    held: TypeRef,
) -> bool
    ensures { (f : FieldMeaning) → f.held ≡ named x.now.ancestors.now held
        → ServesAs x.now counts frames.now.newest.method (meanings.Field ops.PutStatic f) heap.now frames.now.newest.operands result }
{
    let objects = Objects {
        shapes: x.shapes,
        heap,
        counts,
    };
    put_static_serves(x.ancestors, &objects, frames, held)
}

/// Whether the operands of a write of a field serve, by the class by which it is named and its type. `own` says whether it is one of those
/// that an `<init>` writes before another is called on `this`.
#[inline]
fn serves_by<M: Copy>(
    frames: &Frames<M>,
    heap: &Heap,
    x: &Lasting<'_, '_>,
    counts: Counts,
    own: bool,
    owner: ClassRef,
    held: TypeRef,
) -> bool
    ensures { (f : FieldMeaning) → f.owner ≡ class_named x.now.ancestors.now owner → f.held ≡ named x.now.ancestors.now held
        → ServesOwn x.now counts frames.now.newest.method own f heap.now frames.now.newest.operands result }
{
    let objects = Objects {
        shapes: x.shapes,
        heap,
        counts,
    };
    put_field_serves(x.ancestors, &objects, frames, own, owner, held)
}

/// The same, which asks whether it is one of those only where that matters.
#[inline]
pub(crate) fn serves_write<M: Copy>(
    frames: &Frames<M>,
    heap: &Heap,
    x: &Lasting<'_, '_>,
    counts: Counts,
    a: FieldAt,
    owner: ClassRef,
    held: TypeRef,
) -> bool
    requires lasting { IsLasting x.now }
    ensures { (f : FieldMeaning) → NamesField x.now.ancestors.now frames.now.newest.method.class a f
        → f.owner ≡ class_named x.now.ancestors.now owner → f.held ≡ named x.now.ancestors.now held
        → ServesAs x.now counts frames.now.newest.method (meanings.Field ops.PutField f) heap.now frames.now.newest.operands result }
{
    if serves_by(frames, heap, x, counts, false, owner, held) {
        return true;
    }
    let m = frames.method();
    let own = writes_own(x, m, a);
    serves_by(frames, heap, x, counts, own, owner, held)
}

// ---- references

/// Whether the operand of a cast or of instanceof serves.
#[inline]
pub(crate) fn serves_cast<M: Copy>(
    frames: &Frames<M>,
    heap: &Heap,
    x: &Lasting<'_, '_>,
    counts: Counts,
) -> bool
    ensures { (op : CastOp) (t : VType) → ServesAs x.now counts frames.now.newest.method
        (meanings.Cast op t) heap.now frames.now.newest.operands result }
{
    let objects = Objects {
        shapes: x.shapes,
        heap,
        counts,
    };
    ref_serves(&objects, frames)
}

/// Whether the object that the newest operand names is one of a type.
#[inline]
pub(crate) fn is_of<M: Copy>(
    frames: &Frames<M>,
    heap: &Heap,
    x: &Lasting<'_, '_>,
    counts: Counts,
    t: TypeRef,
) -> bool
    ensures { (others : Things) (constants : List (List ℕ × ℕ)) → AreSeen x.now counts heap.now.objects others
        → IsOne (world x.now.ancestors.now) (store_by x.now.ancestors.now x.now.shapes.now others constants heap.now) (named x.now.ancestors.now t)
        (slice_get frames.now.newest.operands 0) result }
{
    let objects = Objects {
        shapes: x.shapes,
        heap,
        counts,
    };
    is_one(x.ancestors, &objects, frames, t)
}

/// Whether the operands of a branch that tests references serve.
#[inline]
pub(crate) fn serves_test<M: Copy>(
    frames: &Frames<M>,
    heap: &Heap,
    x: &Lasting<'_, '_>,
    counts: Counts,
    test: RefTest,
) -> bool
    ensures { (others : Things) (constants : List (List ℕ × ℕ)) (at : Site) → AreSeen x.now counts heap.now.objects others
        → at.world ≡ world x.now.ancestors.now
        → ServeTest at (store_by x.now.ancestors.now x.now.shapes.now others constants heap.now) test frames.now.newest.operands result }
{
    let objects = Objects {
        shapes: x.shapes,
        heap,
        counts,
    };
    refs_serve(&objects, frames, test)
}

/// Whether the operands of a store of a reference into an array serve.
#[inline]
pub(crate) fn serves_store<M: Copy>(
    frames: &Frames<M>,
    heap: &Heap,
    x: &Lasting<'_, '_>,
    counts: Counts,
) -> bool
    ensures { (others : Things) (constants : List (List ℕ × ℕ)) (at : Site) → AreSeen x.now counts heap.now.objects others
        → at.world ≡ world x.now.ancestors.now
        → ServeStore at (store_by x.now.ancestors.now x.now.shapes.now others constants heap.now) frames.now.newest.operands result }
{
    let objects = Objects {
        shapes: x.shapes,
        heap,
        counts,
    };
    store_serves(&objects, frames)
}

/// Whether the array of a store holds what is stored.
#[inline]
pub(crate) fn holds_stored<M: Copy>(
    frames: &Frames<M>,
    heap: &Heap,
    x: &Lasting<'_, '_>,
    counts: Counts,
) -> bool
    ensures { (others : Things) (constants : List (List ℕ × ℕ)) → AreSeen x.now counts heap.now.objects others
        → MayStore (world x.now.ancestors.now) x.now.ancestors.now x.now.shapes.now
        (store_by x.now.ancestors.now x.now.shapes.now others constants heap.now) heap.now frames.now.newest.operands result }
{
    let objects = Objects {
        shapes: x.shapes,
        heap,
        counts,
    };
    may_store(x.ancestors, &objects, frames)
}
