ghost use Rattle.std.specs.Prelude.{◌≡◌, ◌<◌, ◌+◌, ◌^◌, IfOk, OnOk};
ghost use Rattle.jresolution.specs.juses.IndexedInstructions as instructions;
ghost use Rattle.jresolution.specs.juses.InstructionMeanings as meanings;
ghost use Rattle.jresolution.specs.juses.InstructionMeanings.{FieldMeaning};
ghost use Rattle.jresolution.specs.declared.jprogram.member.Member.TheVariants as members;
ghost use Rattle.jlinking.specs.jlink.NamedFields.{IsNamedField};
ghost use Rattle.jready.specs.declared.instr.Instr.TheVariants as instrs;
ghost use Rattle.jruntime.specs.jstate.ObjectCells.{AreCelled};
ghost use Rattle.jruntime.specs.jstate.HeapMeanings.{AreBuilt};
ghost use Rattle.jrows.specs.jobjs.RowFrames.{Stays};
ghost use Rattle.jrows.specs.declared.jcalls.ready.Counts.{Counts as CountsOf};
ghost use Rattle.jstepping.specs.jrefs.NamedEntries.{NamesField};
ghost use Rattle.jstepping.specs.jrefs.ReferenceRows.{IsExact, IsFetched, IsLasting, StaysStuck};
ghost use Rattle.jstepping.specs.jrefs.RowInvariance.{SeenActs, SeenRuns};
ghost use Rattle.jrows.specs.jacts.RowOutcomes.{Rests};

use crate::jrefs::casts::{cast, cast_named};
use crate::jrefs::fields::{read, write};
use crate::jrefs::lasting::Lasting;
use crate::jrefs::looking::FieldAt;
use crate::jrefs::making::{make_array, make_library, make_user};
use crate::jrefs::statics::{read_static, write_static};
use jlinking::jlink::field_law;
use jmemory::jheap::Heap;
use jparts::jcode::FieldOp;
use jready::ObjectInstr;
use jresolution::jprogram::ClassRef;
use jresolution::juses::TypeRef;
use jrows::jacts::Way;
use jrows::jcalls::Counts;
use jrows::jobjs::get_out;
use jruntime::jstate::Frames;
use std::alloc::{AllocError, Global};

/// An instruction with a user's field (JVMS 6.5: getfield, putfield, getstatic, putstatic).
#[inline]
#[tactic(auto, using(jrows::proofs::JactsProofs::ArrayFailures::same, jrows::proofs::JactsProofs::ArrayFailures::ok_same))]
pub(crate) fn field<M: Copy>(
    frames: &mut Frames<M>,
    heap: &mut Heap,
    x: &Lasting<'_, '_>,
    counts: Counts,
    a: FieldAt,
) -> Result<Way, AllocError>
    requires place { frames.old.newest.place + 1 < 2 ^ 32 }
    requires lasting { IsLasting x.now }
    requires built { AreBuilt heap.old.objects }
    requires celled { AreCelled x.now.shapes.now heap.old.objects }
    ensures row { IfOk result (λ way. (f : FieldMeaning) → NamesField x.now.ancestors.now frames.old.newest.method.class a f
        → SeenActs x.now counts (instructions.Used (meanings.Field a.op f)) frames.old.newest heap.old way frames.new.newest heap.new) }
    ensures stays { IfOk result (λ way. Stays way frames.old.newest frames.new.newest) }
    ensures below { OnOk result (frames.new.below ≡ frames.old.below) }
    ensures rests { IfOk result (λ way. Rests way frames.old frames.new) }
    ensures kept { IfOk result (λ way. Rests way heap.old heap.new) }
    ensures built { OnOk result (AreBuilt heap.new.objects) }
    ensures celled { OnOk result (AreCelled x.now.shapes.now heap.new.objects) }
{
    match a.op {
        FieldOp::GetField => Ok(read(frames, heap, x, counts, a)),
        FieldOp::PutField => Ok(write(frames, heap, x, counts, a)),
        FieldOp::GetStatic => read_static(frames, heap, x, a),
        FieldOp::PutStatic => Ok(write_static(frames, heap, x, counts, a)),
    }
}

/// An instruction with the library's field, `System.out`, which no class may write.
#[inline]
pub(crate) fn system_out<M: Copy>(
    frames: &mut Frames<M>,
    heap: &Heap,
    x: &Lasting<'_, '_>,
    op: FieldOp,
) -> Result<Way, AllocError>
    requires place { frames.old.newest.place + 1 < 2 ^ 32 }
    ensures row { IfOk result (λ way. (counts : CountsOf) (f : FieldMeaning) → f.member ≡ members.LibField → IsNamedField x.now.ancestors.now op f
        → SeenActs x.now counts (instructions.Used (meanings.Field op f)) frames.old.newest heap.now way frames.new.newest heap.now) }
    ensures stays { IfOk result (λ way. Stays way frames.old.newest frames.new.newest) }
    ensures below { OnOk result (frames.new.below ≡ frames.old.below) }
    ensures rests { IfOk result (λ way. Rests way frames.old frames.new) }
{
    match op {
        FieldOp::GetStatic => get_out(frames),
        FieldOp::PutStatic => Ok(Way::Stuck),
        FieldOp::GetField => Ok(Way::Stuck),
        FieldOp::PutField => Ok(Way::Stuck),
    }
}

/// An instruction with a class, or with the library's field.
#[inline]
#[tactic(auto, using(jrows::proofs::JactsProofs::ArrayFailures::same, jrows::proofs::JactsProofs::ArrayFailures::ok_same))]
pub(crate) fn object<M: Copy>(
    alloc: Global,
    frames: &mut Frames<M>,
    heap: &mut Heap,
    x: &Lasting<'_, '_>,
    counts: Counts,
    f: ObjectInstr,
) -> Result<Way, AllocError>
    requires place { frames.old.newest.place + 1 < 2 ^ 32 }
    requires lasting { IsLasting x.now }
    requires means { IsFetched x.now (instrs.Object f) frames.old.newest }
    requires exact { IsExact x.now (instrs.Object f) frames.old.newest }
    requires built { AreBuilt heap.old.objects }
    requires celled { AreCelled x.now.shapes.now heap.old.objects }
    ensures row { IfOk result (λ way. SeenRuns x.now counts (instrs.Object f) frames.old.newest heap.old way frames.new.newest heap.new) }
    ensures missing { IfOk result (λ way. StaysStuck x.now (instrs.Object f) frames.old.newest way) }
    ensures stays { IfOk result (λ way. Stays way frames.old.newest frames.new.newest) }
    ensures below { OnOk result (frames.new.below ≡ frames.old.below) }
    ensures rests { IfOk result (λ way. Rests way frames.old frames.new) }
    ensures kept { IfOk result (λ way. Rests way heap.old heap.new) }
    ensures built { OnOk result (AreBuilt heap.new.objects) }
    ensures celled { OnOk result (AreCelled x.now.shapes.now heap.new.objects) }
{
    field_law();
    match f {
        ObjectInstr::New { pool, class } => make_user(alloc, frames, heap, x, pool, class),
        ObjectInstr::NewLibrary { pool, class } => {
            make_library(alloc, frames, heap, x, pool, class)
        }
        ObjectInstr::NewArray { array, .. } => make_array(alloc, frames, heap, x, array),
        ObjectInstr::CastClass { op, class, .. } => {
            let t = TypeRef::Object(ClassRef::User(class));
            Ok(cast(frames, heap, x, counts, op, t))
        }
        ObjectInstr::Cast { op, pool } => Ok(cast_named(frames, heap, x, counts, op, pool)),
        ObjectInstr::Out { op, .. } => system_out(frames, heap, x, op),
    }
}
