ghost use Rattle.std.specs.Prelude.{◌≡◌, ◌<◌, ◌+◌, ◌^◌, [], ℕ, Bool, slice_get};
ghost use Rattle.jparts.specs.declared.jcode.names.CastOp.TheVariants as ops;
ghost use Rattle.jsemantics.specs.jmachine.InstructionSites.{Site};
ghost use Rattle.jsemantics.specs.jmachine.Store.{Store};
ghost use Rattle.jvalues.specs.declared.jops.value.Value.TheVariants as values;
ghost use Rattle.jresolution.specs.declared.jprogram.member.Member.{Member};
ghost use Rattle.jtypes.specs.declared.vtype.VType.{VType};
ghost use Rattle.jresolution.specs.juses.IndexedInstructions as instructions;
ghost use Rattle.jresolution.specs.juses.InstructionMeanings as meanings;
ghost use Rattle.jrows.specs.jacts.RowOutcomes.{ActsWhere, Rests, leaves};
ghost use Rattle.jrows.specs.jobjs.EntryOperands.{IsOne, Serve, bit, named_seen};
ghost use Rattle.jrows.specs.jobjs.RowFrames.{Stays};

use crate::jacts::{Way, way_laws};
use crate::jobjs::fields::give_one;
use jlib::{LibClass, Thrown};
use jruntime::jstate::Frames;
use jvalues::jops::Value;

/// What the newest operand names.
#[derive(Clone, Copy)]
pub(crate) enum Named {
    /// It is no reference, or isn't there.
    Other,
    Null,
    Object(u32),
}

#[inline]
fn named_at<M: Copy>(frames: &Frames<M>) -> Named
    ensures { result ≡ named_seen (slice_get frames.now.newest.operands 0) }
{
    if frames.count() < 1 {
        return Named::Other;
    }
    match frames.operand(0) {
        Value::Int(_) => Named::Other,
        Value::Long(_) => Named::Other,
        Value::Ctx(_) => Named::Other,
        Value::Ref(n) => {
            if n == 0 {
                return Named::Null;
            }
            Named::Object(n)
        }
    }
}

/// A cast of a reference (JVMS 6.5: checkcast). `serve` says that the operand serves, `is` that its object is one of the type.
#[inline]
pub fn check_cast<M: Copy>(frames: &mut Frames<M>, serve: bool, is: bool) -> Way
    requires place { frames.old.newest.place + 1 < 2 ^ 32 }
    ensures row { (t : VType) (s : Store ℕ) →
        ActsWhere (λ (at : Site) (own : Member → Bool). Serve at own s (meanings.Cast ops.CheckCast t) frames.old.newest.operands serve
        × IsOne at.world s t (slice_get frames.old.newest.operands 0) is)
        (instructions.Used (meanings.Cast ops.CheckCast t)) frames.old.newest s (leaves result [] frames.new.newest s) }
    ensures stays { Stays result frames.old.newest frames.new.newest }
    ensures below { frames.new.below ≡ frames.old.below }
    ensures rests { Rests result frames.old frames.new }
{
    way_laws::<M>();
    if !serve {
        return Way::Stuck;
    }
    match named_at(frames) {
        Named::Other => Way::Stuck,
        Named::Null => {
            frames.go_on();
            Way::Went
        }
        Named::Object(_) => {
            if !is {
                return Way::Raises(LibClass::Thrown(Thrown::ClassCastException));
            }
            frames.go_on();
            Way::Went
        }
    }
}

/// Whether a reference is to an object of a type, as an int.
#[inline]
fn told(is: bool) -> Value
    ensures { result ≡ values.Int (bit is) }
{
    if is {
        return Value::Int(1);
    }
    Value::Int(0)
}

/// A test of a reference (JVMS 6.5: instanceof): 1 takes its place where its object is one of the type, else 0. Null is one of none. `serve`
/// and `is` say what they say for a cast.
#[inline]
pub fn instance_of<M: Copy>(frames: &mut Frames<M>, serve: bool, is: bool) -> Way
    requires place { frames.old.newest.place + 1 < 2 ^ 32 }
    ensures row { (t : VType) (s : Store ℕ) →
        ActsWhere (λ (at : Site) (own : Member → Bool). Serve at own s (meanings.Cast ops.InstanceOf t) frames.old.newest.operands serve
        × IsOne at.world s t (slice_get frames.old.newest.operands 0) is)
        (instructions.Used (meanings.Cast ops.InstanceOf t)) frames.old.newest s (leaves result [] frames.new.newest s) }
    ensures stays { Stays result frames.old.newest frames.new.newest }
    ensures below { frames.new.below ≡ frames.old.below }
    ensures rests { Rests result frames.old frames.new }
{
    way_laws::<M>();
    if !serve {
        return Way::Stuck;
    }
    match named_at(frames) {
        Named::Other => Way::Stuck,
        Named::Null => give_one(frames, told(false)),
        Named::Object(_) => give_one(frames, told(is)),
    }
}
