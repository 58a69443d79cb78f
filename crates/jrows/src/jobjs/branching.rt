ghost use Rattle.std.specs.Prelude.{◌≡◌, ◌<◌, ◌+◌, ◌^◌, ◌∷◌, [], ℕ, Some, Bool, slice_get};
ghost use Rattle.jsemantics.specs.jmachine.InstructionSites.{Site};
ghost use Rattle.jsemantics.specs.jmachine.Store.{Store};
ghost use Rattle.jsemantics.specs.ProofNames;
ghost use Rattle.jvalues.specs.declared.jops.value.Value.TheVariants as values;
ghost use Rattle.jresolution.specs.declared.jprogram.member.Member.{Member};
ghost use Rattle.jresolution.specs.juses.IndexedInstructions as instructions;
ghost use Rattle.jrows.specs.jacts.RowOutcomes.{ActsWhere, Rests, leaves};
ghost use Rattle.jrows.specs.jobjs.ReferenceBranches.{ServeTest, null_test, ref_in, same_test};
ghost use Rattle.jrows.specs.jobjs.RowFrames.{Stays};

use crate::jacts::{Way, branch, way_laws};
use jruntime::jstate::Frames;
use jvalues::jops::Value;

/// The number of the reference that stands at a place among the newest frame's operands, counted from the newest.
#[inline]
fn ref_at<M: Copy>(frames: &Frames<M>, i: usize) -> Option<u32>
    ensures { result ≡ ref_in (slice_get frames.now.newest.operands i) }
{
    if i >= frames.count() {
        return None;
    }
    match frames.operand(i) {
        Value::Int(_) => None,
        Value::Long(_) => None,
        Value::Ctx(_) => None,
        Value::Ref(n) => Some(n),
    }
}

/// Whether a reference is null, where that is asked, else whether it isn't.
#[inline]
fn is_null(null: bool, n: u32) -> bool
    ensures { Some result ≡ ProofNames.compared {K = ℕ} (null_test null) (values.Ref n ∷ []) }
{
    if null {
        return n == 0;
    }
    n != 0
}

/// Whether two references are the same, where that is asked, else whether they aren't.
#[inline]
fn are_same(same: bool, a: u32, b: u32) -> bool
    ensures { Some result ≡ ProofNames.compared {K = ℕ} (same_test same) (values.Ref b ∷ values.Ref a ∷ []) }
{
    if same {
        return a == b;
    }
    a != b
}

/// A branch that tests a reference against null (JVMS 6.5: ifnull, ifnonnull). `serve` says that the operand serves.
#[inline]
pub fn if_null<M: Copy>(frames: &mut Frames<M>, null: bool, to: u32, serve: bool) -> Way
    requires place { frames.old.newest.place + 1 < 2 ^ 32 }
    ensures row { (s : Store ℕ) →
        ActsWhere (λ (at : Site) (own : Member → Bool). ServeTest at s (null_test null) frames.old.newest.operands serve)
        (instructions.Jump (instructions.IfRef (null_test null)) to) frames.old.newest s (leaves result [] frames.new.newest s) }
    ensures stays { Stays result frames.old.newest frames.new.newest }
    ensures below { frames.new.below ≡ frames.old.below }
    ensures rests { Rests result frames.old frames.new }
{
    way_laws::<M>();
    if !serve {
        return Way::Stuck;
    }
    let Some(n) = ref_at(frames, 0) else {
        return Way::Stuck;
    };
    branch(frames, 1, is_null(null, n), to);
    Way::Went
}

/// A branch that compares two references (JVMS 6.5: if_acmpeq, if_acmpne). `serve` says that the operands serve.
#[inline]
pub fn if_same<M: Copy>(frames: &mut Frames<M>, same: bool, to: u32, serve: bool) -> Way
    requires place { frames.old.newest.place + 1 < 2 ^ 32 }
    ensures row { (s : Store ℕ) →
        ActsWhere (λ (at : Site) (own : Member → Bool). ServeTest at s (same_test same) frames.old.newest.operands serve)
        (instructions.Jump (instructions.IfRef (same_test same)) to) frames.old.newest s (leaves result [] frames.new.newest s) }
    ensures stays { Stays result frames.old.newest frames.new.newest }
    ensures below { frames.new.below ≡ frames.old.below }
    ensures rests { Rests result frames.old frames.new }
{
    way_laws::<M>();
    if !serve {
        return Way::Stuck;
    }
    let Some(b) = ref_at(frames, 0) else {
        return Way::Stuck;
    };
    let Some(a) = ref_at(frames, 1) else {
        return Way::Stuck;
    };
    branch(frames, 2, are_same(same, a, b), to);
    Way::Went
}
