ghost use Rattle.std.specs.Prelude.{◌≡◌, ◌<◌, ◌+◌, ◌^◌, ◌∷◌, [], IfOk, List, OnOk, Some};
ghost use Rattle.jsemantics.specs.jmachine.FrameOperations.{onward};
ghost use Rattle.jparts.specs.declared.jpool.entry.Entry.{Entry};
ghost use Rattle.jresolution.specs.jprogram.ProgramClasses.{Program};
ghost use Rattle.jresolution.specs.juses.IndexedInstructions as instructions;
ghost use Rattle.jready.specs.CodeLayout.{PlainWithin, PushWithin};
ghost use Rattle.jready.specs.DecodedInstructions.{plain_meant, push_meant};
ghost use Rattle.jruntime.specs.jstate.FrameLists.{with_newest};
ghost use Rattle.jrows.specs.declared.jacts.way.Way.TheVariants as ways;
ghost use Rattle.jstepping.specs.jstep.InstructionRows.{DoesAs, IsNumber, IsNumberPush, pushed};
ghost use Rattle.jrows.specs.jacts.RowOutcomes.{Rests};

use jparts::jcode::Simple;
use jready::{OperandOp, Push, Tables};
use jrows::jacts::{Way, simple, way_laws};
use jruntime::jstate::Frames;
use jvalues::jops::Value;
use std::alloc::AllocError;

/// The form of an instruction with operands alone.
#[inline]
fn form_of(tables: &Tables, f: OperandOp) -> Simple
    requires { PlainWithin tables.now f }
    ensures { plain_meant tables.now f ≡ Some (instructions.Simple result) }
{
    match f {
        OperandOp::Nothing => Simple::Nothing,
        OperandOp::Null => Simple::Null,
        OperandOp::Int(n) => Simple::Int(n),
        OperandOp::Long(k) => Simple::Long(tables.long(k)),
        OperandOp::Two(op) => Simple::Two(op),
        OperandOp::Divide(op) => Simple::Divide(op),
        OperandOp::One(op) => Simple::One(op),
    }
}

/// An instruction with operands alone (JVMS 6.5).
#[inline]
pub fn plain<M: Copy>(
    frames: &mut Frames<M>,
    tables: &Tables,
    f: OperandOp,
) -> Result<Way, AllocError>
    requires place { frames.old.newest.place + 1 < 2 ^ 32 }
    requires within { PlainWithin tables.now f }
    ensures row { IfOk result (λ way. DoesAs (plain_meant tables.now f) frames.old.newest way frames.new.newest) }
    ensures below { OnOk result (frames.new.below ≡ frames.old.below) }
    ensures rests { IfOk result (λ way. Rests way frames.old frames.new) }
{
    simple(frames, form_of(tables, f))
}

/// The number that an instruction pushes.
#[inline]
fn value_of(tables: &Tables, f: Push) -> Value
    requires number { IsNumberPush f }
    requires within { PushWithin tables.now f }
    ensures means { (p : Program) (pool : List Entry) → push_meant p pool tables.now f ≡ Some (pushed result) }
    ensures number { IsNumber result }
{
    match f {
        Push::Int(n) => Value::Int(n),
        Push::Long(k) => Value::Long(tables.long(k)),
        Push::Text(_) => unreachable!(),
    }
}

/// The frame goes on behind its instruction with one more operand.
#[inline]
fn give<M: Copy>(frames: &mut Frames<M>, value: Value) -> Result<Way, AllocError>
    requires { frames.old.newest.place + 1 < 2 ^ 32 }
    ensures way { IfOk result (λ way. way ≡ ways.Went) }
    ensures frames { OnOk result (frames.new ≡ with_newest (onward frames.old.newest (value ∷ [])) frames.old) }
{
    frames.push(value)?;
    frames.go_on();
    Ok(Way::Went)
}

/// An instruction that pushes a number of the pool (JVMS 6.5: ldc, ldc2_w).
#[inline]
pub fn push<M: Copy>(frames: &mut Frames<M>, tables: &Tables, f: Push) -> Result<Way, AllocError>
    requires place { frames.old.newest.place + 1 < 2 ^ 32 }
    requires number { IsNumberPush f }
    requires within { PushWithin tables.now f }
    ensures row { IfOk result
        (λ way. (p : Program) (pool : List Entry) → DoesAs (push_meant p pool tables.now f) frames.old.newest way frames.new.newest) }
    ensures below { OnOk result (frames.new.below ≡ frames.old.below) }
    ensures rests { IfOk result (λ way. Rests way frames.old frames.new) }
{
    way_laws::<M>();
    give(frames, value_of(tables, f))
}
