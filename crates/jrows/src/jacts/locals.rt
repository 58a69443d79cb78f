ghost use Rattle.std.specs.Prelude.{◌≡◌, ◌<◌, ◌≤◌, ◌+◌, ◌+ℤ◌, ◌^◌, IfOk, OnOk, length, ℕ};
ghost use Rattle.std.specs.Int.{int_wrap, w32};
ghost use Rattle.jvalues.specs.declared.jops.value.Value.TheVariants as values;
ghost use Rattle.jparts.specs.jcode.InstructionForms;
ghost use Rattle.jparts.specs.declared.jcode.op_form.LocalForm.TheVariants.{Increment, Move};
ghost use Rattle.jparts.specs.declared.jcode.names.Access.TheVariants.{Load, Store};
ghost use Rattle.jvalues.specs.jops.Shuffles;
ghost use Rattle.jresolution.specs.juses.IndexedInstructions as instructions;
ghost use Rattle.jsemantics.specs.jmachine.BasicInstructions.{places, with_local};
ghost use Rattle.jruntime.specs.jstate.FrameLists.{keeping};
ghost use Rattle.jrows.specs.jacts.RowOutcomes.{Does, Rests, int_in};

use crate::jacts::straight::push;
use crate::jacts::way::Way;
use jparts::jcode::{Access, LocalForm, LocalKind};
use jruntime::jstate::Frames;
use jvalues::jnames::Kind;
use jvalues::jops::Value;
use std::alloc::AllocError;

#[inline]
fn kind_of(kind: LocalKind) -> Kind
    ensures { result ≡ InstructionForms.local kind }
{
    match kind {
        LocalKind::Int => Kind::Int,
        LocalKind::Long => Kind::Long,
        LocalKind::Ref => Kind::Held,
    }
}

#[inline]
pub(crate) fn is_long(value: Value) -> bool
    ensures { result ≡ Shuffles.is_long value }
{
    matches!(value, Value::Long(_))
}

/// How many locals a value takes.
#[inline]
fn places_of(value: Value) -> usize
    ensures value { result ≡ length (places value) }
    ensures few { result ≤ 2 }
{
    if is_long(value) {
        return 2;
    }
    1
}

/// Puts a value into a local, and of a long nothing into the one behind it. They are there.
#[inline]
fn put_local<M: Copy>(frames: &mut Frames<M>, n: usize, value: Value)
    requires few { n < 2 ^ 16 }
    requires there { n + length (places value) ≤ length frames.old.newest.locals }
    ensures { frames.new ≡ keeping (with_local frames.old.newest.locals n value) frames.old }
{
    frames.set_local(n, Some(value));
    if is_long(value) {
        frames.set_local(n + 1, None);
    }
}

#[inline]
#[tactic(auto, using(crate::proofs::JactsProofs::LocalInstructions::loaded_on, crate::proofs::JactsProofs::LocalInstructions::load_stuck, crate::proofs::JactsProofs::LocalInstructions::load_other,),)]
fn load<M: Copy>(frames: &mut Frames<M>, kind: LocalKind, n: u16) -> Result<Way, AllocError>
    requires { frames.old.newest.place + 1 < 2 ^ 32 }
    ensures row { IfOk result (λ way. Does (instructions.Local (Move Load kind n)) frames.old.newest way frames.new.newest) }
    ensures below { OnOk result (frames.new.below ≡ frames.old.below) }
    ensures rests { IfOk result (λ way. Rests way frames.old frames.new) }
{
    match frames.local(n as usize) {
        None => Ok(Way::Stuck),
        Some(value) => {
            if !value.is_of(kind_of(kind)) {
                return Ok(Way::Stuck);
            }
            push(frames, value)
        }
    }
}

#[inline]
#[tactic(auto, using(crate::proofs::JactsProofs::LocalInstructions::stored_on, crate::proofs::JactsProofs::LocalInstructions::store_short, crate::proofs::JactsProofs::LocalInstructions::store_other, crate::proofs::JactsProofs::LocalInstructions::store_outside,),)]
fn store<M: Copy>(frames: &mut Frames<M>, kind: LocalKind, n: u16) -> Way
    requires { frames.old.newest.place + 1 < 2 ^ 32 }
    ensures row { Does (instructions.Local (Move Store kind n)) frames.old.newest result frames.new.newest }
    ensures below { frames.new.below ≡ frames.old.below }
    ensures rests { Rests result frames.old frames.new }
{
    if frames.count() < 1 {
        return Way::Stuck;
    }
    let value = frames.operand(0);
    if !value.is_of(kind_of(kind)) {
        return Way::Stuck;
    }
    if n as usize + places_of(value) > frames.locals() {
        return Way::Stuck;
    }
    put_local(frames, n as usize, value);
    frames.shrink(1);
    frames.go_on();
    Way::Went
}

/// The number of an int.
#[inline]
fn int_of(held: Option<Value>) -> Option<i32>
    ensures { result ≡ int_in held }
{
    match held {
        Some(Value::Int(x)) => Some(x),
        Some(Value::Long(_)) => None,
        Some(Value::Ref(_)) => None,
        Some(Value::Ctx(_)) => None,
        None => None,
    }
}

#[inline]
fn sum(x: i32, y: i32) -> i32
    ensures { result ≡ int_wrap w32 (x +ℤ y) }
{
    x.wrapping_add(y)
}

/// An int with another added to it, which wraps.
#[inline]
fn increased(x: i32, by: i16) -> Value
    ensures { result ≡ values.Int (int_wrap w32 (x +ℤ by)) }
{
    Value::Int(sum(x, i32::from(by)))
}

#[inline]
#[tactic(auto, using(crate::proofs::JactsProofs::LocalInstructions::increased_on, crate::proofs::JactsProofs::LocalInstructions::increase_stuck, crate::proofs::JactsProofs::LocalInstructions::has_local,),)]
fn increment<M: Copy>(frames: &mut Frames<M>, n: u16, by: i16) -> Way
    requires { frames.old.newest.place + 1 < 2 ^ 32 }
    ensures row { Does (instructions.Local (Increment n by)) frames.old.newest result frames.new.newest }
    ensures below { frames.new.below ≡ frames.old.below }
    ensures rests { Rests result frames.old frames.new }
{
    let Some(x) = int_of(frames.local(n as usize)) else {
        return Way::Stuck;
    };
    frames.set_local(n as usize, Some(increased(x, by)));
    frames.go_on();
    Way::Went
}

/// An instruction with a local (JVMS 6.5). A long takes two locals, of which the second holds nothing.
#[inline]
pub fn local<M: Copy>(frames: &mut Frames<M>, form: LocalForm) -> Result<Way, AllocError>
    requires { frames.old.newest.place + 1 < 2 ^ 32 }
    ensures row { IfOk result (λ way. Does (instructions.Local form) frames.old.newest way frames.new.newest) }
    ensures below { OnOk result (frames.new.below ≡ frames.old.below) }
    ensures rests { IfOk result (λ way. Rests way frames.old frames.new) }
{
    match form {
        LocalForm::Move(Access::Load, kind, n) => load(frames, kind, n),
        LocalForm::Move(Access::Store, kind, n) => Ok(store(frames, kind, n)),
        LocalForm::Increment(n, by) => Ok(increment(frames, n, by)),
    }
}
