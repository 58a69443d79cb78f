ghost use Rattle.std.specs.Prelude.{◌≡◌, ◌<◌, ◌≤◌, ◌+◌, ◌^◌, ◌∷◌, IfOk, OnOk, drop, length, slice_get};
ghost use Rattle.jresolution.specs.juses.IndexedInstructions as instructions;
ghost use Rattle.jsemantics.specs.jmachine.FrameOperations.{standing};
ghost use Rattle.jsemantics.specs.jmachine.BasicInstructions.{moved};
ghost use Rattle.jruntime.specs.jstate.FrameLists.{holding, with_newest};
ghost use Rattle.jrows.specs.jacts.StackMoves.{laid as move_of, top_seen};
ghost use Rattle.jrows.specs.jacts.RowOutcomes.{Does, Rests};
ghost use Rattle.jrows.specs.declared.jacts.way.Way.TheVariants as ways;

use crate::jacts::locals::is_long;
use crate::jacts::moves::{Laid, Top, moves_of};
use crate::jacts::way::Way;
use jruntime::jstate::Frames;
use jvalues::jnames::Shuffle;
use jvalues::jops::{Value, shuffle_laws};
use std::alloc::AllocError;

/// An item of the newest frame's stack, counted from its newest.
#[inline]
fn top_at<M: Copy>(frames: &Frames<M>, i: usize) -> Top
    ensures { result ≡ top_seen (slice_get frames.now.newest.operands i) }
{
    if i >= frames.count() {
        return Top::None;
    }
    let value = frames.operand(i);
    if is_long(value) {
        return Top::Two(value);
    }
    Top::One(value)
}

// ---- operands in the place of so many of the newest frame's, which are there and at least one; the first of them is the newest

#[inline]
fn lay_2<M: Copy>(frames: &mut Frames<M>, n: usize, a: Value, b: Value) -> Result<(), AllocError>
    requires some { 0 < n }
    requires few { n ≤ length frames.old.newest.operands }
    ensures { OnOk result (frames.new ≡ holding (a ∷ b ∷ drop n frames.old.newest.operands) frames.old) }
{
    frames.replace(n, b);
    frames.push(a)?;
    Ok(())
}

#[inline]
fn lay_3<M: Copy>(
    frames: &mut Frames<M>,
    n: usize,
    a: Value,
    b: Value,
    c: Value,
) -> Result<(), AllocError>
    requires some { 0 < n }
    requires few { n ≤ length frames.old.newest.operands }
    ensures { OnOk result (frames.new ≡ holding (a ∷ b ∷ c ∷ drop n frames.old.newest.operands) frames.old) }
{
    lay_2(frames, n, b, c)?;
    frames.push(a)?;
    Ok(())
}

#[inline]
fn lay_4<M: Copy>(
    frames: &mut Frames<M>,
    n: usize,
    a: Value,
    b: Value,
    c: Value,
    d: Value,
) -> Result<(), AllocError>
    requires some { 0 < n }
    requires few { n ≤ length frames.old.newest.operands }
    ensures { OnOk result (frames.new ≡ holding (a ∷ b ∷ c ∷ d ∷ drop n frames.old.newest.operands) frames.old) }
{
    lay_3(frames, n, b, c, d)?;
    frames.push(a)?;
    Ok(())
}

#[inline]
fn lay_5<M: Copy>(
    frames: &mut Frames<M>,
    n: usize,
    a: Value,
    b: Value,
    c: Value,
    d: Value,
    e: Value,
) -> Result<(), AllocError>
    requires some { 0 < n }
    requires few { n ≤ length frames.old.newest.operands }
    ensures { OnOk result (frames.new ≡ holding (a ∷ b ∷ c ∷ d ∷ e ∷ drop n frames.old.newest.operands) frames.old) }
{
    lay_4(frames, n, b, c, d, e)?;
    frames.push(a)?;
    Ok(())
}

#[inline]
fn lay_all<M: Copy>(frames: &mut Frames<M>, laid: Laid) -> Result<(), AllocError>
    requires some { 0 < (move_of laid).taken }
    requires few { (move_of laid).taken ≤ length frames.old.newest.operands }
    ensures { OnOk result (frames.new ≡ holding (moved frames.old.newest.operands (move_of laid)) frames.old) }
{
    match laid {
        Laid::Gone(n) => {
            frames.shrink(n);
            Ok(())
        }
        Laid::Two(n, a, b) => lay_2(frames, n, a, b),
        Laid::Three(n, a, b, c) => lay_3(frames, n, a, b, c),
        Laid::Four(n, a, b, c, d) => lay_4(frames, n, a, b, c, d),
        Laid::Five(n, a, b, c, d, e) => lay_5(frames, n, a, b, c, d, e),
        Laid::Six(n, a, b, c, d, e, f) => {
            lay_5(frames, n, b, c, d, e, f)?;
            frames.push(a)
        }
    }
}

#[inline]
fn lay<M: Copy>(frames: &mut Frames<M>, laid: Laid) -> Result<Way, AllocError>
    requires place { frames.old.newest.place + 1 < 2 ^ 32 }
    requires some { 0 < (move_of laid).taken }
    requires few { (move_of laid).taken ≤ length frames.old.newest.operands }
    ensures way { IfOk result (λ way. way ≡ ways.Went) }
    ensures frames { OnOk result (frames.new ≡ with_newest (standing frames.old.newest (frames.old.newest.place + 1)
        (moved frames.old.newest.operands (move_of laid))) frames.old) }
{
    lay_all(frames, laid)?;
    frames.go_on();
    Ok(Way::Went)
}

/// An instruction that moves the newest items of the stack (JVMS 6.5: pop to swap). A long is one item, and counts as two slots.
#[inline]
pub fn stack<M: Copy>(frames: &mut Frames<M>, op: Shuffle) -> Result<Way, AllocError>
    requires { frames.old.newest.place + 1 < 2 ^ 32 }
    ensures row { IfOk result (λ way. Does (instructions.Stack op) frames.old.newest way frames.new.newest) }
    ensures below { OnOk result (frames.new.below ≡ frames.old.below) }
    ensures rests { IfOk result (λ way. Rests way frames.old frames.new) }
{
    shuffle_laws::<Value>();
    let a = top_at(frames, 0);
    let b = top_at(frames, 1);
    let c = top_at(frames, 2);
    let d = top_at(frames, 3);
    match moves_of(op, a, b, c, d) {
        None => Ok(Way::Stuck),
        Some(laid) => lay(frames, laid),
    }
}
