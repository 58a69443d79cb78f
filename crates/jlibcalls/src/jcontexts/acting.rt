ghost use Rattle.std.specs.Prelude.{◌≡◌, ◌≤◌, ◌++◌, ◌∷◌, IfOk, OnOk, drop, length, option_map, option_to_list};
ghost use Rattle.jvalues.specs.declared.jops.value.Value.TheVariants as values;
ghost use Rattle.jsemantics.specs.jmachine.FrameOperations.{carrying, with_operands};
ghost use Rattle.jruntime.specs.jstate.FrameLists.{holding, with_newest};
ghost use Rattle.jlibcalls.specs.jcontexts.ActionCalls.{ActsStanding, CallsAction, RaisesSteps};

use jrows::jcalls::Callee;
use jruntime::jstate::Frames;
use jvalues::jops::Value;
use std::alloc::AllocError;

/// What the call of an action came to.
#[derive(Clone, Copy)]
pub enum Acted {
    /// A frame of its `run` has begun.
    Begun,
    /// There is no step.
    Stuck,
}

/// Puts a context, if there is one, on the operands, and answers how many that are.
fn hand<M: Copy>(frames: &mut Frames<M>, ctx: Option<u64>) -> Result<usize, AllocError>
    ensures frames { OnOk result (frames.new
        ≡ holding (option_to_list (option_map values.Ctx ctx) ++ frames.old.newest.operands) frames.old) }
    ensures count { IfOk result (λ n. n ≡ length (option_to_list (option_map values.Ctx ctx))) }
{
    match ctx {
        None => Ok(0),
        Some(k) => {
            frames.push(Value::Ctx(k))?;
            Ok(1)
        }
    }
}

/// The frame has the action in the place of the operands of its call, and carries something else from now on.
fn leave_call<M: Copy>(
    frames: &mut Frames<M>,
    count: usize,
    caller: M,
    action: u32,
) -> Result<(), AllocError>
    requires few { count ≤ length frames.old.newest.operands }
    ensures { OnOk result (frames.new
        ≡ with_newest (carrying caller (with_operands frames.old.newest (values.Ref action ∷ drop count frames.old.newest.operands))) frames.old) }
{
    frames.shrink(count);
    frames.carry(caller);
    frames.push(Value::Ref(action))
}

/// Calls an action with a privilege, where its `run` is a user's method: the frame that calls loses so many operands and carries `caller`
/// from now on, and a frame of the method begins, with the context, if there is one, and the action.
#[tactic(auto, using(crate::proofs::JcontextsProofs::ActionCalls::without_code, crate::proofs::JcontextsProofs::ActionCalls::begun_so, crate::proofs::JcontextsProofs::ActionCalls::begun_stands,),)]
pub fn act<M: Copy>(
    frames: &mut Frames<M>,
    callee: Callee<M>,
    action: u32,
    caller: M,
    ctx: Option<u64>,
    count: usize,
) -> Result<Acted, AllocError>
    requires few { count ≤ length frames.old.newest.operands }
    ensures row { IfOk result (λ way. CallsAction callee action caller ctx count frames.old way frames.new) }
    ensures stand { IfOk result (λ way. ActsStanding callee frames.old way frames.new) }
{
    if !callee.has_code {
        return Ok(Acted::Stuck);
    }
    leave_call(frames, count, caller, action)?;
    let handed = hand(frames, ctx)?;
    frames.begin(
        callee.method,
        callee.most,
        callee.stack,
        handed + 1,
        callee.mark,
    )?;
    Ok(Acted::Begun)
}

/// The law of calls that raise an exception: it is raised in frames whose operands of the call are gone. It has no body to run; its
/// contract is the law.
#[tactic(auto, using(crate::proofs::JcontextsProofs::ActionCalls::raises_steps))]
pub fn fail_law<M>()
    ensures { RaisesSteps M }
{}
