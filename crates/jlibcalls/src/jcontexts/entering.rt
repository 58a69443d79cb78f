ghost use Rattle.std.specs.Prelude.{◌≡◌, ◌≤◌, ◌<◌, ◌+◌, ◌^◌, OnOk, length, take};
ghost use Rattle.jlib.specs.declared.side.Side.TheVariants as sides;
ghost use Rattle.jvalues.specs.declared.jops.value.Value.TheVariants as values;
ghost use Rattle.jrows.specs.jcalls.Throws.{LeavesStanding};
ghost use Rattle.jlibcalls.specs.jcontexts.ActionCalls.{GivesOne};
ghost use Rattle.jlibcalls.specs.jcontexts.DomainEntries.{EntersWith, SnapshotsWith, entering_with, snapshot_with};

use crate::jcontexts::requests::{context_in, domain_in};
use crate::jcontexts::snapshots::give;
use jlib::Side;
use jruntime::jstate::Frames;
use jvalues::jops::Value;
use std::alloc::AllocError;

/// A method of a domain that was called with a context.
#[derive(Clone, Copy)]
pub struct Entering {
    pub ctx: u64,
    pub domain: u32,
}

/// What two operands tell of a method that is entered.
#[tactic(auto, using(crate::proofs::JcontextsProofs::ContextOperands::told_so, crate::proofs::JcontextsProofs::ContextOperands::untold, crate::proofs::JcontextsProofs::ContextOperands::without,),)]
fn entering_of<M: Copy>(frames: &Frames<M>) -> Option<Entering>
    requires { 2 ≤ length frames.now.newest.operands }
    ensures { result ≡ entering_with (take 2 frames.now.newest.operands) }
{
    let Some(domain) = domain_in(frames.operand(0)) else {
        return None;
    };
    let Some(ctx) = context_in(frames.operand(1)) else {
        return None;
    };
    Some(Entering { ctx, domain })
}

/// What so many operands tell of it.
#[tactic(auto, using(crate::proofs::JcontextsProofs::ContextOperands::others_untold))]
fn entering_told<M: Copy>(frames: &Frames<M>, count: usize) -> Option<Entering>
    requires { count ≤ length frames.now.newest.operands }
    ensures { result ≡ entering_with (take count frames.now.newest.operands) }
{
    if count != 2 {
        return None;
    }
    entering_of(frames)
}

/// What a call with so many operands asks by which a method of a domain is entered; none where there is no step.
#[tactic(auto, using(crate::proofs::JcontextsProofs::ContextOperands::enters_with))]
pub fn find_entering<M: Copy>(frames: &Frames<M>, count: usize) -> Option<Entering>
    requires { count ≤ length frames.now.newest.operands }
    ensures { EntersWith M (take count frames.now.newest.operands) result }
{
    entering_told(frames, count)
}

/// The method is entered with the context of a number, which stands in the place of so many operands then.
#[tactic(auto, using(crate::proofs::JcontextsProofs::ContextOperands::gives_one, crate::proofs::JcontextsProofs::ContextOperands::given_stands))]
pub fn enter<M: Copy>(frames: &mut Frames<M>, count: usize, number: u64) -> Result<(), AllocError>
    requires few { count ≤ length frames.old.newest.operands }
    requires place { frames.old.newest.place + 1 < 2 ^ 32 }
    ensures row { OnOk result (GivesOne (values.Ctx number) count frames.old frames.new) }
    ensures below { OnOk result (frames.new.below ≡ frames.old.below) }
    ensures stand { OnOk result (LeavesStanding frames.old frames.new) }
{
    give(frames, count, Value::Ctx(number))
}

/// The context that a call of getContext was given on the passing side, with one operand.
#[tactic(auto, using(crate::proofs::JcontextsProofs::ContextOperands::some_operand, crate::proofs::JcontextsProofs::ContextOperands::no_context))]
fn snapshot_ctx<M: Copy>(frames: &Frames<M>) -> Option<Option<u64>>
    requires { 1 ≤ length frames.now.newest.operands }
    ensures { result ≡ snapshot_with sides.Passing (take 1 frames.now.newest.operands) }
{
    match context_in(frames.operand(0)) {
        None => None,
        Some(ctx) => Some(Some(ctx)),
    }
}

/// The same on a side, with so many operands.
#[tactic(auto, using(crate::proofs::JcontextsProofs::ContextOperands::no_operands, crate::proofs::JcontextsProofs::ContextOperands::source_others, crate::proofs::JcontextsProofs::ContextOperands::passing_others,),)]
fn snapshot_told<M: Copy>(frames: &Frames<M>, side: Side, count: usize) -> Option<Option<u64>>
    requires { count ≤ length frames.now.newest.operands }
    ensures { result ≡ snapshot_with side (take count frames.now.newest.operands) }
{
    match side {
        Side::Source => {
            if count != 0 {
                return None;
            }
            Some(None)
        }
        Side::Passing => {
            if count != 1 {
                return None;
            }
            snapshot_ctx(frames)
        }
    }
}

/// What a call of getContext on a side asks, with so many operands: the context that it was given, if it was; none where there is no step.
#[tactic(auto, using(crate::proofs::JcontextsProofs::ContextOperands::snapshots_with))]
pub fn snapshotting<M: Copy>(frames: &Frames<M>, side: Side, count: usize) -> Option<Option<u64>>
    requires { count ≤ length frames.now.newest.operands }
    ensures { SnapshotsWith M side (take count frames.now.newest.operands) result }
{
    snapshot_told(frames, side, count)
}
