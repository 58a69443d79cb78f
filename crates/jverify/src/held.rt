ghost use Rattle.std.specs.Prelude.{◌≡◌, ◌&&◌, IfSome, MatchOption, Some, false, nat_le, nat_lt, true};
ghost use Rattle.jparts.specs.jcode.InstructionForms.{form};
ghost use Rattle.jverify.specs.FrameFacts;

use jparts::jcode::{Access, CallOp, LocalForm, Op, OpForm, PoolForm, form_of};
use jtyping::jrule::FrameRef;

/// Where handlers were found to be served by the frame before an instruction, and where the next one begins.
#[derive(Clone, Copy, Debug)]
pub(crate) struct Served {
    pub at: u32,
    /// No handler begins behind that place and before this one.
    pub next: u32,
}

/// What is known of the locals and the flag of a frame.
#[derive(Clone, Copy, Debug)]
pub(crate) struct LocalsInfo {
    /// The place of a declared frame that has the same locals.
    pub from: Option<u32>,
    /// Where handlers are served by them.
    pub served: Option<Served>,
}

/// A frame in a method, and what is known of it.
#[derive(Debug, Drop)]
pub(crate) struct Held {
    pub frame: FrameRef,
    pub known: LocalsInfo,
}

/// The frame behind an instruction. It is kept where it doesn't go on, as the next declared one may have its locals.
#[derive(Debug, Drop)]
pub(crate) struct Arriving {
    pub held: Held,
    /// It goes on at the instruction behind.
    pub comes: bool,
}

/// Whether a place is one at which the same handlers are to be served, or fewer.
pub(crate) fn spans(s: Served, at: u32) -> bool
    ensures { result ≡ (nat_le s.at at && nat_lt at s.next) }
{
    s.at <= at && at < s.next
}

/// What is known of handlers where a flag may have changed.
pub(crate) fn served_by(served: Option<Served>, old: bool, new: bool) -> Option<Served>
    ensures { IfSome result (λ s. (served ≡ Some s) × (old ≡ new)) }
{
    if old != new {
        return None;
    }
    served
}

/// The frame that arrives, if one does.
pub(crate) fn arrived(a: Arriving) -> Option<Held>
    ensures { MatchOption result (a.comes ≡ false) (λ h. (h ≡ a.held) × (a.comes ≡ true)) }
{
    if !a.comes {
        return None;
    }
    Some(a.held)
}

/// Whether an instruction of a form changes neither locals nor the flag. A special call may be one of an `<init>`.
fn is_quiet_form<S>(form: &OpForm<S>) -> bool
    ensures { result ≡ FrameFacts.is_quiet form.now }
{
    match form {
        OpForm::Local(LocalForm::Move(Access::Store, _, _)) => false,
        OpForm::Pool(PoolForm::New(_)) => false,
        OpForm::Pool(PoolForm::Call(CallOp::Special, _)) => false,
        _ => true,
    }
}

/// Whether an instruction changes neither locals nor the flag, by its form.
#[tactic(auto, using(crate::proofs::QuietForms::quiet_lent))]
pub(crate) fn is_quiet(op: &Op) -> bool
    ensures { result ≡ FrameFacts.is_quiet (form op.now) }
{
    is_quiet_form(&form_of(op))
}

/// Whether two branches, where there are any, are the same.
pub(crate) fn is_same(one: Option<i32>, other: Option<i32>) -> bool
    ensures { result ≡ true → one ≡ other }
{
    match (one, other) {
        (None, None) => true,
        (Some(one), Some(other)) => one == other,
        _ => false,
    }
}
