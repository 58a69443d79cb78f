ghost use Rattle.std.specs.Prelude.{◌≡◌, ◌≤◌, Some, length, take};
ghost use Rattle.jlib.specs.declared.side.Side.TheVariants as sides;
ghost use Rattle.jlibcalls.specs.declared.jcontexts.requests.PrivilegedForm.TheVariants as forms;
ghost use Rattle.jlibcalls.specs.jcontexts.PrivilegeRequests;
ghost use Rattle.jlibcalls.specs.jcontexts.PrivilegeRequests.{requested, taken_by};

use jlib::Side;
use jruntime::jstate::Frames;
use jvalues::jops::Value;

/// A form of doPrivileged.
#[derive(Clone, Copy)]
pub enum PrivilegedForm {
    /// Of an action.
    Alone,
    /// Of an action and a context.
    Within,
    /// Of an action, a context and permissions.
    Limited,
}

/// What is given besides the action.
#[derive(Clone, Copy)]
pub(crate) enum Besides {
    Nothing,
    Context(Value),
    /// An array of permissions and a context, and on the passing side the context of the call.
    Limits {
        ctx: Option<u64>,
        array: Value,
        context: Value,
    },
}

/// What a call of doPrivileged is given.
#[derive(Clone, Copy)]
pub(crate) struct Request {
    /// The domain of the method that calls, where it is told.
    pub(crate) domain: Option<u32>,
    pub(crate) besides: Besides,
    pub(crate) action: Value,
}

/// How many operands a form takes on a side.
fn taken_by(side: Side, form: PrivilegedForm) -> usize
    ensures { result ≡ PrivilegeRequests.taken_by side form }
{
    match (side, form) {
        (Side::Source, PrivilegedForm::Alone) => 1,
        (Side::Source, PrivilegedForm::Within) => 2,
        (Side::Source, PrivilegedForm::Limited) => 3,
        (Side::Passing, PrivilegedForm::Alone) => 2,
        (Side::Passing, PrivilegedForm::Within) => 3,
        (Side::Passing, PrivilegedForm::Limited) => 5,
    }
}

/// The domain that an operand tells.
#[inline]
pub(crate) fn domain_in(value: Value) -> Option<u32>
    ensures { result ≡ PrivilegeRequests.domain_in value }
{
    match value {
        Value::Int(d) => Some(d.cast_unsigned()),
        Value::Long(_) => None,
        Value::Ref(_) => None,
        Value::Ctx(_) => None,
    }
}

/// The context that an operand is.
#[inline]
pub(crate) fn context_in(value: Value) -> Option<u64>
    ensures { result ≡ PrivilegeRequests.context_in value }
{
    match value {
        Value::Int(_) => None,
        Value::Long(_) => None,
        Value::Ref(_) => None,
        Value::Ctx(k) => Some(k),
    }
}

/// What a call on the source side is given, whose operands are there.
#[tactic(auto, using(crate::proofs::JcontextsProofs::PrivilegedArguments::source_alone, crate::proofs::JcontextsProofs::PrivilegedArguments::source_within, crate::proofs::JcontextsProofs::PrivilegedArguments::source_limited,),)]
fn source_request<M: Copy>(frames: &Frames<M>, form: PrivilegedForm) -> Request
    requires { taken_by sides.Source form ≤ length frames.now.newest.operands }
    ensures { Some result ≡ requested sides.Source form (take (taken_by sides.Source form) frames.now.newest.operands) }
{
    match form {
        PrivilegedForm::Alone => Request {
            domain: None,
            besides: Besides::Nothing,
            action: frames.operand(0),
        },
        PrivilegedForm::Within => Request {
            domain: None,
            besides: Besides::Context(frames.operand(0)),
            action: frames.operand(1),
        },
        PrivilegedForm::Limited => Request {
            domain: None,
            besides: Besides::Limits {
                ctx: None,
                array: frames.operand(0),
                context: frames.operand(1),
            },
            action: frames.operand(2),
        },
    }
}

/// What a call of an action on the passing side is given, whose operands are there.
#[tactic(auto, using(crate::proofs::JcontextsProofs::PrivilegedArguments::passing_alone, crate::proofs::JcontextsProofs::PrivilegedArguments::alone_untold,),)]
fn passing_alone<M: Copy>(frames: &Frames<M>) -> Option<Request>
    requires { 2 ≤ length frames.now.newest.operands }
    ensures { result ≡ requested sides.Passing forms.Alone (take 2 frames.now.newest.operands) }
{
    let Some(domain) = domain_in(frames.operand(0)) else {
        return None;
    };
    Some(Request {
        domain: Some(domain),
        besides: Besides::Nothing,
        action: frames.operand(1),
    })
}

/// What one of an action and a context is given.
#[tactic(auto, using(crate::proofs::JcontextsProofs::PrivilegedArguments::passing_within, crate::proofs::JcontextsProofs::PrivilegedArguments::within_untold,),)]
fn passing_within<M: Copy>(frames: &Frames<M>) -> Option<Request>
    requires { 3 ≤ length frames.now.newest.operands }
    ensures { result ≡ requested sides.Passing forms.Within (take 3 frames.now.newest.operands) }
{
    let Some(domain) = domain_in(frames.operand(0)) else {
        return None;
    };
    Some(Request {
        domain: Some(domain),
        besides: Besides::Context(frames.operand(1)),
        action: frames.operand(2),
    })
}

/// What one of an action, a context and permissions is given.
#[tactic(auto, using(crate::proofs::JcontextsProofs::PrivilegedArguments::passing_limited, crate::proofs::JcontextsProofs::PrivilegedArguments::limited_untold, crate::proofs::JcontextsProofs::PrivilegedArguments::limited_without,),)]
fn passing_limited<M: Copy>(frames: &Frames<M>) -> Option<Request>
    requires { 5 ≤ length frames.now.newest.operands }
    ensures { result ≡ requested sides.Passing forms.Limited (take 5 frames.now.newest.operands) }
{
    let Some(domain) = domain_in(frames.operand(0)) else {
        return None;
    };
    let Some(ctx) = context_in(frames.operand(1)) else {
        return None;
    };
    Some(Request {
        domain: Some(domain),
        besides: Besides::Limits {
            ctx: Some(ctx),
            array: frames.operand(2),
            context: frames.operand(3),
        },
        action: frames.operand(4),
    })
}

/// What a call of doPrivileged is given with so many operands, where they are such.
#[tactic(auto, using(crate::proofs::JcontextsProofs::PrivilegedArguments::other_count))]
pub(crate) fn request_by<M: Copy>(
    frames: &Frames<M>,
    side: Side,
    form: PrivilegedForm,
    count: usize,
) -> Option<Request>
    requires { count ≤ length frames.now.newest.operands }
    ensures { result ≡ requested side form (take count frames.now.newest.operands) }
{
    if count != taken_by(side, form) {
        return None;
    }
    match (side, form) {
        (Side::Source, _) => Some(source_request(frames, form)),
        (Side::Passing, PrivilegedForm::Alone) => passing_alone(frames),
        (Side::Passing, PrivilegedForm::Within) => passing_within(frames),
        (Side::Passing, PrivilegedForm::Limited) => passing_limited(frames),
    }
}
