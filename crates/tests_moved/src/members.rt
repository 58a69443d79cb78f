use jlib::{ControllerCall, LibCall, RtCall, Side, ThreadCall};
use jresolution::jprogram::{Member, Selected};

/// A member of the library as a moved program has it: both `run` and Thread's constructor are given a context.
fn passing(call: LibCall) -> LibCall {
    match call {
        LibCall::Run(_) => LibCall::Run(Side::Passing),
        LibCall::RunAction(_) => LibCall::RunAction(Side::Passing),
        LibCall::Thread(ThreadCall::Init(_)) => LibCall::Thread(ThreadCall::Init(Side::Passing)),
        _ => call,
    }
}

/// A member as a moved program has it.
pub fn moved_member(member: Member) -> Member {
    match member {
        Member::LibMethod(call) => Member::LibMethod(passing(call)),
        _ => member,
    }
}

/// What is selected, as a moved program has it.
pub fn moved_selected(selected: Selected) -> Selected {
    match selected {
        Selected::Lib(call) => Selected::Lib(passing(call)),
        Selected::Abstract(member) => Selected::Abstract(moved_member(member)),
        _ => selected,
    }
}

/// The method of `sps/Rt` that stands for one of AccessController.
fn asked(call: ControllerCall) -> RtCall {
    match call {
        ControllerCall::Check => RtCall::Check,
        ControllerCall::Snapshot => RtCall::Snapshot,
        ControllerCall::Privileged => RtCall::Privileged,
        ControllerCall::PrivilegedWith => RtCall::PrivilegedWith,
        ControllerCall::PrivilegedLimited => RtCall::PrivilegedLimited,
    }
}

/// What an instruction names in a moved program, in place of a member.
pub fn named_member(member: Member) -> Member {
    match member {
        Member::LibMethod(LibCall::Controller(call)) => Member::LibMethod(LibCall::Rt(asked(call))),
        _ => moved_member(member),
    }
}

/// What a method begins with in a moved program.
pub const ENTERS: Member = Member::LibMethod(LibCall::Rt(RtCall::Enter));
