use jdomain::Verdict;
use jperm::Permission;

/// What is asked. `ctx` is the context that the call was given, on the passing side; the numbers are ones that the guard gave.
#[derive(Clone, Copy)]
pub enum Ask<'a> {
    /// The context of a method of a domain that was called with a context.
    Enter {
        ctx: u64,
        domain: u32,
    },
    /// Whether a permission is granted.
    Check {
        asked: &'a Permission,
        ctx: Option<u64>,
    },
    /// Whether what is kept grants it.
    CheckKept {
        asked: &'a Permission,
        kept: u64,
    },
    /// What getContext keeps.
    Snapshot {
        ctx: Option<u64>,
    },
    /// What a thread keeps that is made.
    Inherit {
        ctx: Option<u64>,
    },
    /// What becomes of a privilege of the frame that calls: its domain, where that is told, the context that is given with the action,
    /// and limits.
    Privileged {
        domain: Option<u32>,
        ctx: Option<u64>,
        given: Option<u64>,
        limits: Option<&'a [Permission]>,
    },
}

/// What is answered. `M` is what a frame carries.
#[derive(Clone, Copy)]
pub enum Answer<M> {
    /// Of a check.
    Verdict(Verdict),
    /// The number of what is kept.
    Kept(u64),
    /// The number of the context that a method enters.
    Ctx(u64),
    /// What the frame that calls carries from now on, and the number of the context that the action is given, if it is given one.
    Marked { caller: M, ctx: Option<u64> },
}
