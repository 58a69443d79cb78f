ghost use Rattle.std.specs.Prelude.{◌≡◌, ◌≤◌};
ghost use Rattle.jserving.specs.jinvoke.CallQueries.{call_of, class_of, number_with};

use crate::jinvoke::choosing::CallKey;
use jcache::Key;
use jlib::{LibCall, LibClass, Side};

/// A method of an interface of a side's library that the machine calls itself, which no entry of a pool names.
#[derive(Clone, Copy, Debug, PartialEq, Eq)]
pub enum Face {
    /// Runnable's run, with which a thread begins.
    Runnable(Side),
    /// PrivilegedAction's run.
    Action(Side),
}

impl Face {
    /// The interface.
    pub(crate) fn class(self) -> LibClass
        ensures { result ≡ class_of self }
    {
        match self {
            Face::Runnable(_) => LibClass::Runnable,
            Face::Action(_) => LibClass::PrivilegedAction,
        }
    }

    /// Its method.
    pub(crate) fn call(self) -> LibCall
        ensures { result ≡ call_of self }
    {
        match self {
            Face::Runnable(side) => LibCall::Run(side),
            Face::Action(side) => LibCall::RunAction(side),
        }
    }
}

/// What is asked about calls, and remembered.
#[derive(Clone, Copy, Debug, PartialEq, Eq)]
pub(crate) enum Asked {
    /// A call that an entry of a pool names.
    Call(CallKey),
    /// A call that the machine makes itself on an object, by the heap's number for its class.
    Face { face: Face, on: Option<u32> },
}

#[inline]
fn number_at(site: u64, on: Option<u32>) -> u64
    requires { site ≤ 0xffff_ffff_ffff }
    ensures { result ≡ number_with site on }
{
    match on {
        None => site,
        Some(n) => site * 7 + u64::from(n),
    }
}

impl Key for Asked {
    ghost use Rattle.std.proofs.Common.{rules};
    ghost use Rattle.jserving.specs.jinvoke.CallQueries.{asked_number};

    ghost numbered = { asked_number };

    ghost exact = { Prim.search rules };

    #[inline]
    fn number(self) -> u64 {
        match self {
            Asked::Call(key) => number_at(u64::from(key.class) * 31 + u64::from(key.pool), key.on),
            Asked::Face { on, .. } => number_at(0, on),
        }
    }
}
