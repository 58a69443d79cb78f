ghost use Rattle.std.specs.Prelude.{◌≡◌};
ghost use Rattle.jstepping.specs.jstep.StepRelation;

use jlib::LibCall;
use jresolution::jprogram::ClassRef;
use jrows::jcalls::{Leaving, Raised};

/// What a step came to.
#[derive(Clone, Copy, Debug, PartialEq, Eq)]
pub enum Stepped {
    /// The thread goes on.
    Went,
    /// It has ended, and its frames are not to be used.
    Ended,
    /// An object of a class was thrown, and a frame handles it.
    Handled(ClassRef),
    /// It was thrown, and none handles it: the thread has ended, and its frames are not to be used.
    Uncaught(ClassRef),
    /// The library is to run with so many operands, which are there. Nothing has changed.
    Asks { call: LibCall, count: usize },
    /// The heap has too few cells left: the run is over.
    Full,
    /// There is no step.
    Stuck,
}

/// What a step came to that raised or threw an object of a class.
#[inline]
pub(crate) fn stepped_of(done: Raised, class: ClassRef) -> Stepped
    ensures { result ≡ StepRelation.stepped_as done class }
{
    match done {
        Raised::Full => Stepped::Full,
        Raised::Handled => Stepped::Handled(class),
        Raised::Uncaught => Stepped::Uncaught(class),
    }
}

/// What a step came to by what a return came to.
#[inline]
pub(crate) fn left_of(way: Leaving) -> Stepped
    ensures { result ≡ StepRelation.left_as way }
{
    match way {
        Leaving::Resumed => Stepped::Went,
        Leaving::Ends => Stepped::Ended,
        Leaving::Stuck => Stepped::Stuck,
    }
}
