ghost use Rattle.std.specs.Prelude.{◌≡◌};
ghost use Rattle.jlib.specs.LibraryClasses;

/// One of the two libraries: the one that programs are written for, and the one that they are moved to, whose calls are given a
/// context.
#[rattlefmt::skip]
#[derive(Clone, Copy, Debug, PartialEq, Eq)]
pub enum Side { Source, Passing }

/// The libraries that have a class or a member.
#[rattlefmt::skip]
#[derive(Clone, Copy, Debug, PartialEq, Eq)]
pub(crate) enum Sides { Both, Alone(Side) }

impl Sides {
    /// Whether a side is among them.
    pub(crate) fn include(self, side: Side) -> bool
        ensures { result ≡ LibraryClasses.among self side }
    {
        match self {
            Sides::Both => true,
            Sides::Alone(of) => side == of,
        }
    }
}
