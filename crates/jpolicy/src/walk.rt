ghost use Rattle.std.specs.Prelude.{◌≡◌, Bool, List, Result, length};
ghost use Rattle.jground.specs.jbase.MemoryFailures.{Gives};
ghost use Rattle.jpolicy.specs.ListWalks.{walk};

use jground::jbase::FaultOrMemory;
use std::alloc::Global;

/// What goes from one state to the next over some items at the front of a list.
pub trait Walk {
    type Item;

    type State: Drop;

    type Fault: Drop;

    /// Whether the walk ends in front of these items.
    ghost ends: { Self → List Self.Item → Bool };

    /// The state behind the next step and the items that are left, or a fault.
    ghost goes: { Self → Self.State → List Self.Item → Result (Self.State × List Self.Item) Self.Fault };

    fn is_over(&self, items: &[Self::Item]) -> bool
        ensures { result ≡ ends self.now items.now };

    fn step<'a>(
        &self,
        alloc: Global,
        state: Self::State,
        items: &'a [Self::Item],
    ) -> Result<(Self::State, &'a [Self::Item]), FaultOrMemory<Self::Fault>>
        ensures { Gives (λ x. (x.0, x.1.now)) result (goes self.now state items.now) };
}

/// The state where the walk over a list ends, and the items that are left there.
pub fn walk_of<'a, W: Walk>(
    alloc: Global,
    by: &W,
    first: W::State,
    items: &'a [W::Item],
) -> Result<(W::State, &'a [W::Item]), FaultOrMemory<W::Fault>>
    ensures { Gives (λ x. (x.0, x.1.now)) result (walk (W.ends by.now) (W.goes by.now) (length items.now) first items.now) }
{
    let mut state = first;
    let mut rest = items;
    for _ in 0..items.len() {
        if by.is_over(rest) {
            return Ok((state, rest));
        }
        let (next, left) = by.step(alloc, state, rest)?;
        state = next;
        rest = left;
    }
    Ok((state, rest))
}
