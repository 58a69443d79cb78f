ghost use Rattle.std.specs.Prelude.{◌≡◌, IfOk};

use crate::jbase::seq::Seq;
use std::alloc::{AllocError, Global};

/// What can be made again.
pub trait TryClone: Drop {
    /// The same value again.
    fn again(&self, alloc: Global) -> Result<Self, AllocError>
        ensures { IfOk result (λ same. same ≡ self.now) };
}

/// The same values again.
pub fn all_again<T: TryClone>(alloc: Global, items: &[T]) -> Result<Seq<T>, AllocError>
    ensures { IfOk result (λ same. same ≡ items.now) }
{
    let mut same = Seq::new(alloc);
    for item in items {
        let one = item.again(alloc)?;
        same.push(one)?;
    }
    Ok(same)
}
