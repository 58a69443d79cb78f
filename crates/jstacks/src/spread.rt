ghost use Rattle.std.specs.Prelude.{◌≡◌, ◌∷◌, ◌++◌, List, OnErr, OnOk, length, take};
ghost use Rattle.std.specs.List.{flat_map};
ghost use Rattle.std.specs.Option.{option_to_list};
ghost use Rattle.jstacks.specs.ListStacks.{padded};

use std::alloc::AllocError;

/// What an item of one list is in another: one item or two.
pub trait Spread<S, T> {
    ghost spread: { S → List T };

    /// The first of them, and the second if there is one.
    fn parts(item: S) -> (T, Option<T>)
        ensures { spread item ≡ result.0 ∷ option_to_list result.1 };
}

/// Puts the parts of an item behind others. After an error the others stand in front.
#[inline]
fn push_parts<T: Copy>(items: &mut Vec<T>, first: T, second: Option<T>) -> Result<(), AllocError>
    ensures ok { OnOk result (items.new.items ≡ items.old.items ++ first ∷ option_to_list second) }
    ensures err { OnErr result (take (length items.old.items) items.new.items ≡ items.old.items) }
{
    items.push(first)?;
    if let Some(other) = second {
        items.push(other)?;
    }
    Ok(())
}

/// Puts the parts of all given items behind others. After an error the others stand in front.
fn push_all<S: Copy, T: Copy, W: Spread<S, T>>(
    items: &mut Vec<T>,
    given: &[S],
) -> Result<(), AllocError>
    ensures ok { OnOk result (items.new.items ≡ items.old.items ++ flat_map W.spread given.now) }
    ensures err { OnErr result (take (length items.old.items) items.new.items ≡ items.old.items) }
{
    for item in given {
        let (first, second) = W::parts(*item);
        push_parts(items, first, second)?;
    }
    Ok(())
}

/// Puts the parts of all given items behind others, and behind them another item until `len` are put, where the parts are fewer.
/// After an error the others stand in front.
pub(crate) fn lay<S: Copy, T: Copy, W: Spread<S, T>>(
    items: &mut Vec<T>,
    given: &[S],
    len: u32,
    rest: T,
) -> Result<(), AllocError>
    ensures ok { OnOk result (items.new.items ≡ items.old.items ++ padded len rest (flat_map W.spread given.now)) }
    ensures err { OnErr result (take (length items.old.items) items.new.items ≡ items.old.items) }
{
    let all = items.len() + len as usize;
    push_all::<S, T, W>(items, given)?;
    if items.len() < all {
        items.resize(all, rest)?;
    }
    Ok(())
}
