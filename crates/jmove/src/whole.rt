ghost use Rattle.std.specs.Prelude.{◌≡◌, ◌<◌, IsSome, OnErr};
ghost use Rattle.jmove.specs.PoolAdditions.{IsFront, with_body};
ghost use Rattle.jmove.specs.MovedMethods;
ghost use Rattle.jmove.specs.MovedMethods.{Answers};
ghost use Rattle.jmove.specs.MethodExpansion;
ghost use Rattle.jmove.specs.MethodExpansion.{CanMove};

use crate::adding::put_body;
use crate::method::{Expand, MethodIn, MethodOut, MoveError};
use crate::moving::{limit_of, moved_by};
use jadder::Adder;
use std::alloc::Global;

/// Moves a method with code (JVMS 4.7.3). The moved method takes its caller's security context as one more parameter, the last. It begins
/// by entering its domain, keeps the context that this gives in a local of its own, and hands it on as `kinds` say of each instruction. Its
/// frames are written full (JVMS 4.7.4). What it names is put into the pool: first the reference that it begins by calling, then that of
/// each changed instruction in its turn, then the class of contexts, where there are frames.
///
/// The errors come in the order of `MoveError`. `Slots`, `Locals`, `Stack` and `TooLong` leave the pool as it was. After `PoolFull` and
/// `Memory` it holds its old entries and a front of those that were to be put.
pub fn move_method(
    alloc: Global,
    m: &MethodIn,
    kinds: &[Expand],
    domain: u32,
    pool: &mut Adder,
) -> Result<MethodOut, MoveError>
    requires can { CanMove m.now kinds.now }
    requires domain { domain < 4096 }
    // The moved method, and the pool that it needs; each error exactly where the definition has it, want of memory aside.
    ensures value { Answers result pool.new (MovedMethods.move_method m.now kinds.now domain pool.old) }
    // After an error the pool holds its old entries,
    ensures kept { OnErr result (IsFront pool.old pool.new) }
    // and behind them a front of what was to be put.
    ensures front { OnErr result (IsFront pool.new (with_body kinds.now m.now.frames pool.old).1) }
    // A limit is found before anything is put.
    ensures limit { IsSome (MethodExpansion.limit_of m.now kinds.now) → pool.new ≡ pool.old }
{
    if let Some(limit) = limit_of(m, kinds) {
        return Err(limit);
    }
    let named = put_body(alloc, pool, kinds, m.frames.as_slice())?;
    // What the proof needs: a pool has at most 65,535 entries.
    let _pool = pool.pool();
    let kinds = named.kinds.as_slice();
    let moved = moved_by(alloc, m, kinds, domain as u16, named.enter, named.context)?;
    Ok(moved)
}
