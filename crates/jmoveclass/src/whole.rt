ghost use Rattle.std.specs.Prelude.{◌≡◌, IfOk, MatchResult, None};
ghost use Rattle.jground.specs.jbase.FirstFaults.{first_along};
ghost use Rattle.jmoveclass.specs.ClassLimits;
ghost use Rattle.jmoveclass.specs.ClassLimits.{ClassErrorIs, HasNone, at_method};
ghost use Rattle.jmoveclass.specs.MovedClasses;
ghost use Rattle.jmoveclass.specs.MovedMembers.{with_method};
ghost use Rattle.jmoveclass.specs.MovableClasses.{IsMoving};
ghost use Rattle.jmoveclass.specs.PoolPuts.{Puts, with_each};

use crate::kept::kept_of_class;
use crate::limit::{ClassError, Limit, RewriteKind};
use crate::limits::methods_limit;
use crate::method::put_method;
use crate::moving::Moving;
use jadder::Adder;
use jclass::{ClassParts, MemberInfo};
use jground::jbase::{Seq, all_again};
use jmove::MoveError;
use jparts::jpool::Pool;
use std::alloc::{AllocError, Global};

/// Puts what the methods of a class name when they are moved.
fn put_methods(
    alloc: Global,
    pool: &mut Adder,
    c: &Moving<'_>,
) -> Result<Seq<MemberInfo>, MoveError>
    requires moving { IsMoving c.now }
    requires limits { HasNone c.now.program.now c.now.class.now }
    ensures { Puts (λ x. x)
        (with_each (with_method c.now.program.now c.now.class.now c.now.domain) c.now.class.now.methods) result pool.old pool.new }
{
    let mut moved = Seq::new(alloc);
    for m in c.class.methods.as_slice() {
        let one = put_method(alloc, pool, c, m)?;
        moved.push(one)?;
    }
    Ok(moved)
}

/// A class with other methods and another pool, and the attributes that are kept.
fn class_with(
    alloc: Global,
    class: &ClassParts,
    methods: Seq<MemberInfo>,
    pool: Pool,
) -> Result<ClassParts, AllocError>
    ensures { IfOk result (λ moved. moved ≡ MovedClasses.class_with class.now (methods, pool)) }
{
    let interfaces = class.interfaces.copy(alloc)?;
    let fields = all_again(alloc, class.fields.as_slice())?;
    let attributes = kept_of_class(alloc, &class.pool, class.attributes.as_slice())?;
    Ok(ClassParts {
        minor: class.minor,
        major: class.major,
        pool,
        flags: class.flags,
        this_class: class.this_class,
        super_class: class.super_class,
        interfaces,
        fields,
        methods,
        attributes,
    })
}

/// An adder over a copy of the class's pool.
fn adder_of(alloc: Global, c: &Moving<'_>) -> Result<Adder, AllocError>
    requires { IsMoving c.now }
    ensures { IfOk result (λ pool. pool ≡ c.now.class.now.pool) }
{
    let pool = c.class.pool.copy(alloc)?;
    Adder::over(alloc, pool)
}

const POOL_FULL: Limit = Limit {
    method: None,
    kind: RewriteKind::PoolFull,
};

/// The moved class, of a class whose methods break no limit.
fn moved(alloc: Global, c: &Moving<'_>) -> Result<ClassParts, ClassError>
    requires moving { IsMoving c.now }
    requires limits { HasNone c.now.program.now c.now.class.now }
    ensures { MatchResult result (λ class. (ClassLimits.class_limit c.now.program.now c.now.domain c.now.class.now ≡ None)
        × (class ≡ MovedClasses.moved_class c.now.program.now c.now.domain c.now.class.now))
        (ClassErrorIs (ClassLimits.class_limit c.now.program.now c.now.domain c.now.class.now)) }
{
    let mut pool = adder_of(alloc, c)?;
    match put_methods(alloc, &mut pool, c) {
        Ok(methods) => {
            // What the proof needs: a pool has at most 65,535 entries.
            let _entries = pool.pool();
            let class = class_with(alloc, c.class, methods, pool.into_pool())?;
            Ok(class)
        }
        Err(MoveError::PoolFull) => Err(ClassError::At(POOL_FULL)),
        Err(_) => Err(ClassError::Memory),
    }
}

/// Moves a class: each of its methods takes its caller's security context as one more parameter, the last; its pool names what they need;
/// SourceFile, InnerClasses, Deprecated and Synthetic are kept of its attributes, and Code, Exceptions, Deprecated and Synthetic of those
/// of a method. All else is as it was.
///
/// `At` comes exactly where a limit is broken, and says the first: the methods in their order, and the pool last.
pub fn moved_class(alloc: Global, c: &Moving<'_>) -> Result<ClassParts, ClassError>
    requires { IsMoving c.now }
    ensures { MatchResult result (λ class. (ClassLimits.class_limit c.now.program.now c.now.domain c.now.class.now ≡ None)
        × (class ≡ MovedClasses.moved_class c.now.program.now c.now.domain c.now.class.now))
        (ClassErrorIs (ClassLimits.class_limit c.now.program.now c.now.domain c.now.class.now)) }
{
    let found = methods_limit(alloc, c)?;
    if let Some(limit) = found {
        return Err(ClassError::At(limit));
    }
    moved(alloc, c)
}
