ghost use Rattle.std.specs.Prelude.{◌≡◌, ◌≤◌, IfOk};
ghost use Rattle.jground.specs.jbase.FirstFaults.{first_along};
ghost use Rattle.jclass.specs.FileContents.{IsIn};
ghost use Rattle.jmoveclass.specs.EntryLocals;
ghost use Rattle.jmoveclass.specs.ClassLimits;
ghost use Rattle.jmoveclass.specs.ProofNames;
ghost use Rattle.jmoveclass.specs.ClassLimits.{at_method};
ghost use Rattle.jmoveclass.specs.MovableClasses.{IsCode, IsMoving, seen_body};

use crate::beginning::{bare_beginning, params_of, slots};
use crate::body::{BodyRef, code_in};
use crate::calls::expands;
use crate::limit::{Limit, RewriteKind};
use crate::method::method_in;
use crate::moving::Moving;
use jclass::{ClassParts, MemberInfo};
use jmove::{MoveError, limit_of};
use jparts::jpool::FieldType;
use std::alloc::{AllocError, Global};

fn kind_of(limit: MoveError) -> RewriteKind
    ensures { result ≡ ClassLimits.kind_of limit }
{
    match limit {
        MoveError::Slots => RewriteKind::Slots,
        MoveError::Locals => RewriteKind::Locals,
        MoveError::Stack => RewriteKind::Stack,
        MoveError::TooLong(size) => RewriteKind::TooLong(size),
        MoveError::PoolFull => RewriteKind::PoolFull,
        MoveError::Memory => RewriteKind::PoolFull,
    }
}

/// The first limit that the code of a method would break.
fn code_limit(
    alloc: Global,
    c: &Moving<'_>,
    m: &MemberInfo,
    params: &[FieldType],
    b: BodyRef<'_>,
) -> Result<Option<RewriteKind>, AllocError>
    requires moving { IsMoving c.now }
    requires params { params.now ≡ EntryLocals.params_of c.now.class.now m.now }
    requires code { IsCode c.now.class.now m.now (seen_body b) }
    ensures { IfOk result (λ limit. limit ≡ ClassLimits.code_limit c.now.program.now c.now.class.now m.now (seen_body b.entry)) }
{
    let first = bare_beginning(alloc, c.class, m, params)?;
    let kinds = expands(alloc, c, b.ops)?;
    let method = method_in(alloc, c.class, m, params, b, first.as_slice())?;
    let kinds = kinds.as_slice();
    match limit_of(&method, kinds) {
        Some(limit) => Ok(Some(kind_of(limit))),
        None => Ok(None),
    }
}

fn slots_limit(class: &ClassParts, m: &MemberInfo, params: &[FieldType]) -> Option<RewriteKind>
    requires params { params.now ≡ EntryLocals.params_of class.now m.now }
    requires few { EntryLocals.slots class.now m.now ≤ 255 }
    ensures { result ≡ ProofNames.slots_limit class.now m.now }
{
    if slots(class, m, params) == 255 {
        return Some(RewriteKind::Slots);
    }
    None
}

/// The first limit that a method would break.
#[tactic(auto, unfolding(crate::specs::ClassLimits::method_limit))]
fn method_limit(
    alloc: Global,
    c: &Moving<'_>,
    m: &MemberInfo,
) -> Result<Option<RewriteKind>, AllocError>
    requires moving { IsMoving c.now }
    requires method { IsIn m.now c.now.class.now.methods }
    ensures { IfOk result (λ limit. limit ≡ ClassLimits.method_limit c.now.program.now c.now.class.now m.now) }
{
    let params = params_of(alloc, c.class, m)?;
    let Some(b) = code_in(m) else {
        return Ok(slots_limit(c.class, m, params.as_slice()));
    };
    code_limit(alloc, c, m, params.as_slice(), b)
}

/// The first limit that the methods of a class would break.
#[tactic(auto, unfolding(jground::specs::jbase::FirstFaults::first_along))]
pub fn methods_limit(alloc: Global, c: &Moving<'_>) -> Result<Option<Limit>, AllocError>
    requires { IsMoving c.now }
    ensures { IfOk result
        (λ limit. limit ≡ first_along (λ j m. at_method j (ClassLimits.method_limit c.now.program.now c.now.class.now m)) 0 c.now.class.now.methods) }
{
    for (j, m) in c.class.methods.as_slice().iter().enumerate() {
        let place = j as u32;
        if let Some(kind) = method_limit(alloc, c, m)? {
            return Ok(Some(Limit {
                method: Some(place),
                kind,
            }));
        }
    }
    Ok(None)
}
