ghost use Rattle.std.specs.Prelude.{◌≡◌, option_map};
ghost use Rattle.jresolution.specs.juses.InternedTypes.{named};
ghost use Rattle.jtyping.specs.jrule.StackEffects;

use jresolution::jprogram::NamedProgram;
use jresolution::juses::TypeRef;
use jvalues::jnames::Kind;

/// Whether a type is one of references.
pub(crate) fn is_ref(p: &NamedProgram, t: TypeRef) -> bool
    ensures { result ≡ StackEffects.is_ref (named p.now t) }
{
    match t {
        TypeRef::Null | TypeRef::Object(_) | TypeRef::Array(_) => true,
        _ => false,
    }
}

fn is_array(p: &NamedProgram, t: TypeRef) -> bool
    ensures { result ≡ StackEffects.is_array (named p.now t) }
{
    match t {
        TypeRef::Null | TypeRef::Array(_) => true,
        _ => false,
    }
}

fn is_held(p: &NamedProgram, t: TypeRef) -> bool
    ensures { result ≡ StackEffects.is_held (named p.now t) }
{
    match t {
        TypeRef::UninitThis | TypeRef::Uninit(_) | TypeRef::Ctx => true,
        _ => is_ref(p, t),
    }
}

/// Whether a type is of a kind.
pub(crate) fn is_of(p: &NamedProgram, kind: Kind, t: TypeRef) -> bool
    ensures { result ≡ StackEffects.is_of kind (named p.now t) }
{
    match kind {
        Kind::Int => matches!(t, TypeRef::Int),
        Kind::Long => matches!(t, TypeRef::Long),
        Kind::Null => matches!(t, TypeRef::Null),
        Kind::Ref => is_ref(p, t),
        Kind::Array => is_array(p, t),
        Kind::Held => is_held(p, t),
    }
}

/// The type of what is of a kind, where the kind says it.
pub(crate) fn typed(p: &NamedProgram, kind: Kind) -> Option<TypeRef>
    ensures { option_map (named p.now) result ≡ StackEffects.typed kind }
{
    match kind {
        Kind::Int => Some(TypeRef::Int),
        Kind::Long => Some(TypeRef::Long),
        Kind::Null => Some(TypeRef::Null),
        _ => None,
    }
}
