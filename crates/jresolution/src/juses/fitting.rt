ghost use Rattle.std.specs.Prelude.{◌≡◌, true};
ghost use Rattle.jresolution.specs.jprogram.ProgramClasses;
ghost use Rattle.jresolution.specs.jprogram.ProgramClasses.{name_at, tree};
ghost use Rattle.jtypes.specs.declared.vtype.VType.TheVariants.{Object};
ghost use Rattle.jtypes.specs.Assignability;
ghost use Rattle.jtypes.specs.ProofNames;
ghost use Rattle.jresolution.specs.juses.InternedTypes.{class_named, element_named, named};

use crate::jprogram::{ClassRef, NamedProgram};
use crate::juses::types::{ArrayRef, ElementRef, TypeRef};

fn is_above_arrays(p: &NamedProgram, d: ClassRef) -> bool
    ensures { result ≡ Assignability.is_above_arrays (class_named p.now d) }
{
    let name = p.name_of(d);
    name == b"java/lang/Object".as_slice()
        || name == b"java/lang/Cloneable".as_slice()
        || name == b"java/io/Serializable".as_slice()
}

/// The two are one user's class, which is seen without a look at names.
fn are_one(c: ClassRef, d: ClassRef) -> bool
    ensures { result ≡ true → c ≡ d }
{
    match c {
        ClassRef::User(i) => match d {
            ClassRef::User(j) => i == j,
            ClassRef::Lib(_) => false,
        },
        ClassRef::Lib(_) => false,
    }
}

/// Whether a class is another one or stands below it (JVMS 4.1), by their numbers. Every class stands below Object.
pub fn stands_below(p: &NamedProgram, c: ClassRef, d: ClassRef) -> bool
    ensures { result ≡ ProgramClasses.extends p.now (name_at p.now c) (name_at p.now d) }
{
    if are_one(c, d) {
        return true;
    }
    p.extends_at(c, d)
}

/// Whether an object of the first class fits the second one.
fn class_fits(p: &NamedProgram, c: ClassRef, d: ClassRef) -> bool
    ensures { result ≡ Assignability.class_fits (tree p.now) (class_named p.now c) (class_named p.now d) }
{
    if are_one(c, d) {
        return true;
    }
    if p.is_interface_at(d) {
        return true;
    }
    stands_below(p, c, d)
}

fn is_above_array(p: &NamedProgram, x: ElementRef) -> bool
    ensures { result ≡ ProofNames.is_above_array Assignability.is_above_arrays (element_named p.now x) }
{
    match x {
        ElementRef::Class(c) => is_above_arrays(p, c),
        _ => false,
    }
}

/// Whether what an array of one dimension holds fits what another one holds.
fn element_fits(p: &NamedProgram, x: ElementRef, y: ElementRef) -> bool
    ensures { result ≡ Assignability.element_fits (tree p.now) (element_named p.now x) (element_named p.now y) }
{
    match y {
        ElementRef::Boolean => matches!(x, ElementRef::Boolean),
        ElementRef::Char => matches!(x, ElementRef::Char),
        ElementRef::Byte => matches!(x, ElementRef::Byte),
        ElementRef::Short => matches!(x, ElementRef::Short),
        ElementRef::Int => matches!(x, ElementRef::Int),
        ElementRef::Long => matches!(x, ElementRef::Long),
        ElementRef::Class(d) => match x {
            ElementRef::Class(c) => class_fits(p, c, d),
            _ => false,
        },
    }
}

/// Whether an array fits another one.
fn array_fits(p: &NamedProgram, a: ArrayRef, b: ArrayRef) -> bool
    ensures { result ≡ Assignability.array_fits Assignability.is_above_arrays (tree p.now) a.depth (element_named p.now a.element)
        b.depth (element_named p.now b.element) }
{
    if a.depth < b.depth {
        return false;
    }
    if a.depth > b.depth {
        return is_above_array(p, b.element);
    }
    element_fits(p, a.element, b.element)
}

/// Whether a value of a type fits a class or an interface.
fn object_fits(p: &NamedProgram, a: TypeRef, d: ClassRef) -> bool
    ensures { result ≡ Assignability.fits (tree p.now) (named p.now a) (Object (class_named p.now d)) }
{
    match a {
        TypeRef::Null => true,
        TypeRef::Object(c) => class_fits(p, c, d),
        TypeRef::Array(_) => is_above_arrays(p, d),
        _ => false,
    }
}

/// Whether a value of the first type may stand where one of the second is wanted (JVMS 4.10.1.2).
pub fn type_fits(p: &NamedProgram, a: TypeRef, b: TypeRef) -> bool
    ensures { result ≡ Assignability.fits (tree p.now) (named p.now a) (named p.now b) }
{
    match b {
        TypeRef::Top => true,
        TypeRef::Int => matches!(a, TypeRef::Int),
        TypeRef::Long => matches!(a, TypeRef::Long),
        TypeRef::Null => matches!(a, TypeRef::Null),
        TypeRef::UninitThis => matches!(a, TypeRef::UninitThis),
        TypeRef::Uninit(q) => match a {
            TypeRef::Uninit(o) => o == q,
            _ => false,
        },
        TypeRef::Object(d) => object_fits(p, a, d),
        TypeRef::Array(y) => match a {
            TypeRef::Null => true,
            TypeRef::Array(x) => array_fits(p, x, y),
            _ => false,
        },
        TypeRef::Ctx => matches!(a, TypeRef::Ctx),
    }
}
