ghost use Rattle.std.specs.Prelude.{◌≡◌, true};
ghost use Rattle.jtypes.specs.declared.vtype.VType.TheVariants as types;
ghost use Rattle.jtypes.specs.Assignability;
ghost use Rattle.jtypes.specs.ProofNames;
ghost use Rattle.jresolution.specs.jprogram.ProgramClasses.{tree};
ghost use Rattle.jresolution.specs.jprogram.ImplementedInterfaces.{IsNumber};
ghost use Rattle.jresolution.specs.juses.InternedTypes.{class_named, element_named, named};
ghost use Rattle.jserving.specs.jfits.TypeQueries as comparing;
ghost use Rattle.jserving.specs.jfits.TypeQueries.{above_by, tree_by};

use crate::jfits::ancestors::Ancestors;
use jlib::LibClass;
use jresolution::jprogram::{ClassRef, NamedProgram};
use jresolution::juses::{ArrayRef, ElementRef, TypeRef, stands_below};

/// How types are compared.
#[derive(Clone, Copy)]
pub(crate) enum Asked {
    /// A value of the first may stand where one of the second is wanted.
    Fits,
    /// Its object is one of the second: an interface is one that its class has.
    IsOne,
}

// ---- numbers that stand for no class of the program, which no machine meets: by their names

fn stranger_above_arrays(p: &NamedProgram, d: ClassRef) -> bool
    ensures { result ≡ Assignability.is_above_arrays (class_named p.now d) }
{
    let name = p.name_of(d);
    name == b"java/lang/Object".as_slice()
        || name == b"java/lang/Cloneable".as_slice()
        || name == b"java/io/Serializable".as_slice()
}

fn stranger_is_interface(p: &NamedProgram, d: ClassRef) -> bool
    ensures { result ≡ (tree p.now).is_interface (class_named p.now d) }
{
    p.is_interface(p.name_of(d))
}

fn stranger_is_above(a: &Ancestors<'_>, asked: Asked, d: ClassRef) -> bool
    ensures { result ≡ above_by a.now asked (class_named a.now d) }
{
    let above = stranger_above_arrays(a.named(), d);
    match asked {
        Asked::Fits => above || stranger_is_interface(a.named(), d),
        Asked::IsOne => above,
    }
}

fn stranger_fits(a: &Ancestors<'_>, asked: Asked, c: ClassRef, d: ClassRef) -> bool
    ensures { result ≡ Assignability.class_fits (tree_by a.now asked) (class_named a.now c) (class_named a.now d) }
{
    let p = a.named();
    match asked {
        Asked::Fits => stranger_is_interface(p, d) || stands_below(p, c, d),
        Asked::IsOne => stands_below(p, c, d) || a.implements(c, d),
    }
}

// ---- classes

/// Whether every array fits a class or an interface, in each program.
fn is_above_arrays(a: &Ancestors<'_>, d: ClassRef) -> bool
    requires { IsNumber a.now d }
    ensures { result ≡ Assignability.is_above_arrays (class_named a.now d) }
{
    a.is_lib(d, LibClass::Object)
        || a.is_lib(d, LibClass::Cloneable)
        || a.is_lib(d, LibClass::Serializable)
}

/// Whether every array fits a class or an interface.
fn is_above(a: &Ancestors<'_>, asked: Asked, d: ClassRef) -> bool
    ensures { result ≡ above_by a.now asked (class_named a.now d) }
{
    if !a.is_known(d) {
        return stranger_is_above(a, asked, d);
    }
    let above = is_above_arrays(a, d);
    match asked {
        Asked::Fits => above || a.is_interface(d),
        Asked::IsOne => above,
    }
}

/// Whether an object of the first class fits the second one.
fn known_fits(a: &Ancestors<'_>, asked: Asked, c: ClassRef, d: ClassRef) -> bool
    requires first { IsNumber a.now c }
    requires second { IsNumber a.now d }
    ensures { result ≡ Assignability.class_fits (tree_by a.now asked) (class_named a.now c) (class_named a.now d) }
{
    match asked {
        Asked::Fits => a.is_interface(d) || a.extends(c, d),
        Asked::IsOne => a.extends(c, d) || a.implements(c, d),
    }
}

/// The same of any two numbers.
fn class_fits(a: &Ancestors<'_>, asked: Asked, c: ClassRef, d: ClassRef) -> bool
    ensures { result ≡ Assignability.class_fits (tree_by a.now asked) (class_named a.now c) (class_named a.now d) }
{
    if !a.is_known(c) {
        return stranger_fits(a, asked, c, d);
    }
    if !a.is_known(d) {
        return stranger_fits(a, asked, c, d);
    }
    known_fits(a, asked, c, d)
}

/// The two are one class of the library.
#[inline]
fn are_one_librarys(c: LibClass, d: LibClass) -> bool
    ensures { result ≡ true → c ≡ d }
{
    c == d
}

/// The two are one class, which is seen without a look at names.
#[inline]
fn are_one(c: ClassRef, d: ClassRef) -> bool
    ensures { result ≡ true → c ≡ d }
{
    match c {
        ClassRef::User(i) => match d {
            ClassRef::User(j) => i == j,
            ClassRef::Lib(_) => false,
        },
        ClassRef::Lib(c) => match d {
            ClassRef::User(_) => false,
            ClassRef::Lib(d) => are_one_librarys(c, d),
        },
    }
}

/// A class is Object, which is seen without a look at names.
#[inline]
fn is_object(d: ClassRef) -> bool
    ensures { result ≡ true → d ≡ ClassRef.Lib LibClass.Object }
{
    match d {
        ClassRef::User(_) => false,
        ClassRef::Lib(d) => matches!(d, LibClass::Object),
    }
}

/// The same, where the two are mostly one, or the second is Object.
#[inline]
fn class_fits_soon(a: &Ancestors<'_>, asked: Asked, c: ClassRef, d: ClassRef) -> bool
    ensures { result ≡ Assignability.class_fits (tree_by a.now asked) (class_named a.now c) (class_named a.now d) }
{
    if are_one(c, d) {
        return true;
    }
    if is_object(d) {
        return true;
    }
    class_fits(a, asked, c, d)
}

// ---- arrays

fn is_above_array(a: &Ancestors<'_>, asked: Asked, x: ElementRef) -> bool
    ensures { result ≡ ProofNames.is_above_array (above_by a.now asked) (element_named a.now x) }
{
    match x {
        ElementRef::Class(c) => is_above(a, asked, c),
        _ => false,
    }
}

/// Whether what an array of one dimension holds fits what another one holds.
fn element_fits(a: &Ancestors<'_>, asked: Asked, x: ElementRef, y: ElementRef) -> bool
    ensures { result ≡ Assignability.element_fits (tree_by a.now asked) (element_named a.now x) (element_named a.now y) }
{
    match y {
        ElementRef::Boolean => matches!(x, ElementRef::Boolean),
        ElementRef::Char => matches!(x, ElementRef::Char),
        ElementRef::Byte => matches!(x, ElementRef::Byte),
        ElementRef::Short => matches!(x, ElementRef::Short),
        ElementRef::Int => matches!(x, ElementRef::Int),
        ElementRef::Long => matches!(x, ElementRef::Long),
        ElementRef::Class(d) => match x {
            ElementRef::Class(c) => class_fits_soon(a, asked, c, d),
            _ => false,
        },
    }
}

/// Whether an array fits another one.
#[tactic(auto, using(crate::proofs::JfitsProofs::TypeFits::fewer, crate::proofs::JfitsProofs::TypeFits::more, crate::proofs::JfitsProofs::TypeFits::as_many,),)]
fn array_fits(a: &Ancestors<'_>, asked: Asked, x: ArrayRef, y: ArrayRef) -> bool
    ensures { result ≡ Assignability.array_fits (above_by a.now asked) (tree_by a.now asked) x.depth (element_named a.now x.element)
        y.depth (element_named a.now y.element) }
{
    if x.depth < y.depth {
        return false;
    }
    if x.depth > y.depth {
        return is_above_array(a, asked, y.element);
    }
    element_fits(a, asked, x.element, y.element)
}

// ---- types

/// Whether a value of a type fits a class or an interface.
#[inline]
fn object_fits(a: &Ancestors<'_>, asked: Asked, x: TypeRef, d: ClassRef) -> bool
    ensures { result ≡ Assignability.fits_where (above_by a.now asked) (tree_by a.now asked) (named a.now x) (types.Object (class_named a.now d)) }
{
    match x {
        TypeRef::Null => true,
        TypeRef::Object(c) => class_fits_soon(a, asked, c, d),
        TypeRef::Array(_) => is_above(a, asked, d),
        _ => false,
    }
}

#[inline]
fn type_fits(a: &Ancestors<'_>, asked: Asked, x: TypeRef, y: TypeRef) -> bool
    ensures { result ≡ Assignability.fits_where (above_by a.now asked) (tree_by a.now asked) (named a.now x) (named a.now y) }
{
    match y {
        TypeRef::Top => true,
        TypeRef::Int => matches!(x, TypeRef::Int),
        TypeRef::Long => matches!(x, TypeRef::Long),
        TypeRef::Null => matches!(x, TypeRef::Null),
        TypeRef::UninitThis => matches!(x, TypeRef::UninitThis),
        TypeRef::Uninit(q) => match x {
            TypeRef::Uninit(o) => o == q,
            _ => false,
        },
        TypeRef::Object(d) => object_fits(a, asked, x, d),
        TypeRef::Array(e) => match x {
            TypeRef::Null => true,
            TypeRef::Array(c) => array_fits(a, asked, c, e),
            _ => false,
        },
        TypeRef::Ctx => matches!(x, TypeRef::Ctx),
    }
}

/// Whether a value of the first type may stand where one of the second is wanted, where a machine runs: every array fits every interface.
#[inline]
pub fn fits(a: &Ancestors<'_>, x: TypeRef, y: TypeRef) -> bool
    ensures { result ≡ comparing.fits a.now (named a.now x) (named a.now y) }
{
    type_fits(a, Asked::Fits, x, y)
}

/// Whether an object of the first type is one of the second, as casts and stores into arrays ask (JVMS 6.5: checkcast, instanceof,
/// aastore).
#[inline]
pub fn is_instance(a: &Ancestors<'_>, x: TypeRef, y: TypeRef) -> bool
    ensures { result ≡ comparing.is_instance a.now (named a.now x) (named a.now y) }
{
    type_fits(a, Asked::IsOne, x, y)
}
