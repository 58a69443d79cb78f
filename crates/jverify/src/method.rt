ghost use Rattle.std.specs.Prelude.{◌≡◌, ◌∷◌, ◌++◌, [], IfOk, None, Some, map, option_and_then, option_map, reverse};
ghost use Rattle.jground.specs.jbase.ListMaps.{each_some};
ghost use Rattle.jresolution.specs.declared.jprogram.part.ClassRef.TheVariants as refs;
ghost use Rattle.jresolution.specs.jprogram.MemberResolution.{part_of};
ghost use Rattle.jresolution.specs.jprogram.ClassFileParts;
ghost use Rattle.jresolution.specs.jprogram.ClassFileParts.{code_of, super_name};
ghost use Rattle.jresolution.specs.juses.DescriptorTypes;
ghost use Rattle.jresolution.specs.juses.DescriptorTypes.{there, typed};
ghost use Rattle.jresolution.specs.juses.InternedTypes.{class_named, named};
ghost use Rattle.jtyping.specs.jwelltyped.MethodPremises;
ghost use Rattle.jtyping.specs.jwelltyped.ProofNames;
ghost use Rattle.jverify.specs.InternedMethods.{IsSignature, seen_body, seen_method};

use bitflags::Flags;
use jclass::{Access, Attribute, ClassParts, CodeAttribute, MemberInfo};
use jground::jbase::Seq;
use jparts::jcode::{Handler, Placed};
use jparts::jpool::{DescError, Descriptor, FieldType, read_descriptor};
use jresolution::jprogram::{ClassRef, NamedProgram, is_init, member_desc, super_name};
use jresolution::juses::{TypeRef, class_there, params_in, return_in};
use std::alloc::{AllocError, Global};

/// The code of a method, lent.
#[derive(Clone, Copy)]
pub(crate) struct BodyRef<'a> {
    pub max_stack: u16,
    pub max_locals: u16,
    pub ops: &'a [Placed],
    pub handlers: &'a [Handler],
    pub attributes: &'a [CodeAttribute],
}

/// A method with code as typing sees it, classes and types by number.
#[derive(Drop)]
pub(crate) struct MethodRef<'a> {
    /// The place of its class among the parts.
    pub class: u32,
    /// The class that this one extends.
    pub above: Option<ClassRef>,
    /// It is an `<init>`, and not a static one.
    pub is_init: bool,
    /// `this`, where there is one, and the parameters, the first one first.
    pub params: Seq<TypeRef>,
    /// The type of what it returns.
    pub returns: Option<TypeRef>,
    pub body: BodyRef<'a>,
}

/// The code of a method, where it has one.
#[tactic(auto, unfolding(jresolution::specs::jprogram::ClassFileParts::code_of, jground::specs::jbase::FirstFaults::first_some))]
pub(crate) fn code_in(method: &MemberInfo) -> Option<BodyRef<'_>>
    ensures { option_map seen_body result ≡ code_of method.now }
{
    for attribute in method.attributes.as_slice() {
        if let Attribute::Code {
            max_stack,
            max_locals,
            ops,
            handlers,
            attributes,
            ..
        } = attribute
        {
            return Some(BodyRef {
                max_stack: *max_stack,
                max_locals: *max_locals,
                ops: ops.as_slice(),
                handlers: handlers.as_slice(),
                attributes: attributes.as_slice(),
            });
        }
    }
    None
}

// ---- what a method says of itself

fn is_static(method: &MemberInfo) -> bool
    ensures { result ≡ ClassFileParts.is_static method.now.flags }
{
    method.flags.contains(Access::STATIC)
}

/// The class that a class extends, where the program has it.
fn above_of(p: &NamedProgram, class: &ClassParts) -> Option<ClassRef>
    ensures { option_map (class_named p.now) result ≡ option_and_then (there p.now) (super_name class.now) }
{
    let name = super_name(class)?;
    class_there(p, name)
}

// ---- its descriptor

/// The types of a method's parameters, the last one first, and of what it returns.
#[derive(Drop)]
struct Signature {
    params: Seq<TypeRef>,
    returns: Option<TypeRef>,
}

/// That of a text which is no method's descriptor.
fn no_signature(alloc: Global) -> Signature
    ensures params { result.params ≡ [] }
    ensures returns { result.returns ≡ None }
{
    Signature {
        params: Seq::new(alloc),
        returns: None,
    }
}

fn called(
    alloc: Global,
    p: &NamedProgram,
    params: &[FieldType],
    ret: &Option<FieldType>,
) -> Result<Signature, AllocError>
    ensures { IfOk result
        (λ s. IsSignature p.now s
        (DescriptorTypes.called (each_some (DescriptorTypes.type_in p.now) params.now) (DescriptorTypes.return_in p.now ret.now))) }
{
    let Some(params) = params_in(alloc, p, params)? else {
        return Ok(no_signature(alloc));
    };
    match return_in(p, ret) {
        Some(returns) => Ok(Signature { params, returns }),
        None => Ok(no_signature(alloc)),
    }
}

/// What a text says as a method's descriptor (JVMS 4.3.3).
#[tactic(auto, unfolding(jresolution::specs::juses::DescriptorTypes::typed))]
fn signature_of(alloc: Global, p: &NamedProgram, text: &[u8]) -> Result<Signature, AllocError>
    ensures { IfOk result (λ s. IsSignature p.now s (typed p.now text.now)) }
{
    match read_descriptor(alloc, text) {
        Ok(Descriptor::Method { params, ret }) => called(alloc, p, params.as_slice(), &ret),
        Ok(Descriptor::Field(_)) => Ok(no_signature(alloc)),
        Err(DescError::Bad) => Ok(no_signature(alloc)),
        Err(DescError::Memory) => Err(AllocError),
    }
}

// ---- a method

/// The type of `this` where an instance method begins.
fn this_type(p: &NamedProgram, class: u32, is_init: bool) -> TypeRef
    ensures { named p.now result ≡ ProofNames.this_type is_init (class_named p.now (refs.User class)) }
{
    if is_init {
        return TypeRef::UninitThis;
    }
    TypeRef::Object(ClassRef::User(class))
}

/// Types, given the last one first, in their order behind `this`.
fn behind_this(
    p: &NamedProgram,
    class: u32,
    is_init: bool,
    params: Seq<TypeRef>,
) -> Result<Seq<TypeRef>, AllocError>
    ensures { IfOk result
        (λ all. map (named p.now) all ≡ ProofNames.this_type is_init (class_named p.now (refs.User class)) ∷ reverse (map (named p.now) params)) }
{
    let mut all = params.into_vec();
    all.push(this_type(p, class, is_init))?;
    all.reverse();
    Ok(Seq::from_vec(all))
}

/// Types, given the last one first, in their order.
fn in_order(p: &NamedProgram, params: Seq<TypeRef>) -> Seq<TypeRef>
    ensures { map (named p.now) result ≡ reverse (map (named p.now) params) }
{
    let mut all = params.into_vec();
    all.reverse();
    Seq::from_vec(all)
}

/// Parameters, given the last one first, behind `this`, where there is one.
fn with_this(
    p: &NamedProgram,
    class: u32,
    is_static: bool,
    is_init: bool,
    params: Seq<TypeRef>,
) -> Result<Seq<TypeRef>, AllocError>
    ensures { IfOk result
        (λ all. map (named p.now) all ≡ MethodPremises.receiver is_static is_init (class_named p.now (refs.User class))
        ++ reverse (map (named p.now) params)) }
{
    if is_static {
        return Ok(in_order(p, params));
    }
    behind_this(p, class, is_init, params)
}

/// A method with code of the class at a place, as typing sees it.
pub(crate) fn method_of<'a>(
    alloc: Global,
    p: &NamedProgram,
    i: u32,
    class: &ClassParts,
    method: &MemberInfo,
    body: BodyRef<'a>,
) -> Result<MethodRef<'a>, AllocError>
    requires { part_of p.now i ≡ Some class.now }
    ensures seen { IfOk result (λ m. seen_method p.now m ≡ MethodPremises.method_of p.now class.now method.now (seen_body body.entry)) }
    ensures same { IfOk result (λ m. m.body ≡ body.entry) }
{
    let signature = signature_of(alloc, p, member_desc(class, method))?;
    let is_init = is_init(class, method);
    let params = with_this(p, i, is_static(method), is_init, signature.params)?;
    Ok(MethodRef {
        class: i,
        above: above_of(p, class),
        is_init,
        params,
        returns: signature.returns,
        body,
    })
}
