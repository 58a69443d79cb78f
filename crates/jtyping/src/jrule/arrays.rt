ghost use Rattle.std.specs.Prelude.{◌≡◌, ◌∷◌, [], IfOk, option_map};
ghost use Rattle.jresolution.specs.jprogram.ProgramClasses.{tree};
ghost use Rattle.jtypes.specs.DescriptorElements.{alone};
ghost use Rattle.jresolution.specs.juses.InternedTypes.{array_named, element_named, named};
ghost use Rattle.jtyping.specs.jrule.ArrayRule;
ghost use Rattle.jtyping.specs.jrule.StackEffects;
ghost use Rattle.jtyping.specs.jrule.StackOperands.{taken};
ghost use Rattle.jtyping.specs.jrule.InternedFrames.{seen};

use crate::jrule::frame::FrameRef;
use crate::jrule::operands::{put, take_kind};
use jparts::jcode::{ArrayForm, ArrayType, Element};
use jresolution::jprogram::NamedProgram;
use jresolution::juses::{ArrayRef, ElementRef, TypeRef};
use jvalues::jnames::Kind;
use std::alloc::AllocError;

// ---- items

fn held_as(p: &NamedProgram, element: ElementRef) -> Element
    ensures { result ≡ StackEffects.held_as (element_named p.now element) }
{
    match element {
        ElementRef::Boolean => Element::Byte,
        ElementRef::Char => Element::Char,
        ElementRef::Byte => Element::Byte,
        ElementRef::Short => Element::Short,
        ElementRef::Int => Element::Int,
        ElementRef::Long => Element::Long,
        ElementRef::Class(_) => Element::Ref,
    }
}

/// What an array holds, as loads and stores tell it apart.
fn items_of(p: &NamedProgram, array: ArrayRef) -> Element
    ensures { result ≡ StackEffects.items_of (array_named p.now array) }
{
    if 1 < array.depth {
        return Element::Ref;
    }
    held_as(p, array.element)
}

fn same_items(a: Element, b: Element) -> bool
    ensures { result ≡ StackEffects.same_items a b }
{
    match a {
        Element::Int => matches!(b, Element::Int),
        Element::Long => matches!(b, Element::Long),
        Element::Ref => matches!(b, Element::Ref),
        Element::Byte => matches!(b, Element::Byte),
        Element::Char => matches!(b, Element::Char),
        Element::Short => matches!(b, Element::Short),
    }
}

/// Whether a type is an array with such items, or null.
fn holds(p: &NamedProgram, items: Element, t: TypeRef) -> bool
    ensures { result ≡ StackEffects.holds items (named p.now t) }
{
    match t {
        TypeRef::Null => true,
        TypeRef::Array(array) => same_items(items, items_of(p, array)),
        _ => false,
    }
}

// ---- what is loaded

fn alone(p: &NamedProgram, element: ElementRef) -> TypeRef
    ensures { named p.now result ≡ alone (element_named p.now element) }
{
    match element {
        ElementRef::Long => TypeRef::Long,
        ElementRef::Class(class) => TypeRef::Object(class),
        _ => TypeRef::Int,
    }
}

/// What an array holds.
fn component(p: &NamedProgram, array: ArrayRef) -> TypeRef
    ensures { named p.now result ≡ ArrayRule.component (array_named p.now array) }
{
    if array.depth <= 1 {
        return alone(p, array.element);
    }
    TypeRef::Array(ArrayRef {
        depth: array.depth - 1,
        element: array.element,
    })
}

fn loaded_reference(p: &NamedProgram, array: TypeRef) -> TypeRef
    ensures { named p.now result ≡ ArrayRule.loaded Element.Ref (named p.now array) }
{
    match array {
        TypeRef::Null => TypeRef::Null,
        TypeRef::Array(array) => component(p, array),
        _ => TypeRef::Top,
    }
}

fn loaded(p: &NamedProgram, items: Element, array: TypeRef) -> TypeRef
    ensures { named p.now result ≡ ArrayRule.loaded items (named p.now array) }
{
    match items {
        Element::Long => TypeRef::Long,
        Element::Ref => loaded_reference(p, array),
        _ => TypeRef::Int,
    }
}

// ---- the rule

#[tactic(auto, unfolding(crate::specs::jrule::StackOperands::taken, crate::specs::jrule::StackOperands::below))]
fn take_array(p: &NamedProgram, items: Element, mut f: FrameRef) -> Option<FrameRef>
    ensures { option_map (seen p.now) result ≡ taken (tree p.now) (StackEffects.Holds items ∷ []) (seen p.now f) }
{
    let array = f.stack.pop()?;
    if !holds(p, items, array) {
        return None;
    }
    Some(f)
}

#[tactic(auto, unfolding(crate::specs::jrule::StackOperands::taken, crate::specs::jrule::StackOperands::below))]
fn load(
    p: &NamedProgram,
    most: u16,
    items: Element,
    f: FrameRef,
) -> Result<Option<FrameRef>, AllocError>
    ensures { IfOk result (λ r. option_map (seen p.now) r ≡ ArrayRule.load (tree p.now) most items (seen p.now f)) }
{
    let mut f = f;
    let Some(TypeRef::Int) = f.stack.pop() else {
        return Ok(None);
    };
    let Some(array) = f.stack.pop() else {
        return Ok(None);
    };
    if !holds(p, items, array) {
        return Ok(None);
    }
    put(p, most, loaded(p, items, array), f)
}

#[tactic(auto, using(crate::proofs::JruleProofs::OperandPops::taken_more))]
fn store_of(p: &NamedProgram, kind: Kind, items: Element, f: FrameRef) -> Option<FrameRef>
    ensures { option_map (seen p.now) result ≡ taken (tree p.now) (StackEffects.Of kind ∷ StackEffects.Of Kind.Int ∷ StackEffects.Holds items ∷ [])
        (seen p.now f) }
{
    let f = take_kind(p, kind, f)?;
    let f = take_kind(p, Kind::Int, f)?;
    take_array(p, items, f)
}

fn store(p: &NamedProgram, items: Element, f: FrameRef) -> Option<FrameRef>
    ensures { option_map (seen p.now) result ≡ taken (tree p.now) (ArrayRule.operands items (ArrayForm.Store items)) (seen p.now f) }
{
    match items {
        Element::Int => store_of(p, Kind::Int, Element::Int, f),
        Element::Long => store_of(p, Kind::Long, Element::Long, f),
        Element::Ref => store_of(p, Kind::Ref, Element::Ref, f),
        Element::Byte => store_of(p, Kind::Int, Element::Byte, f),
        Element::Char => store_of(p, Kind::Int, Element::Char, f),
        Element::Short => store_of(p, Kind::Int, Element::Short, f),
    }
}

fn of_numbers(p: &NamedProgram, kind: ArrayType) -> ElementRef
    ensures { element_named p.now result ≡ ArrayRule.of_numbers kind }
{
    match kind {
        ArrayType::Boolean => ElementRef::Boolean,
        ArrayType::Char => ElementRef::Char,
        ArrayType::Byte => ElementRef::Byte,
        ArrayType::Short => ElementRef::Short,
        ArrayType::Int => ElementRef::Int,
        ArrayType::Long => ElementRef::Long,
    }
}

fn make(
    p: &NamedProgram,
    most: u16,
    kind: ArrayType,
    f: FrameRef,
) -> Result<Option<FrameRef>, AllocError>
    ensures { IfOk result (λ r. option_map (seen p.now) r ≡ ArrayRule.array (tree p.now) most (ArrayForm.New kind) (seen p.now f)) }
{
    let Some(f) = take_kind(p, Kind::Int, f) else {
        return Ok(None);
    };
    let array = ArrayRef {
        depth: 1,
        element: of_numbers(p, kind),
    };
    put(p, most, TypeRef::Array(array), f)
}

fn length(p: &NamedProgram, most: u16, f: FrameRef) -> Result<Option<FrameRef>, AllocError>
    ensures { IfOk result (λ r. option_map (seen p.now) r ≡ ArrayRule.array (tree p.now) most ArrayForm.Length (seen p.now f)) }
{
    let Some(f) = take_kind(p, Kind::Array, f) else {
        return Ok(None);
    };
    put(p, most, TypeRef::Int, f)
}

/// The frame behind an instruction with an array (JVMS 4.10.1.9); none where the operands aren't those of its kinds, or where there is
/// no room. An array of references is made by an entry of the pool, so none for this form alone.
pub fn array(
    p: &NamedProgram,
    most: u16,
    form: ArrayForm,
    f: FrameRef,
) -> Result<Option<FrameRef>, AllocError>
    ensures { IfOk result (λ r. option_map (seen p.now) r ≡ ArrayRule.array (tree p.now) most form (seen p.now f)) }
{
    match form {
        ArrayForm::New(kind) => make(p, most, kind, f),
        ArrayForm::NewRef(_) => Ok(None),
        ArrayForm::Load(items) => load(p, most, items, f),
        ArrayForm::Store(items) => Ok(store(p, items, f)),
        ArrayForm::Length => length(p, most, f),
    }
}
