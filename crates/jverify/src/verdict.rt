ghost use Rattle.std.specs.Prelude.{◌≡◌, IfOk, IfSome, IsTrue, Some, length, option_map, slice_get};
ghost use Rattle.std.specs.List.{list_any};
ghost use Rattle.jground.specs.jbase.FirstFaults.{first_some};
ghost use Rattle.jclass.specs.Class.{class_file};
ghost use Rattle.jclass.specs.FileContents.{IsIn};
ghost use Rattle.jresolution.specs.jprogram.MemberResolution.{part_of};
ghost use Rattle.jresolution.specs.juses.EntryUses.{AreUses};
ghost use Rattle.jtyping.specs.jrule.TypeSubstitution;
ghost use Rattle.jtyping.specs.jwelltyped.ProofNames;
ghost use Rattle.jtyping.specs.jwelltyped.VerifierTests;
ghost use Rattle.jverify.specs.CheckedMethods.{IsChecking, IsCounted, IsGood, frames_of, method_of, program_of};
ghost use Rattle.jverify.specs.MethodStarts;
ghost use Rattle.jverify.specs.MethodStarts.{IsFirst, places_in};
ghost use Rattle.jverify.specs.InternedMethods.{seen_body, seen_method};
ghost use Rattle.jverify.specs.MethodPlaces.{place_of};
ghost use Rattle.jclass.specs.CodeFormat.{maps_of};

use crate::chains::is_this;
use crate::declared::push_places;
use crate::method::{MethodRef, code_in, method_of};
use crate::news::news_of;
use crate::place::Place;
use crate::reading::declared_of;
use crate::walk::Checking;
use jclass::{ClassParts, CodeAttribute, MemberInfo};
use jground::jbase::Seq;
use jparts::jmaps::RawFrame;
use jresolution::jprogram::{CodePart, NamedProgram};
use jresolution::juses::{TypeRef, Uses};
use jtyping::jrule::{FrameRef, Locals, Stack};
use std::alloc::{AllocError, Global};

// ---- a method

/// The frames of a method's StackMapTable, none where it has none.
#[tactic(auto, unfolding(jground::specs::jbase::FirstFaults::first_some))]
pub(crate) fn frames_in(attributes: &[CodeAttribute]) -> &[RawFrame]
    ensures { result.now ≡ ProofNames.or_none (first_some maps_of attributes.now) }
{
    for attribute in attributes {
        if let CodeAttribute::Maps { frames, .. } = attribute {
            return frames.as_slice();
        }
    }
    &[]
}

/// The locals that values fill, the first one first: a long fills two, and the second is Top.
fn places_of(alloc: Global, values: &[TypeRef]) -> Result<Seq<TypeRef>, AllocError>
    ensures { IfOk result (λ places. places ≡ places_in values.now) }
{
    let mut places = Vec::new(alloc);
    let mut left = values.len();
    while left != 0 {
        left -= 1;
        push_places(&mut places, values[left])?;
    }
    places.reverse();
    Ok(Seq::from_vec(places))
}

fn has_this(values: &[TypeRef]) -> bool
    ensures { result ≡ list_any TypeSubstitution.is_this values.now }
{
    for kind in values {
        if is_this(*kind) {
            return true;
        }
    }
    false
}

/// The frame with which a method begins; none where its parameters take more locals than there are.
pub(crate) fn first_frame(
    alloc: Global,
    p: &NamedProgram,
    m: &MethodRef<'_>,
) -> Result<Option<FrameRef>, AllocError>
    ensures first { IfOk result (λ first. IsFirst p.now m.now first) }
    ensures count { IfOk result (λ first. IfSome first (λ f. length f.locals ≡ m.now.body.max_locals)) }
{
    let values = m.params.as_slice();
    let places = places_of(alloc, values)?;
    let count = usize::from(m.body.max_locals);
    if count < places.as_slice().len() {
        return Ok(None);
    }
    Ok(Some(FrameRef {
        locals: Locals::of(places, count),
        stack: Stack::new(alloc),
        flag: has_this(values),
    }))
}

/// The first instruction with a test that fails, or the place 0 where the method doesn't begin so.
fn body_fault(
    alloc: Global,
    c: &Checking<'_>,
    first: Option<FrameRef>,
) -> Result<Option<u32>, AllocError>
    requires checking { IsChecking c.now }
    requires first { IsFirst (program_of c.now) c.now.method.now first }
    requires count { IfSome first (IsCounted c.now) }
    ensures { IfOk result (λ at. at ≡ MethodStarts.body_fault (program_of c.now) (method_of c.now) (frames_of c.now)) }
{
    let Some(first) = first else {
        return Ok(Some(0));
    };
    if !c.enters(&first) {
        return Ok(Some(0));
    }
    c.walk(alloc, first)
}

/// The place of the first test of a method that fails.
#[tactic(auto, unfolding(jtyping::specs::jwelltyped::VerifierTests::method_fault, jtyping::specs::jwelltyped::DeclaredFrames::written))]
fn method_fault(
    alloc: Global,
    p: &NamedProgram,
    uses: &Uses,
    m: &MethodRef<'_>,
) -> Result<Option<u32>, AllocError>
    requires uses { AreUses p.now uses.now }
    requires good { IsGood (seen_body m.now.body) }
    ensures { IfOk result (λ at. at ≡ VerifierTests.method_fault p.now (seen_method p.now m.now)) }
{
    let news = news_of(alloc, p, uses, m.class, m.body.ops)?;
    let frames = frames_in(m.body.attributes);
    let params = m.params.as_slice();
    let declared = match declared_of(alloc, p, uses, m.class, &news, &m.body, params, frames)? {
        Ok(declared) => declared,
        Err(at) => return Ok(Some(at)),
    };
    let first = first_frame(alloc, p, m)?;
    let checking = Checking {
        p,
        uses,
        method: m,
        news: &news,
        declared: &declared,
    };
    let at = body_fault(alloc, &checking, first)?;
    Ok(at)
}

// ---- a program

/// The place of the first test of a method that fails, None where it has no code.
#[tactic(auto, using(crate::proofs::CodeFacts::good_code), unfolding(jtyping::specs::jwelltyped::VerifierTests::member_fault))]
fn member_fault(
    alloc: Global,
    p: &NamedProgram,
    uses: &Uses,
    i: u32,
    class: &ClassParts,
    method: &MemberInfo,
) -> Result<Option<u32>, AllocError>
    requires uses { AreUses p.now uses.now }
    requires part { part_of p.now i ≡ Some class.now }
    requires good { IsTrue (class_file.fits class.now) }
    requires there { IsIn method.now class.now.methods }
    ensures { IfOk result (λ at. at ≡ VerifierTests.member_fault p.now class.now method.now) }
{
    let Some(body) = code_in(method) else {
        return Ok(None);
    };
    let m = method_of(alloc, p, i, class, method, body)?;
    method_fault(alloc, p, uses, &m)
}

/// The first test of the methods of a class that fails.
#[tactic(auto, unfolding(jground::specs::jbase::FirstFaults::first_along))]
fn methods_fault(
    alloc: Global,
    p: &NamedProgram,
    uses: &Uses,
    i: u32,
    class: &ClassParts,
) -> Result<Option<Place>, AllocError>
    requires uses { AreUses p.now uses.now }
    requires part { part_of p.now i ≡ Some class.now }
    requires good { IsTrue (class_file.fits class.now) }
    ensures { IfOk result (λ o. option_map place_of o ≡ MethodStarts.methods_fault p.now i class.now) }
{
    for (j, method) in class.methods.as_slice().iter().enumerate() {
        let place = j as u32;
        if let Some(at) = member_fault(alloc, p, uses, i, class, method)? {
            return Ok(Some(Place {
                class: i,
                method: place,
                at,
            }));
        }
    }
    Ok(None)
}

/// The first test of a part's methods that fails.
#[tactic(auto, unfolding(jtyping::specs::jwelltyped::VerifierTests::class_fault))]
fn class_fault(
    alloc: Global,
    p: &NamedProgram,
    uses: &Uses,
    i: u32,
    part: &CodePart,
) -> Result<Option<Place>, AllocError>
    requires uses { AreUses p.now uses.now }
    requires part { slice_get p.now.parts i ≡ Some part.now }
    ensures { IfOk result (λ o. option_map place_of o ≡ VerifierTests.class_fault p.now i part.now) }
{
    let class = part.class.parts();
    methods_fault(alloc, p, uses, i, class)
}

/// The first test of a program's methods that fails: class by class, and in each method by method. One pass over each method, holding one
/// frame; None where no test fails.
#[tactic(auto, unfolding(jground::specs::jbase::FirstFaults::first_along, jtyping::specs::jwelltyped::VerifierTests::type_fault))]
pub fn first_fault(
    alloc: Global,
    p: &NamedProgram,
    uses: &Uses,
) -> Result<Option<Place>, AllocError>
    requires { AreUses p.now uses.now }
    ensures { IfOk result (λ o. option_map place_of o ≡ VerifierTests.type_fault p.now) }
{
    for (i, part) in p.parts().iter().enumerate() {
        if let Some(place) = class_fault(alloc, p, uses, i as u32, part)? {
            return Ok(Some(place));
        }
    }
    Ok(None)
}
