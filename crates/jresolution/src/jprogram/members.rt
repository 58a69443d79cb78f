ghost use Rattle.std.specs.Prelude.{◌≡◌, ◌<◌, IfSome, length};
ghost use Rattle.std.specs.List.{position};
ghost use Rattle.jresolution.specs.jprogram.ProgramClasses;
ghost use Rattle.jresolution.specs.jprogram.MemberDigests.{AreFirst, AreFirsts, IsKey};
ghost use Rattle.jresolution.specs.jprogram.MemberResolution;
ghost use Rattle.jresolution.specs.jprogram.ClassFileParts;

use crate::jprogram::firsts::{Firsts, Key, first_at};
use crate::jprogram::member::{Member, MethodId};
use crate::jprogram::parts::is_called;
use jclass::{ClassFile, ClassParts, MemberInfo};
use jlib::{LibCall, LibClass, Side, member_in};
use std::collections::BTreeMap;

/// The place of the first of a class's members that has this name and descriptor.
fn place_among(
    class: &ClassParts,
    members: &[MemberInfo],
    name: &[u8],
    desc: &[u8],
) -> Option<usize>
    ensures place { result ≡ position (ClassFileParts.is_called class.now name.now desc.now) members.now }
    ensures within { IfSome result (λ i. i < length members.now) }
{
    for (i, one) in members.iter().enumerate() {
        if is_called(class, name, desc, one) {
            return Some(i);
        }
    }
    None
}

/// The same, where the first members of each digest are known. One that isn't the first of its digest is searched for.
#[tactic(auto, using(crate::proofs::JprogramProofs::DigestTables::none_told, crate::proofs::JprogramProofs::DigestTables::first_told))]
fn place_by(
    class: &ClassParts,
    members: &[MemberInfo],
    firsts: &BTreeMap<u64, usize>,
    key: Key<'_>,
) -> Option<usize>
    requires firsts { AreFirst class.now members.now firsts.now }
    requires key { IsKey key }
    ensures place { result ≡ position (ClassFileParts.is_called class.now key.entry.name.now key.entry.desc.now) members.now }
    ensures within { IfSome result (λ i. i < length members.now) }
{
    let first = first_at(firsts, key.sum)?;
    if let Some(one) = members.get(first) {
        if is_called(class, key.name, key.desc, one) {
            return Some(first);
        }
    }
    place_among(class, members, key.name, key.desc)
}

/// The first method of this name and descriptor that a user's class declares itself.
pub fn user_method(i: u32, class: &ClassFile, firsts: &Firsts, key: Key<'_>) -> Option<Member>
    requires firsts { AreFirsts class.now firsts.now }
    requires key { IsKey key }
    ensures { result ≡ MemberResolution.method_in Side.Source (ProgramClasses.User i class.now) key.entry.name.now key.entry.desc.now }
{
    let parts = class.parts();
    let place = place_by(parts, parts.methods.as_slice(), &firsts.methods, key)?;
    Some(Member::Method(MethodId {
        class: i,
        method: place as u32,
    }))
}

/// The first field of this name and descriptor that a user's class declares itself.
pub fn user_field(i: u32, class: &ClassFile, firsts: &Firsts, key: Key<'_>) -> Option<Member>
    requires firsts { AreFirsts class.now firsts.now }
    requires key { IsKey key }
    ensures { result ≡ MemberResolution.field_in Side.Source (ProgramClasses.User i class.now) key.entry.name.now key.entry.desc.now }
{
    let parts = class.parts();
    let place = place_by(parts, parts.fields.as_slice(), &firsts.fields, key)?;
    Some(Member::Field {
        class: i,
        field: place as u32,
    })
}

fn lib_method(call: LibCall) -> Option<Member>
    ensures { result ≡ MemberResolution.lib_method call }
{
    if call.is_field() {
        return None;
    }
    Some(Member::LibMethod(call))
}

fn lib_field(call: LibCall) -> Option<Member>
    ensures { result ≡ MemberResolution.lib_field call }
{
    if call.is_field() {
        return Some(Member::LibField);
    }
    None
}

/// The method of this name and descriptor that a class of the library has.
pub fn lib_method_in(side: Side, class: LibClass, name: &[u8], desc: &[u8]) -> Option<Member>
    ensures { result ≡ MemberResolution.method_in side (ProgramClasses.Lib class) name.now desc.now }
{
    let call = member_in(side, class, name, desc)?;
    lib_method(call)
}

/// The field of this name and descriptor that a class of the library has.
pub fn lib_field_in(side: Side, class: LibClass, name: &[u8], desc: &[u8]) -> Option<Member>
    ensures { result ≡ MemberResolution.field_in side (ProgramClasses.Lib class) name.now desc.now }
{
    let call = member_in(side, class, name, desc)?;
    lib_field(call)
}
