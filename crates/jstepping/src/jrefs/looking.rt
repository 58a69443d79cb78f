ghost use Rattle.std.specs.Prelude.{◌≡◌, ◌<◌, List, Some, length, option_map, true};
ghost use Rattle.std.specs.Str.{bytes_eq};
ghost use Rattle.jparts.specs.declared.jpool.entry.Entry.{Entry};
ghost use Rattle.jparts.specs.declared.jcode.op_form.PoolForm.TheVariants as forms;
ghost use Rattle.jsemantics.specs.jmachine.MachineSteps;
ghost use Rattle.jsemantics.specs.jmachine.MachineSteps.{own_fields};
ghost use Rattle.jresolution.specs.declared.jprogram.part.ClassRef.TheVariants as refs;
ghost use Rattle.jresolution.specs.jprogram.ProgramClasses.{Program, name_at};
ghost use Rattle.jresolution.specs.jprogram.MemberResolution as members;
ghost use Rattle.jresolution.specs.declared.juses.types.TypeRef.{TypeRef as Ref};
ghost use Rattle.jresolution.specs.juses.InstructionMeanings.{FieldMeaning, field_named, meaning_of, meant};
ghost use Rattle.jresolution.specs.juses.PoolTables.{pool_at};
ghost use Rattle.jresolution.specs.juses.InternedTypes.{class_named, named};
ghost use Rattle.jresolution.specs.juses.EntryUses.{AreUses};
ghost use Rattle.jready.specs.MeaningParts.{only_cast, only_field};
ghost use Rattle.jstepping.specs.jrefs.NamedEntries.{NamesField};
ghost use Rattle.jstepping.specs.jrefs.ReferenceRows.{IsLasting};

use crate::jrefs::lasting::Lasting;
use jmemory::jheap::CellType;
use jparts::jcode::{CastOp, FieldOp, PoolForm};
use jready::Narrow;
use jresolution::jprogram::{ClassRef, Member, MethodId, NamedProgram};
use jresolution::juses::{FieldUse, TypeRef, Use, Uses};

/// A user's field, as an instruction by number has it.
#[derive(Clone, Copy)]
pub(crate) struct FieldAt {
    pub op: FieldOp,
    pub cell: CellType,
    pub narrow: Narrow,
    /// The index of its entry.
    pub pool: u16,
    pub slot: u32,
    /// The place of the class by which it is named; no class has it where that isn't a user's.
    pub owner: u32,
}

fn field_in(found: Option<Use>) -> Option<FieldUse>
    ensures { (p : Program) (pool : List Entry) (types : List Ref)
        → option_map (field_named p) result ≡ only_field (option_map (meaning_of p pool types) found) }
{
    match found {
        Some(Use::Field(_, used)) => Some(used),
        _ => None,
    }
}

fn cast_in(found: Option<Use>) -> Option<TypeRef>
    ensures { (p : Program) (pool : List Entry) (types : List Ref)
        → option_map (named p) result ≡ only_cast (option_map (meaning_of p pool types) found) }
{
    match found {
        Some(Use::Cast(_, t)) => Some(t),
        _ => None,
    }
}

/// What the entries of the program's pools stand for.
#[inline]
fn uses_of<'f>(x: &Lasting<'f, '_>) -> &'f Uses
    requires { IsLasting x.now }
    ensures { AreUses x.now.ancestors.now result.now }
{
    x.ready.program().uses()
}

/// The field that an instruction of a class names.
fn field_used(x: &Lasting<'_, '_>, class: u32, op: FieldOp, pool: u16) -> Option<FieldUse>
    requires { IsLasting x.now }
    ensures { option_map (field_named x.now.ancestors.now) result
        ≡ only_field (meant x.now.ancestors.now (pool_at x.now.ancestors.now class) (forms.Field op pool)) }
{
    let found = uses_of(x).use_at(class, PoolForm::Field(op, pool));
    field_in(found)
}

/// The type for which an instruction of a class tests.
pub(crate) fn cast_used(x: &Lasting<'_, '_>, class: u32, op: CastOp, pool: u16) -> Option<TypeRef>
    requires { IsLasting x.now }
    ensures { option_map (named x.now.ancestors.now) result ≡ only_cast
        (meant x.now.ancestors.now (pool_at x.now.ancestors.now class) (forms.Cast op pool)) }
{
    let found = uses_of(x).use_at(class, PoolForm::Cast(op, pool));
    cast_in(found)
}

/// Whether a part has a place.
#[inline]
fn is_place(x: &Lasting<'_, '_>, class: u32) -> bool
    requires { IsLasting x.now }
    ensures { result ≡ true → class < length x.now.ancestors.now.parts }
{
    (class as usize) < x.ready.program().parts().len()
}

/// The class by which a field is named that an instruction of a class names.
#[inline]
#[tactic(auto, using(crate::proofs::JrefsProofs::EntryLookup::owner_place, crate::proofs::JrefsProofs::EntryLookup::owner_used, crate::proofs::JrefsProofs::EntryLookup::never_none,),)]
pub(crate) fn owner_of(x: &Lasting<'_, '_>, class: u32, a: FieldAt) -> Option<ClassRef>
    requires { IsLasting x.now }
    ensures { (f : FieldMeaning) → NamesField x.now.ancestors.now class a f → option_map (class_named x.now.ancestors.now) result ≡ Some f.owner }
{
    if is_place(x, a.owner) {
        return Some(ClassRef::User(a.owner));
    }
    match field_used(x, class, a.op, a.pool) {
        Some(used) => Some(used.owner),
        None => None,
    }
}

/// The type by which it is named, at its entry.
#[tactic(auto, using(crate::proofs::JrefsProofs::EntryLookup::held_used, crate::proofs::JrefsProofs::EntryLookup::never_none))]
fn held_at(x: &Lasting<'_, '_>, class: u32, a: FieldAt) -> Option<TypeRef>
    requires { IsLasting x.now }
    ensures { (f : FieldMeaning) → NamesField x.now.ancestors.now class a f → option_map (named x.now.ancestors.now) result ≡ Some f.held }
{
    match field_used(x, class, a.op, a.pool) {
        Some(used) => Some(used.held),
        None => None,
    }
}

/// The same, which its cell tells of a number.
#[inline]
#[tactic(auto, using(crate::proofs::JrefsProofs::EntryLookup::held_int, crate::proofs::JrefsProofs::EntryLookup::held_long))]
pub(crate) fn held_of(x: &Lasting<'_, '_>, class: u32, a: FieldAt) -> Option<TypeRef>
    requires { IsLasting x.now }
    ensures { (f : FieldMeaning) → NamesField x.now.ancestors.now class a f → option_map (named x.now.ancestors.now) result ≡ Some f.held }
{
    match a.cell {
        CellType::Int => Some(TypeRef::Int),
        CellType::Long => Some(TypeRef::Long),
        CellType::Ref => held_at(x, class, a),
        CellType::Ctx => held_at(x, class, a),
    }
}

// ---- fields that an `<init>` may write before another is called on `this`

/// Whether a method is an `<init>`.
fn is_init(p: &NamedProgram, m: MethodId) -> bool
    ensures { result ≡ MachineSteps.is_init p.now m }
{
    let method = Member::Method(m);
    p.name_of_member(method) == b"<init>".as_slice() && !p.is_static(method)
}

/// Whether the class of a method declares a field.
fn declares(p: &NamedProgram, m: MethodId, field: Member) -> bool
    ensures { result ≡ bytes_eq (members.owner_of p.now field) (name_at p.now (refs.User m.class)) }
{
    p.owner_of(field) == p.name_of(ClassRef::User(m.class))
}

/// Whether it is an `<init>` of the class that declares a field.
#[tactic(auto, unfolding(jsemantics::specs::jmachine::World::world))]
fn is_own(x: &Lasting<'_, '_>, m: MethodId, field: Member) -> bool
    requires { IsLasting x.now }
    ensures { result ≡ own_fields x.now.ancestors.now m field }
{
    let p = x.ready.program().named();
    is_init(p, m) && declares(p, m, field)
}

/// The same of the field that an instruction of a method names.
#[tactic(auto, using(crate::proofs::JrefsProofs::EntryLookup::own_used, crate::proofs::JrefsProofs::EntryLookup::never_none))]
pub(crate) fn writes_own(x: &Lasting<'_, '_>, m: MethodId, a: FieldAt) -> bool
    requires { IsLasting x.now }
    ensures { (f : FieldMeaning) → NamesField x.now.ancestors.now m.class a f → result ≡ own_fields x.now.ancestors.now m f.member }
{
    match field_used(x, m.class, a.op, a.pool) {
        Some(used) => is_own(x, m, used.member),
        None => false,
    }
}
