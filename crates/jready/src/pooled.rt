ghost use Rattle.std.specs.Prelude.{◌≡◌, ◌<◌, ◌≤◌, IfOk, List, Option, Some, length, option_map, slice_get, ℕ};
ghost use Rattle.jparts.specs.declared.jpool.entry.Entry.{Entry};
ghost use Rattle.jparts.specs.declared.jcode.op_form.PoolForm.TheVariants as forms;
ghost use Rattle.jresolution.specs.jprogram.ProgramClasses.{Program};
ghost use Rattle.jresolution.specs.declared.juses.types.ArrayRef.{ArrayRef};
ghost use Rattle.jresolution.specs.declared.juses.types.TypeRef.{TypeRef as Ref};
ghost use Rattle.jresolution.specs.juses.IndexedInstructions.{Used};
ghost use Rattle.jresolution.specs.juses.InstructionMeanings;
ghost use Rattle.jresolution.specs.juses.InstructionMeanings.{array_meant, call_named, field_named, meaning_of, pushed_named};
ghost use Rattle.jresolution.specs.juses.PoolTables.{pool_at};
ghost use Rattle.jresolution.specs.juses.InternedTypes.{class_named, named};
ghost use Rattle.jready.specs.InlineOperands.{Exact};
ghost use Rattle.jready.specs.InlineOperands;
ghost use Rattle.jready.specs.ProgramFacts.{IsCall, IsKnown};
ghost use Rattle.jready.specs.CodeLayout.{PushWithin, Within};
ghost use Rattle.jready.specs.DecodedInstructions.{by_pool, call_form, meant, push_meant, pushed};
ghost use Rattle.jready.specs.MeaningParts.{only_array, only_call, only_cast, only_field, only_made, only_push, user_place};
ghost use Rattle.jready.specs.TableGrowth.{Grown};

use crate::fields::narrow_at;
use crate::instr::{Instr, ObjectInstr, Push};
use crate::program_info::{ProgramInfo, number_at};
use crate::tables::Tables;
use jmemory::jheap::CellType;
use jparts::jcode::{CastOp, FieldOp, PoolForm};
use jresolution::jprogram::{ClassRef, Member};
use jresolution::juses::{CallUse, Constant, FieldUse, InvokeKind, Span, TypeRef, Use};
use std::alloc::AllocError;

// ---- constants

/// The constant that is pushed, if one is.
fn constant_in(found: Option<Use>) -> Option<Constant>
    ensures { (p : Program) (pool : List Entry) (types : List Ref)
        → option_map (λ c. InstructionMeanings.Push (pushed_named pool c)) result ≡ only_push (option_map (meaning_of p pool types) found) }
{
    match found {
        Some(Use::Push(constant)) => Some(constant),
        _ => None,
    }
}

fn constant_of(known: &ProgramInfo<'_>, class: u32, form: PoolForm) -> Option<Constant>
    requires { IsKnown known.now }
    ensures { option_map (λ c. InstructionMeanings.Push (pushed_named (pool_at known.now.p.now class) c)) result ≡ only_push
        (InstructionMeanings.meant known.now.p.now (pool_at known.now.p.now class) form) }
{
    let found = known.uses.use_at(class, form);
    constant_in(found)
}

fn push_of(tables: &mut Tables, constant: Constant) -> Result<Push, AllocError>
    ensures means { IfOk result
        (λ f. (p : Program) (pool : List Entry) → push_meant p pool tables.new f ≡ Some (pushed p pool (pushed_named pool constant))) }
    ensures within { IfOk result (PushWithin tables.new) }
    ensures grown { IfOk result (λ f. Grown tables.old tables.new) }
{
    match constant {
        Constant::Int(n) => Ok(Push::Int(n)),
        Constant::Long(n) => {
            let number = tables.put_long(n)?;
            Ok(Push::Long(number))
        }
        Constant::Text(i) => Ok(Push::Text(i)),
    }
}

#[tactic(auto, unfolding(crate::specs::DecodedInstructions::meant))]
fn constant(
    known: &ProgramInfo<'_>,
    tables: &mut Tables,
    class: u32,
    form: PoolForm,
) -> Result<Instr, AllocError>
    requires known { IsKnown known.now }
    requires pushes { only_push (InstructionMeanings.meant known.now.p.now (pool_at known.now.p.now class) form)
        ≡ InstructionMeanings.meant known.now.p.now (pool_at known.now.p.now class) form }
    ensures means { IfOk result (λ i. meant known.now.p.now tables.new class i ≡ by_pool known.now.p.now (pool_at known.now.p.now class) form) }
    ensures within { IfOk result (Within tables.new) }
    ensures exact { IfOk result (Exact known.now.p.now known.now.uses.now.types tables.new class) }
    ensures grown { IfOk result (λ i. Grown tables.old tables.new) }
{
    let Some(constant) = constant_of(known, class, form) else {
        return Ok(Instr::Off);
    };
    let push = push_of(tables, constant)?;
    Ok(Instr::Push(push))
}

// ---- fields

fn field_in(found: Option<Use>) -> Option<FieldUse>
    ensures { (p : Program) (pool : List Entry) (types : List Ref)
        → option_map (field_named p) result ≡ only_field (option_map (meaning_of p pool types) found) }
{
    match found {
        Some(Use::Field(_, used)) => Some(used),
        _ => None,
    }
}

/// The field that an instruction of a class names.
fn field_used(known: &ProgramInfo<'_>, class: u32, op: FieldOp, pool: u16) -> Option<FieldUse>
    requires { IsKnown known.now }
    ensures { option_map (field_named known.now.p.now) result
        ≡ only_field (InstructionMeanings.meant known.now.p.now (pool_at known.now.p.now class) (forms.Field op pool)) }
{
    let found = known.uses.use_at(class, PoolForm::Field(op, pool));
    field_in(found)
}

/// The class that declares a user's field, and its place among the fields of that class.
fn place_of(field: Member) -> Option<(u32, u32)>
    ensures { result ≡ user_place field }
{
    match field {
        Member::Field { class, field } => Some((class, field)),
        _ => None,
    }
}

pub(crate) fn cell_of(t: TypeRef) -> CellType
    ensures { (p : Program) → InlineOperands.cell_of (named p t) ≡ result }
{
    match t {
        TypeRef::Int => CellType::Int,
        TypeRef::Long => CellType::Long,
        TypeRef::Ctx => CellType::Ctx,
        _ => CellType::Ref,
    }
}

/// The place of a user's class; of one of the library a number that no class has.
fn owner_of(class: ClassRef) -> u32
    ensures { (p : Program) → length p.parts ≤ 0xffff → result < length p.parts → class_named p class ≡ class_named p (ClassRef.User result) }
{
    match class {
        ClassRef::User(i) => i,
        ClassRef::Lib(_) => u32::MAX,
    }
}

/// What is by number an instruction with the field of an entry.
#[tactic(auto, unfolding(crate::specs::DecodedInstructions::meant))]
fn field_of(known: &ProgramInfo<'_>, class: u32, op: FieldOp, pool: u16) -> Instr
    requires { IsKnown known.now }
    ensures means { (t : Tables) → meant known.now.p.now t class result
        ≡ by_pool known.now.p.now (pool_at known.now.p.now class) (forms.Field op pool) }
    ensures within { (t : Tables) → Within t result }
    ensures exact { (t : Tables) → Exact known.now.p.now known.now.uses.now.types t class result }
{
    let Some(used) = field_used(known, class, op, pool) else {
        return Instr::Off;
    };
    let Some((declared, field)) = place_of(used.member) else {
        return Instr::Object(ObjectInstr::Out { op, pool });
    };
    let Some(slot) = known.layouts.slot(declared, field) else {
        // A field that is named is there.
        return Instr::Object(ObjectInstr::Out { op, pool });
    };
    Instr::Field {
        op,
        cell: cell_of(used.held),
        narrow: narrow_at(known.p, used.member),
        pool,
        slot,
        owner: owner_of(used.owner),
    }
}

// ---- calls

fn call_in(found: Option<Use>) -> Option<(InvokeKind, CallUse)>
    ensures { (p : Program) (pool : List Entry) (types : List Ref)
        → option_map (λ x. (x.0, call_named p types x.1)) result ≡ only_call (option_map (meaning_of p pool types) found) }
{
    match found {
        Some(Use::Call(how, call)) => Some((how, call)),
        _ => None,
    }
}

/// How a method is called by an instruction of a class, and which.
fn call_used(known: &ProgramInfo<'_>, class: u32, form: PoolForm) -> Option<(InvokeKind, CallUse)>
    requires { IsKnown known.now }
    ensures { option_map (λ x. (x.0, call_named known.now.p.now known.now.uses.now.types x.1)) result ≡ only_call
        (InstructionMeanings.meant known.now.p.now (pool_at known.now.p.now class) form) }
{
    let found = known.uses.use_at(class, form);
    call_in(found)
}

fn call_to(how: InvokeKind, pool: u16, params: Span, method: u32) -> Instr
    ensures { result ≡ Instr.Call how pool params method }
{
    Instr::Call {
        how,
        pool,
        params,
        method,
    }
}

/// What is by number an instruction that calls the method of the entry at an index.
#[tactic(auto, unfolding(crate::specs::DecodedInstructions::meant))]
fn call_of(known: &ProgramInfo<'_>, class: u32, form: PoolForm, pool: u16) -> Instr
    requires known { IsKnown known.now }
    requires calls { IsCall form pool }
    ensures means { (t : Tables) → meant known.now.p.now t class result ≡ by_pool known.now.p.now (pool_at known.now.p.now class) form }
    ensures within { (t : Tables) → Within t result }
    ensures exact { (t : Tables) → Exact known.now.p.now known.now.uses.now.types t class result }
{
    let Some((how, call)) = call_used(known, class, form) else {
        return Instr::Off;
    };
    match call.member {
        Member::LibMethod(one) => Instr::Library {
            how,
            pool,
            params: call.params,
            call: one,
        },
        Member::Method(id) => {
            let number = number_at(known.p, known.methods, id);
            call_to(how, pool, call.params, number)
        }
        // A field isn't called.
        Member::Field { .. } => call_to(how, pool, call.params, 0),
        Member::LibField => call_to(how, pool, call.params, 0),
    }
}

// ---- classes

fn made_in(found: Option<Use>) -> Option<ClassRef>
    ensures { (p : Program) (pool : List Entry) (types : List Ref)
        → option_map (class_named p) result ≡ only_made (option_map (meaning_of p pool types) found) }
{
    match found {
        Some(Use::Make(class)) => Some(class),
        _ => None,
    }
}

fn cast_in(found: Option<Use>) -> Option<TypeRef>
    ensures { (p : Program) (pool : List Entry) (types : List Ref)
        → option_map (named p) result ≡ only_cast (option_map (meaning_of p pool types) found) }
{
    match found {
        Some(Use::Cast(_, t)) => Some(t),
        _ => None,
    }
}

fn array_in(found: Option<Use>) -> Option<TypeRef>
    ensures { (p : Program) (pool : List Entry) (types : List Ref)
        → option_map (named p) result ≡ only_array (option_map (meaning_of p pool types) found) }
{
    match found {
        Some(Use::MakeArray(t)) => Some(t),
        _ => None,
    }
}

/// The class of which the instruction of a class makes an object.
fn made_used(known: &ProgramInfo<'_>, class: u32, pool: u16) -> Option<ClassRef>
    requires { IsKnown known.now }
    ensures { option_map (class_named known.now.p.now) result
        ≡ only_made (InstructionMeanings.meant known.now.p.now (pool_at known.now.p.now class) (forms.New pool)) }
{
    let found = known.uses.use_at(class, PoolForm::New(pool));
    made_in(found)
}

/// The type for which the instruction of a class tests.
fn cast_used(known: &ProgramInfo<'_>, class: u32, op: CastOp, pool: u16) -> Option<TypeRef>
    requires { IsKnown known.now }
    ensures { option_map (named known.now.p.now) result ≡ only_cast
        (InstructionMeanings.meant known.now.p.now (pool_at known.now.p.now class) (forms.Cast op pool)) }
{
    let found = known.uses.use_at(class, PoolForm::Cast(op, pool));
    cast_in(found)
}

/// The type of the array that the instruction of a class makes.
fn array_used(known: &ProgramInfo<'_>, class: u32, pool: u16) -> Option<TypeRef>
    requires { IsKnown known.now }
    ensures { option_map (named known.now.p.now) result ≡ only_array (array_meant known.now.p.now (pool_at known.now.p.now class) pool) }
{
    let found = known.uses.array_use_at(class, pool);
    array_in(found)
}

/// What is by number an instruction that makes an object of the class at an index.
#[tactic(auto, using(crate::proofs::EntryMeanings::made_back, crate::proofs::EntryMeanings::made_nothing), unfolding(crate::specs::DecodedInstructions::meant),)]
fn make_of(known: &ProgramInfo<'_>, class: u32, pool: u16) -> Instr
    requires { IsKnown known.now }
    ensures means { (t : Tables) → meant known.now.p.now t class result ≡ by_pool known.now.p.now (pool_at known.now.p.now class) (forms.New pool) }
    ensures within { (t : Tables) → Within t result }
    ensures exact { (t : Tables) → Exact known.now.p.now known.now.uses.now.types t class result }
{
    match made_used(known, class, pool) {
        Some(ClassRef::User(made)) => Instr::Object(ObjectInstr::New { pool, class: made }),
        Some(ClassRef::Lib(made)) => Instr::Object(ObjectInstr::NewLibrary { pool, class: made }),
        None => Instr::Off,
    }
}

/// What is by number an instruction that tests for the type at an index.
#[tactic(auto, using(crate::proofs::EntryMeanings::cast_back), unfolding(crate::specs::DecodedInstructions::meant))]
fn cast_of(known: &ProgramInfo<'_>, class: u32, op: CastOp, pool: u16) -> Instr
    requires { IsKnown known.now }
    ensures means { (t : Tables) → meant known.now.p.now t class result
        ≡ by_pool known.now.p.now (pool_at known.now.p.now class) (forms.Cast op pool) }
    ensures within { (t : Tables) → Within t result }
    ensures exact { (t : Tables) → Exact known.now.p.now known.now.uses.now.types t class result }
{
    match cast_used(known, class, op, pool) {
        Some(TypeRef::Object(ClassRef::User(class))) => {
            Instr::Object(ObjectInstr::CastClass { op, pool, class })
        }
        _ => Instr::Object(ObjectInstr::Cast { op, pool }),
    }
}

/// The number of a type of arrays. Any number serves for a type that isn't one.
fn array_number(tables: &mut Tables, t: TypeRef) -> Result<u32, AllocError>
    ensures there { IfOk result (λ k. (a : ArrayRef) → t ≡ TypeRef.Array a → slice_get tables.new.arrays k ≡ Some a) }
    ensures grown { IfOk result (λ k. Grown tables.old tables.new) }
{
    match t {
        TypeRef::Array(array) => tables.put_array(array),
        _ => Ok(0),
    }
}

/// What is by number an instruction that makes an array of the class at an index.
#[tactic(auto, unfolding(crate::specs::DecodedInstructions::meant))]
pub(crate) fn array_of(
    known: &ProgramInfo<'_>,
    tables: &mut Tables,
    class: u32,
    pool: u16,
) -> Result<Instr, AllocError>
    requires { IsKnown known.now }
    ensures means { IfOk result
        (λ i. meant known.now.p.now tables.new class i ≡ option_map Used (array_meant known.now.p.now (pool_at known.now.p.now class) pool)) }
    ensures within { IfOk result (Within tables.new) }
    ensures exact { IfOk result (Exact known.now.p.now known.now.uses.now.types tables.new class) }
    ensures grown { IfOk result (λ i. Grown tables.old tables.new) }
{
    let Some(t) = array_used(known, class, pool) else {
        return Ok(Instr::Off);
    };
    let array = array_number(tables, t)?;
    Ok(Instr::Object(ObjectInstr::NewArray { pool, array }))
}

// ---- all

/// What an instruction by an entry of the pool is by number.
#[tactic(auto, unfolding(crate::specs::DecodedInstructions::meant))]
pub(crate) fn pool_instr(
    known: &ProgramInfo<'_>,
    tables: &mut Tables,
    class: u32,
    form: PoolForm,
) -> Result<Instr, AllocError>
    requires { IsKnown known.now }
    ensures means { IfOk result (λ i. meant known.now.p.now tables.new class i ≡ by_pool known.now.p.now (pool_at known.now.p.now class) form) }
    ensures within { IfOk result (Within tables.new) }
    ensures exact { IfOk result (Exact known.now.p.now known.now.uses.now.types tables.new class) }
    ensures grown { IfOk result (λ i. Grown tables.old tables.new) }
{
    match form {
        PoolForm::Constant(_) => constant(known, tables, class, form),
        PoolForm::LongConstant(_) => constant(known, tables, class, form),
        PoolForm::Field(op, i) => Ok(field_of(known, class, op, i)),
        PoolForm::Call(_, i) => Ok(call_of(known, class, form, i)),
        PoolForm::CallInterface(i, _) => Ok(call_of(known, class, form, i)),
        PoolForm::New(i) => Ok(make_of(known, class, i)),
        PoolForm::Cast(op, i) => Ok(cast_of(known, class, op, i)),
    }
}
