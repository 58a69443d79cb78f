ghost use Rattle.std.specs.Prelude.{◌≡◌, IfOk};
ghost use Rattle.jresolution.specs.jprogram.ProgramClasses;
ghost use Rattle.jlinking.specs.jreferring.ClassEntryUses;

use crate::jreferring::judged::ClassUse;
use crate::jreferring::names::{is_array, type_named, type_test};
use bitflags::Flags;
use jclass::{Access, ClassFile};
use jparts::jpool::FieldType;
use jresolution::jprogram::{ClassRef, NamedProgram, is_context, is_floating};
use std::alloc::{AllocError, Global};

/// Whether it is an array of contexts, of floats or of doubles.
#[tactic(auto, unfolding(crate::specs::jreferring::ClassEntryUses::is_barred_array))]
fn is_barred_array(one: &FieldType) -> bool
    ensures { result ≡ ClassEntryUses.is_barred_array one.now }
{
    is_array(one) && (is_context(one) || is_floating(one))
}

/// Whether it may be neither an operand nor a catch type.
#[tactic(auto, unfolding(crate::specs::jreferring::ClassEntryUses::is_barred_operand))]
fn is_barred_operand(one: &FieldType) -> bool
    ensures { result ≡ ClassEntryUses.is_barred_operand one.now }
{
    is_context(one) || is_barred_array(one)
}

fn user_unmade(class: &ClassFile) -> bool
    ensures { result ≡ ClassEntryUses.is_unmade (ProgramClasses.User 0 class.now) }
{
    let flags = class.parts().flags;
    flags.contains(Access::ABSTRACT) || flags.contains(Access::INTERFACE)
}

fn part_unmade(program: &NamedProgram, i: u32) -> bool
    ensures { result ≡ ProgramClasses.holds ClassEntryUses.is_unmade (ProgramClasses.user_at program.now i) }
{
    match program.parts().get(i as usize) {
        Some(part) => user_unmade(&part.class),
        None => false,
    }
}

fn ref_unmade(program: &NamedProgram, class: ClassRef) -> bool
    ensures { result ≡ ProgramClasses.holds ClassEntryUses.is_unmade (ProgramClasses.class_at program.now class) }
{
    match class {
        ClassRef::User(i) => part_unmade(program, i),
        ClassRef::Lib(class) => class.is_abstract() || class.is_interface(),
    }
}

/// Whether the class of a name is abstract or an interface.
#[tactic(auto, using(crate::proofs::JreferringProofs::InstantiableClasses::unmade_by_number, crate::proofs::JreferringProofs::InstantiableClasses::unmade_nowhere,),)]
fn is_unmade(program: &NamedProgram, name: &[u8]) -> bool
    ensures { result ≡ ProgramClasses.holds ClassEntryUses.is_unmade (ProgramClasses.find program.now name.now) }
{
    match program.class_of(name) {
        Some(class) => ref_unmade(program, class),
        None => false,
    }
}

/// Whether a type has no objects that `new` makes.
#[tactic(auto, unfolding(crate::specs::jreferring::ClassEntryUses::is_no_maker))]
fn is_no_maker(program: &NamedProgram, one: &FieldType) -> bool
    ensures { result ≡ ClassEntryUses.is_no_maker program.now one.now }
{
    if is_array(one) {
        return true;
    }
    is_unmade(program, one.class.as_slice())
}

/// What a Class entry of this text may be used for.
pub fn class_use(
    alloc: Global,
    program: &NamedProgram,
    from: &[u8],
    text: &[u8],
) -> Result<ClassUse, AllocError>
    ensures { IfOk result (λ u. u ≡ ClassEntryUses.class_use program.now from.now text.now) }
{
    let one = type_named(alloc, text)?;
    Ok(ClassUse {
        names: type_test(program, from, &one),
        barred: is_barred_operand(&one),
        barred_item: is_barred_array(&one),
        unmade: is_no_maker(program, &one),
    })
}
