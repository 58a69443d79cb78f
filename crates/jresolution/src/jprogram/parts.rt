ghost use Rattle.std.specs.Prelude.{◌≡◌, option_map, length};
ghost use Rattle.jresolution.specs.jprogram.MemberResolution;
ghost use Rattle.jresolution.specs.jprogram.ClassFileParts;

use crate::jprogram::reach::Reach;
use bitflags::Flags;
use jclass::{Access, Attribute, ClassParts, MemberInfo};
use jparts::jpool::Pool;

// ---- texts

fn or_empty(text: Option<&[u8]>) -> &[u8]
    ensures { result.now ≡ ClassFileParts.or_empty (option_map (λ t. t.now) text.entry) }
{
    match text {
        Some(text) => text,
        None => &[],
    }
}

/// The text at an index of a pool, empty where none is there.
pub fn text_at(pool: &Pool, i: u16) -> &[u8]
    ensures { result.now ≡ ClassFileParts.text pool.now i }
{
    or_empty(pool.utf8(i))
}

/// The name of the class at an index of a pool, empty where none is there.
pub fn class_text(pool: &Pool, i: u16) -> &[u8]
    ensures { result.now ≡ ClassFileParts.class_text pool.now i }
{
    or_empty(pool.class_name(i))
}

// ---- classes and members

/// The name of a class (JVMS 4.1).
pub fn this_name(class: &ClassParts) -> &[u8]
    ensures { result.now ≡ ClassFileParts.this_name class.now }
{
    class_text(&class.pool, class.this_class)
}

/// The name of the class that it extends, None where its index is 0.
pub fn super_name(class: &ClassParts) -> Option<&[u8]>
    ensures { option_map (λ name. name.now) result ≡ ClassFileParts.super_name class.now }
{
    if class.super_class == 0 {
        return None;
    }
    Some(class_text(&class.pool, class.super_class))
}

/// The name of a member of a class (JVMS 4.5, 4.6).
pub fn member_name<'a>(class: &'a ClassParts, member: &MemberInfo) -> &'a [u8]
    ensures { result.now ≡ ClassFileParts.member_name class.now member.now }
{
    text_at(&class.pool, member.name)
}

/// Its descriptor.
pub fn member_desc<'a>(class: &'a ClassParts, member: &MemberInfo) -> &'a [u8]
    ensures { result.now ≡ ClassFileParts.member_desc class.now member.now }
{
    text_at(&class.pool, member.desc)
}

/// Whether it has this name and descriptor.
pub fn is_called(class: &ClassParts, name: &[u8], desc: &[u8], member: &MemberInfo) -> bool
    ensures { result ≡ ClassFileParts.is_called class.now name.now desc.now member.now }
{
    member_name(class, member) == name && member_desc(class, member) == desc
}

/// Whether a method is a constructor, and not a static method of that name (JVMS 2.9.1).
pub fn is_init(class: &ClassParts, method: &MemberInfo) -> bool
    ensures { result ≡ MemberResolution.is_init class.now method.now }
{
    member_name(class, method) == b"<init>".as_slice() && !method.flags.contains(Access::STATIC)
}

/// Whether a method has code.
#[tactic(auto, unfolding(crate::specs::jprogram::ClassFileParts::code_of, jground::specs::jbase::FirstFaults::first_some))]
pub fn has_code(method: &MemberInfo) -> bool
    ensures { result ≡ ClassFileParts.has_code method.now }
{
    for attribute in method.attributes.as_slice() {
        if let Attribute::Code { .. } = attribute {
            return true;
        }
    }
    false
}

// ---- flags

/// From where a member with these flags may be used: by the first of private, public and protected that is set.
#[tactic(auto, unfolding(crate::specs::jprogram::ClassFileParts::reach_of))]
pub fn reach_of(flags: Access) -> Reach
    ensures { result ≡ ClassFileParts.reach_of flags }
{
    if flags.contains(Access::PRIVATE) {
        return Reach::Private;
    }
    if flags.contains(Access::PUBLIC) {
        return Reach::Public;
    }
    if flags.contains(Access::PROTECTED) {
        return Reach::Protected;
    }
    Reach::Package
}

// ---- packages

/// The text in front of the last `/` of a class's name, empty where there is none (JVMS 5.3).
pub fn package_of(name: &[u8]) -> &[u8]
    ensures { result.now ≡ ClassFileParts.package_of name.now }
{
    let mut end = name.len();
    while 0 < end {
        end -= 1;
        if name[end] == b'/' {
            let (front, _) = name.split_at(end);
            return front;
        }
    }
    &[]
}

/// Whether two classes' names have one package: the text in front of the last `/` (JVMS 5.3).
pub fn same_package(a: &[u8], b: &[u8]) -> bool
    ensures { result ≡ ClassFileParts.same_package a.now b.now }
{
    package_of(a) == package_of(b)
}
