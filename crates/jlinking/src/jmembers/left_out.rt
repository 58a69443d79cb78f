ghost use Rattle.std.specs.Prelude.{◌≡◌};
ghost use Rattle.jlinking.specs.jmembers.MemberDeclarations;

use crate::jmembers::class_texts::ClassTexts;
use bitflags::Flags;
use jclass::{Access, ClassParts, MemberInfo};
use jlib::Side;
use jresolution::jprogram::{LinkKind, has_code, member_desc, member_name};

/// The longest descriptor of a method that a context still fits behind the parameters of.
const LONGEST: usize = 65_526;

fn is_too_long(side: Side, desc: &[u8]) -> bool
    ensures { result ≡ MemberDeclarations.is_too_long side desc.now }
{
    match side {
        Side::Source => desc.len() > LONGEST,
        Side::Passing => false,
    }
}

fn method_left_out(side: Side, class: &ClassParts, method: &MemberInfo) -> bool
    ensures { result ≡ MemberDeclarations.method_left_out side class.now method.now }
{
    if member_name(class, method) == b"<clinit>".as_slice() {
        return true;
    }
    let flags = method.flags;
    if flags.contains(Access::NATIVE) || flags.contains(Access::SYNCHRONIZED) {
        return true;
    }
    if class.flags.contains(Access::INTERFACE) && has_code(method) {
        return true;
    }
    is_too_long(side, member_desc(class, method))
}

fn field_left_out(class: &ClassParts, field: &MemberInfo) -> bool
    ensures { result ≡ MemberDeclarations.field_left_out class.now field.now }
{
    class.flags.contains(Access::INTERFACE) && !field.flags.contains(Access::STATIC)
}

impl<'a> ClassTexts<'a> {
    /// LeftOut where a method is a class initializer, native or synchronized, has code in an interface, has a floating-point type or a
    /// misplaced context in its descriptor, or on the source side a descriptor of more than 65,526 bytes.
    #[tactic(auto, unfolding(crate::specs::jmembers::MemberDeclarations::method_left_out_test))]
    pub fn method_left_out_test(&self, method: &MemberInfo) -> Option<LinkKind>
        ensures { result ≡ MemberDeclarations.method_left_out_test self.now.program.side self.now.class method.now }
    {
        if method_left_out(self.program().side(), self.class(), method) {
            return Some(LinkKind::LeftOut);
        }
        if self.marks_of(method).left_out {
            return Some(LinkKind::LeftOut);
        }
        None
    }

    /// LeftOut where a field is an instance field of an interface, or has a floating-point type or a context in its descriptor.
    #[tactic(auto, unfolding(crate::specs::jmembers::MemberDeclarations::field_left_out_test))]
    pub fn field_left_out_test(&self, field: &MemberInfo) -> Option<LinkKind>
        ensures { result ≡ MemberDeclarations.field_left_out_test self.now.class field.now }
    {
        if field_left_out(self.class(), field) {
            return Some(LinkKind::LeftOut);
        }
        if self.marks_of(field).left_out {
            return Some(LinkKind::LeftOut);
        }
        None
    }
}
