use crate::references::Named;
use crate::scene::Scene;
use bitflags::Flags;
use jclass::Access;
use jparts::jcode::{CallOp, FieldOp, NewOp, Op};
use jparts::jpool::method_slots;
use jresolution::jprogram::{
    ClassRef, Member, NamedProgram, Reach, class_text, text_at, this_name,
};

/// Why `new` makes no object of a class, in words. Empty where it makes one.
fn unmade(program: &NamedProgram, name: &[u8]) -> &'static str {
    let is_abstract = match program.class_of(name) {
        Some(ClassRef::User(number)) => match program.parts().get(number as usize) {
            Some(part) => part.class.parts().flags.contains(Access::ABSTRACT),
            None => false,
        },
        Some(ClassRef::Lib(class)) => class.is_abstract(),
        None => return ", which is an array",
    };
    if program.is_interface(name) {
        return ", which is an interface";
    }
    if is_abstract {
        return ", which is abstract";
    }
    ""
}

/// How a method is declared otherwise than an instruction calls it, in words, where both or neither are static. Empty where it isn't.
fn miscalled(scene: Scene<'_>, op: &Op, one: Named, member: Member) -> &'static str {
    let pool = &scene.class.pool;
    let owner = class_text(pool, one.class);
    let is_init = text_at(pool, one.name) == b"<init>".as_slice();
    let is_private = matches!(scene.program.reach_of(member), Reach::Private);
    match op {
        Op::Call(CallOp::Special, _) if is_init => "",
        Op::Call(CallOp::Special, _) if scene.program.extends(this_name(scene.class), owner) => "",
        Op::Call(CallOp::Special, _) => ", which is neither of this class nor of one above it",
        _ if is_init => ", which is a constructor",
        Op::Call(CallOp::Static, _) => "",
        _ if is_private => ", which is private",
        Op::CallInterface(_, count) => {
            let slots = method_slots(text_at(pool, one.desc)).unwrap_or(0);
            if slots.saturating_add(1) == usize::from(*count) {
                return "";
            }
            ", which has other arguments than are counted"
        }
        _ => "",
    }
}

/// How what an instruction names is declared otherwise than it uses that, in words: a class, or a member, where it is there. Empty where it
/// isn't.
pub fn misuse_of(scene: Scene<'_>, op: &Op, one: Named, member: Option<Member>) -> &'static str {
    let owner = class_text(&scene.class.pool, one.class);
    if let Op::New(NewOp::Object(_)) = op {
        return unmade(scene.program, owner);
    }
    let Some(member) = member else {
        return "";
    };
    let takes_static = matches!(
        op,
        Op::Field(FieldOp::GetStatic | FieldOp::PutStatic, _) | Op::Call(CallOp::Static, _)
    );
    if scene.program.is_static(member) != takes_static {
        return if takes_static {
            ", which isn't static"
        } else {
            ", which is static"
        };
    }
    if let Op::Field(_, _) = op {
        return "";
    }
    let is_interface = scene.program.is_interface(owner);
    if is_interface != matches!(op, Op::CallInterface(_, _)) {
        return if is_interface {
            ", which is of an interface"
        } else {
            ", which is of no interface"
        };
    }
    miscalled(scene, op, one, member)
}
