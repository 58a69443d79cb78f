use crate::said::Said;
use bitflags::Flags;
use jclass::{Access, ClassParts, MemberInfo};
use jground::jtext::{Units, bytes_of};
use jlib::Side;
use jresolution::jprogram::{
    ClassRef, CodePart, NamedProgram, Reach, has_code, member_desc, member_name, reach_of,
};
use std::alloc::Global;

const CARRIAGE_RETURN: u16 = 13;

/// Why a method of this name, with a descriptor or another, isn't the one with which a run begins.
fn reason(method: &MemberInfo, is_wanted: bool) -> &'static str {
    if !is_wanted {
        return " takes or gives something else";
    }
    let Reach::Public = reach_of(method.flags) else {
        return " isn't public";
    };
    if !method.flags.contains(Access::STATIC) {
        return " isn't static";
    }
    if !has_code(method) {
        return " has no code";
    }
    " serves"
}

/// Says why no method called `main` is the one with a descriptor with which a run begins.
fn say_mains(class: &ClassParts, desc: &[u8], said: &mut Said) {
    for method in class.methods.as_slice() {
        if member_name(class, method) == b"main".as_slice() {
            let found = member_desc(class, method);
            said.words(b"; main");
            said.name(found);
            said.told(reason(method, found == desc));
        }
    }
}

/// The class of a name.
fn part_of<'a>(alloc: Global, program: &'a NamedProgram, name: &Units) -> Option<&'a CodePart> {
    let Ok(bytes) = bytes_of(alloc, name) else {
        return None;
    };
    match program.class_of(&bytes) {
        Some(ClassRef::User(number)) => program.parts().get(number as usize),
        _ => None,
    }
}

/// Says of a class in which a run is to begin why it can't.
pub fn say_main(program: &NamedProgram, name: &Units, said: &mut Said) {
    said.words(b"main ");
    said.units(name.as_slice());
    if name.as_slice().ends_with(&[CARRIAGE_RETURN]) {
        return said.words(b": the line ends in a carriage return");
    }
    let Some(part) = part_of(said.alloc, program, name) else {
        said.words(b": the job has no class of this name, which is written with slashes");
        return;
    };
    let desc = match program.side() {
        Side::Source => {
            said.words(b": the class has no `public static void main(String[])`");
            b"([Ljava/lang/String;)V".as_slice()
        }
        Side::Passing => {
            said.words(b": the class has no `public static void main(String[], sps.Ctx)`");
            b"([Ljava/lang/String;Lsps/Ctx;)V".as_slice()
        }
    };
    say_mains(part.class.parts(), desc, said);
}
