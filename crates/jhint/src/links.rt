ghost use Rattle.jresolution.specs.jprogram.InterfaceSearch.{IsLayered};

use crate::leftouts::left_out;
use crate::opcodes::name_of;
use crate::references::{bad_class, bad_in_frames, bad_member, index_of, named_at, say_named};
use crate::said::Said;
use crate::scene::{Scene, scene_of};
use jclass::{ClassParts, MemberInfo};
use jlib::{Side, class as library_class, member};
use jlinking::jlink::LinkError;
use jparts::jcode::{Op, opcode_of};
use jresolution::jprogram::{
    LinkKind, NamedProgram, class_text, program_laws, super_name, text_at, this_name,
};

// ---- what isn't there

/// The side whose library a program isn't linked against, and what to do where only that library has what is missing.
fn other(side: Side) -> (Side, &'static str) {
    match side {
        Side::Source => (
            Side::Passing,
            ", which only the library of moved programs has: `check --form=plain`",
        ),
        Side::Passing => (
            Side::Source,
            ", which the library of moved programs hasn't: `check` without the form",
        ),
    }
}

/// Says a class that neither the job nor its side's library has, and where it is named.
fn say_missing(side: Side, name: &[u8], place: &str, said: &mut Said) {
    let (beyond, advice) = other(side);
    said.name(name);
    said.told(place);
    match library_class(beyond, name) {
        Some(_) => said.told(advice),
        None => said.words(b", which neither the job nor the library has"),
    }
}

// ---- a class by itself

/// The first interface that a class lists and that isn't there, or is none where that is sought.
fn bad_face<'a>(program: &NamedProgram, class: &'a ClassParts, kind: LinkKind) -> Option<&'a [u8]> {
    for face in class.interfaces.as_slice() {
        let name = class_text(&class.pool, *face);
        let is_good = match kind {
            LinkKind::NoClass => program.class_of(name).is_some(),
            _ => program.is_interface(name),
        };
        if !is_good {
            return Some(name);
        }
    }
    None
}

/// Says the first class that isn't there among those that a class extends or lists.
fn say_above(program: &NamedProgram, class: &ClassParts, said: &mut Said) {
    let Some(above) = super_name(class) else {
        said.words(b"it extends no class");
        return;
    };
    let missing = if program.class_of(above).is_some() {
        bad_face(program, class, LinkKind::NoClass)
    } else {
        Some(above)
    };
    if let Some(name) = missing {
        said.words(b"it extends or implements ");
        say_missing(program.side(), name, "", said);
    }
}

/// Says the first interface that a class lists and that is none, or else the class that it may not extend.
fn say_barred(program: &NamedProgram, class: &ClassParts, said: &mut Said) {
    if let Some(name) = bad_face(program, class, LinkKind::BadSuper) {
        said.words(b"it implements ");
        said.name(name);
        return said.words(b", which isn't an interface");
    }
    said.words(b"it extends ");
    said.name(super_name(class).unwrap_or(b"nothing"));
    said.words(b", which is final, an interface, or no class that users may extend");
}

/// Says which rule a class breaks by itself.
fn say_of_class(program: &NamedProgram, class: &ClassParts, kind: LinkKind, said: &mut Said) {
    match kind {
        LinkKind::NoClass => say_above(program, class, said),
        LinkKind::BadSuper => say_barred(program, class, said),
        LinkKind::Twice if library_class(program.side(), this_name(class)).is_some() => {
            said.words(b"the library has a class of this name");
        }
        LinkKind::Twice => said.words(b"an earlier line of the job names a class of this name"),
        LinkKind::Circular => said.words(b"it stands above itself: class files of two builds"),
        _ => said.words(
            b"names that begin with sps/ are those of moved programs: another package, or `check --form=plain`",
        ),
    }
}

// ---- a class by a member

/// Says which rule the class, the field or the method breaks that an instruction names.
fn say_bad(scene: Scene<'_>, kind: LinkKind, op: &Op, rule: &str, said: &mut Said) {
    let pool = &scene.class.pool;
    let one = named_at(pool, index_of(op));
    let (beyond, advice) = other(scene.program.side());
    let owner = class_text(pool, one.class);
    let found = member(
        beyond,
        owner,
        text_at(pool, one.name),
        text_at(pool, one.desc),
    );
    said.words(b"it uses ");
    say_named(pool, one, said);
    said.told(match (kind, found) {
        (LinkKind::NoMember, Some(_)) => advice,
        _ => rule,
    });
    if let LinkKind::BadUse = kind {
        said.words(b", by ");
        said.told(name_of(usize::from(opcode_of(op))));
        said.words(b": class files of two builds");
    }
}

/// Says the class that a member names, and where it does.
fn say_named_class(scene: Scene<'_>, kind: LinkKind, name: &[u8], place: &str, said: &mut Said) {
    said.words(b"it names ");
    if let LinkKind::NoClass = kind {
        return say_missing(scene.program.side(), name, place, said);
    }
    said.name(name);
    said.told(place);
    said.words(b", which isn't public and stands in another package");
}

/// Says which field or method it is that code names, or which class in a frame, where members can be resolved: no class stands among its own
/// interfaces.
fn say_used(scene: Scene<'_>, kind: LinkKind, info: &MemberInfo, said: &mut Said) {
    program_laws();
    let Ok(None) = scene.program.naming_fault(said.alloc) else {
        return;
    };
    let Ok(None) = scene.program.supers_fault(said.alloc) else {
        return;
    };
    if let Some((placed, rule)) = bad_member(said.alloc, scene, kind) {
        return say_bad(scene, kind, &placed.op, rule, said);
    }
    let name = bad_in_frames(scene, kind, info);
    if !name.is_empty() {
        say_named_class(scene, kind, name, " in a frame", said);
    }
}

/// Says which class or member it is that a member names.
fn say_names(scene: Scene<'_>, kind: LinkKind, info: &MemberInfo, said: &mut Said) {
    let name = bad_class(scene, kind, info);
    if name.is_empty() {
        return say_used(scene, kind, info, said);
    }
    say_named_class(scene, kind, name, "", said);
}

/// Says which rule a class breaks by a member.
fn say_of_member(scene: Scene<'_>, kind: LinkKind, info: &MemberInfo, said: &mut Said) {
    said.told(match kind {
        LinkKind::NoClass | LinkKind::NoMember | LinkKind::NotAccessible | LinkKind::BadUse => {
            return say_names(scene, kind, info, said);
        }
        LinkKind::LeftOut => left_out(scene, info),
        LinkKind::Twice => "an earlier member of the class has this name and descriptor",
        LinkKind::OverridesLibrary => {
            "it overrides a method of the library that has code: another name"
        }
        _ => "it overrides a final method of a class above",
    });
}

/// Says which rule of linking a program breaks, by a member of a class or by a class itself.
pub fn say_link(program: &NamedProgram, error: LinkError, said: &mut Said) {
    let LinkError::At(fault) = error else {
        return;
    };
    let Some(scene) = scene_of(program, fault.class, fault.member, None, said) else {
        return;
    };
    match scene.info {
        Some(info) => say_of_member(scene, fault.kind, info, said),
        None => say_of_class(program, scene.class, fault.kind, said),
    }
}
