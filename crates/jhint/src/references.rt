ghost use Rattle.jresolution.specs.jprogram.InterfaceSearch.{IsLayered};

use crate::frames::frames_in;
use crate::misuses::misuse_of;
use crate::said::Said;
use crate::scene::{Scene, halves_of};
use jclass::{ClassParts, MemberInfo};
use jparts::jcode::{FieldOp, Ldc, NewOp, Op, Placed};
use jparts::jmaps::MapType;
use jparts::jpool::{Entry, Pool};
use jresolution::jprogram::{LinkKind, NamedProgram, class_text, member_desc, text_at, this_name};
use std::alloc::Global;

/// What an entry of the pool names, by indices of the pool: a class, or a member of one by its name and descriptor, which else are 0.
#[derive(Clone, Copy)]
pub struct Named {
    pub class: u16,
    pub name: u16,
    pub desc: u16,
}

/// Says a class, or a member: its class, its name and its descriptor.
pub fn say_named(pool: &Pool, one: Named, said: &mut Said) {
    let desc = text_at(pool, one.desc);
    said.name(class_text(pool, one.class));
    if one.name == 0 {
        return;
    }
    said.words(b".");
    said.name(text_at(pool, one.name));
    if !desc.starts_with(b"(") {
        said.words(b" ");
    }
    said.name(desc);
}

// ---- what code names

/// The entry of the pool that an instruction names, else 0.
pub fn index_of(op: &Op) -> u16 {
    match op {
        Op::Ldc(Ldc::Narrow(i)) => u16::from(*i),
        Op::Ldc(Ldc::Wide(i))
        | Op::Ldc2(i)
        | Op::Field(_, i)
        | Op::Call(_, i)
        | Op::CallInterface(i, _)
        | Op::New(NewOp::Object(i) | NewOp::RefArray(i))
        | Op::Cast(_, i) => *i,
        _ => 0,
    }
}

/// What an entry of the pool names.
pub fn named_at(pool: &Pool, i: u16) -> Named {
    let (class, both) = match pool.entry(i) {
        Some(
            Entry::Field(class, both)
            | Entry::Method(class, both)
            | Entry::InterfaceMethod(class, both),
        ) => (*class, *both),
        _ => (i, 0),
    };
    let (name, desc) = pool.name_and_type(both).unwrap_or((0, 0));
    Named { class, name, desc }
}

// ---- classes

/// The search among the classes that a member names for the first that breaks a rule: that isn't there, or may not be named from there.
#[derive(Clone, Copy)]
struct Search<'a> {
    program: &'a NamedProgram,
    class: &'a ClassParts,
    kind: LinkKind,
    /// The class, empty where none was met yet.
    found: &'a [u8],
}

impl<'a> Search<'a> {
    /// Meets a class.
    fn meet(&mut self, name: &'a [u8]) {
        let program = self.program;
        let is_there = program.class_of(name).is_some();
        let is_bad = match self.kind {
            LinkKind::NoClass => !is_there,
            LinkKind::NotAccessible => is_there && !program.may_name(this_name(self.class), name),
            _ => false,
        };
        if is_bad && self.found.is_empty() {
            self.found = name;
        }
    }

    /// Meets the classes of a descriptor.
    fn meet_desc(&mut self, text: &'a [u8]) {
        let mut start: usize = 0;
        let mut in_name = false;
        for (at, byte) in text.iter().enumerate() {
            if *byte == b'L' && !in_name {
                start = at.saturating_add(1);
                in_name = true;
            }
            if *byte == b';' {
                self.meet(text.get(start..at).unwrap_or(b""));
                in_name = false;
            }
        }
    }

    /// Meets the classes that an entry of the pool names: itself or the one of an array's items, and for a member its class and those of its
    /// descriptor.
    fn meet_entry(&mut self, i: u16) {
        let pool = &self.class.pool;
        let one = named_at(pool, i);
        let name = class_text(pool, one.class);
        if name.starts_with(b"[") {
            self.meet_desc(name);
        } else {
            self.meet(name);
        }
        self.meet_desc(text_at(pool, one.desc));
    }

    /// Meets the classes that items of a frame name.
    fn meet_items(&mut self, items: &[MapType]) {
        for item in items {
            if let MapType::Object(i) = item {
                self.meet_entry(*i);
            }
        }
    }
}

/// The search of a kind, before any class is met.
fn search_for<'a>(scene: Scene<'a>, kind: LinkKind) -> Search<'a> {
    Search {
        program: scene.program,
        class: scene.class,
        kind,
        found: b"",
    }
}

/// The first class that a member names, but in its frames, and that breaks a rule. Empty where there is none. Those of its descriptor are
/// there; whether they may be named isn't asked.
pub fn bad_class<'a>(scene: Scene<'a>, kind: LinkKind, info: &MemberInfo) -> &'a [u8] {
    let mut search = search_for(scene, kind);
    if let LinkKind::NoClass = kind {
        search.meet_desc(member_desc(scene.class, info));
    }
    for one in scene.code.ops {
        search.meet_entry(index_of(&one.op));
    }
    for one in scene.code.handlers {
        search.meet_entry(one.class);
    }
    search.found
}

/// The first class that the frames of a member's code name and that breaks a rule: in the first frame those of its parameters. Empty where
/// there is none.
pub fn bad_in_frames<'a>(scene: Scene<'a>, kind: LinkKind, info: &MemberInfo) -> &'a [u8] {
    let mut search = search_for(scene, kind);
    let frames = frames_in(scene.code.attributes);
    if !frames.is_empty() {
        let desc = member_desc(scene.class, info);
        let (params, _) = halves_of(desc);
        search.meet_desc(params);
    }
    for frame in frames {
        search.meet_items(frame.locals.as_slice());
        search.meet_items(frame.stack.as_slice());
    }
    search.found
}

// ---- members

/// Which rule the member breaks that an instruction names by an entry of the pool, in words: it isn't there, may not be used from there, or
/// is used otherwise than it is declared. Empty where it breaks none.
fn broken(alloc: Global, scene: Scene<'_>, kind: LinkKind, op: &Op, one: Named) -> &'static str
    requires { IsLayered scene.program.now }
{
    let program = scene.program;
    let found = program.resolved(alloc, scene.method.class, index_of(op));
    let member = match (kind, found) {
        (LinkKind::NoMember, Ok(None)) if one.name != 0 => {
            return ", which neither that class nor one above it has";
        }
        (LinkKind::BadUse, Ok(member)) => return misuse_of(scene, op, one, member),
        (LinkKind::NotAccessible, Ok(Some(member))) => member,
        _ => return "",
    };
    let from = this_name(scene.class);
    let puts = matches!(op, Op::Field(FieldOp::PutStatic | FieldOp::PutField, _));
    let is_fixed = puts && program.is_final(member) && program.owner_of(member) != from;
    if is_fixed || !program.may_use(from, member) {
        return ", which may not be used so from there: private, of another package, or final";
    }
    ""
}

/// The first thing that a method's code names and that breaks a rule, with the instruction and the rule.
pub fn bad_member<'a>(
    alloc: Global,
    scene: Scene<'a>,
    kind: LinkKind,
) -> Option<(&'a Placed, &'static str)>
    requires { IsLayered scene.program.now }
{
    for placed in scene.code.ops {
        let one = named_at(&scene.class.pool, index_of(&placed.op));
        let rule = broken(alloc, scene, kind, &placed.op, one);
        if !rule.is_empty() {
            return Some((placed, rule));
        }
    }
    None
}
