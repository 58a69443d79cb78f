ghost use Rattle.std.specs.Prelude.{◌≡◌, ◌<◌, ◌^◌, IfSome, length};
ghost use Rattle.joutput.specs.jio.LineParts.{line_of, part_of, part_room, room_of};
ghost use Rattle.joutput.specs.jio.TextOutput.{written};
ghost use Rattle.jshow.specs.CommandAnswers.{Shows, refused_answer};
ghost use Rattle.jshow.specs.declared.refusal.Refusal.TheVariants as refusals;
ghost use Rattle.jshow.specs.Refusals.{check_text, member_or_dash, refusal_line, text_line};
ghost use Rattle.jshow.specs.Refusals.{class_opcode, class_text, class_word, limit_size, limit_word, link_text, link_word, policy_word, rewrite_text};

use crate::refusal::Refusal;
use crate::status::Status;
use jclass::ClassFault;
use jground::jtext::Units;
use jjob::Text;
use jmoveclass::RewriteKind;
use joutput::jio::{Part, Sink, write_line};
use jpolicy::PolicyFault;
use jresolution::jprogram::LinkKind;
use std::alloc::Global;

/// The most units of a name in a refusal.
const MOST_UNITS: usize = 0x7fff_ffff;

// ---- names

/// A name as a part of a line; none where it has more units than a line may have.
fn name_part(name: &Units) -> Option<Part<'_>>
    ensures part { IfSome result (λ part. part_of part ≡ written name.now) }
    ensures room { IfSome result (λ part. part_room part < 2 ^ 34) }
{
    let units = name.as_slice();
    if MOST_UNITS < units.len() {
        return None;
    }
    Some(Part::Text(units))
}

/// A member's name and descriptor as a part of a line, or the dash that stands for no member; none where they have more units than a line may have.
fn member_part(member: &Option<Units>) -> Option<Part<'_>>
    ensures part { IfSome result (λ part. part_of part ≡ member_or_dash member.now) }
    ensures room { IfSome result (λ part. part_room part < 2 ^ 34) }
{
    match member {
        Some(member) => name_part(member),
        None => Some(Part::Plain("-")),
    }
}

// ---- lines

/// Writes a refusal's line of these parts.
fn refuse<K: Sink>(parts: &[Part<'_>], out: &mut K) -> Status
    requires { room_of parts.now < 2 ^ 64 }
    ensures { Shows (refused_answer (line_of parts.now)) result K.out K.faults out.old out.new }
{
    match write_line(out, parts) {
        Ok(()) => Status::Refused,
        Err(_) => Status::WriteFault,
    }
}

/// Writes a line of a few words and a name.
fn show_name<'a, K: Sink>(words: &'a str, name: &'a Units, out: &mut K) -> Status
    requires { length words.now < 2 ^ 32 }
    ensures { Shows (refused_answer (text_line words.now name.now)) result K.out K.faults out.old out.new }
{
    let Some(name) = name_part(name) else {
        return Status::OutOfMemory;
    };
    refuse(&[Part::Plain(words), name], out)
}

// ---- jobs

fn show_job<K: Sink>(line: u32, out: &mut K) -> Status
    ensures { Shows (refused_answer (refusal_line (refusals.BadJob line))) result K.out K.faults out.old out.new }
{
    let line = u64::from(line);
    refuse(&[Part::Plain("refused job "), Part::Number(line)], out)
}

// ---- policies

#[tactic(auto, unfolding(crate::specs::Refusals::policy_word))]
fn policy_word(kind: PolicyFault) -> &'static str
    ensures word { result.now ≡ policy_word kind }
    ensures few { length result.now < 32 }
{
    match kind {
        PolicyFault::NotUtf8 => "not-utf8",
        PolicyFault::Syntax => "syntax",
        PolicyFault::SelfExpansion => "self-expansion",
    }
}

fn show_policy<K: Sink>(at: u32, kind: PolicyFault, out: &mut K) -> Status
    ensures { Shows (refused_answer (refusal_line (refusals.BadPolicy at kind))) result K.out K.faults out.old out.new }
{
    let parts = [
        Part::Plain("refused policy "),
        Part::Number(u64::from(at)),
        Part::Plain(" "),
        Part::Plain(policy_word(kind)),
    ];
    refuse(&parts, out)
}

// ---- class files

#[tactic(auto, unfolding(crate::specs::Refusals::class_word))]
fn class_word(kind: ClassFault) -> &'static str
    ensures word { result.now ≡ class_word kind }
    ensures few { length result.now < 32 }
{
    match kind {
        ClassFault::Truncated => "truncated",
        ClassFault::Magic => "magic",
        ClassFault::Version => "version",
        ClassFault::Tag => "tag",
        ClassFault::Trailing => "trailing",
        ClassFault::Text => "text",
        ClassFault::Index => "index",
        ClassFault::Name => "name",
        ClassFault::Descriptor => "descriptor",
        ClassFault::Code => "code",
        ClassFault::Opcode(_) => "opcode",
        ClassFault::LeftOut(_) | ClassFault::MapLeftOut => "leftout",
        ClassFault::Operand => "operand",
        ClassFault::Target => "target",
        ClassFault::Reserved => "reserved",
        ClassFault::MapTag => "maptag",
        ClassFault::Maps => "maps",
    }
}

#[tactic(auto, unfolding(crate::specs::Refusals::class_opcode))]
fn class_opcode(kind: ClassFault) -> Option<u8>
    ensures { result ≡ class_opcode kind }
{
    match kind {
        ClassFault::Opcode(opcode) | ClassFault::LeftOut(opcode) => Some(opcode),
        _ => None,
    }
}

fn put_class<'a, K: Sink>(
    path: Part<'a>,
    at: u32,
    word: &'a str,
    opcode: Option<u8>,
    out: &mut K,
) -> Status
    requires path { part_room path < 2 ^ 34 }
    requires word { length word.now < 32 }
    ensures { Shows (refused_answer (class_text (part_of path.entry) at word.now opcode)) result K.out K.faults out.old out.new }
{
    let at = u64::from(at);
    match opcode {
        None => refuse(
            &[
                Part::Plain("refused class "),
                path,
                Part::Plain(" at "),
                Part::Number(at),
                Part::Plain(" "),
                Part::Plain(word),
            ],
            out,
        ),
        Some(opcode) => refuse(
            &[
                Part::Plain("refused class "),
                path,
                Part::Plain(" at "),
                Part::Number(at),
                Part::Plain(" "),
                Part::Plain(word),
                Part::Plain(" "),
                Part::Number(u64::from(opcode)),
            ],
            out,
        ),
    }
}

fn show_class<K: Sink>(alloc: Global, path: &Text, at: u32, kind: ClassFault, out: &mut K) -> Status
    ensures { Shows (refused_answer (refusal_line (refusals.BadClass path.now at kind))) result K.out K.faults out.old out.new }
{
    let Ok(units) = Units::from_text(alloc, path.as_str()) else {
        return Status::OutOfMemory;
    };
    let Some(path) = name_part(&units) else {
        return Status::OutOfMemory;
    };
    put_class(path, at, class_word(kind), class_opcode(kind), out)
}

// ---- classes that don't link

#[tactic(auto, unfolding(crate::specs::Refusals::link_word))]
fn link_word(kind: LinkKind) -> &'static str
    ensures word { result.now ≡ link_word kind }
    ensures few { length result.now < 32 }
{
    match kind {
        LinkKind::Twice => "twice",
        LinkKind::NoClass => "noclass",
        LinkKind::Circular => "circular",
        LinkKind::BadSuper => "badsuper",
        LinkKind::FinalMethod => "finalmethod",
        LinkKind::NoMember => "nomember",
        LinkKind::NotAccessible => "notaccessible",
        LinkKind::OverridesLibrary => "overrideslibrary",
        LinkKind::ReservedName => "reservedname",
        LinkKind::LeftOut => "leftout",
        LinkKind::BadUse => "baduse",
    }
}

/// Writes the refusal of a class by a rule that it breaks, and by a member, or by the dash that stands for none.
fn put_link<'a, K: Sink>(class: Part<'a>, member: Part<'a>, word: &'a str, out: &mut K) -> Status
    requires class { part_room class < 2 ^ 34 }
    requires member { part_room member < 2 ^ 34 }
    requires word { length word.now < 32 }
    ensures { Shows (refused_answer (link_text (part_of class.entry) (part_of member.entry) word.now)) result K.out K.faults out.old out.new }
{
    let parts = [
        Part::Plain("refused link "),
        class,
        Part::Plain(" "),
        member,
        Part::Plain(" "),
        Part::Plain(word),
    ];
    refuse(&parts, out)
}

fn show_link<K: Sink>(class: &Units, member: &Option<Units>, kind: LinkKind, out: &mut K) -> Status
    ensures { Shows (refused_answer (refusal_line (refusals.BadLink class.now member.now kind))) result K.out K.faults out.old out.new }
{
    let Some(class) = name_part(class) else {
        return Status::OutOfMemory;
    };
    let Some(member) = member_part(member) else {
        return Status::OutOfMemory;
    };
    put_link(class, member, link_word(kind), out)
}

// ---- programs that aren't well typed

/// Writes the refusal of a program by a place in a method.
fn put_check<'a, K: Sink>(class: Part<'a>, member: Part<'a>, at: u32, out: &mut K) -> Status
    requires class { part_room class < 2 ^ 34 }
    requires member { part_room member < 2 ^ 34 }
    ensures { Shows (refused_answer (check_text (part_of class.entry) (part_of member.entry) at)) result K.out K.faults out.old out.new }
{
    let at = u64::from(at);
    let parts = [
        Part::Plain("refused check "),
        class,
        Part::Plain(" "),
        member,
        Part::Plain(" at "),
        Part::Number(at),
    ];
    refuse(&parts, out)
}

fn show_check<K: Sink>(class: &Units, member: &Units, at: u32, out: &mut K) -> Status
    ensures { Shows (refused_answer (refusal_line (refusals.BadCheck class.now member.now at))) result K.out K.faults out.old out.new }
{
    let Some(class) = name_part(class) else {
        return Status::OutOfMemory;
    };
    let Some(member) = name_part(member) else {
        return Status::OutOfMemory;
    };
    put_check(class, member, at, out)
}

// ---- programs that can't be moved

#[tactic(auto, unfolding(crate::specs::Refusals::limit_word))]
fn limit_word(kind: RewriteKind) -> &'static str
    ensures word { result.now ≡ limit_word kind }
    ensures few { length result.now < 32 }
{
    match kind {
        RewriteKind::Slots => "slots",
        RewriteKind::Locals => "locals",
        RewriteKind::Stack => "stack",
        RewriteKind::TooLong(_) => "too long",
        RewriteKind::PoolFull => "pool",
    }
}

#[tactic(auto, unfolding(crate::specs::Refusals::limit_size))]
fn limit_size(kind: RewriteKind) -> Option<u32>
    ensures { result ≡ limit_size kind }
{
    match kind {
        RewriteKind::TooLong(size) => Some(size),
        _ => None,
    }
}

/// Writes the refusal of a class by a member, or by the dash that stands for none.
fn put_limit<'a, K: Sink>(
    class: Part<'a>,
    member: Part<'a>,
    word: &'a str,
    size: Option<u32>,
    out: &mut K,
) -> Status
    requires class { part_room class < 2 ^ 34 }
    requires member { part_room member < 2 ^ 34 }
    requires word { length word.now < 32 }
    ensures { Shows (refused_answer (rewrite_text (part_of class.entry) (part_of member.entry) word.now size)) result K.out K.faults out.old out.new }
{
    match size {
        None => refuse(
            &[
                Part::Plain("refused rewrite "),
                class,
                Part::Plain(" "),
                member,
                Part::Plain(" "),
                Part::Plain(word),
            ],
            out,
        ),
        Some(size) => refuse(
            &[
                Part::Plain("refused rewrite "),
                class,
                Part::Plain(" "),
                member,
                Part::Plain(" "),
                Part::Plain(word),
                Part::Plain(" "),
                Part::Number(u64::from(size)),
            ],
            out,
        ),
    }
}

fn show_rewrite<K: Sink>(
    class: &Units,
    member: &Option<Units>,
    kind: RewriteKind,
    out: &mut K,
) -> Status
    ensures { Shows (refused_answer (refusal_line (refusals.BadRewrite class.now member.now kind))) result K.out K.faults out.old out.new }
{
    let Some(class) = name_part(class) else {
        return Status::OutOfMemory;
    };
    let Some(member) = member_part(member) else {
        return Status::OutOfMemory;
    };
    put_limit(class, member, limit_word(kind), limit_size(kind), out)
}

/// Writes a refusal's line.
pub fn show_refusal<K: Sink>(alloc: Global, refusal: &Refusal, out: &mut K) -> Status
    ensures { Shows (refused_answer (refusal_line refusal.now)) result K.out K.faults out.old out.new }
{
    match refusal {
        Refusal::BadJob { line } => show_job(*line, out),
        Refusal::BadPolicy { at, kind } => show_policy(*at, *kind, out),
        Refusal::BadClass { path, at, kind } => show_class(alloc, path, *at, *kind, out),
        Refusal::BadLink {
            class,
            member,
            kind,
        } => show_link(class, member, *kind, out),
        Refusal::BadCheck { class, member, at } => show_check(class, member, *at, out),
        Refusal::BadRewrite {
            class,
            member,
            kind,
        } => show_rewrite(class, member, *kind, out),
        Refusal::NoMain(name) => show_name("refused main ", name, out),
    }
}
