use crate::layered::{implements, of_members};
use crate::linked::{fault_of, of_linked};
use crate::question::{Question, class_id, method_of};
use crate::used::of_types;
use jclass::ClassParts;
use jlib::Side;
use jlinking::jmembers::members_fault;
use jresolution::jprogram::{CallKind, ClassRef, CodePart, NamedProgram};
use std::alloc::Global;
use tests_rows::{Answer, Unread};

fn call_kind(word: &str) -> Option<CallKind> {
    match word {
        "virtual" => Some(CallKind::Virtual),
        "interface" => Some(CallKind::Interface),
        "special" => Some(CallKind::Special),
        _ => None,
    }
}

/// Answers what is asked of classes; false where something else is.
fn of_classes(p: &NamedProgram, q: &Question<'_>, answer: &mut Answer) -> bool {
    let (a, b) = (q.a.as_bytes(), q.b.as_bytes());
    match q.word {
        "class" => answer.debug(&p.class_of(a)),
        "super" => {
            let class = ClassRef::User(answer.number(q.a));
            answer.debug(&p.super_of(class));
        }
        "is_name" => {
            let class = ClassRef::User(answer.number(q.a));
            answer.debug(&(p.name_of(class) == b));
        }
        "main" => answer.debug(&p.main_of(a)),
        "extends" => answer.debug(&p.extends(a, b)),
        "implements" => implements(p, q, answer),
        "may_name" => answer.debug(&p.may_name(a, b)),
        _ => return false,
    }
    true
}

/// What is selected where a method is called on a class.
fn select(p: &NamedProgram, q: &Question<'_>, answer: &mut Answer) {
    let Some(kind) = call_kind(q.d) else {
        return answer.refuse();
    };
    let class = class_id(q.a, answer);
    let method = method_of(q.b, q.c, answer);
    answer.debug(&p.select(class, method, kind));
}

/// Answers what is asked of members; false where something else is.
fn of_own(p: &NamedProgram, q: &Question<'_>, answer: &mut Answer) -> bool {
    let (a, b, c) = (q.a.as_bytes(), q.b.as_bytes(), q.c.as_bytes());
    match q.word {
        "method_in" => answer.debug(&p.method_in(b, c, a)),
        "field_in" => answer.debug(&p.field_in(b, c, a)),
        "may_use" => {
            let method = method_of(q.b, q.c, answer);
            answer.debug(&p.may_use(a, method));
        }
        "select" => select(p, q, answer),
        _ => return false,
    }
    true
}

/// What a rule of classes says of one.
fn of_rule(p: &NamedProgram, q: &Question<'_>, class: &ClassParts, answer: &mut Answer) {
    let alloc = answer.alloc();
    let found = match q.word {
        "missing" => Ok(p.missing_test(class)),
        "super_rule" => Ok(p.super_test(class)),
        "reserved" => p.reserved_test(alloc, class),
        "taken" => Ok(p.taken_test(answer.number(q.a), class)),
        "circle" => p.circle_test(alloc, class),
        _ => return answer.refuse(),
    };
    match found {
        Ok(kind) => answer.debug(&kind),
        Err(_) => answer.lack(),
    }
}

/// What the rules of classes say: the first fault, or what one rule says of one class.
fn of_rules(p: &NamedProgram, q: &Question<'_>, answer: &mut Answer) {
    let alloc = answer.alloc();
    let found = match q.word {
        "names" => p.naming_fault(alloc),
        "supers" => p.supers_fault(alloc),
        "members" => members_fault(alloc, p),
        _ => {
            return match p.parts().get(answer.number::<u32>(q.a) as usize) {
                Some(part) => of_rule(p, q, part.class.parts(), answer),
                None => answer.refuse(),
            };
        }
    };
    match found {
        Ok(fault) => answer.debug(&fault),
        Err(_) => answer.lack(),
    }
}

fn program_of(alloc: Global, parts: Vec<CodePart>, side: Side) -> Result<NamedProgram, Unread> {
    if parts.len() > 0xffff {
        drop(parts);
        return Err(Unread::Line);
    }
    match NamedProgram::of(alloc, parts, side) {
        Ok(program) => Ok(program),
        Err(_) => Err(Unread::Memory),
    }
}

/// What is asked of a program by its parts.
fn of_program(p: &NamedProgram, q: &Question<'_>, answer: &mut Answer) {
    let is_answered = of_classes(p, q, answer)
        || of_own(p, q, answer)
        || of_types(p, q, answer)
        || of_members(p, q, answer);
    if !is_answered {
        of_rules(p, q, answer);
    }
}

/// What is asked of a program that need not link.
fn of_named(parts: Vec<CodePart>, side: Side, question: &str, answer: &mut Answer) {
    match program_of(answer.alloc(), parts, side) {
        Ok(p) => {
            of_program(&p, &Question::of(question), answer);
            drop(p);
        }
        Err(why) => answer.fail(why),
    }
}

/// What is asked of a program.
pub fn ask(parts: Vec<CodePart>, side: Side, question: &str, answer: &mut Answer) {
    if question == "link" {
        return fault_of(parts, side, answer);
    }
    match question.strip_prefix("linked ") {
        Some(question) => of_linked(parts, side, &Question::of(question), answer),
        None => of_named(parts, side, question, answer),
    }
}
