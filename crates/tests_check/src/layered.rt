ghost use Rattle.std.specs.Prelude.{◌≡◌, true};
ghost use Rattle.jresolution.specs.jprogram.InterfaceSearch.{IsLayered};
ghost use Rattle.jresolution.specs.jprogram.OrderedPrograms.{StandsInOrder};

use crate::question::Question;
use crate::used::of_pools;
use jlinking::jreferring::code_fault;
use jresolution::jprogram::{Interfaces, NamedProgram, program_laws};
use jresolution::juses::Uses;
use std::alloc::{AllocError, Global};
use std::fmt;
use tests_rows::Answer;

/// Whether the classes of a program stand in order.
fn is_in_order(alloc: Global, program: &NamedProgram) -> bool
    ensures { result ≡ true → StandsInOrder program.now }
{
    let Ok(None) = program.naming_fault(alloc) else {
        return false;
    };
    let Ok(None) = program.supers_fault(alloc) else {
        return false;
    };
    true
}

/// Whether members can be resolved.
fn is_layered(alloc: Global, program: &NamedProgram) -> bool
    ensures { result ≡ true → IsLayered program.now }
{
    program_laws();
    is_in_order(alloc, program)
}

/// Whether a class implements an interface.
pub fn implements(p: &NamedProgram, q: &Question<'_>, answer: &mut Answer) {
    if !is_in_order(answer.alloc(), p) {
        return answer.refuse();
    }
    match Interfaces::of(answer.alloc(), p) {
        Ok(table) => answer.debug(&p.implements(&table, q.a.as_bytes(), q.b.as_bytes())),
        Err(_) => answer.lack(),
    }
}

/// Tells what was found, where there was memory for it.
fn tell<T: fmt::Debug + Drop>(found: Result<T, AllocError>, answer: &mut Answer) {
    match found {
        Ok(one) => answer.debug(&one),
        Err(_) => answer.lack(),
    }
}

/// Answers what members stand for, and the first fault of code; false where something else is asked.
fn resolved(p: &NamedProgram, q: &Question<'_>, answer: &mut Answer) -> bool
    requires { IsLayered p.now }
{
    let alloc = answer.alloc();
    let (a, b, c) = (q.a.as_bytes(), q.b.as_bytes(), q.c.as_bytes());
    match q.word {
        "code" => tell(code_fault(alloc, p), answer),
        "method" => tell(p.resolve_method(alloc, a, b, c), answer),
        "field" => tell(p.resolve_field(alloc, a, b, c), answer),
        "reference" => {
            let (class, i) = (answer.number(q.a), answer.number(q.b));
            tell(p.resolved(alloc, class, i), answer);
        }
        _ => return false,
    }
    true
}

/// Answers what is asked of a program whose members can be resolved; false where they can't, or something else is asked.
pub fn of_members(p: &NamedProgram, q: &Question<'_>, answer: &mut Answer) -> bool {
    let alloc = answer.alloc();
    if !is_layered(alloc, p) {
        return false;
    }
    if resolved(p, q, answer) {
        return true;
    }
    let Ok(uses) = Uses::of(alloc, p) else {
        answer.lack();
        return true;
    };
    of_pools(&uses, q, answer)
}
