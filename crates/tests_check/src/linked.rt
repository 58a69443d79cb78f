ghost use Rattle.std.specs.Prelude.{◌≡◌, IfOk};

use crate::question::{Question, class_id, method_of};
use jclass::ClassFile;
use jlib::Side;
use jlinking::jlink::{LinkError, LinkedProgram, are_parts, link, link_known};
use jresolution::jprogram::{CallKind, ClassRef, CodePart, MethodId};
use jresolution::juses::{code_at, instruction_at};
use std::alloc::{AllocError, Global};
use tests_rows::{Answer, Unread};

/// The one part of a program again.
fn copied(alloc: Global, parts: &[CodePart]) -> Result<Vec<CodePart>, AllocError>
    ensures { IfOk result (λ same. same.items ≡ parts.now) }
{
    let [part] = parts else {
        return Err(AllocError);
    };
    let class = ClassFile::from_parts(part.class.parts().copy(alloc)?);
    let mut same = Vec::new(alloc);
    same.push(CodePart {
        domain: part.domain,
        class,
    })?;
    Ok(same)
}

/// The same program, of its own parts, which are known to link.
fn again(alloc: Global, program: &LinkedProgram) -> Result<LinkedProgram, AllocError> {
    let parts = copied(alloc, program.parts())?;
    match link_known(alloc, parts, program.side()) {
        Ok(program) => Ok(program),
        Err(_) => Err(AllocError),
    }
}

/// Tells the numbers of a method's code: its maxima, its instructions, its handlers and its attributes.
fn tell_sizes(p: &LinkedProgram, m: MethodId, answer: &mut Answer) {
    let Some(code) = code_at(p.named(), m) else {
        return answer.tell("None");
    };
    answer.debug_pair(&code.max_stack, &code.max_locals);
    answer.spaced(&code.ops.len());
    answer.spaced(&code.handlers.len());
    answer.spaced(&code.attributes.len());
}

/// Answers what is asked of the code and of the pool of a program that links.
fn of_code(p: &LinkedProgram, q: &Question<'_>, answer: &mut Answer) {
    let class = answer.number(q.a);
    if q.word == "member_at" {
        let i = answer.number(q.b);
        return answer.debug(&p.uses().member_at(class, i));
    }
    let method = answer.number(q.b);
    let m = MethodId { class, method };
    if q.word == "sizes" {
        return tell_sizes(p, m, answer);
    }
    if q.word != "instruction" {
        return answer.refuse();
    }
    let place = answer.number(q.c);
    match instruction_at(answer.alloc(), p.named(), p.uses(), m, place) {
        Ok(one) => answer.debug(&one),
        Err(_) => answer.lack(),
    }
}

/// Answers what is asked of a program that links.
fn of_program(p: &LinkedProgram, q: &Question<'_>, answer: &mut Answer) {
    let name = q.a.as_bytes();
    match q.word {
        "side" => answer.debug_pair(&p.side(), &p.parts().len()),
        "class" => answer.debug(&p.class_of(name)),
        "main" => answer.debug(&p.main_of(name)),
        "is_name" => {
            let class = ClassRef::User(answer.number(q.a));
            answer.debug(&(p.name_of(class) == q.b.as_bytes()));
        }
        "select" => {
            let class = class_id(q.a, answer);
            let method = method_of(q.b, q.c, answer);
            answer.debug(&p.select(class, method, CallKind::Virtual));
        }
        _ => of_code(p, q, answer),
    }
}

/// The first broken rule of linking where parts don't link.
pub fn fault_of(parts: Vec<CodePart>, side: Side, answer: &mut Answer) {
    if !are_parts(&parts) {
        drop(parts);
        return answer.refuse();
    }
    match link(answer.alloc(), parts, side) {
        Ok(program) => {
            drop(program);
            answer.tell("it links");
        }
        Err(LinkError::At(fault)) => answer.debug(&fault),
        Err(LinkError::Memory) => answer.lack(),
    }
}

/// The program of parts that link.
fn linked(alloc: Global, parts: Vec<CodePart>, side: Side) -> Result<LinkedProgram, Unread> {
    if !are_parts(&parts) {
        drop(parts);
        return Err(Unread::Line);
    }
    match link(alloc, parts, side) {
        Ok(program) => Ok(program),
        Err(LinkError::At(_)) => Err(Unread::Line),
        Err(LinkError::Memory) => Err(Unread::Memory),
    }
}

/// What is answered of a program.
fn answer_of(alloc: Global, p: &LinkedProgram, q: &Question<'_>) -> Result<String, Unread> {
    let mut answer = Answer::new(alloc);
    of_program(p, q, &mut answer);
    answer.into_text()
}

/// What is answered of the same program, of its own parts, which are known to link.
fn answer_again(alloc: Global, p: &LinkedProgram, q: &Question<'_>) -> Result<String, Unread> {
    let same = again(alloc, p)?;
    let found = answer_of(alloc, &same, q);
    drop(same);
    found
}

/// What is answered of a program, where its own parts, made a program again, have the same answer.
fn of_both(p: &LinkedProgram, q: &Question<'_>, answer: &mut Answer) {
    let alloc = answer.alloc();
    let one = answer_of(alloc, p, q);
    let other = answer_again(alloc, p, q);
    match (&one, &other) {
        (Ok(one), Ok(other)) if one.as_str() == other.as_str() => answer.tell(one.as_str()),
        (Ok(_), Ok(_)) => answer.tell("another one, made again"),
        (Err(why), _) | (_, Err(why)) => answer.fail(*why),
    }
}

/// What is asked of a program of one part that links: the same where it is made again of what is known to link.
pub fn of_linked(parts: Vec<CodePart>, side: Side, q: &Question<'_>, answer: &mut Answer) {
    match linked(answer.alloc(), parts, side) {
        Ok(program) => {
            of_both(&program, q, answer);
            drop(program);
        }
        Err(why) => answer.fail(why),
    }
}
