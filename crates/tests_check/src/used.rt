use crate::question::Question;
use jparts::jcode::{CallOp, CastOp, FieldOp, PoolForm};
use jresolution::jprogram::{ClassRef, NamedProgram};
use jresolution::juses::{ArrayRef, ElementRef, TypeRef, Use, Uses, stands_below, type_fits};
use tests_rows::{Answer, Unread};

/// What an instruction of a name says of an entry.
fn form_of(name: &str, i: u16) -> Option<PoolForm> {
    match name {
        "ldc" => Some(PoolForm::Constant(i)),
        "ldc2_w" => Some(PoolForm::LongConstant(i)),
        "getfield" => Some(PoolForm::Field(FieldOp::GetField, i)),
        "new" => Some(PoolForm::New(i)),
        "instanceof" => Some(PoolForm::Cast(CastOp::InstanceOf, i)),
        "checkcast" => Some(PoolForm::Cast(CastOp::CheckCast, i)),
        "invokevirtual" => Some(PoolForm::Call(CallOp::Virtual, i)),
        "invokespecial" => Some(PoolForm::Call(CallOp::Special, i)),
        _ => None,
    }
}

/// Tells a use: of a call how, the class by which it is named, what it calls, its parameters with the last one first, and its result.
fn tell_use(uses: &Uses, one: Option<Use>, answer: &mut Answer) {
    let Some(Use::Call(how, call)) = one else {
        return answer.debug(&one);
    };
    answer.debug_pair(&how, &call.owner);
    answer.spaced(&call.member);
    answer.spaced(&uses.params(call.params));
    answer.spaced(&call.ret);
}

/// The use of an entry by an instruction of a name.
fn of_use(uses: &Uses, class: u32, name: &str, i: u16, answer: &mut Answer) {
    match form_of(name, i) {
        Some(form) => tell_use(uses, uses.use_at(class, form), answer),
        None => answer.refuse(),
    }
}

/// Answers what is asked of the entries of pools; false where something else is.
pub fn of_pools(uses: &Uses, q: &Question<'_>, answer: &mut Answer) -> bool {
    match q.word {
        "use" | "class_at" | "array_at" | "member_at" => {}
        _ => return false,
    }
    let class = answer.number(q.a);
    let i = answer.number(if q.word == "use" { q.c } else { q.b });
    match q.word {
        "class_at" => answer.debug(&uses.class_at(class, i)),
        "array_at" => answer.debug(&uses.array_use_at(class, i)),
        "member_at" => answer.debug(&uses.member_at(class, i)),
        _ => of_use(uses, class, q.b, i, answer),
    }
    true
}

/// What an array holds, or an object's class, by its name.
fn element_of(p: &NamedProgram, name: &str) -> Result<ElementRef, Unread> {
    match name {
        "I" => Ok(ElementRef::Int),
        _ => Ok(ElementRef::Class(class_of(p, name)?)),
    }
}

fn class_of(p: &NamedProgram, name: &str) -> Result<ClassRef, Unread> {
    p.class_of(name.as_bytes()).ok_or(Unread::Line)
}

/// A type by its name.
fn type_of(p: &NamedProgram, name: &str) -> Result<TypeRef, Unread> {
    let (mut depth, mut behind) = (0u32, name);
    for _ in 0..name.len() {
        if let Some(rest) = behind.strip_prefix('[') {
            depth = depth.saturating_add(1);
            behind = rest;
        }
    }
    if depth > 0 {
        let element = element_of(p, behind)?;
        return Ok(TypeRef::Array(ArrayRef { depth, element }));
    }
    match name {
        "top" => Ok(TypeRef::Top),
        "I" => Ok(TypeRef::Int),
        "J" => Ok(TypeRef::Long),
        "null" => Ok(TypeRef::Null),
        _ => Ok(TypeRef::Object(class_of(p, name)?)),
    }
}

/// Whether a type fits another, or a class stands below another, by their names.
fn is(p: &NamedProgram, q: &Question<'_>) -> Result<bool, Unread> {
    if q.word == "fits" {
        return Ok(type_fits(p, type_of(p, q.a)?, type_of(p, q.b)?));
    }
    Ok(stands_below(p, class_of(p, q.a)?, class_of(p, q.b)?))
}

/// Answers what is asked of two types or of two classes; false where something else is asked.
pub fn of_types(p: &NamedProgram, q: &Question<'_>, answer: &mut Answer) -> bool {
    if q.word != "fits" && q.word != "below" {
        return false;
    }
    match is(p, q) {
        Ok(is) => answer.debug(&is),
        Err(why) => answer.fail(why),
    }
    true
}
