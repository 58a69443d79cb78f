use crate::frames::{is_declared, say_reason};
use crate::opcodes::name_of;
use crate::references::{index_of, named_at, say_named};
use crate::said::Said;
use crate::scene::{Scene, scene_of};
use crate::stacks::say_found;
use jcheck::TypeFault;
use jlinking::jlink::LinkedProgram;
use jparts::jcode::{Op, Placed, effect_of, form_of, opcode_of};
use jparts::jpool::Pool;
use jvalues::jnames::{Kind, Kinds};
use jverify::frame_before;

fn word_of(kind: Kind) -> &'static str {
    match kind {
        Kind::Int => "an int",
        Kind::Long => "a long",
        Kind::Null => "null",
        Kind::Ref => "an object or an array",
        Kind::Array => "an array",
        Kind::Held => "an object, an array or a context",
    }
}

/// Says kinds, the one that lies lowest first.
fn say_kinds(kinds: Kinds, said: &mut Said) {
    let (first, second) = match kinds {
        Kinds::None => return said.words(b"nothing"),
        Kinds::One(a) => return said.told(word_of(a)),
        Kinds::Two(a, b) => (b, a),
        Kinds::Three(a, b, c) => {
            said.told(word_of(c));
            said.words(b", ");
            (b, a)
        }
    };
    said.told(word_of(first));
    said.words(b" and ");
    said.told(word_of(second));
}

/// Says what an instruction names, or else takes.
fn say_wanted(pool: &Pool, op: &Op, said: &mut Said) {
    let one = named_at(pool, index_of(op));
    if one.name != 0 {
        said.words(b" of ");
        say_named(pool, one, said);
    } else if let Some(effect) = effect_of(&form_of(op)) {
        said.words(b", which takes ");
        say_kinds(effect.takes, said);
    }
}

/// Says what an instruction finds, where that is known, and what is wrong there.
fn say_before(program: &LinkedProgram, scene: Scene<'_>, one: &Placed, said: &mut Said) {
    if let Ok(Some(frame)) = frame_before(said.alloc, program, scene.method, one.at) {
        say_found(program.named(), &one.op, &frame, said);
        say_reason(scene, one, said);
    } else if one.at != 0 && !is_declared(scene.code.attributes, i64::from(one.at)) {
        said.words(b"; no frame is declared there, and none arrives");
    } else {
        said.words(b"; what is there then, or the frame declared there or behind it, doesn't fit");
    }
    said.words(b": compile anew");
}

/// The instruction at a place.
fn op_at(ops: &[Placed], at: u32) -> Option<&Placed> {
    for one in ops {
        if one.at == at {
            return Some(one);
        }
    }
    None
}

/// Says which instruction stands where a method isn't well typed, what it takes and what it finds.
pub fn say_check(program: &LinkedProgram, fault: TypeFault, said: &mut Said) {
    let TypeFault::At { class, method, at } = fault else {
        return;
    };
    let Some(scene) = scene_of(program.named(), class, Some(method), Some(at), said) else {
        return;
    };
    let Some(one) = op_at(scene.code.ops, at) else {
        return said.words(b"a frame where no instruction begins");
    };
    said.told(name_of(usize::from(opcode_of(&one.op))));
    say_wanted(&scene.class.pool, &one.op, said);
    say_before(program, scene, one, said);
}
