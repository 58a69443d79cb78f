use crate::said::Said;
use crate::scene::{Scene, halves_of};
use jclass::CodeAttribute;
use jparts::jcode::{Handler, Op, Placed, Returned, branch_at, branch_count, form_of, goes_on};
use jparts::jmaps::RawFrame;
use jresolution::jprogram::{class_text, member_desc};

/// The class that each thing which a handler catches is to be, or to stand below.
const THROWABLE: &[u8] = b"java/lang/Throwable";

// ---- frames

/// The frames that a method's code declares, none where it declares none.
pub fn frames_in(attributes: &[CodeAttribute]) -> &[RawFrame] {
    for attribute in attributes {
        if let CodeAttribute::Maps { frames, .. } = attribute {
            return frames.as_slice();
        }
    }
    &[]
}

/// Whether a frame is declared at a place of code (JVMS 4.7.4): the first stands at its delta, each other one behind the one before it by its
/// delta and one.
pub fn is_declared(attributes: &[CodeAttribute], place: i64) -> bool {
    let mut next: i64 = 0;
    for frame in frames_in(attributes) {
        let at = next.saturating_add(i64::from(frame.delta));
        if at == place {
            return true;
        }
        next = at.saturating_add(1);
    }
    false
}

/// The first place to which an instruction leads and at which no frame is declared.
fn bare_target(attributes: &[CodeAttribute], one: &Placed) -> Option<i64> {
    let form = form_of(&one.op);
    for i in 0..branch_count(&form) {
        let place = i64::from(one.at).saturating_add(i64::from(branch_at(&form, i).unwrap_or(0)));
        if !is_declared(attributes, place) {
            return Some(place);
        }
    }
    None
}

// ---- handlers

/// Whether what a handler catches is no Throwable.
fn is_no_throwable(scene: Scene<'_>, one: &Handler) -> bool {
    let caught = class_text(&scene.class.pool, one.class);
    one.class != 0 && !scene.program.extends(caught, THROWABLE)
}

/// The first handler that covers a place and catches no Throwable, or begins where no frame is declared.
fn bad_handler<'a>(scene: Scene<'a>, at: u32) -> Option<&'a Handler> {
    for one in scene.code.handlers {
        let covers = one.start <= at && at < one.end;
        let is_bare = !is_declared(scene.code.attributes, i64::from(one.at));
        if covers && (is_bare || is_no_throwable(scene, one)) {
            return Some(one);
        }
    }
    None
}

/// Says what is wrong with such a handler.
fn say_handler(scene: Scene<'_>, one: &Handler, said: &mut Said) {
    if is_no_throwable(scene, one) {
        said.words(b"; the handler there catches ");
        said.name(class_text(&scene.class.pool, one.class));
        return said.words(b", which isn't a Throwable");
    }
    let at = u64::from(one.at);
    said.number(
        b"; no frame is declared at ",
        at,
        b", where the handler begins",
    );
}

// ---- what a method returns

/// Says what a method returns, as its descriptor has it, or that a return of nothing comes too early.
fn say_returned(kind: Returned, desc: &[u8], said: &mut Said) {
    let (_, returned) = halves_of(desc);
    match returned {
        [_, b'V'] if matches!(kind, Returned::Nothing) => said.words(b"; `this` isn't initialised"),
        [_, b'V'] => said.words(b"; the method returns nothing"),
        [_, b'J'] => said.words(b"; the method returns a long"),
        [_, b'L', ..] => {
            said.words(b"; the method returns ");
            said.name(
                returned
                    .get(2..returned.len().saturating_sub(1))
                    .unwrap_or(returned),
            );
        }
        [_, b'[', ..] => {
            said.words(b"; the method returns ");
            said.name(returned.get(1..).unwrap_or(returned));
        }
        _ => said.words(b"; the method returns an int"),
    }
}

// ---- reasons

/// Says why an instruction isn't well typed that has a frame before it.
pub fn say_reason(scene: Scene<'_>, one: &Placed, said: &mut Said) {
    let is_last = match scene.code.ops.split_last() {
        Some((last, _)) => last.at == one.at,
        None => false,
    };
    if let Some(handler) = bad_handler(scene, one.at) {
        say_handler(scene, handler, said);
    } else if let Op::Return(kind) = one.op {
        if let Some(info) = scene.info {
            say_returned(kind, member_desc(scene.class, info), said);
        }
    } else if let Some(place) = bare_target(scene.code.attributes, one) {
        let place = place.unsigned_abs();
        said.number(b"; no frame is declared at ", place, b", to which it leads");
    } else if goes_on(&form_of(&one.op)) && is_last {
        said.words(b"; no instruction stands behind it");
    } else {
        said.words(b"; that, or the frame declared there or behind it, doesn't fit");
    }
}
