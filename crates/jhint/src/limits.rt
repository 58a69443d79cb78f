use crate::said::Said;
use crate::scene::{Scene, scene_of};
use jmoving::{RewriteError, RewriteKind};
use jresolution::jprogram::NamedProgram;

/// The most bytes of a moved method's code.
const MOST_CODE: u32 = 32_767;

/// The most places of the stack that a method may have before it is moved.
const MOST_STACK: u32 = 65_532;

/// Says which limit of moving a class breaks, or its method.
fn say_kind(scene: Scene<'_>, kind: RewriteKind, said: &mut Said) {
    match kind {
        RewriteKind::PoolFull => {
            let entries = scene.class.pool.entries().len().saturating_sub(1) as u64;
            said.number(
                b"it would have more than 65,534 constants, and has ",
                entries,
                b" so far: split the class",
            );
        }
        RewriteKind::TooLong(size) => {
            let over = size.saturating_sub(MOST_CODE) as u64;
            said.number(b"its code would have ", size as u64, b" bytes, ");
            said.number(b"", over, b" too many: split the method");
        }
        RewriteKind::Stack => {
            let stack = scene.code.max_stack as u32;
            let over = stack.saturating_sub(MOST_STACK) as u64;
            said.number(b"its operands take ", stack as u64, b" places, ");
            said.number(b"", over, b" too many: smaller expressions");
        }
        RewriteKind::Slots => {
            said.words(b"its parameters fill 255 slots, which is one too many: fewer parameters");
        }
        RewriteKind::Locals if scene.code.max_locals == 65_535 => {
            said.words(b"it has 65,535 locals, and there is room for no more: a smaller method");
        }
        RewriteKind::Locals => {
            said.words(
                b"its frames would have more than 16,777,216 locals and operands: a smaller method",
            );
        }
    }
}

/// Says which limit of moving a program breaks, by a method of a class or by a class itself, and by how much.
pub fn say_limit(program: &NamedProgram, error: RewriteError, said: &mut Said) {
    let RewriteError::At {
        class,
        method,
        kind,
    } = error
    else {
        return;
    };
    if let Some(scene) = scene_of(program, class, method, None, said) {
        say_kind(scene, kind, said);
    }
}
