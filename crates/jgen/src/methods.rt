ghost use Rattle.std.specs.Prelude.{◌≡◌, ◌≤◌, ◌+◌, OnOk, length};
ghost use Rattle.jgen.specs.GeneratedClasses.{call_code, f_method, f_plain, f_privileged, head, init_method, privileged_code, run_method};
ghost use Rattle.jgen.specs.ProofNames.{f_named};
ghost use Rattle.jgen.specs.ClassFileItems.{with_items};
ghost use Rattle.jgen.specs.MethodParts.{check_part, handler_part};

use crate::class_file_item::ClassFileItem::{Class, Field, Method, Str, Text, U1, U2, U4};
use crate::laying::{Draft, put_pieces};
use std::alloc::{AllocError, Global};

const OBJECT: &[u8] = b"java/lang/Object";

const ACTION: &[u8] = b"java/security/PrivilegedAction";

const CONTROLLER: &[u8] = b"java/security/AccessController";

const PROPERTY: &[u8] = b"java/util/PropertyPermission";

const REFUSAL: &[u8] = b"java/security/AccessControlException";

/// The type of a permission's constructor by a name and actions.
const TEXTS: &[u8] = b"(Ljava/lang/String;Ljava/lang/String;)V";

/// The type of `checkPermission`.
const PERMISSION: &[u8] = b"(Ljava/security/Permission;)V";

/// The type of `doPrivileged`.
const DOES: &[u8] = b"(Ljava/security/PrivilegedAction;)Ljava/lang/Object;";

/// Puts what stands in front of a class's methods, of which there are so many.
pub fn put_head(
    alloc: Global,
    own: &[u8],
    methods: u16,
    draft: &mut Draft,
) -> Result<(), AllocError>
    requires short { length own.now ≤ 0xff }
    requires room { length draft.old.pool ≤ 1 }
    ensures value { OnOk result (draft.new ≡ with_items (head own.now methods) draft.old) }
    ensures few { OnOk result (length draft.new.pool ≤ length draft.old.pool + 8) }
{
    let pieces = [
        U2(0x21),
        Class(own),
        Class(OBJECT),
        U2(1),
        Class(ACTION),
        U2(1), // the field
        U2(1),
        Text(b"n"),
        Text(b"I"),
        U2(0),
        U2(methods),
    ];
    put_pieces(alloc, &pieces, draft)
}

/// Puts the constructor.
pub fn put_init(alloc: Global, draft: &mut Draft) -> Result<(), AllocError>
    requires { length draft.old.pool ≤ 9 }
    ensures value { OnOk result (draft.new ≡ with_items init_method draft.old) }
    ensures few { OnOk result (length draft.new.pool ≤ length draft.old.pool + 9) }
{
    let pieces = [
        U2(1),
        Text(b"<init>"),
        Text(b"()V"),
        U2(1),
        Text(b"Code"),
        U4(17),
        U2(1),
        U2(1),
        U4(5),
        U1(0x2a), // aload_0
        U1(0xb7), // invokespecial
        Method(OBJECT, b"<init>", b"()V"),
        U1(0xb1), // return
        U2(0),
        U2(0),
    ];
    put_pieces(alloc, &pieces, draft)
}

/// Puts `run`, which calls `f` of the next class with the field's number.
pub fn put_run<'a>(
    alloc: Global,
    own: &'a [u8],
    next: &'a [u8],
    draft: &mut Draft,
) -> Result<(), AllocError>
    requires own { length own.now ≤ 0xff }
    requires next { length next.now ≤ 0xff }
    requires room { length draft.old.pool ≤ 18 }
    ensures value { OnOk result (draft.new ≡ with_items (run_method own.now next.now) draft.old) }
    ensures few { OnOk result (length draft.new.pool ≤ length draft.old.pool + 15) }
{
    let pieces = [
        U2(1),
        Text(b"run"),
        Text(b"()Ljava/lang/Object;"),
        U2(1),
        Text(b"Code"),
        U4(21),
        U2(1),
        U2(1),
        U4(9),
        U1(0x2a), // aload_0
        U1(0xb4), // getfield
        Field(own, b"n", b"I"),
        U1(0xb8), // invokestatic
        Method(next, b"f", b"(I)V"),
        U1(0x01), // aconst_null
        U1(0xb0), // areturn
        U2(0),
        U2(0),
    ];
    put_pieces(alloc, &pieces, draft)
}

/// Puts what `f` begins with, up to its check: so many bytes of code, and of the attribute.
fn put_check(alloc: Global, attribute: u32, code: u32, draft: &mut Draft) -> Result<(), AllocError>
    requires { length draft.old.pool ≤ 33 }
    ensures value { OnOk result (draft.new ≡ with_items (check_part attribute code) draft.old) }
    ensures few { OnOk result (length draft.new.pool ≤ length draft.old.pool + 21) }
{
    let pieces = [
        U2(9),
        Text(b"f"),
        Text(b"(I)V"),
        U2(1),
        Text(b"Code"),
        U4(attribute),
        U2(4),
        U2(1),
        U4(code),
        U1(0x1a), // 0 iload_0
        U1(0x9a), // 1 ifne 19
        U2(18),
        U1(0xbb), // 4 new
        Class(PROPERTY),
        U1(0x59), // 7 dup
        U1(0x12), // 8 ldc
        Str(b"p"),
        U1(0x12), // 10 ldc
        Str(b"read"),
        U1(0xb7), // 12 invokespecial
        Method(PROPERTY, b"<init>", TEXTS),
        U1(0xb8), // 15 invokestatic
        Method(CONTROLLER, b"checkPermission", PERMISSION),
        U1(0xb1), // 18 return
    ];
    put_pieces(alloc, &pieces, draft)
}

/// Puts what `f` does where its number isn't 0: it calls `f` of the next class.
fn put_call(alloc: Global, next: &[u8], draft: &mut Draft) -> Result<(), AllocError>
    requires short { length next.now ≤ 0xff }
    requires room { length draft.old.pool ≤ 54 }
    ensures value { OnOk result (draft.new ≡ with_items (call_code next.now) draft.old) }
    ensures few { OnOk result (length draft.new.pool ≤ length draft.old.pool + 6) }
{
    let pieces = [
        U1(0x1a), // 19 iload_0
        U1(0x04), // 20 iconst_1
        U1(0x64), // 21 isub
        U1(0xb8), // 22 invokestatic
        Method(next, b"f", b"(I)V"),
        U1(0xb1), // 25 return
        U1(0x57), // 26 pop
        U1(0xb1), // 27 return
    ];
    put_pieces(alloc, &pieces, draft)
}

/// The same as a privileged action, by `run` of an object of its own class.
fn put_privileged_call(alloc: Global, own: &[u8], draft: &mut Draft) -> Result<(), AllocError>
    requires short { length own.now ≤ 0xff }
    requires room { length draft.old.pool ≤ 54 }
    ensures value { OnOk result (draft.new ≡ with_items (privileged_code own.now) draft.old) }
    ensures few { OnOk result (length draft.new.pool ≤ length draft.old.pool + 20) }
{
    let pieces = [
        U1(0xbb), // 19 new
        Class(own),
        U1(0x59), // 22 dup
        U1(0xb7), // 23 invokespecial
        Method(own, b"<init>", b"()V"),
        U1(0x59), // 26 dup
        U1(0x1a), // 27 iload_0
        U1(0x04), // 28 iconst_1
        U1(0x64), // 29 isub
        U1(0xb5), // 30 putfield
        Field(own, b"n", b"I"),
        U1(0xb8), // 33 invokestatic
        Method(CONTROLLER, b"doPrivileged", DOES),
        U1(0x57), // 36 pop
        U1(0xb1), // 37 return
        U1(0x57), // 38 pop
        U1(0xb1), // 39 return
    ];
    put_pieces(alloc, &pieces, draft)
}

/// Puts the handler of `f`, which stands at a place, and its frames, of which the second stands so many bytes behind 20.
fn put_handler(alloc: Global, at: u16, behind: u8, draft: &mut Draft) -> Result<(), AllocError>
    requires behind { behind ≤ 63 }
    requires room { length draft.old.pool ≤ 74 }
    ensures value { OnOk result (draft.new ≡ with_items (handler_part at behind) draft.old) }
    ensures few { OnOk result (length draft.new.pool ≤ length draft.old.pool + 5) }
{
    let pieces = [
        U2(1),
        U2(4),
        U2(18),
        U2(at),
        Class(REFUSAL),
        U2(1),
        Text(b"StackMapTable"),
        U4(7),
        U2(2),
        U1(19),
        U1(64 + behind),
        U1(7),
        Class(REFUSAL),
    ];
    put_pieces(alloc, &pieces, draft)
}

fn put_plain(alloc: Global, next: &[u8], draft: &mut Draft) -> Result<(), AllocError>
    requires short { length next.now ≤ 0xff }
    requires room { length draft.old.pool ≤ 33 }
    ensures value { OnOk result (draft.new ≡ with_items (f_named (f_plain next.now)) draft.old) }
    ensures few { OnOk result (length draft.new.pool ≤ length draft.old.pool + 46) }
{
    put_check(alloc, 61, 28, draft)?;
    put_call(alloc, next, draft)?;
    put_handler(alloc, 26, 6, draft)
}

fn put_privileged(alloc: Global, own: &[u8], draft: &mut Draft) -> Result<(), AllocError>
    requires short { length own.now ≤ 0xff }
    requires room { length draft.old.pool ≤ 33 }
    ensures value { OnOk result (draft.new ≡ with_items (f_named (f_privileged own.now)) draft.old) }
    ensures few { OnOk result (length draft.new.pool ≤ length draft.old.pool + 46) }
{
    put_check(alloc, 73, 40, draft)?;
    put_privileged_call(alloc, own, draft)?;
    put_handler(alloc, 38, 18, draft)
}

/// Puts `f`, which checks the permission where its number is 0, and otherwise calls on.
pub fn put_f(
    alloc: Global,
    privileged: bool,
    own: &[u8],
    next: &[u8],
    draft: &mut Draft,
) -> Result<(), AllocError>
    requires own { length own.now ≤ 0xff }
    requires next { length next.now ≤ 0xff }
    requires room { length draft.old.pool ≤ 33 }
    ensures value { OnOk result (draft.new ≡ with_items (f_method privileged own.now next.now) draft.old) }
    ensures few { OnOk result (length draft.new.pool ≤ length draft.old.pool + 46) }
{
    if privileged {
        return put_privileged(alloc, own, draft);
    }
    put_plain(alloc, next, draft)
}
