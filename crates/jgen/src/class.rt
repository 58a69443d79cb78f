ghost use Rattle.std.specs.Prelude.{◌≡◌, ◌≤◌, ◌+◌, ◌*◌, ◌∷◌, [], IfOk, OnOk, length, if◌then◌else◌, ◌==◌};
ghost use Rattle.jgen.specs.GeneratedClasses;
ghost use Rattle.jgen.specs.ProofNames;
ghost use Rattle.jgen.specs.GeneratedClasses.{calls, class_items, main_method};
ghost use Rattle.jgen.specs.ProofNames.{main_of};
ghost use Rattle.jgen.specs.ClassFileItems;
ghost use Rattle.jgen.specs.ClassFileItems.{with_items};
ghost use Rattle.jgen.specs.MethodParts.{main_end, main_part};

use crate::class_file_item::ClassFileItem::{Method, Text, U1, U2, U4};
use crate::draws::Kind;
use crate::laying::{Draft, put_pieces};
use crate::methods::{put_f, put_head, put_init, put_run};
use crate::texts::name_of;
use jadder::Adder;
use jground::jbase::Seq;
use jparts::jpool::{Entry, Pool, write_pool};
use std::alloc::{AllocError, Global};

// ---- main

/// Puts what `main` begins with: so many bytes has its attribute, and so many its code.
fn put_main_begin(
    alloc: Global,
    attribute: u32,
    code: u32,
    draft: &mut Draft,
) -> Result<(), AllocError>
    requires { length draft.old.pool ≤ 0xf0 }
    ensures value { OnOk result (draft.new ≡ with_items (main_part attribute code) draft.old) }
    ensures few { OnOk result (length draft.new.pool ≤ length draft.old.pool + 3) }
{
    let pieces = [
        U2(9),
        Text(b"main"),
        Text(b"([Ljava/lang/String;)V"),
        U2(1),
        Text(b"Code"),
        U4(attribute),
        U2(1),
        U2(1),
        U4(code),
    ];
    put_pieces(alloc, &pieces, draft)
}

/// Puts a call of `f` of a class.
fn put_call(alloc: Global, name: &[u8], draft: &mut Draft) -> Result<(), AllocError>
    requires short { length name.now ≤ 0xff }
    requires room { length draft.old.pool ≤ 0xfff0 }
    ensures value { OnOk result (draft.new ≡ with_items (GeneratedClasses.call name.now) draft.old) }
    ensures few { OnOk result (length draft.new.pool ≤ length draft.old.pool + 6) }
{
    let pieces = [
        U1(0x10), // bipush
        U1(40),
        U1(0xb8), // invokestatic
        Method(name, b"f", b"(I)V"),
    ];
    put_pieces(alloc, &pieces, draft)
}

/// Puts a call of each class.
fn put_calls(alloc: Global, size: u32, draft: &mut Draft) -> Result<(), AllocError>
    requires most { size ≤ 1000 }
    requires room { length draft.old.pool ≤ 0xff }
    ensures value { OnOk result (draft.new ≡ with_items (calls 0 size) draft.old) }
    ensures few { OnOk result (length draft.new.pool ≤ length draft.old.pool + 6 * size) }
{
    for i in 0..size {
        let name = name_of(alloc, i)?;
        put_call(alloc, name.as_slice(), draft)?;
    }
    Ok(())
}

fn put_main_end(alloc: Global, draft: &mut Draft) -> Result<(), AllocError>
    requires { length draft.old.pool ≤ 0xffff }
    ensures { OnOk result (draft.new ≡ with_items main_end draft.old) }
{
    put_pieces(alloc, &[U1(0xb1), U2(0), U2(0)], draft)
}

/// Puts `main`, which calls `f` of each class.
fn put_main(alloc: Global, size: u32, draft: &mut Draft) -> Result<(), AllocError>
    requires most { size ≤ 1000 }
    requires room { length draft.old.pool ≤ 0xf0 }
    ensures { OnOk result (draft.new ≡ with_items (main_method size) draft.old) }
{
    put_main_begin(alloc, 5 * size + 13, 5 * size + 1, draft)?;
    put_calls(alloc, size, draft)?;
    put_main_end(alloc, draft)
}

/// Puts `main` where the class is the first.
fn put_main_of(alloc: Global, size: u32, i: u32, draft: &mut Draft) -> Result<(), AllocError>
    requires most { size ≤ 1000 }
    requires room { length draft.old.pool ≤ 0xf0 }
    ensures { OnOk result (draft.new ≡ with_items (main_of size i) draft.old) }
{
    if i == 0 {
        return put_main(alloc, size, draft);
    }
    Ok(())
}

// ---- classes

fn blank(alloc: Global) -> Result<Draft, AllocError>
    ensures { IfOk result (λ draft. draft ≡ ProofNames.blank) }
{
    let mut entries = Seq::new(alloc);
    entries.push(Entry::Unused)?;
    let pool = Adder::over(alloc, Pool::from_entries(entries))?;
    Ok(Draft {
        pool,
        body: Seq::new(alloc),
    })
}

/// The number of a class's methods.
fn methods(i: u32) -> u16
    ensures { result ≡ (if i == 0 then 4 else 3) }
{
    if i == 0 { 4 } else { 3 }
}

/// Puts the number of a class's attributes.
fn put_none(draft: &mut Draft) -> Result<(), AllocError>
    ensures { OnOk result (draft.new ≡ with_items (ClassFileItems.U2 0 ∷ []) draft.old) }
{
    jground::jformat::put_u16(0, &mut draft.body)
}

/// Puts what stands behind a class's pool.
fn put_class(
    alloc: Global,
    size: u32,
    i: u32,
    kind: Kind,
    draft: &mut Draft,
) -> Result<(), AllocError>
    requires most { size ≤ 1000 }
    requires blank { length draft.old.pool ≤ 1 }
    ensures { OnOk result (draft.new ≡ with_items (class_items size i kind) draft.old) }
{
    let own = name_of(alloc, i)?;
    let next = name_of(alloc, kind.next)?;
    let (own, next) = (own.as_slice(), next.as_slice());
    put_head(alloc, own, methods(i), draft)?;
    put_init(alloc, draft)?;
    put_run(alloc, own, next, draft)?;
    put_f(alloc, kind.privileged, own, next, draft)?;
    put_main_of(alloc, size, i, draft)?;
    put_none(draft)
}

/// The bytes of a class file.
#[tactic(auto, unfolding(jparts::specs::jpool::ConstantPools::pool))]
fn spelled(alloc: Global, draft: &Draft) -> Result<Seq<u8>, AllocError>
    ensures { IfOk result (λ bytes. bytes ≡ GeneratedClasses.spelled draft.now) }
{
    let pool = write_pool(alloc, draft.pool.pool())?;
    let mut bytes = Seq::from_slice(alloc, &[0xca, 0xfe, 0xba, 0xbe, 0, 0, 0, 52])?;
    bytes.extend(pool.as_slice())?;
    bytes.extend(draft.body.as_slice())?;
    Ok(bytes)
}

/// The bytes of the file of a class.
#[tactic(auto, unfolding(crate::specs::GeneratedClasses::class_bytes))]
pub fn class_bytes(alloc: Global, size: u32, i: u32, kind: Kind) -> Result<Seq<u8>, AllocError>
    requires { size ≤ 1000 }
    ensures { IfOk result (λ bytes. bytes ≡ GeneratedClasses.class_bytes size i kind) }
{
    let mut draft = blank(alloc)?;
    put_class(alloc, size, i, kind, &mut draft)?;
    spelled(alloc, &draft)
}
