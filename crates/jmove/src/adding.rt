ghost use Rattle.std.specs.Prelude.{◌≡◌, ◌≤◌, List, IfOk, IfSome, IsTrue, Some, length, option_map, slice_get};
ghost use Rattle.jparts.specs.declared.jpool.entry.Entry.TheVariants as entries;
ghost use Rattle.jparts.specs.jpool.EntryLayouts.{has_spelling, names_text};
ghost use Rattle.jparts.specs.declared.jpool.entry.Entry.{Entry};
ghost use Rattle.jparts.specs.jpool.ConstantPools.{is_utf8, name_and_type_at};
ghost use Rattle.jmove.specs.PoolAdditions;
ghost use Rattle.jmove.specs.PoolAdditions.{Adds, changed_text, with_body, with_call, with_changed, with_class, with_entry, with_expansions, with_frames, with_member};
ghost use Rattle.jmove.specs.PoolAdditions.{with_number, with_security, with_text};

use crate::descriptor::moved_descriptor;
use crate::method::{Expand, MoveError};
use crate::naming::{Named, Reference, Security};
use jadder::{AddError, Adder};
use jground::jbase::Seq;
use jparts::jmaps::FullFrame;
use jparts::jpool::{Entry, Pool};
use std::alloc::{AllocError, Global};

/// Puts an entry into a pool, unless an equal one is there.
fn put(pool: &mut Adder, e: Entry) -> Result<u16, MoveError>
    requires spelled { IsTrue (has_spelling e) }
    requires named { IsTrue (names_text pool.old e) }
    ensures value { Adds (λ i. i) (with_entry e) result pool.old pool.new }
    ensures there { IfOk result (λ i. slice_get pool.new i ≡ Some e) }
{
    match pool.add(e) {
        Ok(i) => Ok(i),
        Err(AddError::PoolFull) => Err(MoveError::PoolFull),
        Err(AddError::Memory) => Err(MoveError::Memory),
    }
}

fn text_entry(alloc: Global, text: &[u8]) -> Result<Entry, AllocError>
    ensures { IfOk result (λ e. e ≡ entries.Utf8 text.now) }
{
    let text = Seq::from_slice(alloc, text)?;
    Ok(Entry::Utf8(text))
}

/// Puts a text of at most 65,535 bytes into a pool, unless it is there, and answers its least index. `PoolFull` comes exactly where the
/// pool has no room for it.
pub fn put_text(alloc: Global, pool: &mut Adder, text: &[u8]) -> Result<u16, MoveError>
    requires { length text.now ≤ 0xffff }
    ensures value { Adds (λ i. i) (with_text text.now) result pool.old pool.new }
    ensures there { IfOk result (λ i. IsTrue (is_utf8 pool.new i)) }
{
    let e = text_entry(alloc, text)?;
    put(pool, e)
}

/// Puts the class of a name of at most 65,535 bytes into a pool, unless it is there: its name first. `PoolFull` comes exactly where the
/// pool has no room for both.
pub fn put_class(alloc: Global, pool: &mut Adder, name: &[u8]) -> Result<u16, MoveError>
    requires { length name.now ≤ 0xffff }
    ensures { Adds (λ i. i) (with_class name.now) result pool.old pool.new }
{
    let text = put_text(alloc, pool, name)?;
    put(pool, Entry::Class(text))
}

fn put_member(
    alloc: Global,
    pool: &mut Adder,
    name: &[u8],
    descriptor: &[u8],
) -> Result<u16, MoveError>
    requires name { length name.now ≤ 0xffff }
    requires descriptor { length descriptor.now ≤ 0xffff }
    ensures { Adds (λ i. i) (with_member name.now descriptor.now) result pool.old pool.new }
{
    let name = put_text(alloc, pool, name)?;
    let descriptor = put_text(alloc, pool, descriptor)?;
    put(pool, Entry::NameAndType(name, descriptor))
}

fn security_name(method: Security) -> &'static [u8]
    ensures name { result.now ≡ PoolAdditions.security_name method }
    ensures short { length result.now ≤ 0xffff }
{
    match method {
        Security::Enter => b"enter",
        Security::Check => b"check",
        Security::Snapshot => b"snapshot",
        Security::Privileged => b"priv",
        Security::PrivilegedWith => b"privWith",
        Security::PrivilegedLimited => b"privLimited",
    }
}

fn security_type(method: Security) -> &'static [u8]
    ensures name { result.now ≡ PoolAdditions.security_type method }
    ensures short { length result.now ≤ 0xffff }
{
    match method {
        Security::Enter => b"(Lsps/Ctx;I)Lsps/Ctx;",
        Security::Check => b"(Ljava/security/Permission;Lsps/Ctx;)V",
        Security::Snapshot => b"(Lsps/Ctx;)Ljava/security/AccessControlContext;",
        Security::Privileged => b"(Ljava/security/PrivilegedAction;I)Ljava/lang/Object;",
        Security::PrivilegedWith => {
            b"(Ljava/security/PrivilegedAction;Ljava/security/AccessControlContext;I)Ljava/lang/Object;"
        }
        Security::PrivilegedLimited => {
            b"(Ljava/security/PrivilegedAction;Ljava/security/AccessControlContext;[Ljava/security/Permission;Lsps/Ctx;I)Ljava/lang/Object;"
        }
    }
}

/// Puts the reference of a method of `sps/Rt`.
fn put_security(alloc: Global, pool: &mut Adder, method: Security) -> Result<u16, MoveError>
    ensures { Adds (λ i. i) (with_security method) result pool.old pool.new }
{
    let class = put_class(alloc, pool, b"sps/Rt")?;
    let member = put_member(alloc, pool, security_name(method), security_type(method))?;
    put(pool, Entry::Method(class, member))
}

fn reference_by(pool: &Pool, interface: bool, class: u16, both: u16) -> Option<Reference>
    ensures { result ≡ PoolAdditions.reference_by interface class (name_and_type_at pool.now both) }
{
    let (name, descriptor) = pool.name_and_type(both)?;
    Some(Reference {
        interface,
        class,
        name,
        descriptor,
    })
}

/// The reference of a method at an index.
#[tactic(auto, unfolding(crate::specs::PoolAdditions::reference_at))]
fn reference_at(pool: &Pool, i: u16) -> Option<Reference>
    ensures { result ≡ PoolAdditions.reference_at pool.now i }
{
    match pool.entry(i) {
        Some(Entry::Method(class, both)) => reference_by(pool, false, *class, *both),
        Some(Entry::InterfaceMethod(class, both)) => reference_by(pool, true, *class, *both),
        _ => None,
    }
}

/// The new descriptor of a reference.
#[tactic(auto, unfolding(crate::specs::PoolAdditions::changed_text))]
fn changed_text(
    alloc: Global,
    pool: &Pool,
    reference: Reference,
) -> Result<Option<Vec<u8>>, AllocError>
    ensures value { IfOk result (λ text. option_map (λ v. v.items) text ≡ changed_text pool.now reference) }
    ensures short { IfOk result (λ text. IfSome text (λ v. length v.items ≤ 0xffff)) }
{
    let Some(text) = pool.utf8(reference.descriptor) else {
        return Ok(None);
    };
    let Some(moved) = moved_descriptor(alloc, text)? else {
        return Ok(None);
    };
    if moved.len() > 0xffff {
        return Ok(None);
    }
    Ok(Some(moved))
}

fn reference_entry(reference: Reference, both: u16) -> Entry
    ensures entry { result ≡ PoolAdditions.reference_entry reference both }
    ensures spelled { IsTrue (has_spelling result) }
    ensures named { (pool : List Entry) → IsTrue (names_text pool result) }
{
    if reference.interface {
        return Entry::InterfaceMethod(reference.class, both);
    }
    Entry::Method(reference.class, both)
}

/// Puts a reference with another descriptor.
fn put_changed(
    alloc: Global,
    pool: &mut Adder,
    reference: Reference,
    text: &[u8],
) -> Result<u16, MoveError>
    requires { length text.now ≤ 0xffff }
    ensures { Adds (λ i. i) (with_changed reference text.now) result pool.old pool.new }
{
    let descriptor = put_text(alloc, pool, text)?;
    let both = put(pool, Entry::NameAndType(reference.name, descriptor))?;
    put(pool, reference_entry(reference, both))
}

/// Puts the reference at an index, with the context as one more parameter.
fn put_call(alloc: Global, pool: &mut Adder, i: u16) -> Result<u16, MoveError>
    ensures { Adds (λ i. i) (with_call i) result pool.old pool.new }
{
    let Some(reference) = reference_at(pool.pool(), i) else {
        return Ok(i);
    };
    let Some(text) = changed_text(alloc, pool.pool(), reference)? else {
        return Ok(i);
    };
    put_changed(alloc, pool, reference, text.as_slice())
}

/// Puts the reference that an instruction's expansion calls.
fn put_number(alloc: Global, pool: &mut Adder, kind: Expand) -> Result<u16, MoveError>
    ensures { Adds (λ i. i) (with_number kind) result pool.old pool.new }
{
    match kind {
        Expand::Same => Ok(0),
        Expand::Call(i) => put_call(alloc, pool, i),
        Expand::Check(_) => put_security(alloc, pool, Security::Check),
        Expand::Snapshot(_) => put_security(alloc, pool, Security::Snapshot),
        Expand::Privileged(_) => put_security(alloc, pool, Security::Privileged),
        Expand::PrivilegedWith(_) => put_security(alloc, pool, Security::PrivilegedWith),
        Expand::PrivilegedLimited(_) => put_security(alloc, pool, Security::PrivilegedLimited),
    }
}

fn numbered(kind: Expand, i: u16) -> Expand
    ensures { result ≡ PoolAdditions.numbered kind i }
{
    match kind {
        Expand::Same => Expand::Same,
        Expand::Call(_) => Expand::Call(i),
        Expand::Check(_) => Expand::Check(i),
        Expand::Snapshot(_) => Expand::Snapshot(i),
        Expand::Privileged(_) => Expand::Privileged(i),
        Expand::PrivilegedWith(_) => Expand::PrivilegedWith(i),
        Expand::PrivilegedLimited(_) => Expand::PrivilegedLimited(i),
    }
}

/// Puts the references that expansions call, each in its turn.
fn put_expansions(
    alloc: Global,
    pool: &mut Adder,
    kinds: &[Expand],
) -> Result<Seq<Expand>, MoveError>
    ensures { Adds (λ kinds. kinds) (with_expansions kinds.now) result pool.old pool.new }
{
    let mut named = Seq::new(alloc);
    for kind in kinds {
        let i = put_number(alloc, pool, *kind)?;
        named.push(numbered(*kind, i))?;
    }
    Ok(named)
}

/// Puts the class of contexts, where there are frames.
fn put_frames(alloc: Global, pool: &mut Adder, frames: &[FullFrame]) -> Result<u16, MoveError>
    ensures { Adds (λ i. i) (with_frames frames.now) result pool.old pool.new }
{
    if frames.is_empty() {
        return Ok(0);
    }
    put_class(alloc, pool, b"sps/Ctx")
}

/// Puts all that a method's moved code names.
pub fn put_body(
    alloc: Global,
    pool: &mut Adder,
    kinds: &[Expand],
    frames: &[FullFrame],
) -> Result<Named, MoveError>
    ensures { Adds (λ named. named) (with_body kinds.now frames.now) result pool.old pool.new }
{
    let enter = put_security(alloc, pool, Security::Enter)?;
    let kinds = put_expansions(alloc, pool, kinds)?;
    let context = put_frames(alloc, pool, frames)?;
    Ok(Named {
        enter,
        kinds,
        context,
    })
}
