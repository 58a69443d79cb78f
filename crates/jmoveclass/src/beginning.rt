ghost use Rattle.std.specs.Prelude.{◌≡◌, ◌≤◌, ◌∷◌, [], All, IfOk, length};
ghost use Rattle.jparts.specs.jpool.Descriptors;
ghost use Rattle.jresolution.specs.jprogram.ClassFileParts;
ghost use Rattle.jmoveclass.specs.EntryLocals;
ghost use Rattle.jmoveclass.specs.EntryLocals.{with_beginning, with_item, with_this};
ghost use Rattle.jmoveclass.specs.PoolPuts.{Puts, with_each};

use bitflags::Flags;
use jadder::Adder;
use jclass::{Access, ClassParts, MemberInfo};
use jground::jbase::Seq;
use jmove::{MoveError, put_class};
use jparts::jmaps::MapType;
use jparts::jpool::{DescError, Descriptor, FieldType, read_descriptor, slots_of};
use jresolution::jprogram::{is_init, member_desc, this_name};
use std::alloc::{AllocError, Global};

// ---- what a method is handed

/// The types of a method's parameters.
pub fn params_of(
    alloc: Global,
    class: &ClassParts,
    method: &MemberInfo,
) -> Result<Seq<FieldType>, AllocError>
    ensures { IfOk result (λ params. params ≡ EntryLocals.params_of class.now method.now) }
{
    match read_descriptor(alloc, member_desc(class, method)) {
        Ok(Descriptor::Method { params, ret: _ }) => Ok(params),
        Ok(Descriptor::Field(_)) => Ok(Seq::new(alloc)),
        Err(DescError::Bad) => Ok(Seq::new(alloc)),
        Err(DescError::Memory) => Err(AllocError),
    }
}

fn is_static(method: &MemberInfo) -> bool
    ensures { result ≡ ClassFileParts.is_static method.now.flags }
{
    method.flags.contains(Access::STATIC)
}

/// The slots of a method's parameters, `this` included.
pub fn slots(class: &ClassParts, method: &MemberInfo, params: &[FieldType]) -> u32
    requires params { params.now ≡ EntryLocals.params_of class.now method.now }
    requires few { EntryLocals.slots class.now method.now ≤ 255 }
    ensures { result ≡ EntryLocals.slots class.now method.now }
{
    let count = slots_of(params) as u32;
    if is_static(method) { count } else { count + 1 }
}

// ---- as items of frames

fn is_reference(t: &FieldType) -> bool
    ensures { result ≡ EntryLocals.is_reference t.now }
{
    0 < t.depth || t.base == b'L'
}

fn item(class: u16, t: &FieldType) -> MapType
    ensures { result ≡ EntryLocals.item class t.now }
{
    if is_reference(t) {
        return MapType::Object(class);
    }
    if t.base == b'J' {
        return MapType::Long;
    }
    MapType::Int
}

fn this_item(init: bool, class: u16) -> MapType
    ensures { result ≡ EntryLocals.this_item init class }
{
    if init {
        MapType::UninitThis
    } else {
        MapType::Object(class)
    }
}

/// The descriptor of a type.
fn type_text(alloc: Global, t: &FieldType) -> Result<Seq<u8>, AllocError>
    ensures { IfOk result (λ text. text ≡ Descriptors.type_text t.now) }
{
    let mut text = Seq::new(alloc);
    for _ in 0..t.depth {
        text.push(b'[')?;
    }
    text.push(t.base)?;
    if t.base == b'L' {
        text.extend(t.class.as_slice())?;
        text.push(b';')?;
    }
    Ok(text)
}

/// What a Class entry of a type names.
fn class_name(alloc: Global, t: &FieldType) -> Result<Seq<u8>, AllocError>
    ensures { IfOk result (λ name. name ≡ EntryLocals.class_name t.now) }
{
    if 0 < t.depth {
        return type_text(alloc, t);
    }
    t.class.copy(alloc)
}

// ---- the classes that they name

fn put_item(alloc: Global, pool: &mut Adder, t: &FieldType) -> Result<MapType, MoveError>
    requires { length (EntryLocals.class_name t.now) ≤ 0xffff }
    ensures { Puts (λ x. x ∷ []) (with_item t.now) result pool.old pool.new }
{
    if !is_reference(t) {
        return Ok(item(0, t));
    }
    let name = class_name(alloc, t)?;
    let class = put_class(alloc, pool, name.as_slice())?;
    Ok(item(class, t))
}

fn put_items(
    alloc: Global,
    pool: &mut Adder,
    types: &[FieldType],
) -> Result<Seq<MapType>, MoveError>
    requires { All (λ t. length (EntryLocals.class_name t) ≤ 0xffff) types.now }
    ensures { Puts (λ x. x) (with_each with_item types.now) result pool.old pool.new }
{
    let mut items = Seq::new(alloc);
    for t in types {
        let one = put_item(alloc, pool, t)?;
        items.push(one)?;
    }
    Ok(items)
}

fn put_this(
    alloc: Global,
    pool: &mut Adder,
    class: &ClassParts,
    method: &MemberInfo,
) -> Result<Seq<MapType>, MoveError>
    requires { length (ClassFileParts.this_name class.now) ≤ 0xffff }
    ensures { Puts (λ x. x) (with_this class.now method.now) result pool.old pool.new }
{
    let mut items = Seq::new(alloc);
    if is_static(method) {
        return Ok(items);
    }
    let i = put_class(alloc, pool, this_name(class))?;
    items.push(this_item(is_init(class, method), i))?;
    Ok(items)
}

/// Puts the classes that the locals of a method name where it begins, and answers what they hold.
pub fn put_beginning(
    alloc: Global,
    pool: &mut Adder,
    class: &ClassParts,
    method: &MemberInfo,
    params: &[FieldType],
) -> Result<Seq<MapType>, MoveError>
    requires { params.now ≡ EntryLocals.params_of class.now method.now }
    ensures { Puts (λ x. x) (with_beginning class.now method.now) result pool.old pool.new }
{
    // What the proof needs: each text of a pool has at most 65,535 bytes.
    let _entries = class.pool.entries();
    let mut items = put_this(alloc, pool, class, method)?;
    let others = put_items(alloc, pool, params)?;
    items.extend(others.as_slice())?;
    Ok(items)
}

/// What the locals of a method hold where it begins, each class as the index 0.
#[tactic(auto, unfolding(crate::specs::EntryLocals::bare_beginning))]
pub fn bare_beginning(
    alloc: Global,
    class: &ClassParts,
    method: &MemberInfo,
    params: &[FieldType],
) -> Result<Seq<MapType>, AllocError>
    requires { params.now ≡ EntryLocals.params_of class.now method.now }
    ensures { IfOk result (λ items. items ≡ EntryLocals.bare_beginning class.now method.now) }
{
    let mut items = bare_this(alloc, class, method)?;
    for t in params {
        items.push(item(0, t))?;
    }
    Ok(items)
}

fn bare_this(
    alloc: Global,
    class: &ClassParts,
    method: &MemberInfo,
) -> Result<Seq<MapType>, AllocError>
    ensures { IfOk result (λ items. items ≡ EntryLocals.bare_this class.now method.now) }
{
    let mut items = Seq::new(alloc);
    if is_static(method) {
        return Ok(items);
    }
    items.push(this_item(is_init(class, method), 0))?;
    Ok(items)
}
