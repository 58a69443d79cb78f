ghost use Rattle.std.specs.Prelude.{◌≡◌, IfOk, List, ℕ, Ok};
ghost use Rattle.jground.specs.jbase.MemoryFailures.{Gives};
ghost use Rattle.jclass.specs.declared.class.ClassParts.{ClassParts};
ghost use Rattle.jclass.specs.Class;
ghost use Rattle.jclass.specs.Class.{Spells, class_file, ends};
ghost use Rattle.jground.specs.jformat.FaultOffsets.{GivesAt};
ghost use Rattle.jclass.specs.FlagRules.{names_class, names_super};
ghost use Rattle.jground.specs.jformat.BodyFormats.{whole};
ghost use Rattle.jclass.specs.IndexFormats.{index, unseen};
ghost use Rattle.jclass.specs.ClassFileShape;
ghost use Rattle.jclass.specs.ClassFileShape.{has_shape};
ghost use Rattle.jclass.specs.declared.fault.ClassFault.TheVariants as kinds;
ghost use Rattle.jreadclass.specs.ClassTails.{tail_parts};

use jclass::ClassFault::{Index, Trailing, Truncated};
use jclass::{
    Access, Attribute, ClassAttributes, ClassError, ClassFault, ClassFile, ClassParts, Fields,
    Head, MemberInfo, Methods, PoolInfo, access_of, head_of, judge_pool, skip_tail,
};
use jground::jbase::{FaultOrMemory, Seq};
use jground::jformat::{ReadError, Reader, counted_of, fault, stop_at, u16_of};
use jparts::jpool::Pool;
use std::alloc::Global;

// ---- the third pass

fn class_index_of<'a>(
    known: &PoolInfo<'_>,
    bytes: &'a [u8],
) -> Result<(u16, &'a [u8]), ReadError<ClassFault>>
    ensures { Gives (λ x. (x.0, x.1.now)) result ((index (names_class known.now)).read bytes.now) }
{
    let (i, rest) = u16_of(Truncated, bytes)?;
    if known.names_class(i) {
        return Ok((i, rest));
    }
    Err(fault(Index, bytes))
}

fn super_index_of<'a>(
    known: &PoolInfo<'_>,
    bytes: &'a [u8],
) -> Result<(u16, &'a [u8]), ReadError<ClassFault>>
    ensures { Gives (λ x. (x.0, x.1.now)) result ((index (names_super known.now)).read bytes.now) }
{
    let (i, rest) = u16_of(Truncated, bytes)?;
    if known.names_super(i) {
        return Ok((i, rest));
    }
    Err(fault(Index, bytes))
}

#[derive(Clone, Copy)]
struct Interfaces<'r, 'p> {
    known: &'r PoolInfo<'p>,
}

impl<'r, 'p> Reader for Interfaces<'r, 'p> {
    type Kind = ClassFault;

    type Item = u16;

    ghost reads = { λ r. (index (names_class r.known.now)).read };

    fn read<'a>(
        &self,
        _alloc: Global,
        bytes: &'a [u8],
    ) -> Result<(u16, &'a [u8]), ReadError<ClassFault>> {
        class_index_of(self.known, bytes)
    }
}

/// What stands behind the pool.
#[derive(Debug, Drop)]
pub struct Tail {
    pub flags: Access,
    pub this_class: u16,
    pub super_class: u16,
    pub interfaces: Seq<u16>,
    pub fields: Seq<MemberInfo>,
    pub methods: Seq<MemberInfo>,
    pub attributes: Seq<Attribute>,
}

#[tactic(auto, unfolding(jclass::specs::Class::tail))]
fn tail_of<'a>(
    alloc: Global,
    known: &PoolInfo<'_>,
    bytes: &'a [u8],
) -> Result<(Tail, &'a [u8]), ReadError<ClassFault>>
    ensures { Gives (λ x. (tail_parts x.0, x.1.now)) result ((Class.tail known.now).read bytes.now) }
{
    let (flags, rest) = access_of(bytes)?;
    let (this_class, rest) = class_index_of(known, rest)?;
    let (super_class, rest) = super_index_of(known, rest)?;
    let (interfaces, rest) = counted_of(alloc, &Interfaces { known }, Truncated, rest)?;
    let (fields, rest) = counted_of(alloc, &Fields { known }, Truncated, rest)?;
    let (methods, rest) = counted_of(alloc, &Methods { known }, Truncated, rest)?;
    let (attributes, rest) = counted_of(alloc, &ClassAttributes { known }, Truncated, rest)?;
    Ok((
        Tail {
            flags,
            this_class,
            super_class,
            interfaces,
            fields,
            methods,
            attributes,
        },
        rest,
    ))
}

/// What stands behind a pool, by that pool.
fn tail_in<'a>(
    alloc: Global,
    pool: &Pool,
    bytes: &'a [u8],
) -> Result<(Tail, &'a [u8]), ReadError<ClassFault>>
    ensures { Gives (λ x. (tail_parts x.0, x.1.now)) result ((Class.tail pool.now).read bytes.now) }
{
    let known = PoolInfo::of(alloc, pool)?;
    let (tail, rest) = tail_of(alloc, &known, bytes)?;
    Ok((tail, rest))
}

// ---- the passes

/// Goes over the rest of a class file, behind which nothing may stand.
fn skip_to_the_end(alloc: Global, bytes: &[u8]) -> Result<(), ReadError<ClassFault>>
    ensures { Gives (λ x. x) result (ends (unseen (ClassFileShape.tail.read bytes.now))) }
{
    let rest = skip_tail(alloc, bytes)?;
    if !rest.is_empty() {
        return Err(fault(Trailing, rest));
    }
    Ok(())
}

/// The first pass: the front of a class file, and the bytes behind it, which have the shape of the rest of one.
fn shape_of(alloc: Global, bytes: &[u8]) -> Result<(Head, &[u8]), ReadError<ClassFault>>
    ensures front { IfOk result (λ x. ClassFileShape.head.read bytes.now ≡ Ok ((tt, (x.0.minor, (x.0.major, x.0.entries))), x.1.now)) }
    ensures shape { Gives (λ _. tt) result (has_shape bytes.now) }
{
    let (head, rest) = head_of(alloc, bytes)?;
    skip_to_the_end(alloc, rest)?;
    Ok((head, rest))
}

/// The second and third pass, over bytes whose front is known.
#[tactic(auto, unfolding(jclass::specs::Class::strict, jclass::specs::PoolChecks::head))]
fn parts_of(
    alloc: Global,
    bytes: &[u8],
    head: Head,
    rest: &[u8],
) -> Result<ClassParts, ReadError<ClassFault>>
    requires { ClassFileShape.head.read bytes.now ≡ Ok ((tt, (head.minor, (head.major, head.entries))), rest.now) }
    ensures { Gives (λ c. c) result ((whole kinds.Trailing Class.strict).read bytes.now) }
{
    let left = bytes.len().saturating_sub(10);
    if let Some(found) = judge_pool(alloc, head.entries.as_slice(), left)? {
        return Err(FaultOrMemory::Fault(found));
    }
    let pool = Pool::from_entries(head.entries);
    let (tail, rest) = tail_in(alloc, &pool, rest)?;
    if !rest.is_empty() {
        return Err(fault(Trailing, rest));
    }
    Ok(ClassParts {
        minor: head.minor,
        major: head.major,
        pool,
        flags: tail.flags,
        this_class: tail.this_class,
        super_class: tail.super_class,
        interfaces: tail.interfaces,
        fields: tail.fields,
        methods: tail.methods,
        attributes: tail.attributes,
    })
}

/// The class file that all of the bytes are.
#[tactic(auto, unfolding(jclass::specs::Class::class_file))]
fn class_of(alloc: Global, bytes: &[u8]) -> Result<ClassFile, ReadError<ClassFault>>
    ensures { Gives (λ c. c) result (class_file.read bytes.now) }
{
    let (head, rest) = shape_of(alloc, bytes)?;
    let parts = parts_of(alloc, bytes, head, rest)?;
    Ok(ClassFile::from_parts(parts))
}

/// The class file that the bytes spell (JVMS 4.1), or the first fault.
///
/// There are three passes, and the first that finds a fault ends the reading: the shape of all of the file, front to back, its
/// attributes as runs of bytes; the pool's entries, one after the other, each fault at its tag; and the rest by the pool, front
/// to back.
pub fn read_class(alloc: Global, bytes: &[u8]) -> Result<ClassFile, ClassError>
    // What is read is spelled so.
    ensures found { IfOk result (λ c. Spells bytes.now c) }
    // What is spelled so is read, unless memory runs out.
    ensures only { (c : ClassParts) → Spells bytes.now c → GivesAt (λ c. c) bytes.now result (Ok c) }
    // Which fault it is, and where.
    ensures exact { GivesAt (λ c. c) bytes.now result (class_file.read bytes.now) }
{
    match class_of(alloc, bytes) {
        Ok(class) => Ok(class),
        Err(stop) => Err(stop_at(bytes, stop)),
    }
}
