ghost use Rattle.std.specs.Prelude.{◌≡◌};
ghost use Rattle.std.specs.Int.{w16};
ghost use Rattle.jground.specs.jbase.MemoryFailures.{Gives};
ghost use Rattle.jground.specs.jformat.Format.{number_at};
ghost use Rattle.jground.specs.jformat.BodyFormats.{counted, counted_at};
ghost use Rattle.jclass.specs.IndexFormats.{pool_fault, run, u2, unseen};
ghost use Rattle.jclass.specs.ClassFileShape;
ghost use Rattle.jclass.specs.ClassFileShape.{major, tail};
ghost use Rattle.jclass.specs.ProofNames.{magic};
ghost use Rattle.jclass.specs.declared.fault.ClassFault.TheVariants as kinds;

use crate::fault::ClassFault;
use crate::fault::ClassFault::{Magic, Truncated, Version};
use jground::jbase::{FaultOrMemory, Seq};
use jground::jformat::{Fault, ReadError, Reader, counted_of, fault, run_of, u16_of, u32_of};
use jparts::jpool::{Entry, PoolFault, entries_of};
use std::alloc::Global;

/// What stands in a class file up to the end of its pool.
#[derive(Debug, Drop)]
pub struct Head {
    pub minor: u16,
    pub major: u16,
    pub entries: Seq<Entry>,
}

fn magic_of(bytes: &[u8]) -> Result<&[u8], ReadError<ClassFault>>
    ensures { Gives (λ x. (tt, x.now)) result (magic.read bytes.now) }
{
    let (word, rest) = u32_of(Truncated, bytes)?;
    if word == 0xcafe_babe {
        return Ok(rest);
    }
    Err(fault(Magic, bytes))
}

fn major_of(bytes: &[u8]) -> Result<(u16, &[u8]), ReadError<ClassFault>>
    ensures { Gives (λ x. (x.0, x.1.now)) result (major.read bytes.now) }
{
    let (version, rest) = u16_of(Truncated, bytes)?;
    if version < 50 || 52 < version {
        return Err(fault(Version, bytes));
    }
    Ok((version, rest))
}

/// A fault of the pool under the name that class files have for it.
pub fn pool_fault(kind: PoolFault) -> ClassFault
    ensures { result ≡ pool_fault kind }
{
    match kind {
        PoolFault::Truncated => ClassFault::Truncated,
        PoolFault::BadTag => ClassFault::Tag,
        PoolFault::BadIndex => ClassFault::Index,
        PoolFault::BadName => ClassFault::Name,
        PoolFault::BadDescriptor => ClassFault::Descriptor,
    }
}

#[tactic(auto, unfolding(crate::specs::ClassFileShape::entries))]
fn pool_of(alloc: Global, bytes: &[u8]) -> Result<(Seq<Entry>, &[u8]), ReadError<ClassFault>>
    ensures { Gives (λ x. (x.0, x.1.now)) result (ClassFileShape.entries.read bytes.now) }
{
    match entries_of(alloc, bytes) {
        Ok((entries, rest)) => Ok((entries, rest)),
        Err(FaultOrMemory::Memory) => Err(FaultOrMemory::Memory),
        Err(FaultOrMemory::Fault(found)) => Err(FaultOrMemory::Fault(Fault {
            left: found.left,
            kind: pool_fault(found.kind),
        })),
    }
}

/// The front of a class file up to the end of its pool, as far as its shape goes, and the bytes behind it.
#[tactic(auto, unfolding(crate::specs::ClassFileShape::head))]
pub fn head_of(alloc: Global, bytes: &[u8]) -> Result<(Head, &[u8]), ReadError<ClassFault>>
    ensures { Gives (λ x. ((tt, (x.0.minor, (x.0.major, x.0.entries))), x.1.now)) result (ClassFileShape.head.read bytes.now) }
{
    let rest = magic_of(bytes)?;
    let (minor, rest) = u16_of(Truncated, rest)?;
    let (major, rest) = major_of(rest)?;
    let (entries, rest) = pool_of(alloc, rest)?;
    Ok((
        Head {
            minor,
            major,
            entries,
        },
        rest,
    ))
}

// ---- going over what isn't looked at

/// What lies behind bytes that stand behind their number.
pub fn skip_run(bytes: &[u8]) -> Result<&[u8], ReadError<ClassFault>>
    ensures { Gives (λ x. (tt, x.now)) result (unseen (run.read bytes.now)) }
{
    let (count, rest) = u32_of(Truncated, bytes)?;
    let (_, rest) = run_of(Truncated, count as usize, rest)?;
    Ok(rest)
}

#[derive(Clone, Copy)]
struct Indices;

impl Reader for Indices {
    type Kind = ClassFault;

    type Item = ();

    ghost reads = { λ _ bytes. unseen (u2.read bytes) };

    fn read<'a>(
        &self,
        _alloc: Global,
        bytes: &'a [u8],
    ) -> Result<((), &'a [u8]), ReadError<ClassFault>> {
        let (_, rest) = u16_of(Truncated, bytes)?;
        Ok(((), rest))
    }
}

#[derive(Clone, Copy)]
struct Attributes;

impl Reader for Attributes {
    type Kind = ClassFault;

    type Item = ();

    ghost reads = { λ _ bytes. unseen (ClassFileShape.attribute.read bytes) };

    fn read<'a>(
        &self,
        _alloc: Global,
        bytes: &'a [u8],
    ) -> Result<((), &'a [u8]), ReadError<ClassFault>> {
        let (_, rest) = u16_of(Truncated, bytes)?;
        let rest = skip_run(rest)?;
        Ok(((), rest))
    }
}

/// What lies behind values that stand behind their number.
fn skip_counted<'a, R: Reader<Kind = ClassFault, Item = ()>>(
    alloc: Global,
    reader: &R,
    bytes: &'a [u8],
) -> Result<&'a [u8], ReadError<ClassFault>>
    ensures { Gives (λ x. (tt, x.now)) result (unseen (counted_at (number_at w16 kinds.Truncated) (R.reads reader.now) bytes.now)) }
{
    let (_, rest) = counted_of(alloc, reader, Truncated, bytes)?;
    Ok(rest)
}

fn skip_attributes(alloc: Global, bytes: &[u8]) -> Result<&[u8], ReadError<ClassFault>>
    ensures { Gives (λ x. (tt, x.now)) result (unseen ((counted u2 ClassFileShape.attribute).read bytes.now)) }
{
    skip_counted(alloc, &Attributes, bytes)
}

fn skip_indices(alloc: Global, bytes: &[u8]) -> Result<&[u8], ReadError<ClassFault>>
    ensures { Gives (λ x. (tt, x.now)) result (unseen ((counted u2 u2).read bytes.now)) }
{
    skip_counted(alloc, &Indices, bytes)
}

fn skip_member(alloc: Global, bytes: &[u8]) -> Result<&[u8], ReadError<ClassFault>>
    ensures { Gives (λ x. (tt, x.now)) result (unseen (ClassFileShape.member.read bytes.now)) }
{
    let (_, rest) = u16_of(Truncated, bytes)?;
    let (_, rest) = u16_of(Truncated, rest)?;
    let (_, rest) = u16_of(Truncated, rest)?;
    skip_attributes(alloc, rest)
}

#[derive(Clone, Copy)]
struct Members;

impl Reader for Members {
    type Kind = ClassFault;

    type Item = ();

    ghost reads = { λ _ bytes. unseen (ClassFileShape.member.read bytes) };

    fn read<'a>(
        &self,
        alloc: Global,
        bytes: &'a [u8],
    ) -> Result<((), &'a [u8]), ReadError<ClassFault>> {
        let rest = skip_member(alloc, bytes)?;
        Ok(((), rest))
    }
}

fn skip_members(alloc: Global, bytes: &[u8]) -> Result<&[u8], ReadError<ClassFault>>
    ensures { Gives (λ x. (tt, x.now)) result (unseen ((counted u2 ClassFileShape.member).read bytes.now)) }
{
    skip_counted(alloc, &Members, bytes)
}

/// What lies behind the rest of a class file, as far as its shape goes. Nothing is kept of what is gone over.
#[tactic(auto, unfolding(crate::specs::ClassFileShape::tail))]
pub fn skip_tail(alloc: Global, bytes: &[u8]) -> Result<&[u8], ReadError<ClassFault>>
    ensures { Gives (λ x. (tt, x.now)) result (unseen (tail.read bytes.now)) }
{
    let (_, rest) = u16_of(Truncated, bytes)?;
    let (_, rest) = u16_of(Truncated, rest)?;
    let (_, rest) = u16_of(Truncated, rest)?;
    let rest = skip_indices(alloc, rest)?;
    let rest = skip_members(alloc, rest)?;
    let rest = skip_members(alloc, rest)?;
    skip_attributes(alloc, rest)
}
