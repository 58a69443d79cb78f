ghost use Rattle.std.specs.Prelude.{◌≡◌, ◌≤◌, ◌∷◌, ◌++◌, IsTrue, OnOk, length};
ghost use Rattle.jground.specs.jbase.MemoryFailures.{Gives};
ghost use Rattle.jparts.specs.jpool.EntryLayouts.{has_spelling};
ghost use Rattle.jparts.specs.jpool.PoolEntries.{by_one, by_two, entry, i8, is_above, text as text_format, two, u2, u4, u8 as u8_format};
ghost use Rattle.jparts.specs.ProofNames.{handle};

use crate::jpool::entry::Entry;
use crate::jpool::fault::PoolFault;
use crate::jpool::fault::PoolFault::{BadTag, Truncated};
use jground::jbase::Seq;
use jground::jformat::{
    ReadError, fault, i32_of, put_sized16, put_u8, put_u16, put_u32, put_u64, sized_of, u8_of,
    u16_of, u32_of, u64_of,
};
use std::alloc::{AllocError, Global};

fn i64_of(bytes: &[u8]) -> Result<(i64, &[u8]), ReadError<PoolFault>>
    ensures { Gives (λ x. (x.0, x.1.now)) result (i8.read bytes.now) }
{
    let (n, rest) = u64_of(Truncated, bytes)?;
    Ok((n.cast_signed(), rest))
}

fn two_of(bytes: &[u8]) -> Result<((u16, u16), &[u8]), ReadError<PoolFault>>
    ensures { Gives (λ x. (x.0, x.1.now)) result (two.read bytes.now) }
{
    let (one, rest) = u16_of(Truncated, bytes)?;
    let (other, rest) = u16_of(Truncated, rest)?;
    Ok(((one, other), rest))
}

fn handle_of(bytes: &[u8]) -> Result<((u8, u16), &[u8]), ReadError<PoolFault>>
    ensures { Gives (λ x. (x.0, x.1.now)) result (handle.read bytes.now) }
{
    let (kind, rest) = u8_of(Truncated, bytes)?;
    let (member, rest) = u16_of(Truncated, rest)?;
    Ok(((kind, member), rest))
}

/// An entry that takes one index, of the tag 7, 8 or 16.
fn named_one(tag: u8, index: u16) -> Entry
    ensures { result ≡ by_one tag index }
{
    match tag {
        7 => Entry::Class(index),
        8 => Entry::Str(index),
        _ => Entry::MethodType(index),
    }
}

/// An entry that takes two indices, of a tag from 9 to 12, or 18.
fn named_two(tag: u8, one: u16, other: u16) -> Entry
    ensures { result ≡ by_two tag (one, other) }
{
    match tag {
        9 => Entry::Field(one, other),
        10 => Entry::Method(one, other),
        11 => Entry::InterfaceMethod(one, other),
        12 => Entry::NameAndType(one, other),
        _ => Entry::InvokeDynamic(one, other),
    }
}

/// An entry that names others, and the bytes behind it.
#[tactic(auto, unfolding(crate::specs::jpool::PoolEntries::entry))]
fn reference_of(bytes: &[u8]) -> Result<(Entry, &[u8]), ReadError<PoolFault>>
    requires { IsTrue (is_above 6 bytes.now) }
    ensures { Gives (λ x. (x.0, x.1.now)) result (entry.read bytes.now) }
{
    let (tag, rest) = u8_of(Truncated, bytes)?;
    match tag {
        7 | 8 | 16 => {
            let (index, rest) = u16_of(Truncated, rest)?;
            Ok((named_one(tag, index), rest))
        }
        9..=12 | 18 => {
            let ((one, other), rest) = two_of(rest)?;
            Ok((named_two(tag, one, other), rest))
        }
        15 => {
            let ((kind, member), rest) = handle_of(rest)?;
            Ok((Entry::MethodHandle(kind, member), rest))
        }
        _ => Err(fault(BadTag, bytes)),
    }
}

/// An entry that has a spelling of its own, and the bytes behind it.
#[tactic(auto, unfolding(crate::specs::jpool::PoolEntries::entry))]
pub fn entry_of(alloc: Global, bytes: &[u8]) -> Result<(Entry, &[u8]), ReadError<PoolFault>>
    ensures { Gives (λ x. (x.0, x.1.now)) result (entry.read bytes.now) }
{
    let (tag, rest) = u8_of(Truncated, bytes)?;
    match tag {
        1 => {
            let (text, rest) = sized_of(alloc, Truncated, rest)?;
            Ok((Entry::Utf8(text), rest))
        }
        3 => {
            let (n, rest) = i32_of(Truncated, rest)?;
            Ok((Entry::Integer(n), rest))
        }
        4 => {
            let (n, rest) = u32_of(Truncated, rest)?;
            Ok((Entry::Float(n), rest))
        }
        5 => {
            let (n, rest) = i64_of(rest)?;
            Ok((Entry::Long(n), rest))
        }
        6 => {
            let (n, rest) = u64_of(Truncated, rest)?;
            Ok((Entry::Double(n), rest))
        }
        7..=255 => reference_of(bytes),
        0 | 2 => Err(fault(BadTag, bytes)),
    }
}

fn put_text(text: &[u8], out: &mut Seq<u8>) -> Result<(), AllocError>
    requires { length text.now ≤ 0xffff }
    ensures fits { IsTrue (text_format.fits text.now) }
    ensures spelled { OnOk result (out.new ≡ out.old ++ 1 ∷ text_format.spell text.now) }
{
    put_u8(1, out)?;
    put_sized16(text, out)
}

fn put_one(tag: u8, index: u16, out: &mut Seq<u8>) -> Result<(), AllocError>
    ensures { OnOk result (out.new ≡ out.old ++ tag ∷ u2.spell index) }
{
    put_u8(tag, out)?;
    put_u16(index, out)
}

fn put_two(tag: u8, one: u16, other: u16, out: &mut Seq<u8>) -> Result<(), AllocError>
    ensures { OnOk result (out.new ≡ out.old ++ tag ∷ two.spell (one, other)) }
{
    put_u8(tag, out)?;
    put_u16(one, out)?;
    put_u16(other, out)
}

fn put_word(tag: u8, n: u32, out: &mut Seq<u8>) -> Result<(), AllocError>
    ensures { OnOk result (out.new ≡ out.old ++ tag ∷ u4.spell n) }
{
    put_u8(tag, out)?;
    put_u32(n, out)
}

fn put_long(tag: u8, n: u64, out: &mut Seq<u8>) -> Result<(), AllocError>
    ensures { OnOk result (out.new ≡ out.old ++ tag ∷ u8_format.spell n) }
{
    put_u8(tag, out)?;
    put_u64(n, out)
}

fn put_handle(kind: u8, member: u16, out: &mut Seq<u8>) -> Result<(), AllocError>
    ensures { OnOk result (out.new ≡ out.old ++ 15 ∷ handle.spell (kind, member)) }
{
    put_u8(15, out)?;
    put_u8(kind, out)?;
    put_u16(member, out)
}

/// Writes an entry that has a spelling of its own: one that isn't `Unused`, and whose text has at most 65,535 bytes.
#[tactic(auto, unfolding(crate::specs::jpool::PoolEntries::entry))]
pub fn put_entry(one: &Entry, out: &mut Seq<u8>) -> Result<(), AllocError>
    requires { IsTrue (has_spelling one.now) }
    ensures fits { IsTrue (entry.fits one.now) }
    ensures spelled { OnOk result (out.new ≡ out.old ++ entry.spell one.now) }
{
    match one {
        Entry::Unused => Ok(()),
        Entry::Utf8(text) => put_text(text.as_slice(), out),
        Entry::Integer(n) => put_word(3, n.cast_unsigned(), out),
        Entry::Float(n) => put_word(4, *n, out),
        Entry::Long(n) => put_long(5, n.cast_unsigned(), out),
        Entry::Double(n) => put_long(6, *n, out),
        Entry::Class(name) => put_one(7, *name, out),
        Entry::Str(text) => put_one(8, *text, out),
        Entry::Field(class, both) => put_two(9, *class, *both, out),
        Entry::Method(class, both) => put_two(10, *class, *both, out),
        Entry::InterfaceMethod(class, both) => put_two(11, *class, *both, out),
        Entry::NameAndType(name, descriptor) => put_two(12, *name, *descriptor, out),
        Entry::MethodHandle(kind, member) => put_handle(*kind, *member, out),
        Entry::MethodType(descriptor) => put_one(16, *descriptor, out),
        Entry::InvokeDynamic(bootstrap, both) => put_two(18, *bootstrap, *both, out),
    }
}
