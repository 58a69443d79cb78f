ghost use Rattle.std.specs.Prelude.{◌≡◌, ◌&&◌};
ghost use Rattle.jground.specs.jbase.MemoryFailures.{Gives};
ghost use Rattle.jparts.specs.jpool.ConstantPools.{is_utf8};
ghost use Rattle.jclass.specs.IndexFormats.{access, index, run};
ghost use Rattle.jclass.specs.FlagRules.{suits_field};
ghost use Rattle.jclass.specs.Attributes;
ghost use Rattle.jclass.specs.Attributes.{class_attribute, constant, field_attribute, name_fault, name_once, saw_constant, text_index};
ghost use Rattle.jclass.specs.AttributeLaws.{constant_law};
ghost use Rattle.jclass.specs.declared.fault.ClassFault.TheVariants as kinds;

use crate::access::Access;
use crate::class::Attribute;
use crate::fault::ClassFault;
use crate::fault::ClassFault::{Index, Trailing, Truncated};
use crate::pool_info::{PoolInfo, is_static};
use bitflags::Flags;
use jground::jbase::Seq;
use jground::jformat::{
    BodyReader, ReadError, Reader, StateReader, block_of, fault, run_of, u16_of, u32_of,
};
use std::alloc::Global;

/// Access flags.
pub fn access_of(bytes: &[u8]) -> Result<(Access, &[u8]), ReadError<ClassFault>>
    ensures { Gives (λ x. (x.0, x.1.now)) result (access.read bytes.now) }
{
    let (bits, rest) = u16_of(Truncated, bytes)?;
    Ok((Access::from_bits_retain(bits), rest))
}

/// The index of a text.
pub fn text_index_of<'a>(
    known: &PoolInfo<'_>,
    bytes: &'a [u8],
) -> Result<(u16, &'a [u8]), ReadError<ClassFault>>
    ensures { Gives (λ x. (x.0, x.1.now)) result ((text_index known.now).read bytes.now) }
{
    let (i, rest) = u16_of(Truncated, bytes)?;
    if known.is_utf8(i) {
        return Ok((i, rest));
    }
    Err(fault(Index, bytes))
}

/// What is wrong with the name of an attribute that may stand once.
pub fn name_fault_of(is_text: bool, is_again: bool, again: ClassFault) -> Option<ClassFault>
    ensures { result ≡ name_fault is_text is_again again }
{
    if !is_text {
        return Some(Index);
    }
    if is_again {
        return Some(again);
    }
    None
}

/// Bytes behind their number, which has four bytes.
pub fn bytes_of(alloc: Global, bytes: &[u8]) -> Result<(Seq<u8>, &[u8]), ReadError<ClassFault>>
    ensures { Gives (λ x. (x.0, x.1.now)) result (run.read bytes.now) }
{
    let (count, rest) = u32_of(Truncated, bytes)?;
    let (text, rest) = run_of(Truncated, count as usize, rest)?;
    Ok((Seq::from_slice(alloc, text)?, rest))
}

#[tactic(auto, unfolding(crate::specs::Attributes::class_attribute))]
fn class_attribute_of<'a>(
    alloc: Global,
    known: &PoolInfo<'_>,
    bytes: &'a [u8],
) -> Result<(Attribute, &'a [u8]), ReadError<ClassFault>>
    ensures { Gives (λ x. (x.0, x.1.now)) result ((class_attribute known.now).read bytes.now) }
{
    let (name, rest) = text_index_of(known, bytes)?;
    let (bytes, rest) = bytes_of(alloc, rest)?;
    Ok((Attribute::Raw { name, bytes }, rest))
}

/// Reads the attributes of a class.
#[derive(Clone, Copy)]
pub struct ClassAttributes<'r, 'p> {
    pub known: &'r PoolInfo<'p>,
}

impl<'r, 'p> Reader for ClassAttributes<'r, 'p> {
    type Kind = ClassFault;

    type Item = Attribute;

    ghost reads = { λ r. (class_attribute r.known.now).read };

    fn read<'a>(
        &self,
        alloc: Global,
        bytes: &'a [u8],
    ) -> Result<(Attribute, &'a [u8]), ReadError<ClassFault>> {
        class_attribute_of(alloc, self.known, bytes)
    }
}

// ---- of a field

fn constant_of<'a>(
    known: &PoolInfo<'_>,
    desc: u16,
    bytes: &'a [u8],
) -> Result<(u16, &'a [u8]), ReadError<ClassFault>>
    ensures { Gives (λ x. (x.0, x.1.now)) result ((index (suits_field known.now desc)).read bytes.now) }
{
    let (i, rest) = u16_of(Truncated, bytes)?;
    if known.suits_field(desc, i) {
        return Ok((i, rest));
    }
    Err(fault(Index, bytes))
}

#[derive(Clone, Copy)]
struct Constants<'r, 'p> {
    known: &'r PoolInfo<'p>,
    desc: u16,
}

impl<'r, 'p> BodyReader for Constants<'r, 'p> {
    type Kind = ClassFault;

    type Item = u16;

    ghost reads = { λ r. (constant r.known.now r.desc).read };

    fn read(&self, _alloc: Global, bytes: &[u8]) -> Result<u16, ReadError<ClassFault>> {
        let (value, rest) = constant_of(self.known, self.desc, bytes)?;
        if !rest.is_empty() {
            return Err(fault(Trailing, rest));
        }
        Ok(value)
    }

    ghost within = { λ r. (constant_law r.known.now r.desc).within };
}

/// Whether an attribute of this name is the constant value of a field with these flags.
fn is_constant(known: &PoolInfo<'_>, flags: Access, name: u16) -> bool
    ensures { result ≡ Attributes.is_constant known.now flags name }
{
    is_static(flags) && known.is_constant_value(name)
}

fn constant_name_of<'a>(
    known: &PoolInfo<'_>,
    flags: Access,
    seen: bool,
    bytes: &'a [u8],
) -> Result<(u16, &'a [u8]), ReadError<ClassFault>>
    ensures { Gives (λ x. (x.0, x.1.now)) result ((name_once known.now (Attributes.is_constant known.now flags) kinds.Index seen).read bytes.now) }
{
    let (i, rest) = u16_of(Truncated, bytes)?;
    let is_again = seen && is_constant(known, flags, i);
    match name_fault_of(known.is_utf8(i), is_again, Index) {
        None => Ok((i, rest)),
        Some(kind) => Err(fault(kind, bytes)),
    }
}

/// Reads the attributes of a field, by its flags and the index of its descriptor. The state says whether a constant value
/// stood before.
#[derive(Clone, Copy)]
pub struct FieldAttributes<'r, 'p> {
    pub known: &'r PoolInfo<'p>,
    pub flags: Access,
    pub desc: u16,
}

#[tactic(auto, unfolding(crate::specs::Attributes::field_attribute))]
fn field_attribute_of<'a>(
    alloc: Global,
    field: FieldAttributes<'_, '_>,
    seen: bool,
    bytes: &'a [u8],
) -> Result<(Attribute, &'a [u8]), ReadError<ClassFault>>
    ensures { Gives (λ x. (x.0, x.1.now)) result ((field_attribute field.entry.known.now field.entry.flags field.entry.desc seen).read bytes.now) }
{
    let known = field.known;
    let (name, rest) = constant_name_of(known, field.flags, seen, bytes)?;
    if is_constant(known, field.flags, name) {
        let constants = Constants {
            known,
            desc: field.desc,
        };
        let (value, rest) = block_of(alloc, &constants, Truncated, rest)?;
        return Ok((Attribute::ConstantValue { name, value }, rest));
    }
    let (bytes, rest) = bytes_of(alloc, rest)?;
    Ok((Attribute::Raw { name, bytes }, rest))
}

impl<'r, 'p> StateReader for FieldAttributes<'r, 'p> {
    type Kind = ClassFault;

    type State = bool;

    type Item = Attribute;

    ghost reads = { λ r seen. (field_attribute r.known.now r.flags r.desc seen).read };

    ghost goes_to = { λ _. saw_constant };

    fn read<'a>(
        &self,
        alloc: Global,
        seen: bool,
        bytes: &'a [u8],
    ) -> Result<(Attribute, &'a [u8]), ReadError<ClassFault>> {
        field_attribute_of(alloc, *self, seen, bytes)
    }

    fn next(&self, seen: bool, one: &Attribute) -> bool {
        match one {
            Attribute::ConstantValue { .. } => true,
            _ => seen,
        }
    }
}
