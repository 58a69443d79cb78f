ghost use Rattle.std.specs.Prelude.{◌≡◌, false, length};
ghost use Rattle.std.specs.List.{filter};
ghost use Rattle.jground.specs.jbase.MemoryFailures.{Gives};
ghost use Rattle.jground.specs.jformat.StatefulFormats.{counted_from};
ghost use Rattle.jclass.specs.IndexFormats.{u2};
ghost use Rattle.jclass.specs.FlagRules;
ghost use Rattle.jclass.specs.FlagRules.{field_descriptor, method_descriptor};
ghost use Rattle.jclass.specs.Attributes.{field_attribute, saw_constant};
ghost use Rattle.jclass.specs.MemberFormat.{codes_fault, field, method, method_attribute, method_parts, name_at, names_at};

use crate::access::Access;
use crate::attribute::{FieldAttributes, access_of, bytes_of, text_index_of};
use crate::class::{Attribute, MemberInfo};
use crate::code::CodeReader;
use crate::fault::ClassFault;
use crate::fault::ClassFault::{Code, Truncated};
use crate::pool_info::{PoolInfo, has_no_code};
use crate::shape::skip_run;
use jground::jbase::Seq;
use jground::jformat::{ReadError, Reader, block_of, counted_of, fault, times_by_of, u16_of};
use std::alloc::Global;

// ---- fields

#[tactic(auto, unfolding(crate::specs::FlagRules::field_descriptor))]
fn field_descriptor_of<'a>(
    known: &PoolInfo<'_>,
    bytes: &'a [u8],
) -> Result<(u16, &'a [u8]), ReadError<ClassFault>>
    ensures { Gives (λ x. (x.0, x.1.now)) result ((field_descriptor known.now).read bytes.now) }
{
    let (i, rest) = u16_of(Truncated, bytes)?;
    match known.field_fault(i) {
        None => Ok((i, rest)),
        Some(kind) => Err(fault(kind, bytes)),
    }
}

fn field_attributes_of<'a>(
    alloc: Global,
    known: &PoolInfo<'_>,
    flags: Access,
    desc: u16,
    bytes: &'a [u8],
) -> Result<(Seq<Attribute>, &'a [u8]), ReadError<ClassFault>>
    ensures { Gives (λ x. (x.0, x.1.now)) result ((counted_from u2 (field_attribute known.now flags desc) saw_constant false).read bytes.now) }
{
    let (count, rest) = u16_of(Truncated, bytes)?;
    let reader = FieldAttributes { known, flags, desc };
    times_by_of(alloc, &reader, false, usize::from(count), rest)
}

#[tactic(auto, unfolding(crate::specs::MemberFormat::field))]
fn field_of<'a>(
    alloc: Global,
    known: &PoolInfo<'_>,
    bytes: &'a [u8],
) -> Result<(MemberInfo, &'a [u8]), ReadError<ClassFault>>
    ensures { Gives (λ x. (x.0, x.1.now)) result ((field known.now).read bytes.now) }
{
    let (flags, rest) = access_of(bytes)?;
    let (name, rest) = text_index_of(known, rest)?;
    let (desc, rest) = field_descriptor_of(known, rest)?;
    let (attributes, rest) = field_attributes_of(alloc, known, flags, desc, rest)?;
    Ok((
        MemberInfo {
            flags,
            name,
            desc,
            attributes,
        },
        rest,
    ))
}

/// Reads fields.
#[derive(Clone, Copy)]
pub struct Fields<'r, 'p> {
    pub known: &'r PoolInfo<'p>,
}

impl<'r, 'p> Reader for Fields<'r, 'p> {
    type Kind = ClassFault;

    type Item = MemberInfo;

    ghost reads = { λ r. (field r.known.now).read };

    fn read<'a>(
        &self,
        alloc: Global,
        bytes: &'a [u8],
    ) -> Result<(MemberInfo, &'a [u8]), ReadError<ClassFault>> {
        field_of(alloc, self.known, bytes)
    }
}

// ---- methods

#[tactic(auto, unfolding(crate::specs::FlagRules::method_descriptor))]
fn method_descriptor_of<'a>(
    known: &PoolInfo<'_>,
    flags: Access,
    bytes: &'a [u8],
) -> Result<(u16, &'a [u8]), ReadError<ClassFault>>
    ensures { Gives (λ x. (x.0, x.1.now)) result ((method_descriptor known.now flags).read bytes.now) }
{
    let (i, rest) = u16_of(Truncated, bytes)?;
    match known.method_fault(flags, i) {
        None => Ok((i, rest)),
        Some(kind) => Err(fault(kind, bytes)),
    }
}

#[tactic(auto, unfolding(crate::specs::MemberFormat::method_attribute))]
fn method_attribute_of<'a>(
    alloc: Global,
    known: &PoolInfo<'_>,
    bytes: &'a [u8],
) -> Result<(Attribute, &'a [u8]), ReadError<ClassFault>>
    ensures { Gives (λ x. (x.0, x.1.now)) result ((method_attribute known.now).read bytes.now) }
{
    let (name, rest) = text_index_of(known, bytes)?;
    if known.is_code(name) {
        let (code, rest) = block_of(alloc, &CodeReader { known }, Truncated, rest)?;
        return Ok((
            Attribute::Code {
                name,
                max_stack: code.max_stack,
                max_locals: code.max_locals,
                ops: code.ops,
                handlers: code.handlers,
                attributes: code.attributes,
            },
            rest,
        ));
    }
    let (bytes, rest) = bytes_of(alloc, rest)?;
    Ok((Attribute::Raw { name, bytes }, rest))
}

#[derive(Clone, Copy)]
struct MethodAttributes<'r, 'p> {
    known: &'r PoolInfo<'p>,
}

impl<'r, 'p> Reader for MethodAttributes<'r, 'p> {
    type Kind = ClassFault;

    type Item = Attribute;

    ghost reads = { λ r. (method_attribute r.known.now).read };

    fn read<'a>(
        &self,
        alloc: Global,
        bytes: &'a [u8],
    ) -> Result<(Attribute, &'a [u8]), ReadError<ClassFault>> {
        method_attribute_of(alloc, self.known, bytes)
    }
}

#[tactic(auto, unfolding(crate::specs::MemberFormat::method_parts))]
fn method_parts_of<'a>(
    alloc: Global,
    known: &PoolInfo<'_>,
    bytes: &'a [u8],
) -> Result<(MemberInfo, &'a [u8]), ReadError<ClassFault>>
    ensures { Gives (λ x. (x.0, x.1.now)) result ((method_parts known.now).read bytes.now) }
{
    let (flags, rest) = access_of(bytes)?;
    let (name, rest) = text_index_of(known, rest)?;
    let (desc, rest) = method_descriptor_of(known, flags, rest)?;
    let (attributes, rest) = counted_of(alloc, &MethodAttributes { known }, Truncated, rest)?;
    Ok((
        MemberInfo {
            flags,
            name,
            desc,
            attributes,
        },
        rest,
    ))
}

/// Reads the names of attributes, and goes over their content.
#[derive(Clone, Copy)]
struct Names;

impl Reader for Names {
    type Kind = ClassFault;

    type Item = u16;

    ghost reads = { λ _. name_at };

    fn read<'a>(
        &self,
        _alloc: Global,
        bytes: &'a [u8],
    ) -> Result<(u16, &'a [u8]), ReadError<ClassFault>> {
        let (name, rest) = u16_of(Truncated, bytes)?;
        let rest = skip_run(rest)?;
        Ok((name, rest))
    }
}

fn names_of(
    alloc: Global,
    bytes: &[u8],
) -> Result<((Access, Seq<u16>), &[u8]), ReadError<ClassFault>>
    ensures { Gives (λ x. (x.0, x.1.now)) result (names_at bytes.now) }
{
    let (flags, rest) = access_of(bytes)?;
    let (_, rest) = u16_of(Truncated, rest)?;
    let (_, rest) = u16_of(Truncated, rest)?;
    let (names, rest) = counted_of(alloc, &Names, Truncated, rest)?;
    Ok(((flags, names), rest))
}

fn codes_in(known: &PoolInfo<'_>, names: &[u16]) -> usize
    ensures { result ≡ length (filter (FlagRules.is_code known.now) names.now) }
{
    names.iter().filter(|name| known.is_code(**name)).count()
}

fn codes_fault_of(known: &PoolInfo<'_>, flags: Access, names: &[u16]) -> Option<ClassFault>
    ensures { result ≡ codes_fault known.now (flags, names.now) }
{
    let wanted = if has_no_code(flags) { 0 } else { 1 };
    if codes_in(known, names) == wanted {
        return None;
    }
    Some(Code)
}

#[tactic(auto, unfolding(crate::specs::MemberFormat::method))]
fn method_of<'a>(
    alloc: Global,
    known: &PoolInfo<'_>,
    bytes: &'a [u8],
) -> Result<(MemberInfo, &'a [u8]), ReadError<ClassFault>>
    ensures { Gives (λ x. (x.0, x.1.now)) result ((method known.now).read bytes.now) }
{
    let ((flags, names), _) = names_of(alloc, bytes)?;
    if let Some(kind) = codes_fault_of(known, flags, names.as_slice()) {
        return Err(fault(kind, bytes));
    }
    method_parts_of(alloc, known, bytes)
}

/// Reads methods.
#[derive(Clone, Copy)]
pub struct Methods<'r, 'p> {
    pub known: &'r PoolInfo<'p>,
}

impl<'r, 'p> Reader for Methods<'r, 'p> {
    type Kind = ClassFault;

    type Item = MemberInfo;

    ghost reads = { λ r. (method r.known.now).read };

    fn read<'a>(
        &self,
        alloc: Global,
        bytes: &'a [u8],
    ) -> Result<(MemberInfo, &'a [u8]), ReadError<ClassFault>> {
        method_of(alloc, self.known, bytes)
    }
}
