ghost use Rattle.std.specs.Prelude.{◌≡◌, ◌&&◌, false, nat_lt, length, IfOk, IsTrue};
ghost use Rattle.jground.specs.jformat.BodyFormats.{block, counted};
ghost use Rattle.jparts.specs.jcode.Instructions;
ghost use Rattle.jground.specs.jformat.StatefulFormats.{counted_from};
ghost use Rattle.jclass.specs.IndexFormats.{u2};
ghost use Rattle.jground.specs.jbase.MemoryFailures.{Gives};
ghost use Rattle.jparts.specs.jmaps.StackMapFormat.{frames, map_type};
ghost use Rattle.jclass.specs.CodeFormat;
ghost use Rattle.jclass.specs.CodeFormat.{attribute, begins, code_body, code_content, code_fault, code_length, ends, handler, maps, named_type, ops, saw_maps, type_fault};
ghost use Rattle.jclass.specs.CodeLaws.{code_body_law, maps_law, ops_law};
ghost use Rattle.jclass.specs.Attributes.{name_once};
ghost use Rattle.jclass.specs.FlagRules;
ghost use Rattle.jclass.specs.declared.fault.ClassFault.TheVariants as kinds;

use crate::attribute::{bytes_of, name_fault_of};
use crate::class::{CodeAttribute, CodeBody};
use crate::fault::ClassFault;
use crate::fault::ClassFault::{
    Code, Index, MapLeftOut, MapTag, Maps, Reserved, Target, Trailing, Truncated,
};
use crate::operand::first_misnamed;
use crate::places::Places;
use crate::pool_info::PoolInfo;
use jground::jbase::{FaultOrMemory, Seq};
use jground::jformat::{
    BodyReader, Fault, ReadError, Reader, StateReader, block_of, counted_of, fault, inner_of,
    times_by_of, u16_of, u32_of,
};
use jparts::jcode::{CodeFault, Handler, Placed, decode};
use jparts::jmaps::{Kinds, MapType, RawFrame, TypeReader, frames_of, type_of};
use std::alloc::Global;

// ---- frames

const KINDS: Kinds<ClassFault> = Kinds {
    truncated: Truncated,
    reserved: Reserved,
    bad_tag: MapTag,
    left_out: MapLeftOut,
    trailing: Trailing,
};

fn type_fault_of(known: &PoolInfo<'_>, one: MapType) -> Option<ClassFault>
    ensures { result ≡ type_fault known.now one }
{
    match one {
        MapType::Object(class) => {
            if known.is_class(class) {
                return None;
            }
            Some(Index)
        }
        _ => None,
    }
}

/// Reads types whose classes are in the pool.
#[derive(Clone, Copy)]
struct NamedTypes<'r, 'p> {
    known: &'r PoolInfo<'p>,
}

impl<'r, 'p> Reader for NamedTypes<'r, 'p> {
    type Kind = ClassFault;

    type Item = MapType;

    ghost reads = { λ r. (named_type r.known.now).read };

    fn read<'a>(
        &self,
        _alloc: Global,
        bytes: &'a [u8],
    ) -> Result<(MapType, &'a [u8]), ReadError<ClassFault>> {
        let (one, rest) = type_of(&KINDS, bytes)?;
        match type_fault_of(self.known, one) {
            None => Ok((one, rest)),
            Some(kind) => Err(fault(kind, bytes)),
        }
    }
}

/// The frames that are all of a text, and whose classes are in the pool.
#[tactic(auto, unfolding(crate::specs::CodeFormat::maps, jparts::specs::jmaps::StackMapFormat::frames, jparts::specs::jmaps::StackMapFormat::frame))]
fn maps_of(
    alloc: Global,
    known: &PoolInfo<'_>,
    bytes: &[u8],
) -> Result<Seq<RawFrame>, ReadError<ClassFault>>
    ensures { Gives (λ x. x) result ((maps known.now).read bytes.now) }
{
    match frames_of(alloc, &NamedTypes { known }, &KINDS, bytes) {
        Ok(found) => Ok(found),
        Err(FaultOrMemory::Memory) => Err(FaultOrMemory::Memory),
        Err(FaultOrMemory::Fault(found)) => {
            // A fault of the frames themselves comes before a class that isn't there.
            let _plain = frames_of(alloc, &TypeReader { kinds: KINDS }, &KINDS, bytes)?;
            Err(FaultOrMemory::Fault(found))
        }
    }
}

#[derive(Clone, Copy)]
struct MapsReader<'r, 'p> {
    known: &'r PoolInfo<'p>,
}

impl<'r, 'p> BodyReader for MapsReader<'r, 'p> {
    type Kind = ClassFault;

    type Item = Seq<RawFrame>;

    ghost reads = { λ r. (maps r.known.now).read };

    fn read(&self, alloc: Global, bytes: &[u8]) -> Result<Seq<RawFrame>, ReadError<ClassFault>> {
        maps_of(alloc, self.known, bytes)
    }

    ghost within = { λ r. (maps_law r.known.now).within };
}

// ---- attributes

fn maps_name_of<'a>(
    known: &PoolInfo<'_>,
    seen: bool,
    bytes: &'a [u8],
) -> Result<(u16, &'a [u8]), ReadError<ClassFault>>
    ensures { Gives (λ x. (x.0, x.1.now)) result ((name_once known.now (FlagRules.is_maps known.now) kinds.Maps seen).read bytes.now) }
{
    let (i, rest) = u16_of(Truncated, bytes)?;
    let is_again = seen && known.is_maps(i);
    match name_fault_of(known.is_utf8(i), is_again, Maps) {
        None => Ok((i, rest)),
        Some(kind) => Err(fault(kind, bytes)),
    }
}

#[tactic(auto, unfolding(crate::specs::CodeFormat::attribute))]
fn attribute_of<'a>(
    alloc: Global,
    known: &PoolInfo<'_>,
    seen: bool,
    bytes: &'a [u8],
) -> Result<(CodeAttribute, &'a [u8]), ReadError<ClassFault>>
    ensures { Gives (λ x. (x.0, x.1.now)) result ((attribute known.now seen).read bytes.now) }
{
    let (name, rest) = maps_name_of(known, seen, bytes)?;
    if known.is_maps(name) {
        let (frames, rest) = block_of(alloc, &MapsReader { known }, Truncated, rest)?;
        return Ok((CodeAttribute::Maps { name, frames }, rest));
    }
    let (bytes, rest) = bytes_of(alloc, rest)?;
    Ok((CodeAttribute::Raw { name, bytes }, rest))
}

/// Reads the attributes of a code. The state says whether frames stood before.
#[derive(Clone, Copy)]
struct CodeAttributes<'r, 'p> {
    known: &'r PoolInfo<'p>,
}

impl<'r, 'p> StateReader for CodeAttributes<'r, 'p> {
    type Kind = ClassFault;

    type State = bool;

    type Item = CodeAttribute;

    ghost reads = { λ r seen. (attribute r.known.now seen).read };

    ghost goes_to = { λ _. saw_maps };

    fn read<'a>(
        &self,
        alloc: Global,
        seen: bool,
        bytes: &'a [u8],
    ) -> Result<(CodeAttribute, &'a [u8]), ReadError<ClassFault>> {
        attribute_of(alloc, self.known, seen, bytes)
    }

    fn next(&self, seen: bool, one: &CodeAttribute) -> bool {
        match one {
            CodeAttribute::Maps { .. } => true,
            CodeAttribute::Raw { .. } => seen,
        }
    }
}

// ---- handlers

/// Whether a handler of this range and place leads to instructions.
fn lies_within(places: &Places<'_>, start: u32, end: u32, at: u32) -> bool
    ensures { result ≡ (nat_lt start end && (begins places.now start && (ends places.now end && begins places.now at))) }
{
    start < end && places.begins(start) && places.ends(end) && places.begins(at)
}

#[tactic(auto, unfolding(crate::specs::CodeFormat::handler))]
fn handler_of<'a>(
    known: &PoolInfo<'_>,
    places: &Places<'_>,
    bytes: &'a [u8],
) -> Result<(Handler, &'a [u8]), ReadError<ClassFault>>
    ensures { Gives (λ x. (x.0, x.1.now)) result ((handler known.now places.now).read bytes.now) }
{
    let (start, rest) = u16_of(Truncated, bytes)?;
    let (end, rest) = u16_of(Truncated, rest)?;
    let (at, rest) = u16_of(Truncated, rest)?;
    let (class, behind) = u16_of(Truncated, rest)?;
    let (start, end, at) = (u32::from(start), u32::from(end), u32::from(at));
    if !lies_within(places, start, end, at) {
        return Err(fault(Target, bytes));
    }
    if !known.names_caught(class) {
        return Err(fault(Index, rest));
    }
    Ok((
        Handler {
            start,
            end,
            at,
            class,
        },
        behind,
    ))
}

#[derive(Clone, Copy)]
struct Handlers<'r, 'p> {
    known: &'r PoolInfo<'p>,
    places: &'r Places<'p>,
}

impl<'r, 'p> Reader for Handlers<'r, 'p> {
    type Kind = ClassFault;

    type Item = Handler;

    ghost reads = { λ r. (handler r.known.now r.places.now).read };

    fn read<'a>(
        &self,
        _alloc: Global,
        bytes: &'a [u8],
    ) -> Result<(Handler, &'a [u8]), ReadError<ClassFault>> {
        handler_of(self.known, self.places, bytes)
    }
}

// ---- code

fn code_length_of(bytes: &[u8]) -> Result<(u32, &[u8]), ReadError<ClassFault>>
    ensures { Gives (λ x. (x.0, x.1.now)) result (code_length.read bytes.now) }
{
    let (count, rest) = u32_of(Truncated, bytes)?;
    if count == 0 || 0xffff < count {
        return Err(fault(Code, bytes));
    }
    Ok((count, rest))
}

fn code_fault(kind: CodeFault) -> ClassFault
    ensures { result ≡ code_fault kind }
{
    match kind {
        CodeFault::Truncated => ClassFault::Truncated,
        CodeFault::UnknownOpcode(opcode) => ClassFault::Opcode(opcode),
        CodeFault::LeftOut(opcode) => ClassFault::LeftOut(opcode),
        CodeFault::BadOperand => ClassFault::Operand,
        CodeFault::BadTarget => ClassFault::Target,
    }
}

/// The instructions that are all of a text, and whose entries are in the pool.
#[tactic(auto, unfolding(crate::specs::CodeFormat::ops))]
fn ops_in(
    alloc: Global,
    known: &PoolInfo<'_>,
    bytes: &[u8],
) -> Result<Seq<Placed>, ReadError<ClassFault>>
    ensures { Gives (λ x. x) result ((ops known.now).read bytes.now) }
{
    match decode(alloc, bytes) {
        Ok(found) => {
            let found = Seq::from_vec(found);
            match first_misnamed(known, found.as_slice()) {
                None => Ok(found),
                Some(at) => Err(FaultOrMemory::Fault(Fault {
                    left: bytes.len().saturating_sub(at as usize),
                    kind: Index,
                })),
            }
        }
        Err(FaultOrMemory::Memory) => Err(FaultOrMemory::Memory),
        Err(FaultOrMemory::Fault(found)) => Err(FaultOrMemory::Fault(Fault {
            left: bytes.len().saturating_sub(found.at as usize),
            kind: code_fault(found.kind),
        })),
    }
}

/// Reads the instructions that are all of a text.
#[derive(Clone, Copy)]
struct Ops<'r, 'p> {
    known: &'r PoolInfo<'p>,
}

impl<'r, 'p> BodyReader for Ops<'r, 'p> {
    type Kind = ClassFault;

    type Item = Seq<Placed>;

    ghost reads = { λ r. (ops r.known.now).read };

    fn read(&self, alloc: Global, bytes: &[u8]) -> Result<Seq<Placed>, ReadError<ClassFault>> {
        ops_in(alloc, self.known, bytes)
    }

    ghost within = { λ r. (ops_law r.known.now).within };
}

/// The instructions behind the number of their bytes, that number, and what lies behind them.
fn ops_of<'a>(
    alloc: Global,
    known: &PoolInfo<'_>,
    bytes: &'a [u8],
) -> Result<(Seq<Placed>, u32, &'a [u8]), ReadError<ClassFault>>
    ensures read { Gives (λ x. (x.0, x.2.now)) result ((block code_length kinds.Truncated (ops known.now)).read bytes.now) }
    ensures size { IfOk result (λ x. IsTrue (Instructions.code.fits x.0) × (x.1 ≡ length (Instructions.code.spell x.0))) }
{
    let (count, rest) = code_length_of(bytes)?;
    let (found, rest) = inner_of(alloc, &Ops { known }, Truncated, count as usize, rest)?;
    Ok((found, count, rest))
}

fn handlers_of<'a>(
    alloc: Global,
    known: &PoolInfo<'_>,
    found: &[Placed],
    size: u32,
    bytes: &'a [u8],
) -> Result<(Seq<Handler>, &'a [u8]), ReadError<ClassFault>>
    requires fit { IsTrue (Instructions.code.fits found.now) }
    requires size { size ≡ length (Instructions.code.spell found.now) }
    ensures { Gives (λ x. (x.0, x.1.now)) result ((counted u2 (handler known.now found.now)).read bytes.now) }
{
    let places = Places::of(found, size);
    let handlers = Handlers {
        known,
        places: &places,
    };
    counted_of(alloc, &handlers, Truncated, bytes)
}

fn attributes_of<'a>(
    alloc: Global,
    known: &PoolInfo<'_>,
    bytes: &'a [u8],
) -> Result<(Seq<CodeAttribute>, &'a [u8]), ReadError<ClassFault>>
    ensures { Gives (λ x. (x.0, x.1.now)) result ((counted_from u2 (attribute known.now) saw_maps false).read bytes.now) }
{
    let (count, rest) = u16_of(Truncated, bytes)?;
    times_by_of(
        alloc,
        &CodeAttributes { known },
        false,
        usize::from(count),
        rest,
    )
}

#[tactic(auto, unfolding(crate::specs::CodeFormat::code_content))]
fn code_of<'a>(
    alloc: Global,
    known: &PoolInfo<'_>,
    bytes: &'a [u8],
) -> Result<(CodeBody, &'a [u8]), ReadError<ClassFault>>
    ensures { Gives (λ x. (x.0, x.1.now)) result ((code_content known.now).read bytes.now) }
{
    let (max_stack, rest) = u16_of(Truncated, bytes)?;
    let (max_locals, rest) = u16_of(Truncated, rest)?;
    let (ops, size, rest) = ops_of(alloc, known, rest)?;
    let (handlers, rest) = handlers_of(alloc, known, ops.as_slice(), size, rest)?;
    let (attributes, rest) = attributes_of(alloc, known, rest)?;
    Ok((
        CodeBody {
            max_stack,
            max_locals,
            ops,
            handlers,
            attributes,
        },
        rest,
    ))
}

/// Reads the code that is all of a text.
#[derive(Clone, Copy)]
pub struct CodeReader<'r, 'p> {
    pub known: &'r PoolInfo<'p>,
}

impl<'r, 'p> BodyReader for CodeReader<'r, 'p> {
    type Kind = ClassFault;

    type Item = CodeBody;

    ghost reads = { λ r. (code_body r.known.now).read };

    fn read(&self, alloc: Global, bytes: &[u8]) -> Result<CodeBody, ReadError<ClassFault>> {
        let (one, rest) = code_of(alloc, self.known, bytes)?;
        if !rest.is_empty() {
            return Err(fault(Trailing, rest));
        }
        Ok(one)
    }

    ghost within = { λ r. (code_body_law r.known.now).within };
}
