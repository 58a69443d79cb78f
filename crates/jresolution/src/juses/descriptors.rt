ghost use Rattle.std.specs.Prelude.{◌≡◌, ◌++◌, IfOk, Some, length, map, option_map, reverse, slice_get, option_and_then};
ghost use Rattle.jground.specs.jbase.ListMaps.{each_some};
ghost use Rattle.jresolution.specs.jprogram.ClassFileParts.{or_empty};
ghost use Rattle.jresolution.specs.juses.PoolTables;
ghost use Rattle.jresolution.specs.juses.PoolTables.{AreDescs, DescIs, Grows};
ghost use Rattle.jresolution.specs.juses.DescriptorTypes;
ghost use Rattle.jresolution.specs.juses.InternedTypes.{named};
ghost use Rattle.jparts.specs.jpool.PoolEntries.{utf8_parts};

use crate::jprogram::NamedProgram;
use crate::juses::meaning::Span;
use crate::juses::types::TypeRef;
use crate::juses::typing::type_in;
use jground::jbase::Seq;
use jparts::jpool::{DescError, Descriptor, Entry, FieldType, read_descriptor};
use std::alloc::{AllocError, Global};

/// What a text says as the descriptor of a member.
#[derive(Clone, Copy, Debug)]
pub(crate) enum DescUse {
    /// It is no descriptor, or names what the program hasn't.
    Untyped,
    /// Of a field.
    Held(TypeRef),
    /// Of a method: where its parameters' types stand, the newest first, and the type of what it returns.
    Called(Span, Option<TypeRef>),
}

// ---- one descriptor

/// The types of a method's parameters in a program, the last one first, as operands stand (JVMS 4.3.3). None where one is a float or a
/// double, or names a class that isn't there.
pub fn params_in(
    alloc: Global,
    p: &NamedProgram,
    params: &[FieldType],
) -> Result<Option<Seq<TypeRef>>, AllocError>
    ensures { IfOk result (λ o. option_map (map (named p.now)) o ≡ option_map reverse (each_some (DescriptorTypes.type_in p.now) params.now)) }
{
    let mut types = Seq::new(alloc);
    let mut i = params.len();
    while 0 < i {
        i -= 1;
        let Some(one) = type_in(p, &params[i]) else {
            return Ok(None);
        };
        types.push(one)?;
    }
    Ok(Some(types))
}

/// The type of what a method returns, inside None where it returns nothing. None where it is a float or a double, or names a class that isn't
/// there.
pub fn return_in(p: &NamedProgram, ret: &Option<FieldType>) -> Option<Option<TypeRef>>
    ensures { option_map (option_map (named p.now)) result ≡ DescriptorTypes.return_in p.now ret.now }
{
    match ret {
        None => Some(None),
        Some(t) => {
            let t = type_in(p, t)?;
            Some(Some(t))
        }
    }
}

/// Puts types behind others, and says where they stand. There is no room for more than 2 ^ 32 - 1.
fn put(types: &mut Seq<TypeRef>, more: &[TypeRef]) -> Result<Span, AllocError>
    ensures { IfOk result (λ s. (s.first ≡ length types.old) × (s.count ≡ length more.now) × (types.new ≡ types.old ++ more.now)) }
{
    let first = types.as_slice().len();
    let count = more.len();
    if first > u32::MAX as usize || count > u32::MAX as usize {
        return Err(AllocError);
    }
    types.extend(more)?;
    Ok(Span {
        first: first as u32,
        count: count as u32,
    })
}

fn called(
    alloc: Global,
    p: &NamedProgram,
    types: &mut Seq<TypeRef>,
    params: &[FieldType],
    ret: &Option<FieldType>,
) -> Result<DescUse, AllocError>
    ensures { IfOk result (λ d.
        DescIs p.now types.new d (DescriptorTypes.called (each_some (DescriptorTypes.type_in p.now) params.now) (DescriptorTypes.return_in p.now ret.now))
        × Grows types.old types.new) }
{
    let Some(params) = params_in(alloc, p, params)? else {
        return Ok(DescUse::Untyped);
    };
    let Some(ret) = return_in(p, ret) else {
        return Ok(DescUse::Untyped);
    };
    let params = put(types, params.as_slice())?;
    Ok(DescUse::Called(params, ret))
}

/// What a text says as a descriptor. The types of a method's parameters are put behind others.
#[tactic(auto, unfolding(crate::specs::juses::DescriptorTypes::typed))]
fn desc_use(
    alloc: Global,
    p: &NamedProgram,
    types: &mut Seq<TypeRef>,
    text: &[u8],
) -> Result<DescUse, AllocError>
    ensures { IfOk result (λ d. DescIs p.now types.new d (DescriptorTypes.typed p.now text.now) × Grows types.old types.new) }
{
    match read_descriptor(alloc, text) {
        Ok(Descriptor::Field(t)) => match type_in(p, &t) {
            Some(t) => Ok(DescUse::Held(t)),
            None => Ok(DescUse::Untyped),
        },
        Ok(Descriptor::Method { params, ret }) => called(alloc, p, types, params.as_slice(), &ret),
        Err(DescError::Bad) => Ok(DescUse::Untyped),
        Err(DescError::Memory) => Err(AllocError),
    }
}

// ---- those of a pool

/// The text of an entry, empty where it has none.
fn text_of(entry: &Entry) -> &[u8]
    ensures { result.now ≡ or_empty (option_and_then utf8_parts (Some entry.now)) }
{
    match entry {
        Entry::Utf8(text) => text.as_slice(),
        _ => &[],
    }
}

/// What each text of a pool says as a descriptor: each is read once, however many entries name it.
pub(crate) fn descs_of(
    alloc: Global,
    p: &NamedProgram,
    types: &mut Seq<TypeRef>,
    entries: &[Entry],
) -> Result<Seq<DescUse>, AllocError>
    ensures { IfOk result (λ uses. AreDescs p.now types.new entries.now uses × Grows types.old types.new) }
{
    let mut uses = Seq::new(alloc);
    for entry in entries {
        let one = desc_use(alloc, p, types, text_of(entry))?;
        uses.push(one)?;
    }
    Ok(uses)
}

/// What the text at an index says.
pub(crate) fn desc_at(uses: &[DescUse], i: u16) -> DescUse
    ensures { result ≡ PoolTables.desc_in (slice_get uses.now i) }
{
    match uses.get(usize::from(i)) {
        Some(one) => *one,
        None => DescUse::Untyped,
    }
}
