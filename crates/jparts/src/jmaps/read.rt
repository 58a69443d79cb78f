ghost use Rattle.std.specs.Prelude.{◌≡◌, ◌<◌, ◌^◌, IfOk, IsTrue, List, Ok, length};
ghost use Rattle.jparts.specs.declared.jmaps.types.RawFrame.{RawFrame};
ghost use Rattle.jground.specs.jbase.MemoryFailures.{Gives};
ghost use Rattle.jground.specs.jformat.FaultOffsets.{GivesAt};
ghost use Rattle.jparts.specs.jmaps.StackMapFormat.{frame, frames, map_kinds, map_type, maps, part, read_alone};

use crate::jmaps::fault::{Kinds, MapError, MapFault};
use crate::jmaps::rows::row_of;
use crate::jmaps::types::{MapType, Number, RawFrame};
use jground::jbase::Seq;
use jground::jformat::{ReadError, Reader, counted_of, fault, stop_at, times_of, u16_of};
use std::alloc::Global;

/// A type of an item. A tag that names none is `left_out` for float and double and `bad_tag` else, at the tag byte.
#[tactic(auto, unfolding(crate::specs::jmaps::StackMapFormat::map_type))]
pub fn type_of<'a, K: Copy>(
    kinds: &Kinds<K>,
    bytes: &'a [u8],
) -> Result<(MapType, &'a [u8]), ReadError<K>>
    ensures { Gives (λ x. (x.0, x.1.now)) result ((map_type kinds.now).read bytes.now) }
{
    match bytes {
        [] => Err(fault(kinds.truncated, bytes)),
        [0, rest @ ..] => Ok((MapType::Top, rest)),
        [1, rest @ ..] => Ok((MapType::Int, rest)),
        [2, ..] => Err(fault(kinds.left_out, bytes)),
        [3, ..] => Err(fault(kinds.left_out, bytes)),
        [4, rest @ ..] => Ok((MapType::Long, rest)),
        [5, rest @ ..] => Ok((MapType::Null, rest)),
        [6, rest @ ..] => Ok((MapType::UninitThis, rest)),
        [7, rest @ ..] => {
            let (class, rest) = u16_of(kinds.truncated, rest)?;
            Ok((MapType::Object(class), rest))
        }
        [8, rest @ ..] => {
            let (place, rest) = u16_of(kinds.truncated, rest)?;
            Ok((MapType::Uninit(place), rest))
        }
        [_, ..] => Err(fault(kinds.bad_tag, bytes)),
    }
}

/// Reads the types of items.
#[derive(Clone, Copy, Debug)]
pub struct TypeReader<K> {
    pub kinds: Kinds<K>,
}

impl<K: Copy> Reader for TypeReader<K> {
    type Kind = K;

    type Item = MapType;

    ghost reads = { λ r. (map_type r.kinds).read };

    fn read<'a>(
        &self,
        _alloc: Global,
        bytes: &'a [u8],
    ) -> Result<(MapType, &'a [u8]), ReadError<K>> {
        type_of(&self.kinds, bytes)
    }
}

fn number_of<K: Drop>(cut: K, how: Number, bytes: &[u8]) -> Result<(u16, &[u8]), ReadError<K>>
    ensures { Gives (λ x. (x.0, x.1.now)) result ((part cut how).read bytes.now) }
{
    match how {
        Number::Given(n) => Ok((n, bytes)),
        Number::Written => u16_of(cut, bytes),
    }
}

/// A frame, whose items are read by a reader of types. A type byte that is reserved is `reserved`, at that byte.
#[tactic(auto, unfolding(crate::specs::jmaps::StackMapFormat::frame))]
pub fn frame_of<'a, R: Reader<Item = MapType>>(
    alloc: Global,
    types: &R,
    kinds: &Kinds<R::Kind>,
    bytes: &'a [u8],
) -> Result<(RawFrame, &'a [u8]), ReadError<R::Kind>>
where
    R::Kind: Copy,
    ensures { Gives (λ x. (x.0, x.1.now)) result ((frame kinds.now (read_alone (R.reads types.now))).read bytes.now) }
{
    let [form, rest @ ..] = bytes else {
        return Err(fault(kinds.truncated, bytes));
    };
    let Some(row) = row_of(*form) else {
        return Err(fault(kinds.reserved, bytes));
    };
    let (delta, rest) = number_of(kinds.truncated, row.delta, rest)?;
    let (count, rest) = number_of(kinds.truncated, row.locals, rest)?;
    let (locals, rest) = times_of(alloc, types, usize::from(count), rest)?;
    let (count, rest) = number_of(kinds.truncated, row.stack, rest)?;
    let (stack, rest) = times_of(alloc, types, usize::from(count), rest)?;
    Ok((
        RawFrame {
            form: *form,
            delta,
            locals,
            stack,
        },
        rest,
    ))
}

/// Reads frames, whose items are read by a reader of types.
#[derive(Drop)]
struct FrameReader<'r, R: Reader<Item = MapType>> {
    types: &'r R,
    kinds: &'r Kinds<R::Kind>,
}

impl<'r, R: Reader<Item = MapType>> Reader for FrameReader<'r, R>
where
    R::Kind: Copy,
{
    type Kind = R::Kind;

    type Item = RawFrame;

    ghost reads = { λ r. (frame r.kinds.now (read_alone (R.reads r.types.now))).read };

    fn read<'a>(
        &self,
        alloc: Global,
        bytes: &'a [u8],
    ) -> Result<(RawFrame, &'a [u8]), ReadError<R::Kind>> {
        frame_of(alloc, self.types, self.kinds, bytes)
    }
}

/// The frames that are all of a text, behind their number. Bytes behind the last frame are `trailing`, at the first of them.
#[tactic(auto, unfolding(crate::specs::jmaps::StackMapFormat::frames))]
pub fn frames_of<R: Reader<Item = MapType>>(
    alloc: Global,
    types: &R,
    kinds: &Kinds<R::Kind>,
    bytes: &[u8],
) -> Result<Seq<RawFrame>, ReadError<R::Kind>>
where
    R::Kind: Copy,
    ensures { Gives (λ x. x) result ((frames kinds.now (read_alone (R.reads types.now))).read bytes.now) }
{
    let reader = FrameReader { types, kinds };
    let (found, rest) = counted_of(alloc, &reader, kinds.truncated, bytes)?;
    if !rest.is_empty() {
        return Err(fault(kinds.trailing, rest));
    }
    Ok(found)
}

const KINDS: Kinds<MapFault> = Kinds {
    truncated: MapFault::Truncated,
    reserved: MapFault::Reserved,
    bad_tag: MapFault::BadTag,
    left_out: MapFault::LeftOut,
    trailing: MapFault::Trailing,
};

#[tactic(auto, unfolding(crate::specs::jmaps::StackMapFormat::maps))]
fn all_of(alloc: Global, bytes: &[u8]) -> Result<Seq<RawFrame>, ReadError<MapFault>>
    ensures { Gives (λ x. x) result (maps.read bytes.now) }
{
    frames_of(alloc, &TypeReader { kinds: KINDS }, &KINDS, bytes)
}

/// The frames that a StackMapTable's content spells (JVMS 4.7.4), or its first fault, front to back.
pub fn read_maps(alloc: Global, bytes: &[u8]) -> Result<Vec<RawFrame>, MapError>
    requires { length bytes.now < 2 ^ 31 }
    // What is read is spelled so.
    ensures found { IfOk result (λ v. IsTrue (maps.fits v.items) × (bytes.now ≡ maps.spell v.items)) }
    // What is spelled so is read, unless memory runs out.
    ensures only { (fs : List RawFrame) → IsTrue (maps.fits fs) → bytes.now ≡ maps.spell fs → GivesAt (λ v. v.items) bytes.now result (Ok fs) }
    // Which fault it is.
    ensures exact { GivesAt (λ v. v.items) bytes.now result (maps.read bytes.now) }
{
    match all_of(alloc, bytes) {
        Ok(found) => Ok(found.into_vec()),
        Err(stop) => Err(stop_at(bytes, stop)),
    }
}
