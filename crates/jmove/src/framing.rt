ghost use Rattle.std.specs.Prelude.{◌≡◌, ◌≤◌, ◌++◌, ◌∷◌, [], All, IfOk, OnOk, map, replicate, nat_lt};
ghost use Rattle.jparts.specs.declared.jmaps.types.MapType.TheVariants.{Top};
ghost use Rattle.jmove.specs.MovedFrames;
ghost use Rattle.jmove.specs.ProofNames;
ghost use Rattle.jmove.specs.MovedFrames.{moved_frame, moved_type, items_of};
ghost use Rattle.jmove.specs.PlaceTables.{in_table};

use crate::places::Places;
use jground::jbase::Seq;
use jparts::jmaps::{FullFrame, MapType};
use std::alloc::{AllocError, Global};

fn width(one: MapType) -> usize
    ensures { result ≡ ProofNames.width one }
{
    match one {
        MapType::Long => 2,
        _ => 1,
    }
}

/// How many locals types take.
fn widths(types: &[MapType]) -> usize
    requires { MovedFrames.widths types.now ≤ 0xffff }
    ensures { result ≡ MovedFrames.widths types.now }
{
    let mut count = 0;
    for one in types {
        count += width(*one);
    }
    count
}

/// How many locals and stack items are written in a frame.
fn items(frame: &FullFrame, local: usize) -> usize
    requires few { MovedFrames.widths frame.now.locals ≤ local }
    requires near { local ≤ 0xffff }
    ensures { result ≡ MovedFrames.items local frame.now }
{
    let locals = frame.locals.as_slice();
    locals.len() + (local - widths(locals)) + 1 + frame.stack.as_slice().len()
}

/// Whether more than 16,777,216 locals and stack items would be written in frames.
pub fn too_many(frames: &[FullFrame], local: usize) -> bool
    requires few { All (λ f. MovedFrames.widths f.locals ≤ local) frames.now }
    requires near { local ≤ 0xffff }
    ensures { result ≡ nat_lt 16777216 (items_of local frames.now) }
{
    let mut left = 16_777_216;
    for frame in frames {
        let count = items(frame, local);
        if left < count {
            return true;
        }
        left -= count;
    }
    false
}

fn type_moved(one: MapType, places: &Places) -> MapType
    ensures { result ≡ moved_type (in_table places.now) one }
{
    match one {
        MapType::Uninit(old) => MapType::Uninit(places.at(usize::from(old))),
        _ => one,
    }
}

fn types_moved(
    alloc: Global,
    types: &[MapType],
    places: &Places,
) -> Result<Vec<MapType>, AllocError>
    ensures { IfOk result (λ moved. moved.items ≡ map (moved_type (in_table places.now)) types.now) }
{
    types
        .iter()
        .map(|one| type_moved(*one, places))
        .collect(alloc)
}

/// Puts a type behind others.
fn put(types: &mut Vec<MapType>, one: MapType) -> Result<(), AllocError>
    ensures { OnOk result (types.new.items ≡ types.old.items ++ one ∷ []) }
{
    types.push(one)?;
    Ok(())
}

fn put_tops(types: &mut Vec<MapType>, count: usize) -> Result<(), AllocError>
    ensures { OnOk result (types.new.items ≡ types.old.items ++ replicate count Top) }
{
    for _ in 0..count {
        put(types, MapType::Top)?;
    }
    Ok(())
}

fn frame_moved(
    alloc: Global,
    frame: &FullFrame,
    places: &Places,
    local: usize,
    context: u16,
) -> Result<FullFrame, AllocError>
    requires few { MovedFrames.widths frame.now.locals ≤ local }
    requires near { local ≤ 0xffff }
    ensures { IfOk result (λ moved. moved ≡ moved_frame (in_table places.now) local context frame.now) }
{
    let old = frame.locals.as_slice();
    let mut locals = types_moved(alloc, old, places)?;
    put_tops(&mut locals, local - widths(old))?;
    put(&mut locals, MapType::Object(context))?;
    let stack = types_moved(alloc, frame.stack.as_slice(), places)?;
    Ok(FullFrame {
        at: u32::from(places.at(frame.at as usize)),
        locals: Seq::from_vec(locals),
        stack: Seq::from_vec(stack),
    })
}

/// Frames written full: their locals, Top up to the local that holds the context, and the context.
pub fn frames_moved(
    alloc: Global,
    frames: &[FullFrame],
    places: &Places,
    local: usize,
    context: u16,
) -> Result<Seq<FullFrame>, AllocError>
    requires few { All (λ f. MovedFrames.widths f.locals ≤ local) frames.now }
    requires near { local ≤ 0xffff }
    ensures { IfOk result (λ moved. moved ≡ map (moved_frame (in_table places.now) local context) frames.now) }
{
    let mut moved = Seq::new(alloc);
    for frame in frames {
        let one = frame_moved(alloc, frame, places, local, context)?;
        moved.push(one)?;
    }
    Ok(moved)
}
