ghost use Rattle.std.specs.Prelude.{◌≡◌, ◌++◌, ◌∷◌, [], IsTrue, OnOk, length, true};
ghost use Rattle.std.specs.List.{flat_map};
ghost use Rattle.jparts.specs.jmaps.StackMapFormat.{frame, map_kinds, map_type, maps, own_frame, own_type, part, row};

use crate::jmaps::rows::row_of;
use crate::jmaps::types::{MapType, Number, RawFrame};
use jground::jbase::Seq;
use jground::jformat::{Writer, put_counted, put_each, put_u8, put_u16};
use std::alloc::{AllocError, Global};

#[tactic(auto, unfolding(crate::specs::jmaps::StackMapFormat::map_type))]
fn put_type(item: MapType, out: &mut Seq<u8>) -> Result<(), AllocError>
    ensures { OnOk result (out.new ≡ out.old ++ own_type.spell item) }
{
    match item {
        MapType::Top => put_u8(0, out),
        MapType::Int => put_u8(1, out),
        MapType::Long => put_u8(4, out),
        MapType::Null => put_u8(5, out),
        MapType::UninitThis => put_u8(6, out),
        MapType::Object(class) => {
            put_u8(7, out)?;
            put_u16(class, out)
        }
        MapType::Uninit(place) => {
            put_u8(8, out)?;
            put_u16(place, out)
        }
    }
}

struct TypeWriter;

impl Writer for TypeWriter {
    type Item = MapType;

    ghost spells = { λ _. own_type.spell };

    ghost fits = { λ _ _. true };

    fn write(&self, _alloc: Global, item: &MapType, out: &mut Seq<u8>) -> Result<(), AllocError> {
        put_type(*item, out)
    }
}

/// Writes types one behind the other.
pub fn put_types(alloc: Global, items: &[MapType], out: &mut Seq<u8>) -> Result<(), AllocError>
    ensures { OnOk result (out.new ≡ out.old ++ flat_map own_type.spell items.now) }
{
    put_each(alloc, &TypeWriter, items, out)
}

fn put_number(how: Number, n: usize, out: &mut Seq<u8>) -> Result<(), AllocError>
    requires { IsTrue ((part map_kinds.truncated how).fits n) }
    ensures { OnOk result (out.new ≡ out.old ++ (part map_kinds.truncated how).spell n) }
{
    match how {
        Number::Given(_) => Ok(()),
        Number::Written => put_u16(n as u16, out),
    }
}

/// Writes a frame as it stands.
#[tactic(auto, unfolding(crate::specs::jmaps::StackMapFormat::frame))]
pub fn put_frame(alloc: Global, one: &RawFrame, out: &mut Seq<u8>) -> Result<(), AllocError>
    requires { IsTrue (own_frame.fits one.now) }
    ensures { OnOk result (out.new ≡ out.old ++ own_frame.spell one.now) }
{
    let Some(row) = row_of(one.form) else {
        // A reserved type byte fits no frame.
        return Ok(());
    };
    let locals = one.locals.as_slice();
    let stack = one.stack.as_slice();
    put_u8(one.form, out)?;
    put_number(row.delta, usize::from(one.delta), out)?;
    put_number(row.locals, locals.len(), out)?;
    put_types(alloc, locals, out)?;
    put_number(row.stack, stack.len(), out)?;
    put_types(alloc, stack, out)
}

struct FrameWriter;

impl Writer for FrameWriter {
    type Item = RawFrame;

    ghost spells = { λ _. own_frame.spell };

    ghost fits = { λ _. own_frame.fits };

    fn write(&self, alloc: Global, one: &RawFrame, out: &mut Seq<u8>) -> Result<(), AllocError> {
        put_frame(alloc, one, out)
    }
}

/// Writes frames as they stand, behind their number: the content of a StackMapTable.
#[tactic(auto, unfolding(crate::specs::jmaps::StackMapFormat::maps, crate::specs::jmaps::StackMapFormat::frames))]
pub fn put_frames(alloc: Global, frames: &[RawFrame], out: &mut Seq<u8>) -> Result<(), AllocError>
    requires { IsTrue (maps.fits frames.now) }
    ensures { OnOk result (out.new ≡ out.old ++ maps.spell frames.now) }
{
    put_counted(alloc, &FrameWriter, frames, out)
}
