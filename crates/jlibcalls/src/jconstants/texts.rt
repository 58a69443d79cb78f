ghost use Rattle.std.specs.Prelude.{◌≡◌, IfOk, option_map, slice_get};
ghost use Rattle.jresolution.specs.jprogram.ClassFileParts.{text};
ghost use Rattle.jresolution.specs.juses.PoolTables.{pool_at};
ghost use Rattle.jsemantics.specs.jmachine.ObjectInstructions;
ghost use Rattle.jlibcalls.specs.jconstants.StringConstants.{units_at};

use jground::jbase::FaultOrMemory;
use jground::jtext::Units;
use jlinking::jlink::LinkedProgram;
use jresolution::jprogram::{CodePart, text_at};
use std::alloc::{AllocError, Global};

/// The part of a class.
fn part_at(parts: &[CodePart], class: u32) -> Option<&CodePart>
    ensures { option_map (λ part. part.now) result ≡ slice_get parts.now class }
{
    parts.get(class as usize)
}

/// The bytes of the text at an index of a class's pool, none where no text is there.
fn bytes_at(p: &LinkedProgram, class: u32, index: u16) -> &[u8]
    ensures { result.now ≡ text (pool_at p.now class) index }
{
    match part_at(p.parts(), class) {
        None => &[],
        Some(part) => text_at(&part.class.parts().pool, index),
    }
}

/// The units that bytes of a class file hold, none where they are no text.
#[tactic(auto, unfolding(jsemantics::specs::jmachine::ObjectInstructions::units_of))]
fn units_held(alloc: Global, bytes: &[u8]) -> Result<Units, AllocError>
    ensures { IfOk result (λ units. units ≡ ObjectInstructions.units_of bytes.now) }
{
    match jground::jtext::units_of(alloc, bytes) {
        Ok(units) => Ok(units),
        Err(FaultOrMemory::Memory) => Err(AllocError),
        Err(FaultOrMemory::Fault(_)) => Ok(Units::new(alloc)),
    }
}

/// The units of the text at an index of a class's pool.
pub(crate) fn units_of(
    alloc: Global,
    p: &LinkedProgram,
    class: u32,
    index: u16,
) -> Result<Units, AllocError>
    ensures { IfOk result (λ units. units ≡ units_at p.now class index) }
{
    units_held(alloc, bytes_at(p, class, index))
}
