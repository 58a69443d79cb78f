ghost use Rattle.std.specs.Prelude.{◌≡◌, IfOk, map};
ghost use Rattle.jresolution.specs.jprogram.ProgramClasses.{name_at};
ghost use Rattle.jtypes.specs.declared.vtype.VType.TheVariants as types;
ghost use Rattle.jresolution.specs.juses.InternedTypes.{class_named};
ghost use Rattle.jsemantics.specs.jmachine.ObjectInstructions;
ghost use Rattle.jsemantics.specs.ProofNames;
ghost use Rattle.jsemantics.specs.jmachine.Unwinding.{told_name};

use jground::jbase::FaultOrMemory;
use jground::jtext::Units;
use jlinking::jlink::LinkedProgram;
use jresolution::jprogram::ClassRef;
use std::alloc::{AllocError, Global};

/// A dot for a slash.
fn dotted(unit: u16) -> u16
    ensures { result ≡ ProofNames.dotted unit }
{
    if unit == u16::from(b'/') {
        return u16::from(b'.');
    }
    unit
}

/// The units that bytes of a class file hold, none where they are no text.
#[tactic(auto, unfolding(jsemantics::specs::jmachine::ObjectInstructions::units_of))]
fn units_held(alloc: Global, bytes: &[u8]) -> Result<Units, AllocError>
    ensures { IfOk result (λ units. units ≡ ObjectInstructions.units_of bytes.now) }
{
    match jground::jtext::units_of(alloc, bytes) {
        Ok(units) => Ok(units),
        Err(FaultOrMemory::Memory) => Err(AllocError),
        Err(FaultOrMemory::Fault(_)) => Ok(Units::new(alloc)),
    }
}

/// Puts a dot in the place of each slash of a text.
fn with_dots(units: Units) -> Units
    ensures { result ≡ map ProofNames.dotted units }
{
    let mut told = units.into_vec();
    for unit in told.iter_mut() {
        *unit = dotted(*unit);
    }
    Units::from_vec(told)
}

/// The name of a class as it is told, with dots.
#[tactic(auto, unfolding(jsemantics::specs::jmachine::Unwinding::told_name))]
pub(crate) fn told_name(
    alloc: Global,
    program: &LinkedProgram,
    class: ClassRef,
) -> Result<Units, AllocError>
    ensures { IfOk result (λ units. units ≡ told_name (types.Object (class_named program.now class))) }
{
    let units = units_held(alloc, program.name_of(class))?;
    Ok(with_dots(units))
}
