ghost use Rattle.std.specs.Prelude.{◌≡◌, ◌≤◌, IfOk, OnOk, length};
ghost use Rattle.jresolution.specs.jprogram.NameTable.{ArePlaces, Notes};

use crate::jprogram::part::CodePart;
use crate::jprogram::parts::this_name;
use std::alloc::{AllocError, Global};
use std::collections::BTreeMap;

/// Gives a name a place, unless it has one already.
fn note(
    alloc: Global,
    places: &mut BTreeMap<Vec<u8>, u32>,
    name: &[u8],
    i: u32,
) -> Result<(), AllocError>
    ensures { OnOk result (Notes name.now i places.old places.new) }
{
    if places.contains_key(name) {
        return Ok(());
    }
    let own = Vec::from_slice(alloc, name)?;
    places.insert(own, i)?;
    Ok(())
}

/// The places of classes by their names: of a name that several have the first.
pub fn places_of(alloc: Global, parts: &[CodePart]) -> Result<BTreeMap<Vec<u8>, u32>, AllocError>
    requires { length parts.now ≤ 0xffff }
    ensures { IfOk result (λ places. ArePlaces parts.now places) }
{
    let mut places = BTreeMap::new(alloc);
    for (i, part) in parts.iter().enumerate() {
        note(alloc, &mut places, this_name(part.class.parts()), i as u32)?;
    }
    Ok(places)
}
