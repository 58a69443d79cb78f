ghost use Rattle.std.specs.Prelude.{◌≡◌, ◌++◌, ◌∷◌, [], IfOk, None, OnOk};
ghost use Rattle.jresolution.specs.jprogram.NameTable.{place_at};
ghost use Rattle.jlibcalls.specs.jconstants.StringConstants.{IsTable, made_in, units_at};

use crate::jconstants::known::rows_of;
use jground::jbase::Seq;
use jground::jtext::Units;
use jlinking::jlink::LinkedProgram;
use std::alloc::{AllocError, Global};
use std::collections::BTreeMap;

/// A constant that was made.
#[derive(Clone, Copy)]
pub struct MadeText {
    /// The class in whose pool its text stands.
    pub class: u32,
    /// The index of its text.
    pub index: u16,
    pub object: u32,
}

/// What is kept of the constants that were made.
#[derive(Drop)]
pub struct Table<'p> {
    pub program: &'p LinkedProgram,
    /// They, in their order.
    pub made: Vec<MadeText>,
    /// Their objects by their units.
    pub objects: BTreeMap<Vec<u16>, u32>,
    /// Of each class and each index of its pool the object of the constant there, where it is known, else 0.
    pub known: Vec<Seq<u32>>,
}

/// What is kept where no constant was made.
pub(crate) fn table_of<'p>(
    alloc: Global,
    program: &'p LinkedProgram,
) -> Result<Table<'p>, AllocError>
    ensures made { IfOk result (λ t. made_in t ≡ record { program = program.now; constants = [] }) }
    ensures table { IfOk result IsTable }
{
    let known = rows_of(alloc, program)?;
    Ok(Table {
        program,
        made: Vec::new(alloc),
        objects: BTreeMap::new(alloc),
        known,
    })
}

/// The object of the constant of these units, where it was made.
pub(crate) fn object_of(objects: &BTreeMap<Vec<u16>, u32>, units: &[u16]) -> Option<u32>
    ensures { result ≡ place_at objects.now units.now }
{
    objects.get(units).copied()
}

/// Puts a constant that was made behind the others. Its units are those of its text, and there was none of them. After an error there
/// are the same constants.
pub(crate) fn put(table: &mut Table<'_>, one: MadeText, units: Units) -> Result<(), AllocError>
    requires units { units ≡ units_at table.old.program.now one.class one.index }
    requires new { place_at table.old.objects units ≡ None }
    requires table { IsTable table.old }
    ensures made { OnOk result (table.new.made.items ≡ table.old.made.items ++ one ∷ []) }
    ensures table { IsTable table.new }
    ensures same { table.new.program.now ≡ table.old.program.now }
{
    table.made.reserve(1)?;
    table.objects.insert(units.into_vec(), one.object)?;
    table.made.push_reserved(one);
    Ok(())
}
