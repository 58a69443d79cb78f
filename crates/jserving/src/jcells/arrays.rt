ghost use Rattle.std.specs.Prelude.{◌≡◌, ◌≤◌, ◌^◌, IfOk, OnOk, length};
ghost use Rattle.jlib.specs.declared.classes.LibClass.TheVariants as lib;
ghost use Rattle.jresolution.specs.declared.jprogram.part.ClassRef.TheVariants as refs;
ghost use Rattle.jresolution.specs.juses.PoolTables.{Grows};
ghost use Rattle.jresolution.specs.declared.juses.types.ElementRef.TheVariants as elements;
ghost use Rattle.jruntime.specs.declared.jstate.shapes.Shapes.{Shapes};
ghost use Rattle.jserving.specs.jcells.ArrayTypeNumbers;
ghost use Rattle.jserving.specs.jcells.ArrayTypeNumbers.{AreRows, HasArray};

use jground::jbase::Seq;
use jlib::LibClass;
use jparts::jcode::ArrayType;
use jready::Tables;
use jresolution::jprogram::ClassRef;
use jresolution::juses::{ArrayRef, ElementRef};
use jruntime::jstate::{ROWS, array_number};
use std::alloc::{AllocError, Global};

/// The heap's numbers for the types of arrays of numbers.
#[derive(Clone, Copy, Debug)]
pub struct NumberArrays {
    pub boolean: u32,
    pub char: u32,
    pub byte: u32,
    pub short: u32,
    pub int: u32,
    pub long: u32,
}

impl NumberArrays {
    /// That for the arrays of such numbers.
    #[inline]
    pub fn of(self, kind: ArrayType) -> u32
        ensures { result ≡ ArrayTypeNumbers.array_number self kind }
    {
        match kind {
            ArrayType::Boolean => self.boolean,
            ArrayType::Char => self.char,
            ArrayType::Byte => self.byte,
            ArrayType::Short => self.short,
            ArrayType::Int => self.int,
            ArrayType::Long => self.long,
        }
    }
}

/// The types of arrays that have rows, by the heap's numbers for them.
#[derive(Drop)]
pub(crate) struct Arrays {
    pub types: Seq<ArrayRef>,
    /// The number of the arrays of strings.
    pub strings: u32,
}

/// The heap's numbers for the arrays of numbers: they say themselves what their arrays hold, and have no row.
pub(crate) fn number_arrays() -> NumberArrays
    ensures { (shapes : Shapes) → AreRows shapes result }
{
    let boolean = array_number(ArrayType::Boolean);
    let char = array_number(ArrayType::Char);
    let byte = array_number(ArrayType::Byte);
    let short = array_number(ArrayType::Short);
    let int = array_number(ArrayType::Int);
    let long = array_number(ArrayType::Long);
    NumberArrays {
        boolean,
        char,
        byte,
        short,
        int,
        long,
    }
}

/// Puts the type of the arrays of such elements behind others, and answers its number. There is room for as many as there are numbers for rows.
fn put(types: &mut Seq<ArrayRef>, element: ElementRef) -> Result<u32, AllocError>
    ensures own { IfOk result (HasArray types.new element) }
    ensures few { OnOk result (length types.new ≤ 2 ^ 31) }
    ensures grows { OnOk result (Grows types.old types.new) }
{
    let number = types.as_slice().len();
    if number >= ROWS as usize {
        return Err(AllocError);
    }
    types.push(ArrayRef { depth: 1, element })?;
    Ok(number as u32)
}

/// The types of all arrays but those of numbers: those that instructions name stand first.
pub(crate) fn arrays_of(alloc: Global, tables: &Tables) -> Result<Arrays, AllocError>
    ensures grows { IfOk result (λ a. Grows tables.now.arrays a.types) }
    ensures few { IfOk result (λ a. length a.types ≤ 2 ^ 31) }
    ensures strings { IfOk result (λ a. HasArray a.types (elements.Class (refs.Lib lib.String)) a.strings) }
{
    let mut types = tables.arrays.copy(alloc)?;
    let strings = put(
        &mut types,
        ElementRef::Class(ClassRef::Lib(LibClass::String)),
    )?;
    Ok(Arrays { types, strings })
}
