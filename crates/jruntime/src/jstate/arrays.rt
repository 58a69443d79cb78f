ghost use Rattle.std.specs.Prelude.{◌≡◌};
ghost use Rattle.jruntime.specs.jstate.ArrayNumbers;
ghost use Rattle.jruntime.specs.jstate.ArrayNumbers.{SaysNumbers};
ghost use Rattle.jruntime.specs.jstate.HeapMeanings.{array_at, row_at};

use crate::jstate::shapes::Shapes;
use jparts::jcode::ArrayType;
use jresolution::juses::{ArrayRef, ElementRef};

/// So many of the heap's numbers for types of arrays are for rows of the table of types: 2 ^ 31.
pub const ROWS: u32 = 0x8000_0000;

/// The heap's number for the arrays of such numbers.
#[inline]
pub fn array_number(kind: ArrayType) -> u32
    ensures { result ≡ ArrayNumbers.array_number kind }
{
    match kind {
        ArrayType::Boolean => ROWS,
        ArrayType::Char => ROWS + 1,
        ArrayType::Byte => ROWS + 2,
        ArrayType::Short => ROWS + 3,
        ArrayType::Int => ROWS + 4,
        ArrayType::Long => ROWS + 5,
    }
}

/// What the low three bits of such a number say.
#[inline]
fn numbers_by(bits: u32) -> ArrayType
    ensures { result ≡ ArrayNumbers.numbers_by bits }
{
    match bits {
        0 => ArrayType::Boolean,
        1 => ArrayType::Char,
        2 => ArrayType::Byte,
        3 => ArrayType::Short,
        4 => ArrayType::Int,
        _ => ArrayType::Long,
    }
}

/// The numbers that the arrays of a number of the heap hold, where that is no row of the table of types.
#[inline]
#[tactic(auto, unfolding(crate::specs::jstate::ArrayNumbers::numbers_at))]
pub fn numbers_at(number: u32) -> Option<ArrayType>
    ensures { result ≡ ArrayNumbers.numbers_at number }
{
    if number < ROWS {
        return None;
    }
    Some(numbers_by(number % 8))
}

/// Such numbers as elements of arrays.
#[inline]
pub fn element_of(kind: ArrayType) -> ElementRef
    ensures { result ≡ ArrayNumbers.element_of kind }
{
    match kind {
        ArrayType::Boolean => ElementRef::Boolean,
        ArrayType::Char => ElementRef::Char,
        ArrayType::Byte => ElementRef::Byte,
        ArrayType::Short => ElementRef::Short,
        ArrayType::Int => ElementRef::Int,
        ArrayType::Long => ElementRef::Long,
    }
}

/// The type of the arrays of a row of the table.
#[inline]
pub fn row_type(shapes: &Shapes, row: u32) -> ArrayRef
    ensures { result ≡ row_at shapes.now row }
{
    match shapes.arrays.as_slice().get(row as usize) {
        None => ArrayRef {
            depth: 1,
            element: ElementRef::Int,
        },
        Some(a) => *a,
    }
}

/// The type of the arrays of a number of the heap.
#[inline]
#[tactic(auto, unfolding(crate::specs::jstate::HeapMeanings::array_at))]
pub fn array_type(shapes: &Shapes, number: u32) -> ArrayRef
    ensures { result ≡ array_at shapes.now number }
{
    match numbers_at(number) {
        None => row_type(shapes, number),
        Some(kind) => ArrayRef {
            depth: 1,
            element: element_of(kind),
        },
    }
}

/// The law of the heap's numbers for the arrays of numbers: each says which they hold. It has no body to run; its contract is the law.
#[tactic(auto, using(crate::proofs::JstateProofs::ArrayTypeNumbers::says_numbers))]
pub fn array_laws()
    ensures { SaysNumbers }
{}
