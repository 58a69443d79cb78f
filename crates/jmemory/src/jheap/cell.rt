ghost use Rattle.std.specs.Prelude.{◌≡◌, ◌%◌, ◌^◌};
ghost use Rattle.jmemory.specs.jheap.Heaps;
ghost use Rattle.jmemory.specs.jheap.ObjectLayout;
ghost use Rattle.jmemory.specs.jheap.RawValues;

use crate::jregion::Block;
use jvalues::jops::Value;

/// What an object is.
#[derive(Clone, Copy, Debug, PartialEq, Eq)]
pub enum Kind {
    /// An object of a class of the machine's, by its number.
    Object(u32),
    /// An array of an element type of the machine's, by its number.
    Array(u32),
    /// A text: a unit a cell.
    Text,
    /// What an `append` makes: a unit a cell, and the piece in front of it.
    Piece,
}

/// A look at an object: its number, what it is, how many cells it has, and where they lie. An object stays where it was made.
#[derive(Clone, Copy, Debug, PartialEq, Eq)]
pub struct Look {
    pub object: u32,
    pub kind: Kind,
    pub len: u32,
    pub(crate) block: Block,
}

/// The type of the value that a cell holds.
#[derive(Clone, Copy, Debug, PartialEq, Eq)]
pub enum CellType {
    Int,
    Long,
    Ref,
    Ctx,
}

/// What an object of so many cells costs.
#[inline]
pub(crate) fn charge(kind: Kind, len: u32) -> u64
    ensures { result ≡ Heaps.charge kind len }
{
    match kind {
        Kind::Object(_) => 1 + u64::from(len),
        Kind::Array(_) | Kind::Text | Kind::Piece => 2 + u64::from(len),
    }
}

/// The number that an object's first cell holds.
#[inline]
#[tactic(auto, unfolding(crate::specs::jheap::ObjectLayout::header))]
pub(crate) fn header(kind: Kind) -> u64
    ensures is { result ≡ ObjectLayout.header kind }
    ensures back { ObjectLayout.kind_of (ObjectLayout.header kind) ≡ kind }
{
    match kind {
        Kind::Object(n) => 4 * u64::from(n),
        Kind::Array(n) => 4 * u64::from(n) + 1,
        Kind::Text => 2,
        Kind::Piece => 3,
    }
}

/// The kind that an object's first cell says.
#[inline]
#[tactic(auto, unfolding(crate::specs::jheap::ObjectLayout::kind_of))]
pub(crate) fn kind_of(n: u64) -> Kind
    ensures { result ≡ ObjectLayout.kind_of n }
{
    match n % 4 {
        0 => Kind::Object(low_32(n / 4)),
        1 => Kind::Array(low_32(n / 4)),
        2 => Kind::Text,
        _ => Kind::Piece,
    }
}

/// How many cells stand behind an object's own.
#[inline]
pub(crate) fn behind(kind: Kind) -> u32
    ensures { result ≡ ObjectLayout.behind kind }
{
    match kind {
        Kind::Object(_) => 0,
        Kind::Array(_) | Kind::Text | Kind::Piece => 1,
    }
}

/// The number that a cell holds for a value.
#[inline]
pub(crate) fn raw(value: Value) -> u64
    ensures { result ≡ RawValues.raw value }
{
    match value {
        Value::Int(x) => u64::from(x.cast_unsigned()),
        Value::Long(x) => x.cast_unsigned(),
        Value::Ref(n) => u64::from(n),
        Value::Ctx(n) => n,
    }
}

/// The low 32 bits of a cell's number.
#[inline]
pub(crate) fn low_32(n: u64) -> u32
    ensures { result ≡ n % 2 ^ 32 }
{
    (n % 0x1_0000_0000) as u32
}

/// The value of a type that a cell with this number holds.
#[inline]
pub(crate) fn of_raw(of: CellType, n: u64) -> Value
    ensures { result ≡ RawValues.of_raw of n }
{
    match of {
        CellType::Int => Value::Int(low_32(n).cast_signed()),
        CellType::Long => Value::Long(n.cast_signed()),
        CellType::Ref => Value::Ref(low_32(n)),
        CellType::Ctx => Value::Ctx(n),
    }
}
