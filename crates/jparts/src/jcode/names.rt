/// What a local holds.
#[rattlefmt::skip]
#[derive(Clone, Copy, Debug, PartialEq, Eq)]
pub enum LocalKind { Int, Long, Ref }

/// Whether a local is read or written.
#[rattlefmt::skip]
#[derive(Clone, Copy, Debug, PartialEq, Eq)]
pub enum Access { Load, Store }

/// One of the four locals that an opcode names without an operand.
#[rattlefmt::skip]
#[derive(Clone, Copy, Debug, PartialEq, Eq)]
pub enum Slot { Zero, One, Two, Three }

/// The ints that have an opcode of their own: iconst_m1 to iconst_5.
#[rattlefmt::skip]
#[derive(Clone, Copy, Debug, PartialEq, Eq)]
pub enum SmallInt { MinusOne, Zero, One, Two, Three, Four, Five }

/// The longs that have an opcode of their own: lconst_0 and lconst_1.
#[rattlefmt::skip]
#[derive(Clone, Copy, Debug, PartialEq, Eq)]
pub enum SmallLong { Zero, One }

/// What an array holds, as its loads and stores tell it apart. Booleans are held as bytes.
#[rattlefmt::skip]
#[derive(Clone, Copy, Debug, PartialEq, Eq)]
pub enum Element { Int, Long, Ref, Byte, Char, Short }

/// How a reference is compared: if_acmpeq, if_acmpne, ifnull, ifnonnull.
#[rattlefmt::skip]
#[derive(Clone, Copy, Debug, PartialEq, Eq)]
pub enum RefTest { Same, Other, Null, NonNull }

/// What is returned.
#[rattlefmt::skip]
#[derive(Clone, Copy, Debug, PartialEq, Eq)]
pub enum Returned { Int, Long, Ref, Nothing }

/// How a field is used.
#[rattlefmt::skip]
#[derive(Clone, Copy, Debug, PartialEq, Eq)]
pub enum FieldOp { GetStatic, PutStatic, GetField, PutField }

/// How a method is called, but by its interface.
#[rattlefmt::skip]
#[derive(Clone, Copy, Debug, PartialEq, Eq)]
pub enum CallOp { Virtual, Special, Static }

/// What is asked of an array or an object as it is: arraylength and athrow.
#[rattlefmt::skip]
#[derive(Clone, Copy, Debug, PartialEq, Eq)]
pub enum ObjectOp { ArrayLength, Throw }

/// How an object's class is looked at: checkcast and instanceof.
#[rattlefmt::skip]
#[derive(Clone, Copy, Debug, PartialEq, Eq)]
pub enum CastOp { CheckCast, InstanceOf }

/// What an array of newarray holds.
#[rattlefmt::skip]
#[derive(Clone, Copy, Debug, PartialEq, Eq)]
pub enum ArrayType { Boolean, Char, Byte, Short, Int, Long }
