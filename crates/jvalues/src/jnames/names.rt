/// An instruction that divides (opcodes 0x6c, 0x6d, 0x70 and 0x71).
#[rattlefmt::skip]
#[derive(Clone, Copy, Debug, PartialEq, Eq)]
pub enum Division { Idiv, Irem, Ldiv, Lrem }

/// An instruction that computes with two operands and doesn't divide (opcodes 0x60 to 0x83, and lcmp).
#[rattlefmt::skip]
#[derive(Clone, Copy, Debug, PartialEq, Eq)]
pub enum OpTwo { Iadd, Ladd, Isub, Lsub, Imul, Lmul, Ishl, Lshl, Ishr, Lshr, Iushr, Lushr, Iand, Land, Ior, Lor, Ixor, Lxor, Lcmp }

/// An instruction that computes with one operand.
#[rattlefmt::skip]
#[derive(Clone, Copy, Debug, PartialEq, Eq)]
pub enum OpOne { Ineg, Lneg, I2l, L2i, I2b, I2c, I2s }

/// How a branch compares two ints, or two references.
#[rattlefmt::skip]
#[derive(Clone, Copy, Debug, PartialEq, Eq)]
pub enum Compare { Eq, Ne, Lt, Ge, Gt, Le }

/// An instruction that moves the newest items of the stack (opcodes 0x57 to 0x5f).
#[rattlefmt::skip]
#[derive(Clone, Copy, Debug, PartialEq, Eq)]
pub enum Shuffle { Pop, Pop2, Dup, DupX1, DupX2, Dup2, Dup2X1, Dup2X2, Swap }
