ghost use Rattle.std.specs.Prelude.{◌≡◌};
ghost use Rattle.jready.specs.InlineOperands.{narrow};

use jlib::{LibCall, LibClass};
use jmemory::jheap::CellType;
use jparts::jcode::{ArrayType, CastOp, Element, FieldOp, LocalForm, Returned};
use jresolution::juses::{Condition, InvokeKind, Span};
use jvalues::jnames::{Division, OpOne, OpTwo, Shuffle};
use jvalues::jops::{Value, one};

/// An instruction as it is executed (JVMS 6.5): it leads to others by their numbers in its method, and what its entry of the pool stands
/// for was looked up. What is too large for it stands in tables, by number. `pool` is always the index of the entry in its class.
#[derive(Clone, Copy, Debug)]
pub enum Instr {
    /// There is no step: behind each method, and in the place of an instruction with none behind it that would go on.
    Off,
    /// With operands alone.
    Plain(OperandOp),
    /// Pushes a constant of the pool.
    Push(Push),
    /// With a local.
    Local(LocalForm),
    /// Moves the newest items of the stack.
    Stack(Shuffle),
    /// Says where the method goes on.
    Flow(FlowInstr),
    Table(Table),
    Lookup(Lookup),
    /// With an array.
    Array(ArrayInstr),
    /// With a class.
    Object(ObjectInstr),
    /// With a user's field.
    Field {
        op: FieldOp,
        cell: CellType,
        narrow: Narrow,
        pool: u16,
        /// The place of the field: a static's among the statics of all classes, another's among those of an object.
        slot: u32,
        /// The place of the class by which it is named; no class has it where that isn't a user's.
        owner: u32,
    },
    /// Calls a user's method.
    Call {
        how: InvokeKind,
        pool: u16,
        /// Where the types of its parameters stand.
        params: Span,
        /// The method's number.
        method: u32,
    },
    /// Calls a method of the library.
    Library {
        how: InvokeKind,
        pool: u16,
        params: Span,
        call: LibCall,
    },
}

/// With operands alone.
#[derive(Clone, Copy, Debug)]
pub enum OperandOp {
    Nothing,
    /// The null reference.
    Null,
    Int(i32),
    /// The number of a long.
    Long(u32),
    Two(OpTwo),
    Divide(Division),
    One(OpOne),
}

/// Pushes a constant of the pool.
#[derive(Clone, Copy, Debug)]
pub enum Push {
    Int(i32),
    /// The number of a long.
    Long(u32),
    /// A string: the index of its text.
    Text(u16),
}

/// Says where the method goes on.
#[derive(Clone, Copy, Debug)]
pub enum FlowInstr {
    /// At a number, where its test holds.
    Jump(Condition, u32),
    Return(Returned),
    Throw,
}

/// A switch whose keys rise by one from the least. Among all targets the one of other keys stands first, and behind it those of the keys.
#[derive(Clone, Copy, Debug)]
pub struct Table {
    pub low: i32,
    pub first: u32,
    pub count: u32,
}

/// A switch by keys: where they stand among all cases, and where the method goes on for others.
#[derive(Clone, Copy, Debug)]
pub struct Lookup {
    pub first: u32,
    pub count: u32,
    pub other: u32,
}

/// With an array.
#[derive(Clone, Copy, Debug)]
pub enum ArrayInstr {
    /// Makes one of numbers.
    New(ArrayType),
    Load(Element),
    Store(Element),
    Length,
}

/// With a class.
#[derive(Clone, Copy, Debug)]
pub enum ObjectInstr {
    /// Makes an object of a user's class.
    New { pool: u16, class: u32 },
    /// Makes an object of a class of the library.
    NewLibrary { pool: u16, class: LibClass },
    /// Makes an array of references, of the type of a number.
    NewArray { pool: u16, array: u32 },
    /// Tests that a reference is of a user's class.
    CastClass { op: CastOp, pool: u16, class: u32 },
    /// Tests that a reference is of any other type.
    Cast { op: CastOp, pool: u16 },
    /// Reads the library's field, `java/lang/System.out`.
    Out { op: FieldOp, pool: u16 },
}

/// What is left of an int in the field that holds it.
#[derive(Clone, Copy, Debug, PartialEq, Eq)]
pub enum Narrow {
    Boolean,
    Byte,
    Char,
    Short,
    /// All of it; and of any other value too.
    Whole,
}

impl Narrow {
    /// What is left of a value that is put there.
    #[inline]
    #[tactic(auto, unfolding(jvalues::specs::jops::Operations::one))]
    pub fn left(self, v: Value) -> Value
        ensures { result ≡ narrow self v }
    {
        let Value::Int(n) = v else {
            return v;
        };
        match self {
            Narrow::Boolean => Value::Int(n.rem_euclid(2)),
            Narrow::Byte => one(OpOne::I2b, v),
            Narrow::Char => one(OpOne::I2c, v),
            Narrow::Short => one(OpOne::I2s, v),
            Narrow::Whole => v,
        }
    }
}

// An instruction takes 16 bytes of memory.
const _: () = prove!(size_of::<Instr>() == 16);
