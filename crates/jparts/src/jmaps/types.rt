ghost use Rattle.std.specs.Prelude.{◌≡◌, IfOk};

use jground::jbase::Seq;
use std::alloc::{AllocError, Global};

/// What a local or a stack item of a frame holds (JVMS 4.7.4, verification_type_info). Float and double are left out.
#[rattlefmt::skip]
#[derive(Clone, Copy, Debug, PartialEq, Eq)]
pub enum MapType {
    Top, Int, Long, Null, UninitThis,
    /// The object that the `new` at this place of the code made.
    Uninit(u16),
    /// An object or array of the class at this index of the pool.
    Object(u16),
}

/// A frame as it is written (JVMS 4.7.4, stack_map_frame): its type byte, its delta, and the items that stand in it. For a type
/// from 0 to 127 the delta is the one that the type gives.
#[rattlefmt::skip]
#[derive(Debug, Drop)]
pub struct RawFrame { pub form: u8, pub delta: u16, pub locals: Seq<MapType>, pub stack: Seq<MapType> }

impl RawFrame {
    /// The same frame again.
    pub fn copy(&self, alloc: Global) -> Result<RawFrame, AllocError>
        ensures { IfOk result (λ f. f ≡ self.now) }
    {
        Ok(RawFrame {
            form: self.form,
            delta: self.delta,
            locals: self.locals.copy(alloc)?,
            stack: self.stack.copy(alloc)?,
        })
    }
}

/// A frame with all that it says: the place in the code where it stands, all locals and all stack items.
#[rattlefmt::skip]
#[derive(Debug, Drop)]
pub struct FullFrame { pub at: u32, pub locals: Seq<MapType>, pub stack: Seq<MapType> }

impl FullFrame {
    /// The same frame again.
    pub fn copy(&self, alloc: Global) -> Result<FullFrame, AllocError>
        ensures { IfOk result (λ f. f ≡ self.now) }
    {
        Ok(FullFrame {
            at: self.at,
            locals: self.locals.copy(alloc)?,
            stack: self.stack.copy(alloc)?,
        })
    }
}

/// A number of a frame: its delta, or how many items there are.
#[derive(Clone, Copy, Debug, PartialEq, Eq)]
pub enum Number {
    /// The type byte gives it.
    Given(u16),
    /// It is written, in two bytes.
    Written,
}

/// What a type byte says of the frame behind it.
#[rattlefmt::skip]
#[derive(Clone, Copy, Debug, PartialEq, Eq)]
pub struct Row { pub delta: Number, pub locals: Number, pub stack: Number }
