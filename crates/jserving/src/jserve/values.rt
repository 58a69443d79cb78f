ghost use Rattle.std.specs.Prelude.{◌≡◌, ◌<◌, None, Some, option_and_then};
ghost use Rattle.jmemory.specs.jheap.Heaps.{object_at};
ghost use Rattle.jserving.specs.jserve.ValueTypes;
ghost use Rattle.jserving.specs.jserve.ValueTypes.{type_in};

use jlib::LibClass;
use jmemory::jheap::{Heap, Kind};
use jresolution::jprogram::ClassRef;
use jresolution::juses::TypeRef;
use jrows::jcalls::{Counts, is_ready};
use jruntime::jstate::{Shapes, array_type, class_numbered};
use jvalues::jops::Value;

/// The objects of a machine: the heap, what its numbers stand for, and how many permissions and contexts the machine keeps.
#[derive(Clone, Copy)]
pub struct Objects<'a> {
    pub shapes: &'a Shapes,
    pub heap: &'a Heap,
    pub counts: Counts,
}

/// The class of an object of a kind, or the type of an array.
#[inline]
pub(crate) fn kind_type(shapes: &Shapes, kind: Kind) -> TypeRef
    ensures { result ≡ ValueTypes.kind_type shapes.now kind }
{
    match kind {
        Kind::Object(n) => TypeRef::Object(class_numbered(n)),
        Kind::Array(n) => TypeRef::Array(array_type(shapes, n)),
        Kind::Text => TypeRef::Object(ClassRef::Lib(LibClass::String)),
        Kind::Piece => TypeRef::Object(ClassRef::Lib(LibClass::StringBuilder)),
    }
}

/// The type of the object of a number, if it is there and may be used.
#[inline]
#[tactic(auto, using(crate::proofs::JserveProofs::ValueTypes::none_there, crate::proofs::JserveProofs::ValueTypes::object_there, crate::proofs::JserveProofs::ValueTypes::object_ready, crate::proofs::JserveProofs::ValueTypes::object_bare,),)]
fn object_type(x: &Objects<'_>, o: u32) -> Option<TypeRef>
    ensures { result ≡ option_and_then (ValueTypes.object_type x.now.shapes.now x.now.counts) (object_at x.now.heap.now o) }
{
    match x.heap.found(o) {
        None => None,
        Some(kind) => {
            if !is_ready(x.heap, o, kind, x.counts) {
                return None;
            }
            Some(kind_type(x.shapes, kind))
        }
    }
}

/// The type of a value by number, without a look at names. None where it names an object that may not be used yet, or isn't there.
#[inline]
#[tactic(auto, using(crate::proofs::JserveProofs::ValueTypes::null_typed, crate::proofs::JserveProofs::ValueTypes::ref_typed))]
pub(crate) fn value_type(x: &Objects<'_>, value: Value) -> Option<TypeRef>
    ensures { result ≡ type_in x.now value }
{
    match value {
        Value::Int(_) => Some(TypeRef::Int),
        Value::Long(_) => Some(TypeRef::Long),
        Value::Ctx(_) => Some(TypeRef::Ctx),
        Value::Ref(o) => {
            if o == 0 {
                return Some(TypeRef::Null);
            }
            object_type(x, o)
        }
    }
}
