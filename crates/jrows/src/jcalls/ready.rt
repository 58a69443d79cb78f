ghost use Rattle.std.specs.Prelude.{◌≡◌, is_some, true};
ghost use Rattle.jmemory.specs.jheap.Heaps.{cells_at, object_at};
ghost use Rattle.jresolution.specs.declared.jprogram.part.ClassRef.TheVariants as refs;
ghost use Rattle.jruntime.specs.jstate.ClassNumbers;
ghost use Rattle.jruntime.specs.jstate.HeapMeanings.{Things, first, number_in};
ghost use Rattle.jrows.specs.jcalls.Readiness;
ghost use Rattle.jrows.specs.jcalls.Readiness.{AreCounted, holds_counted, needed, ready_by, ready_counted};

use jlib::LibClass;
use jmemory::jheap::{CellType, Heap, Kind};
use jresolution::jprogram::ClassRef;
use jruntime::jstate::class_numbered;
use jvalues::jops::Value;

/// What an object has to hold before it may be used.
#[derive(Clone, Copy, Debug, PartialEq, Eq)]
pub enum Needs {
    Nothing,
    /// A string's units, which no object holds that `new` made.
    Units,
    /// A permission, by its number in its first cell.
    Permission,
    /// A context, likewise.
    Context,
    /// A thread, likewise.
    Thread,
}

/// How many permissions and contexts the machine keeps.
#[derive(Clone, Copy, Debug, PartialEq, Eq)]
pub struct Counts {
    pub permissions: usize,
    pub contexts: usize,
}

/// What an object of a class of the library has to hold.
#[inline(always)]
fn library_needs(class: LibClass) -> Needs
    ensures { result ≡ needed (refs.Lib class) }
{
    match class {
        LibClass::String => Needs::Units,
        LibClass::Permission(_) => Needs::Permission,
        LibClass::AccessControlContext => Needs::Context,
        LibClass::Thread => Needs::Thread,
        _ => Needs::Nothing,
    }
}

/// What an object of a class has to hold.
#[inline(always)]
pub fn needs_of(class: u32) -> Needs
    ensures { result ≡ needed (ClassNumbers.class_numbered class) }
{
    match class_numbered(class) {
        ClassRef::User(_) => Needs::Nothing,
        ClassRef::Lib(c) => library_needs(c),
    }
}

/// Whether a number is that of one of so many things, which count from 1.
#[inline]
#[tactic(auto, using(crate::proofs::JcallsProofs::ReadyObjects::zero_outside, crate::proofs::JcallsProofs::ReadyObjects::number_within))]
fn is_within(count: usize, n: u64) -> bool
    ensures { result ≡ Readiness.is_within count n }
{
    if n == 0 {
        return false;
    }
    n - 1 < count as u64
}

/// Whether a number is that of something, and not 0 for nothing.
#[inline]
#[tactic(auto, using(crate::proofs::JcallsProofs::ReadyObjects::no_thread, crate::proofs::JcallsProofs::ReadyObjects::a_thread))]
fn is_number(n: u64) -> bool
    ensures { result ≡ is_some (number_in n) }
{
    if n == 0 {
        return false;
    }
    true
}

/// The number in an object's first cell, 0 where it has none.
#[inline]
pub fn first_cell(heap: &Heap, o: u32) -> u64
    requires { is_some (object_at heap.now o) ≡ true }
    ensures { result ≡ first (cells_at heap.now o) }
{
    if heap.len(o) == 0 {
        return 0;
    }
    match heap.cell(o, 0, CellType::Ctx) {
        Value::Int(_) => 0,
        Value::Long(_) => 0,
        Value::Ref(_) => 0,
        Value::Ctx(n) => n,
    }
}

/// Whether an object holds what its class needs.
#[inline(always)]
#[tactic(auto, using(crate::proofs::JcallsProofs::ReadyObjects::holds_permission, crate::proofs::JcallsProofs::ReadyObjects::holds_context, crate::proofs::JcallsProofs::ReadyObjects::holds_thread,),)]
fn holds(heap: &Heap, o: u32, needs: Needs, counts: Counts) -> bool
    requires { is_some (object_at heap.now o) ≡ true }
    ensures counted { result ≡ holds_counted counts (cells_at heap.now o) needs }
    ensures holds { (things : Things) → AreCounted counts things → result ≡ Readiness.holds things (cells_at heap.now o) needs }
{
    match needs {
        Needs::Nothing => true,
        Needs::Units => false,
        Needs::Permission => is_within(counts.permissions, first_cell(heap, o)),
        Needs::Context => is_within(counts.contexts, first_cell(heap, o)),
        Needs::Thread => is_number(first_cell(heap, o)),
    }
}

/// Whether an object of a kind, which is there, may be used.
#[inline(always)]
pub fn is_ready(heap: &Heap, o: u32, kind: Kind, counts: Counts) -> bool
    requires { is_some (object_at heap.now o) ≡ true }
    ensures counted { result ≡ ready_counted counts kind (cells_at heap.now o) }
    ensures ready { (things : Things) → AreCounted counts things → result ≡ ready_by things kind (cells_at heap.now o) }
{
    match kind {
        Kind::Object(n) => holds(heap, o, needs_of(n), counts),
        Kind::Array(_) => true,
        Kind::Text => true,
        Kind::Piece => true,
    }
}

/// Whether a value is null or names an object that may be used.
#[inline]
#[tactic(auto, using(crate::proofs::JcallsProofs::ReadyObjects::none_ready, crate::proofs::JcallsProofs::ReadyObjects::object_there, crate::proofs::JcallsProofs::ReadyObjects::object_ready,),)]
pub(crate) fn is_reference(heap: &Heap, value: Value, counts: Counts) -> bool
    ensures { (things : Things) → AreCounted counts things → result ≡ Readiness.is_reference things heap.now value }
{
    match value {
        Value::Int(_) => false,
        Value::Long(_) => false,
        Value::Ctx(_) => false,
        Value::Ref(o) => {
            if o == 0 {
                return true;
            }
            match heap.found(o) {
                None => false,
                Some(kind) => is_ready(heap, o, kind, counts),
            }
        }
    }
}
