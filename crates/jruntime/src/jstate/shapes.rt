ghost use Rattle.jruntime.specs.jstate.ObjectCells.{BehindStaysCelled, HasWanted, MadeStaysCelled, MoreStayCelled, NoneAreCelled, WantsAsClass, WrittenStaysCelled};
ghost use Rattle.jruntime.specs.jstate.ClassNumbers.{GivesBack};
ghost use Rattle.jruntime.specs.jstate.HeapMeaningLaws.{AddsOne, IsEnough, Makes, Reads, ReadsNone, SeesEach, Writes, WritesField, WritesItem, WritesStatic};
ghost use Rattle.jruntime.specs.jstate.HeapMeaningLaws.{KeepsPieces, MadeStaysBuilt, MoreStaysBuilt, NamedStaysBuilt, WrittenStaysBuilt};

use jground::jbase::Seq;
use jmemory::jheap::CellType;
use jresolution::juses::ArrayRef;

/// What objects of a user's class hold.
#[derive(Drop)]
pub struct Shape {
    /// The types of their fields.
    pub cells: Seq<CellType>,
    /// They can be thrown, so that they have a message, in a cell behind their fields.
    pub message: bool,
}

/// What stands in the heap's cells.
#[derive(Drop)]
pub struct Shapes {
    /// Of the objects of each user's class, by its place among the parts.
    pub users: Seq<Shape>,
    /// The types of arrays, by the heap's numbers for them.
    pub arrays: Seq<ArrayRef>,
    /// Of the static fields of all classes, in their order.
    pub statics: Seq<CellType>,
}

/// The law of the heap's numbers for classes: a class is that of its number. It has no body to run; its contract is the law.
#[tactic(auto, using(crate::proofs::JstateProofs::ClassNumbers::gives_back))]
pub fn number_laws()
    ensures { GivesBack }
{}

/// The laws of what a heap stands for: the object of a number is what the heap holds there, and what is made is one more object, and a
/// cell that is written changes its object alone, of which it is a field or an item. It has no body to run; its contract is the laws.
pub fn heap_laws()
    ensures each { SeesEach }
    ensures makes { Makes }
    ensures writes { Writes }
    ensures field { WritesField }
    ensures item { WritesItem }
    ensures statics { WritesStatic }
{}

/// The laws of what cells hold. It has no body to run; its contract is the laws.
pub fn cell_laws()
    ensures reads { Reads }
    ensures none { ReadsNone }
{}

/// What holds of the pieces of builders holds behind what rows do: what is made names no piece, and so does what they write. It has no
/// body to run; its contract is the laws.
pub fn built_laws()
    ensures made { MadeStaysBuilt }
    ensures written { WrittenStaysBuilt }
{}

/// The laws of builders and their pieces: one more object, with any cells, is one more, and keeps what holds of the pieces where those are
/// there that it names; so does a cell that is written. What pieces hold stays, and as many steps as its number lead from one to the first.
/// It has no body to run; its contract is the laws.
pub fn piece_laws()
    ensures adds { AddsOne }
    ensures more { MoreStaysBuilt }
    ensures named { NamedStaysBuilt }
    ensures keeps { KeepsPieces }
    ensures enough { IsEnough }
{}

/// What holds of the cells that objects have holds behind what rows do: what is made has as many as its class wants, and what is written
/// changes nothing of that. It has no body to run; its contract is the laws.
pub fn celled_laws()
    ensures none { NoneAreCelled }
    ensures more { MoreStayCelled }
    ensures made { MadeStaysCelled }
    ensures written { WrittenStaysCelled }
    ensures behind { BehindStaysCelled }
    ensures wants { WantsAsClass }
    ensures has { HasWanted }
{}
