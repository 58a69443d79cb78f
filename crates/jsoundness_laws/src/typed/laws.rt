ghost use Rattle.jsoundness_laws.specs.typed.TypedCalls.{CallsComeTo, CallsDo, FramesBegin, InitsDo};
ghost use Rattle.jsoundness_laws.specs.typed.RuntimeAssignability.{FitsAfter, ImplementsFaces, InstanceFits};
ghost use Rattle.jsoundness_laws.specs.typed.ControlFlow.{StraightLeads};
ghost use Rattle.jsoundness_laws.specs.typed.StoreGrowth.{GrowsChanged, GrowsItself, GrowsMade, GrowsOn, SuitsLater};
ghost use Rattle.jsoundness_laws.specs.typed.FrameStacks.{FramesResume, FramesUnwind, StackedLater};
ghost use Rattle.jsoundness_laws.specs.typed.TypedStores.{StoredMade};
ghost use Rattle.jsoundness_laws.specs.typed.ProgressLaws.{ItselfHasCode, SelectedHasCode, StraightDoes, SuitsWider};

/// The laws of what fits what where a machine runs, in a program whose classes stand in order: of the types that values have, what fits one that
/// fits another as programs are checked fits that one; what a class implements is an interface; and an object that is one of a type, as casts
/// ask, fits it. It has no body to run; its contract is the laws.
pub fn fits_laws()
    ensures after { FitsAfter }
    ensures faces { ImplementsFaces }
    ensures instance { InstanceFits }
{}

/// The laws of typed frames. In a frame that suits, where the rule gives a frame behind an instruction that calls no method, the machine has a
/// row, and what it does suits that frame in a typed store behind; and what suits a frame suits each that this one fits. It has no body to
/// run; its contract is the laws.
pub fn frame_laws<K, E>()
    ensures straight { StraightDoes K E }
    ensures wider { SuitsWider K E }
{}

/// The law of where instructions lead that call no method, in a method whose instructions have frames: in a frame that suits its own, one is
/// done, and then the frame suits that of the instruction behind or of the one to which it jumps, or it returns what the method returns, or
/// throws what can be thrown. It has no body to run; its contract is the law.
pub fn leading_law<K, E>()
    ensures { StraightLeads K E }
{}

/// The laws of calls. In a frame that suits, where the rule gives a frame behind a call, the call is done: it comes to a user's method or to one
/// of the library that may be given its values, or to an exception. What is left suits the frame before the call less the call's operands. It
/// suits the frame behind, but for what is returned; behind an `<init>` where its object may be used. And the frame of a method begins as
/// typing says, where it is given what it may be given. It has no body to run; its contract is the laws.
pub fn calling_laws<K, E>()
    ensures comes { CallsComeTo K }
    ensures done { CallsDo K E }
    ensures inits { InitsDo K E }
    ensures begins { FramesBegin K E }
{}

/// The laws of the frames of a thread. The newest stands at an instruction. Each older one stands at a call: it suits the frame there less the
/// call's operands, and the rule's frame behind less what is returned. They are so in each store behind; with what the method that it called
/// returns, a frame goes on; and an exception that is thrown is handled by a frame that goes on with it, or by none. It has no body to run;
/// its contract is the laws.
pub fn stack_laws<K, E>()
    ensures later { StackedLater K E }
    ensures resume { FramesResume K E }
    ensures unwind { FramesUnwind K E }
{}

/// The laws of stores that come behind others: a frame that suits one store suits each behind it, and a store with one more object, or with
/// another in the place of one that may become it, is one behind. It has no body to run; its contract is the laws.
pub fn growing_laws<K, E>()
    ensures suits { SuitsLater K E }
    ensures itself { GrowsItself K }
    ensures on { GrowsOn K }
    ensures made { GrowsMade K }
    ensures changed { GrowsChanged K }
{}

/// The law of typed stores: with one more object, which holds what its class says, such a store is one again. It has no body to run; its
/// contract is the law.
pub fn store_law<K>()
    ensures { StoredMade K }
{}

/// The laws of selection: a method of the library that is selected, or is taken as it is, stands in no interface, so that it has code. It has
/// no body to run; its contract is the laws.
pub fn code_laws()
    ensures itself { ItselfHasCode }
    ensures selected { SelectedHasCode }
{}
