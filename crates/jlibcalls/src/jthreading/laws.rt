ghost use Rattle.jlibcalls.specs.jthreading.ThreadLaws.{InitAsks, InitAsksNothing, InitIsStuck, OthersAskNothing};

use jruntime::jstate::heap_laws;

/// The laws of calls of Thread: its constructor asks what the thread inherits, with the context that it is given; with other operands it
/// asks nothing, and there is no step; and the other calls ask nothing. It does nothing; its contract is the laws.
pub fn init_laws<M>()
    ensures asks { InitAsks }
    ensures nothing { InitAsksNothing }
    ensures stuck { InitIsStuck M }
    ensures others { OthersAskNothing }
{
    heap_laws();
}
