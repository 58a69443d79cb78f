ghost use Rattle.jrows.specs.jtexts.HeapBuilders.{LastFollows};
ghost use Rattle.jrows.specs.jtexts.Messages.{TellFollows, ToldFollows};

use jruntime::jstate::celled_laws;

/// The cells that calls want of objects are there where each object has as many cells as its class wants: a builder's for its last piece,
/// and those for messages. It has no body to run; its contract is the laws.
pub fn cells_laws()
    ensures last { LastFollows }
    ensures tell { TellFollows }
    ensures told { ToldFollows }
{
    celled_laws();
}
