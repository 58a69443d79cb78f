ghost use Rattle.jstepping.specs.jcore.MidStepMachines.{IsNumbered, LeftIsBehind, LeftIsMachine, RaisedIsMachine, StaysOn};

use jruntime::jguests::guest_laws;
use jserving::jcells::alike_laws;

/// The laws of a machine in the midst of a step: what holds of it, and what it stands for. It does nothing; its contract is the laws.
pub fn machine_laws<M>()
    ensures machine { LeftIsMachine M }
    ensures raised { RaisedIsMachine M }
    ensures behind { LeftIsBehind M }
    ensures number { IsNumbered M }
    ensures fixed { StaysOn M }
{
    guest_laws::<M>();
    alike_laws::<M>();
}
