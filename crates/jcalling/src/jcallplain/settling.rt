ghost use Rattle.std.specs.Prelude.{◌≡◌, IfOk, OnOk};
ghost use Rattle.std.specs.Option.{option_to_list};
ghost use Rattle.jstepping.specs.jcore.MachineOutcomes.{GoesOn};
ghost use Rattle.jstepping.specs.jcore.MachineInvariants.{StaysFixed};
ghost use Rattle.jcalling.specs.jcallplain.CallRowOutcomes.{IsLeft, Settles};

use jground::jbase::Seq;
use joutput::jtrace::Event;
use jrows::jacts::Way;
use jruntime::jrun::Came;
use jstepping::jcore::{Machine, full, raise};
use jstepping::jstep::thrown_class;
use std::alloc::{AllocError, Global};

/// What was told, if anything was, as a list.
pub(crate) fn events_of(alloc: Global, told: Option<Event>) -> Result<Seq<Event>, AllocError>
    ensures { IfOk result (λ events. events ≡ option_to_list told) }
{
    let mut events = Seq::new(alloc);
    if let Some(event) = told {
        events.push(event)?;
    }
    Ok(events)
}

/// Does what a row left to do that has told these events.
pub(crate) fn settle<M: Copy>(
    alloc: Global,
    m: &mut Machine<'_, '_, M>,
    way: Way,
    told: Seq<Event>,
) -> Result<Came, AllocError>
    requires { IsLeft m.old way }
    ensures comes { IfOk result (λ came. Settles m.old way told came m.new) }
    ensures ready { IfOk result (GoesOn m.new) }
    ensures fixed { OnOk result (StaysFixed m.old m.new) }
{
    match way {
        Way::Went => Ok(Came::Went { events: told }),
        Way::Raises(class) => {
            let came = raise(alloc, m, thrown_class(class), told)?;
            Ok(came)
        }
        Way::Full => Ok(full(alloc)),
        Way::Stuck => Ok(Came::Stuck),
        Way::Throws(_) => unreachable!(),
    }
}
