ghost use Rattle.std.specs.Prelude.{IfOk, OnOk};
ghost use Rattle.jlibcalls.specs.jlibrary.LibraryOutcomes.{IsAskFree};
ghost use Rattle.jstepping.specs.jcore.AnsweredCalls.{Calling};
ghost use Rattle.jstepping.specs.jcore.MachineInvariants.{StaysFixed};
ghost use Rattle.jcalling.specs.jcallplain.LibraryRuns.{MayTell, RanIn};

use jlib::LibCall;
use jlibcalls::jlibrary::{CallEnvironment, Done, run};
use jserving::jcells::alike_laws;
use jstepping::jcore::{Machine, machine_laws};
use std::alloc::{AllocError, Global};

/// Runs the library in the running thread, with so many operands of its newest frame.
pub(crate) fn run_call<M: Copy>(
    alloc: Global,
    m: &mut Machine<'_, '_, M>,
    call: LibCall,
    count: usize,
) -> Result<Done, AllocError>
    requires calling { Calling m.old count }
    requires free { IsAskFree call }
    requires told { MayTell m.old call count }
    ensures ran { IfOk result (λ done. RanIn m.old call count done m.new) }
    ensures fixed { OnOk result (StaysFixed m.old m.new) }
{
    machine_laws::<M>();
    alike_laws::<M>();
    let fixed = CallEnvironment {
        shapes: m.fixed.shapes,
        cwd: &m.plan.cwd,
        thread: m.guests.at,
    };
    match &mut m.guests.running.frames {
        Some(frames) => {
            let done = run(
                alloc,
                frames,
                &mut m.heap,
                &mut m.permissions,
                &fixed,
                call,
                count,
            )?;
            Ok(done)
        }
        None => unreachable!(),
    }
}
