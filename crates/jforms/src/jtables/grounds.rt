ghost use Rattle.std.specs.Prelude.{◌≡◌, IfOk};
ghost use Rattle.jrows.specs.jcalls.FrameMarks.{marks_of};
ghost use Rattle.jforms.specs.jtables.RunTables.{IsGround, IsShaped};

use jground::jbase::Seq;
use jguard::Guard;
use jlinking::jlink::LinkedProgram;
use jready::Ready;
use jserving::jcells::{Shaped, shapes_of};
use jserving::jfits::Ancestors;
use std::alloc::{AllocError, Global};

/// What stands as long as a program runs. Engines of the program borrow it. `M` is what a frame carries.
#[derive(Drop)]
pub struct EngineTables<'p, M> {
    /// The program by number.
    pub(crate) ready: Ready<'p>,
    /// What stands in the heap's cells.
    pub(crate) shaped: Shaped,
    /// What stands above its classes.
    pub(crate) ancestors: Ancestors<'p>,
    /// What frames carry of the methods of each class.
    pub(crate) marks: Seq<M>,
}

/// The marks of the methods of each class.
fn marks_by<G: Guard>(
    alloc: Global,
    program: &LinkedProgram,
    guard: &G,
) -> Result<Seq<G::Mark>, AllocError>
    ensures { IfOk result (λ marks. marks ≡ marks_of G.mark program.now) }
{
    let mut marks = Seq::new(alloc);
    for part in program.parts() {
        marks.push(guard.mark_of(part.domain))?;
    }
    Ok(marks)
}

/// The program by number, and what stands in the heap's cells.
fn ready_by<'p>(
    alloc: Global,
    program: &'p LinkedProgram,
) -> Result<(Ready<'p>, Shaped), AllocError>
    ensures { IfOk result (λ both. IsShaped program.now both.0 both.1) }
{
    let ready = Ready::of(alloc, program)?;
    let Ok(shaped) = shapes_of(alloc, &ready) else {
        drop(ready);
        return Err(AllocError);
    };
    Ok((ready, shaped))
}

impl<'p, M> EngineTables<'p, M> {
    /// What stands as long as a program runs whose asks this guard answers.
    pub fn of<G: Guard<Mark = M>>(
        alloc: Global,
        program: &'p LinkedProgram,
        guard: &G,
    ) -> Result<EngineTables<'p, M>, AllocError>
        ensures { IfOk result (IsGround program.now G.mark) }
    {
        // What has the most to drop comes last.
        let marks = marks_by(alloc, program, guard)?;
        let ancestors = Ancestors::of(alloc, program)?;
        let Ok((ready, shaped)) = ready_by(alloc, program) else {
            drop(ancestors);
            return Err(AllocError);
        };
        Ok(EngineTables {
            ready,
            shaped,
            ancestors,
            marks,
        })
    }
}
