ghost use Rattle.std.specs.Prelude.{◌≡◌, MatchResult, None, Some, map, slice_get};
ghost use Rattle.jlib.specs.declared.side.Side.TheVariants as sides;
ghost use Rattle.jlinking.specs.jlink.LinkedPrograms.{Links};
ghost use Rattle.jtyping.specs.jwelltyped.VerifierTests.{WellTyped};
ghost use Rattle.jresolution.specs.juses.EntryUses.{AreUses};
ghost use Rattle.jmoveclass.specs.ClassLimits.{ClassErrorIs, class_limit};
ghost use Rattle.jmoveclass.specs.MovedClasses.{moved_class};
ghost use Rattle.jrewriting.specs.jrewrite.RewrittenPrograms;
ghost use Rattle.jrewriting.specs.jrewrite.RewrittenPrograms.{RewriteErrorIs, seen_part};

use crate::jrewrite::error::RewriteError;
use crate::jrewrite::part::MovedPart;
use jclass::ClassParts;
use jground::jbase::Seq;
use jlinking::jlink::LinkedProgram;
use jmoveclass::{ClassError, Limit, Moving, moved_class};
use jresolution::jprogram::CodePart;
use std::alloc::Global;

/// The moved class of a part.
fn class_of(
    alloc: Global,
    p: &LinkedProgram,
    i: u32,
    part: &CodePart,
) -> Result<ClassParts, ClassError>
    requires links { Links p.now }
    requires typed { WellTyped p.now }
    requires side { p.now.side ≡ sides.Source }
    requires part { slice_get p.now.parts i ≡ Some part.now }
    ensures { MatchResult result (λ class. (class_limit p.now part.now.domain part.now.class ≡ None)
        × (class ≡ moved_class p.now part.now.domain part.now.class))
        (ClassErrorIs (class_limit p.now part.now.domain part.now.class)) }
{
    let c = Moving {
        program: p.named(),
        uses: p.uses(),
        place: i,
        domain: part.domain,
        class: part.class.parts(),
    };
    moved_class(alloc, &c)
}

fn error_at(class: u32, error: ClassError) -> RewriteError
    ensures { result ≡ RewrittenPrograms.error_at class error }
{
    match error {
        ClassError::At(Limit { method, kind }) => RewriteError::At {
            class,
            method,
            kind,
        },
        ClassError::Memory => RewriteError::Memory,
    }
}

/// The moved classes of a program of the source side that is well typed, in its order: those of the moved program. The error is `At`
/// exactly where a limit is broken, and says the first: class by class, in each its methods in their order, and its pool last.
#[tactic(auto, unfolding(jground::specs::jbase::FirstFaults::first_along, crate::specs::jrewrite::RewrittenPrograms::limits, crate::specs::jrewrite::RewrittenPrograms::moved,),)]
pub fn moved_parts(alloc: Global, p: &LinkedProgram) -> Result<Seq<MovedPart>, RewriteError>
    requires typed { WellTyped p.now }
    requires side { p.now.side ≡ sides.Source }
    ensures { MatchResult result (λ parts. (RewrittenPrograms.limits p.now ≡ None) × (map seen_part parts ≡ (RewrittenPrograms.moved p.now).parts))
        (RewriteErrorIs (RewrittenPrograms.limits p.now)) }
{
    let mut parts = Seq::new(alloc);
    for (i, part) in p.parts().iter().enumerate() {
        let place = i as u32;
        match class_of(alloc, p, place, part) {
            Ok(class) => {
                parts.push(MovedPart {
                    domain: part.domain,
                    class,
                })?;
            }
            Err(error) => return Err(error_at(place, error)),
        }
    }
    Ok(parts)
}
