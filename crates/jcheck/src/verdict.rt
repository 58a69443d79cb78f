ghost use Rattle.std.specs.Prelude.{◌≡◌, IfOk, MatchResult, None, option_map};
ghost use Rattle.jtyping.specs.jwelltyped.VerifierTests;
ghost use Rattle.jverify.specs.MethodPlaces.{place_of};
ghost use Rattle.jcheck.specs.CheckErrors.{TypeFaultIs};

use crate::checked::CheckedProgram;
use crate::fault::TypeFault;
use jlinking::jlink::LinkedProgram;
use jverify::{Place, first_fault};
use std::alloc::{AllocError, Global};

fn fault_of(alloc: Global, p: &LinkedProgram) -> Result<Option<Place>, AllocError>
    ensures { IfOk result (λ o. option_map place_of o ≡ VerifierTests.type_fault p.now) }
{
    first_fault(alloc, p.named(), p.uses())
}

/// Accepts a program exactly where it is well typed (JVMS 4.10.1.6), else hands it back unchanged with the first place where it isn't, or
/// because no memory was left. One pass over each method, holding one frame.
#[tactic(auto, unfolding(jtyping::specs::jwelltyped::VerifierTests::WellTyped))]
pub fn check(alloc: Global, p: LinkedProgram) -> Result<CheckedProgram, (LinkedProgram, TypeFault)>
    ensures { MatchResult result (λ q. (q ≡ p) × (VerifierTests.type_fault p ≡ None))
        (λ e. (e.0 ≡ p) × TypeFaultIs (VerifierTests.type_fault p) e.1) }
{
    match fault_of(alloc, &p) {
        Ok(None) => Ok(CheckedProgram { program: p }),
        Ok(Some(Place { class, method, at })) => Err((p, TypeFault::At { class, method, at })),
        Err(_) => Err((p, TypeFault::Memory)),
    }
}
