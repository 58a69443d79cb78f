ghost use Rattle.jtyping.specs.jwelltyped.VerifierTests.{WellTyped};
ghost use Rattle.jsoundness_laws.specs.progress.SoundPrograms.{IsSound};

use jguard::Guard;
use jlinking::jlink::{LinkedProgram, are_files};
use jsoundness_laws::program::sound_law;
use jsoundness_laws::progress::OneMachine;
use std::marker::PhantomData;

/// The machine by a guard's rules, of which laws of typed states (`states_laws`) are asked.
pub struct ByRules<G> {
    guard: PhantomData<G>,
}

impl<G: Guard> OneMachine for ByRules<G> {
    ghost K = { G.Kept };

    ghost E = { G.Entry };
}

/// A program that links and is well typed is what its typed states rest on.
pub fn is_sound(p: &LinkedProgram)
    requires { WellTyped p.now }
    ensures { IsSound p.now }
{
    sound_law();
    are_files(p);
    // What the proof needs: it links.
    let _parts = p.parts();
}
