ghost use Rattle.std.specs.Prelude.{◌≡◌, MatchResult};
ghost use Rattle.jlib.specs.declared.side.Side.TheVariants as sides;
ghost use Rattle.jtyping.specs.jwelltyped.WellTypedness.{ProgramIsTyped};
ghost use Rattle.jtyping.specs.jwelltyped.VerifierTests.{WellTyped};

use jlib::Side;
use jlinking::jlink::LinkedProgram;
use std::marker::Model;

/// A program that links and is well typed (JVMS 4.10): only [`check`](crate::check) makes one.
#[derive(Drop)]
pub struct CheckedProgram {
    pub(crate) program: LinkedProgram,
}

impl Model for CheckedProgram {
    ghost use Rattle.jresolution.specs.jprogram.ProgramClasses.{Program};
    ghost use Rattle.jtyping.specs.jwelltyped.VerifierTests.{WellTyped};

    ghost Value = { Program };

    ghost view = { λ p. p.program };

    ghost invariant = { λ p. WellTyped p.program };
}

/// A program of the passing side that links and is well typed: it runs without a look at frames. Only
/// [`CheckedProgram::into_plain`] and [`PlainProgram::proved`] make one.
#[derive(Drop)]
pub struct PlainProgram {
    program: LinkedProgram,
}

impl Model for PlainProgram {
    ghost use Rattle.std.specs.Prelude.{◌≡◌};
    ghost use Rattle.jlib.specs.declared.side.Side.TheVariants.{Passing};
    ghost use Rattle.jresolution.specs.jprogram.ProgramClasses.{Program};
    ghost use Rattle.jtyping.specs.jwelltyped.VerifierTests.{WellTyped};

    ghost Value = { Program };

    ghost view = { λ p. p.program };

    ghost invariant = { λ p. WellTyped p.program × (p.program.side ≡ Passing) };
}

impl CheckedProgram {
    /// The program.
    pub fn linked(&self) -> &LinkedProgram
        ensures same { result.now ≡ self.now }
        ensures typed { ProgramIsTyped self.now }
        ensures well { WellTyped self.now }
    {
        &self.program
    }

    /// The program as one of the passing side; exactly one of the source side is handed back. It takes no memory.
    pub fn into_plain(self) -> Result<PlainProgram, CheckedProgram>
        ensures { MatchResult result (λ q. (q ≡ self) × (self.side ≡ sides.Passing)) (λ q. (q ≡ self) × (self.side ≡ sides.Source)) }
    {
        match self.program.side() {
            Side::Source => Err(self),
            Side::Passing => Ok(PlainProgram {
                program: self.program,
            }),
        }
    }
}

impl PlainProgram {
    /// A program that is known to be well typed: nothing of it is looked at. It takes no memory.
    pub fn proved(program: LinkedProgram) -> PlainProgram
        requires side { program.side ≡ sides.Passing }
        requires typed { WellTyped program }
        ensures { result ≡ program }
    {
        PlainProgram { program }
    }

    /// The program.
    pub fn linked(&self) -> &LinkedProgram
        ensures same { result.now ≡ self.now }
        ensures side { self.now.side ≡ sides.Passing }
        ensures typed { ProgramIsTyped self.now }
        ensures well { WellTyped self.now }
    {
        &self.program
    }
}
