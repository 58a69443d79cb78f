ghost use Rattle.std.specs.Prelude.{◌≡◌, ℕ, IfOk, List, MatchResult, None};
ghost use Rattle.jlib.specs.declared.side.Side.TheVariants as sides;
ghost use Rattle.jlinking.specs.jlink.LinkedPrograms.{Links};
ghost use Rattle.jresolution.specs.jprogram.MemberResolution.{main_of};
ghost use Rattle.jrewriting.specs.jrewrite.RewrittenFiles;
ghost use Rattle.jrewriting.specs.jrewrite.RewrittenFiles.{IsRewritten};
ghost use Rattle.jrewriting.specs.jrewrite.RewrittenPrograms;
ghost use Rattle.jrewriting.specs.jrewrite.RewrittenPrograms.{RewriteErrorIs};
ghost use Rattle.jtyping.specs.jwelltyped.VerifierTests.{WellTyped};

use jcheck::{CheckedProgram, PlainProgram};
use jground::jbase::Seq;
use jlinking::jlink::LinkedProgram;
use jmoved_laws::names::begin_law;
use jmoved_laws::types::types_law;
use jrewriting::jrewrite::{OutFile, RewriteError, files_of, link_law, moved_program};
use std::alloc::{AllocError, Global};
use std::marker::Model;

/// A moved program: it links on the passing side and is well typed, and each of its parts is a class file. Only [`rewrite`] makes one.
/// Contracts see it as the program.
#[derive(Drop)]
pub struct RewrittenProgram {
    program: LinkedProgram,
}

impl Model for RewrittenProgram {
    ghost use Rattle.jresolution.specs.jprogram.ProgramClasses.{Program};
    ghost use Rattle.jrewriting.specs.jrewrite.RewrittenFiles.{IsRewritten};
    ghost use Rattle.jtyping.specs.jwelltyped.VerifierTests.{WellTyped};

    ghost Value = { Program };

    ghost view = { λ p. p.program };

    ghost invariant = { λ p. IsRewritten p.program × WellTyped p.program };
}

/// The moved program of a program of the source side. The error is `At` exactly where a limit is broken, and says the first: class by
/// class, in each its methods in their order, and its pool last. Where none is broken the moved program links and is well typed.
pub fn rewrite(alloc: Global, p: &CheckedProgram) -> Result<RewrittenProgram, RewriteError>
    requires side { p.now.side ≡ sides.Source }
    ensures moved { MatchResult result (λ q. (RewrittenPrograms.limits p.now ≡ None) × (q ≡ RewrittenPrograms.moved p.now))
        (RewriteErrorIs (RewrittenPrograms.limits p.now)) }
    ensures links { RewrittenPrograms.limits p.now ≡ None → Links (RewrittenPrograms.moved p.now) }
    ensures typed { RewrittenPrograms.limits p.now ≡ None → WellTyped (RewrittenPrograms.moved p.now) }
    // The `main` of each class is the same method.
    ensures mains { IfOk result (λ q. (name : List ℕ) → main_of q name ≡ main_of p.now name) }
{
    let linked = p.linked();
    link_law();
    types_law();
    begin_law();
    let program = moved_program(alloc, linked)?;
    Ok(RewrittenProgram { program })
}

impl RewrittenProgram {
    /// The program.
    pub fn linked(&self) -> &LinkedProgram
        ensures same { result.now ≡ self.now }
        ensures moved { IsRewritten self.now }
        ensures typed { WellTyped self.now }
    {
        &self.program
    }

    /// Its class files in its order: the bytes that spell each, with the number of its code source and its name.
    pub fn files(&self, alloc: Global) -> Result<Seq<OutFile>, AllocError>
        ensures { IfOk result (λ files. files ≡ RewrittenFiles.files_of self.now) }
    {
        files_of(alloc, &self.program)
    }

    /// The program as one that runs on the passing side. It takes no memory.
    pub fn into_plain(self) -> PlainProgram
        ensures { result ≡ self }
    {
        PlainProgram::proved(self.program)
    }
}
