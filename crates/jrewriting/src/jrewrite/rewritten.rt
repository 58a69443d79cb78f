ghost use Rattle.std.specs.Prelude.{◌≡◌, All, IfOk, IsTrue, MatchResult, None, map};
ghost use Rattle.jclass.specs.Class.{class_file};
ghost use Rattle.jlib.specs.declared.side.Side.TheVariants as sides;
ghost use Rattle.jrewriting.specs.jrewrite.RewrittenFiles;
ghost use Rattle.jrewriting.specs.jrewrite.RewrittenFiles.{IsRewritten};
ghost use Rattle.jrewriting.specs.jrewrite.LinkageLaws.{IsLinked};
ghost use Rattle.jrewriting.specs.jrewrite.RewrittenPrograms;
ghost use Rattle.jrewriting.specs.jrewrite.RewrittenPrograms.{RewriteErrorIs, seen_part};
ghost use Rattle.jtyping.specs.jwelltyped.VerifierTests.{WellTyped};

use crate::jrewrite::error::RewriteError;
use crate::jrewrite::laws::{link_law, part_laws};
use crate::jrewrite::moved::moved_parts;
use crate::jrewrite::part::MovedPart;
use jclass::{ClassFile, write_class};
use jground::jbase::Seq;
use jlib::Side;
use jlinking::jlink::{LinkedProgram, link_known};
use jresolution::jprogram::{CodePart, this_name};
use std::alloc::{AllocError, Global};

// ---- the moved program

/// Each part of a program is a class file: it was read as one.
fn is_linked(p: &LinkedProgram)
    requires { p.now.side ≡ sides.Source }
    ensures { IsLinked p.now }
{
    for part in p.parts() {
        // What the proof needs: each part is a class file.
        let _parts = part.class.parts();
    }
}

/// The parts of a moved program as those of a program.
fn code_parts(alloc: Global, parts: Seq<MovedPart>) -> Result<Vec<CodePart>, AllocError>
    requires { All (λ part. IsTrue (class_file.fits part.class)) parts }
    ensures { IfOk result (λ made. made.items ≡ map seen_part parts) }
{
    let mut made = Seq::new(alloc);
    for part in parts.into_vec() {
        made.push(CodePart {
            domain: part.domain,
            class: ClassFile::from_parts(part.class),
        })?;
    }
    Ok(made.into_vec())
}

/// The moved program of a program of the source side that is well typed, as one that is linked without a second look. The error is `At`
/// exactly where a limit is broken, and says the first: class by class, in each its methods in their order, and its pool last.
pub fn moved_program(alloc: Global, p: &LinkedProgram) -> Result<LinkedProgram, RewriteError>
    requires typed { WellTyped p.now }
    requires side { p.now.side ≡ sides.Source }
    ensures moved { MatchResult result (λ q. (RewrittenPrograms.limits p.now ≡ None) × (q ≡ RewrittenPrograms.moved p.now))
        (RewriteErrorIs (RewrittenPrograms.limits p.now)) }
    ensures rewritten { IfOk result IsRewritten }
    // The program that is moved links, and each of its parts is a class file.
    ensures linked { IsLinked p.now }
{
    is_linked(p);
    let moved = moved_parts(alloc, p)?;
    part_laws();
    link_law();
    let parts = code_parts(alloc, moved)?;
    match link_known(alloc, parts, Side::Passing) {
        Ok(program) => Ok(program),
        Err(_) => Err(RewriteError::Memory),
    }
}

// ---- its class files

/// A class file of a moved program, as it is stored.
#[derive(Debug, Drop)]
pub struct OutFile {
    /// The number of its code source.
    pub domain: u32,
    /// The name of its class.
    pub name: Seq<u8>,
    /// Its bytes.
    pub bytes: Seq<u8>,
}

/// A class file of a program, with the number of its code source and its name.
fn out_file(alloc: Global, part: &CodePart) -> Result<OutFile, AllocError>
    ensures { IfOk result (λ file. file ≡ RewrittenFiles.out_file part.now) }
{
    let name = Seq::from_slice(alloc, this_name(part.class.parts()))?;
    let bytes = write_class(alloc, &part.class)?;
    Ok(OutFile {
        domain: part.domain,
        name,
        bytes: Seq::from_vec(bytes),
    })
}

/// Class files in their order.
fn out_files(alloc: Global, parts: &[CodePart]) -> Result<Seq<OutFile>, AllocError>
    ensures { IfOk result (λ files. files ≡ map RewrittenFiles.out_file parts.now) }
{
    let mut files = Seq::new(alloc);
    for part in parts {
        files.push(out_file(alloc, part)?)?;
    }
    Ok(files)
}

/// The class files of a program in its order: the bytes that spell each, with the number of its code source and its name.
#[tactic(auto, unfolding(crate::specs::jrewrite::RewrittenFiles::files_of))]
pub fn files_of(alloc: Global, p: &LinkedProgram) -> Result<Seq<OutFile>, AllocError>
    ensures { IfOk result (λ files. files ≡ RewrittenFiles.files_of p.now) }
{
    out_files(alloc, p.parts())
}
