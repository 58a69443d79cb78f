ghost use Rattle.std.specs.Prelude.{◌≡◌, IfOk};
ghost use Rattle.jlib.specs.declared.side.Side.TheVariants as sides;

use jcheck::{CheckedProgram, check};
use jlib::Side;
use jlinking::jlink::{LinkError, LinkedProgram, are_parts, link};
use jmoving::{RewriteError, RewrittenProgram, rewrite};
use jresolution::jprogram::CodePart;
use std::alloc::Global;
use std::fmt;

/// A program and its moved program.
#[derive(Drop)]
pub struct Pair {
    program: CheckedProgram,
    moved: RewrittenProgram,
}

/// Why there is no moved program.
#[derive(Clone, Copy)]
pub enum Unmoved {
    Unlinked,
    Untyped,
    /// It breaks a limit.
    Limited,
    Memory,
}

impl fmt::Display for Unmoved {
    fn fmt<W: fmt::Write>(&self, f: &mut fmt::Formatter<W>) -> fmt::Result {
        f.write_str(match *self {
            Unmoved::Unlinked => "unlinked",
            Unmoved::Untyped => "untyped",
            Unmoved::Limited => "limited",
            Unmoved::Memory => "no memory",
        })
    }
}

fn why_unlinked(error: LinkError) -> Unmoved {
    match error {
        LinkError::At(_) => Unmoved::Unlinked,
        LinkError::Memory => Unmoved::Memory,
    }
}

fn why_unmoved(error: RewriteError) -> Unmoved {
    match error {
        RewriteError::At { .. } => Unmoved::Limited,
        RewriteError::Memory => Unmoved::Memory,
    }
}

/// The program of parts, where they link.
fn linked(alloc: Global, parts: Vec<CodePart>) -> Result<LinkedProgram, Unmoved>
    ensures { IfOk result (λ p. p.side ≡ sides.Source) }
{
    if !are_parts(&parts) {
        drop(parts);
        return Err(Unmoved::Unlinked);
    }
    match link(alloc, parts, Side::Source) {
        Ok(program) => Ok(program),
        Err(error) => Err(why_unlinked(error)),
    }
}

/// A program, where it is well typed.
fn checked(alloc: Global, program: LinkedProgram) -> Result<CheckedProgram, Unmoved>
    ensures { IfOk result (λ p. p ≡ program) }
{
    match check(alloc, program) {
        Ok(program) => Ok(program),
        Err((program, _)) => {
            drop(program);
            Err(Unmoved::Untyped)
        }
    }
}

/// Its moved program, where it breaks no limit.
fn moved(alloc: Global, program: &CheckedProgram) -> Result<RewrittenProgram, Unmoved>
    requires { program.now.side ≡ sides.Source }
{
    match rewrite(alloc, program) {
        Ok(moved) => Ok(moved),
        Err(error) => Err(why_unmoved(error)),
    }
}

fn with_moved(alloc: Global, program: CheckedProgram) -> Result<Pair, Unmoved>
    requires { program.side ≡ sides.Source }
{
    match moved(alloc, &program) {
        Ok(moved) => Ok(Pair { program, moved }),
        Err(why) => {
            drop(program);
            Err(why)
        }
    }
}

/// The program of parts, and its moved program.
pub fn pair_of(alloc: Global, parts: Vec<CodePart>) -> Result<Pair, Unmoved> {
    let program = linked(alloc, parts)?;
    let program = checked(alloc, program)?;
    with_moved(alloc, program)
}

impl Pair {
    pub fn program(&self) -> &LinkedProgram {
        self.program.linked()
    }

    pub fn moved(&self) -> &LinkedProgram {
        self.moved.linked()
    }
}
