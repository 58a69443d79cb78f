ghost use Rattle.std.specs.Prelude.{◌≡◌, IfOk};
ghost use Rattle.jground.specs.jbase.FirstFaults.{or_else};
ghost use Rattle.jlinking.specs.jmembers.MemberDeclarations;
ghost use Rattle.jresolution.specs.jprogram.InterfaceSearch.{IsLayered};
ghost use Rattle.jlinking.specs.jreferring.CodeChecks;
ghost use Rattle.jlinking.specs.jlink.LinkedPrograms;

use crate::jmembers::members_fault;
use crate::jreferring::code_fault;
use jresolution::jprogram::{LinkFault, NamedProgram};
use std::alloc::{AllocError, Global};

/// The first rule that is broken by what classes declare, or else by what their code names.
fn inner_fault(alloc: Global, program: &NamedProgram) -> Result<Option<LinkFault>, AllocError>
    requires { IsLayered program.now }
    ensures { IfOk result (λ o. o ≡ or_else (MemberDeclarations.members_fault program.now) (CodeChecks.code_fault program.now)) }
{
    if let Some(fault) = members_fault(alloc, program)? {
        return Ok(Some(fault));
    }
    code_fault(alloc, program)
}

/// The first rule of linking that a program breaks (JVMS 5.4): the phases one after the other, each over all classes in order.
#[tactic(auto, using(crate::proofs::JlinkProofs::PhaseOrder::layered), unfolding(crate::specs::jlink::LinkedPrograms::link_fault))]
pub(crate) fn link_fault(
    alloc: Global,
    program: &NamedProgram,
) -> Result<Option<LinkFault>, AllocError>
    ensures { IfOk result (λ o. o ≡ LinkedPrograms.link_fault program.now) }
{
    if let Some(fault) = program.naming_fault(alloc)? {
        return Ok(Some(fault));
    }
    if let Some(fault) = program.supers_fault(alloc)? {
        return Ok(Some(fault));
    }
    inner_fault(alloc, program)
}
