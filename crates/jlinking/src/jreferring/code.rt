ghost use Rattle.std.specs.Prelude.{◌≡◌, ◌≤◌, IfOk, IsTrue, OnOk, length, option_and_then};
ghost use Rattle.jclass.specs.Class.{class_file};
ghost use Rattle.jresolution.specs.jprogram.InterfaceSearch.{IsLayered};
ghost use Rattle.jresolution.specs.jprogram.ClassFileParts;
ghost use Rattle.jlinking.specs.jreferring.CodeChecks;
ghost use Rattle.jlinking.specs.ProofNames;
ghost use Rattle.jlinking.specs.jreferring.PoolTextCache.{AreHanded};

use crate::jreferring::beginning::first_frame_test;
use crate::jreferring::entries::judge_pool;
use crate::jreferring::judged::Judged;
use crate::jreferring::units::{attributes_test, handlers_test, ops_test};
use crate::jreferring::use_cache::Home;
use jclass::{Attribute, ClassFile, CodeAttribute, MemberInfo};
use jparts::jcode::{Handler, Placed};
use jresolution::jprogram::{LinkFault, LinkKind, NamedProgram, this_name};
use std::alloc::{AllocError, Global};
use std::collections::BTreeMap;

/// The first fault of a method's instructions, then of its handlers.
fn units_test(table: &[Judged], ops: &[Placed], handlers: &[Handler]) -> Option<LinkKind>
    ensures { result ≡ CodeChecks.units_test table.now ops.now handlers.now }
{
    if let Some(kind) = ops_test(table, ops) {
        return Some(kind);
    }
    handlers_test(table, handlers)
}

/// The first fault of a method's frames: of the one that it begins with, then of those that are written.
fn frames_test(
    alloc: Global,
    home: Home<'_>,
    handed: &mut BTreeMap<u16, Option<LinkKind>>,
    table: &[Judged],
    desc: u16,
    attributes: &[CodeAttribute],
) -> Result<Option<LinkKind>, AllocError>
    requires { AreHanded home.program.now home.from.now home.pool.now handed.old }
    ensures value { IfOk result (λ o. o
        ≡ CodeChecks.frames_test home.entry.program.now home.entry.from.now (ClassFileParts.text home.entry.pool.now desc) table.now attributes.now) }
    ensures kept { OnOk result (AreHanded home.entry.program.now home.entry.from.now home.entry.pool.now handed.new) }
{
    if let Some(kind) = first_frame_test(alloc, home, handed, desc, attributes)? {
        return Ok(Some(kind));
    }
    Ok(attributes_test(table, attributes))
}

/// The first fault of a method, None where it has no code.
#[tactic(auto, unfolding(crate::specs::jreferring::CodeChecks::method_test, jresolution::specs::jprogram::ClassFileParts::code_of, jground::specs::jbase::FirstFaults::first_some,),)]
fn method_test(
    alloc: Global,
    home: Home<'_>,
    handed: &mut BTreeMap<u16, Option<LinkKind>>,
    table: &[Judged],
    method: &MemberInfo,
) -> Result<Option<LinkKind>, AllocError>
    requires { AreHanded home.program.now home.from.now home.pool.now handed.old }
    ensures value { IfOk result (λ o. o
        ≡ CodeChecks.method_test home.entry.program.now home.entry.from.now home.entry.pool.now table.now method.now) }
    ensures kept { OnOk result (AreHanded home.entry.program.now home.entry.from.now home.entry.pool.now handed.new) }
{
    for attribute in method.attributes.as_slice() {
        if let Attribute::Code {
            ops,
            handlers,
            attributes,
            ..
        } = attribute
        {
            if let Some(kind) = units_test(table, ops.as_slice(), handlers.as_slice()) {
                return Ok(Some(kind));
            }
            let attributes = attributes.as_slice();
            return frames_test(alloc, home, handed, table, method.desc, attributes);
        }
    }
    Ok(None)
}

#[tactic(auto, unfolding(jground::specs::jbase::FirstFaults::first_along))]
fn methods_fault(
    alloc: Global,
    i: u32,
    home: Home<'_>,
    table: &[Judged],
    methods: &[MemberInfo],
) -> Result<Option<LinkFault>, AllocError>
    requires { length methods.now ≤ 0xffff }
    ensures { IfOk result (λ o. o
        ≡ ProofNames.methods_fault home.entry.program.now i home.entry.from.now home.entry.pool.now table.now methods.now) }
{
    let mut handed = BTreeMap::new(alloc);
    for (j, method) in methods.iter().enumerate() {
        let place = j as u32;
        if let Some(kind) = method_test(alloc, home, &mut handed, table, method)? {
            return Ok(Some(LinkFault {
                class: i,
                member: Some(place),
                kind,
            }));
        }
    }
    Ok(None)
}

/// The first fault of a class's methods.
#[tactic(auto, unfolding(crate::specs::jreferring::CodeChecks::class_fault))]
fn class_fault(
    alloc: Global,
    program: &NamedProgram,
    i: u32,
    class: &ClassFile,
) -> Result<Option<LinkFault>, AllocError>
    requires { IsLayered program.now }
    ensures { IfOk result (λ o. o ≡ CodeChecks.class_fault program.now i class.now) }
{
    let parts = class.parts();
    let home = Home {
        program,
        from: this_name(parts),
        pool: &parts.pool,
    };
    let table = judge_pool(alloc, program, parts)?;
    methods_fault(alloc, i, home, table.as_slice(), parts.methods.as_slice())
}

/// The first unit of a method's code that names a class that isn't there or that its class may not name, or what is left out, or a
/// member that isn't there or that its class may not use, or that uses a class or a member in another way than it is declared. A unit is
/// an instruction, a handler or a frame; methods come in order, and in a method its instructions, then its handlers, then its frames. Where
/// frames are written, the one that the method begins with comes first, and names the classes of the parameters. The fault stands at the
/// method.
///
/// No class or interface may stand among its own interfaces. Each entry of a class's pool is looked at once, and each descriptor of methods
/// with frames; that takes a few bytes an entry.
#[tactic(auto, unfolding(jground::specs::jbase::FirstFaults::first_along, crate::specs::jreferring::CodeChecks::code_fault))]
pub fn code_fault(alloc: Global, program: &NamedProgram) -> Result<Option<LinkFault>, AllocError>
    requires { IsLayered program.now }
    ensures { IfOk result (λ o. o ≡ CodeChecks.code_fault program.now) }
{
    let parts = program.parts();
    for (i, part) in parts.iter().enumerate() {
        if let Some(fault) = class_fault(alloc, program, i as u32, &part.class)? {
            return Ok(Some(fault));
        }
    }
    Ok(None)
}
