ghost use Rattle.std.specs.Prelude.{◌≡◌, [], List, None, OnOk, Some};
ghost use Rattle.jresolution.specs.jprogram.ProgramClasses.{Program};
ghost use Rattle.jresolution.specs.declared.juses.types.TypeRef.{TypeRef as Ref};
ghost use Rattle.jresolution.specs.juses.IndexedInstructions;
ghost use Rattle.jresolution.specs.juses.InternedInstructions.{AreCode, seen_code};
ghost use Rattle.jsemantics.specs.jmachine.FrameOperations.{domain_of};
ghost use Rattle.jready.specs.ProgramFacts.{IsKnown};
ghost use Rattle.jready.specs.MethodTables.{AreMethods, PutsMethod};

use crate::code::put_ops;
use crate::handlers::{HandlerRow, put_handlers};
use crate::instr::Instr;
use crate::program_info::ProgramInfo;
use crate::tables::{Tables, next_number};
use jground::jbase::Seq;
use jlinking::jlink::LinkedProgram;
use jresolution::jprogram::MethodId;
use jresolution::juses::{CodeRef, Span, code_at};
use std::alloc::{AllocError, Global};

/// A user's method.
#[derive(Clone, Copy, Debug)]
pub struct MethodRow {
    pub id: MethodId,
    /// Where its instructions begin, and how many there are. Behind them stands one more, with which there is no step.
    pub first: u32,
    pub count: u32,
    pub max_locals: u16,
    pub has_code: bool,
    pub domain: u32,
    /// Where its handlers stand.
    pub handlers: Span,
}

/// Methods, and what they hold, as they are put one behind the other.
#[derive(Drop)]
pub struct Methods {
    pub tables: Tables,
    pub code: Seq<Instr>,
    pub handlers: Seq<HandlerRow>,
    pub rows: Seq<MethodRow>,
}

/// The domain of a class's methods.
fn domain_at(p: &LinkedProgram, m: MethodId) -> u32
    ensures { result ≡ domain_of p.now m }
{
    match p.parts().get(m.class as usize) {
        Some(part) => part.domain,
        None => 0,
    }
}

impl Methods {
    /// No method yet. It takes no memory.
    pub(crate) fn new(alloc: Global) -> Methods
        ensures are { (p : Program) (types : List Ref) → AreMethods p types result }
        ensures none { result.rows ≡ [] }
    {
        Methods {
            tables: Tables::new(alloc),
            code: Seq::new(alloc),
            handlers: Seq::new(alloc),
            rows: Seq::new(alloc),
        }
    }

    /// Puts a method without code behind the others.
    fn put_bare(&mut self, known: &ProgramInfo<'_>, id: MethodId) -> Result<(), AllocError>
        requires are { AreMethods known.now.p.now known.now.uses.now.types self.old }
        requires bare { IndexedInstructions.code_at known.now.p.now id ≡ None }
        ensures { OnOk result (PutsMethod known.now.p.now known.now.uses.now.types id self.old self.new) }
    {
        let first = next_number(self.code.as_slice().len())?;
        let handlers = next_number(self.handlers.as_slice().len())?;
        self.code.push(Instr::Off)?;
        self.rows.push(MethodRow {
            id,
            first,
            count: 0,
            max_locals: 0,
            has_code: false,
            domain: domain_at(known.p, id),
            handlers: Span {
                first: handlers,
                count: 0,
            },
        })?;
        Ok(())
    }

    /// Puts a method with code behind the others.
    fn put_coded(
        &mut self,
        alloc: Global,
        known: &ProgramInfo<'_>,
        id: MethodId,
        body: CodeRef<'_>,
    ) -> Result<(), AllocError>
        requires known { IsKnown known.now }
        requires are { AreMethods known.now.p.now known.now.uses.now.types self.old }
        requires code { AreCode body.ops.now }
        requires own { IndexedInstructions.code_at known.now.p.now id ≡ Some (seen_code body) }
        ensures { OnOk result (PutsMethod known.now.p.now known.now.uses.now.types id self.old self.new) }
    {
        let first = next_number(self.code.as_slice().len())?;
        put_ops(
            alloc,
            known,
            &mut self.tables,
            &mut self.code,
            id.class,
            body.ops,
        )?;
        self.code.push(Instr::Off)?;
        let handlers = put_handlers(&mut self.handlers, body.ops, body.handlers)?;
        self.rows.push(MethodRow {
            id,
            first,
            count: body.ops.len() as u32,
            max_locals: body.max_locals,
            has_code: true,
            domain: domain_at(known.p, id),
            handlers,
        })?;
        Ok(())
    }

    /// Puts a method behind the others.
    pub(crate) fn put(
        &mut self,
        alloc: Global,
        known: &ProgramInfo<'_>,
        id: MethodId,
    ) -> Result<(), AllocError>
        requires known { IsKnown known.now }
        requires are { AreMethods known.now.p.now known.now.uses.now.types self.old }
        ensures { OnOk result (PutsMethod known.now.p.now known.now.uses.now.types id self.old self.new) }
    {
        match code_at(known.p.named(), id) {
            None => self.put_bare(known, id),
            Some(body) => self.put_coded(alloc, known, id, body),
        }
    }
}
