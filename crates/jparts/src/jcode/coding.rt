ghost use Rattle.std.specs.Prelude.{◌≡◌, ◌<◌, ◌^◌, IfOk, IsTrue, List, Ok, length};
ghost use Rattle.jground.specs.jbase.MemoryFailures.{Gives};
ghost use Rattle.jground.specs.jformat.FaultOffsets.{GivesAt};
ghost use Rattle.jparts.specs.declared.jcode.op.Placed.{Placed};
ghost use Rattle.jparts.specs.jcode.Instructions.{code, instruction, instructions};

use crate::jcode::branches::first_lost;
use crate::jcode::fault::{CodeError, CodeFault};
use crate::jcode::op::Placed;
use crate::jcode::read::op_of;
use crate::jcode::write::put_op;
use jground::jbase::{FaultOrMemory, Seq};
use jground::jformat::{At, ReadError, Writer, fault, put_each, stop_at};
use std::alloc::{AllocError, Global};

/// Instructions one behind the other, up to the end of the bytes.
fn ops_of(alloc: Global, bytes: &[u8]) -> Result<Seq<Placed>, ReadError<CodeFault>>
    requires { length bytes.now < 2 ^ 32 }
    ensures { Gives (λ ops. ops) result (instructions.read bytes.now) }
{
    let mut ops = Seq::new(alloc);
    let mut rest = bytes;
    for _ in 0..bytes.len() {
        if rest.is_empty() {
            return Ok(ops);
        }
        let at = (bytes.len() - rest.len()) as u32;
        let (op, after) = op_of(alloc, at, rest)?;
        ops.push(Placed { at, op })?;
        rest = after;
    }
    if rest.is_empty() {
        return Ok(ops);
    }
    Err(fault(CodeFault::Truncated, rest))
}

fn code_of(alloc: Global, bytes: &[u8]) -> Result<Seq<Placed>, CodeError>
    ensures { GivesAt (λ ops. ops) bytes.now result (code.read bytes.now) }
{
    if bytes.len() > u32::MAX as usize {
        return Err(FaultOrMemory::Memory);
    }
    match ops_of(alloc, bytes) {
        Ok(ops) => match first_lost(ops.as_slice()) {
            None => Ok(ops),
            Some(at) => Err(FaultOrMemory::Fault(At {
                at,
                kind: CodeFault::BadTarget,
            })),
        },
        Err(stop) => Err(stop_at(bytes, stop)),
    }
}

/// A list's items, with no room to spare where the smaller block can be had.
fn fitted(ops: Seq<Placed>) -> Vec<Placed>
    ensures { result.items ≡ ops }
{
    let mut items = ops.into_vec();
    items.shrink_to_fit();
    items
}

/// The instructions that code spells (JVMS 4.7.3), or its first fault.
///
/// The instructions are read front to back, and each fault stands at the first byte of its instruction: `Truncated`,
/// `UnknownOpcode`, `LeftOut` and `BadOperand`. Where all are good, `BadTarget` stands at the first instruction with a branch
/// that leads to no instruction. `Memory` comes where memory runs out, and where the code has 4 GiB or more. The list that is
/// handed out has no room to spare.
pub fn decode(alloc: Global, bytes: &[u8]) -> Result<Vec<Placed>, CodeError>
    // What is read is spelled so.
    ensures found { IfOk result (λ v. IsTrue (code.fits v.items) × (bytes.now ≡ code.spell v.items)) }
    // What is spelled so is read, unless memory runs out.
    ensures only { (ps : List Placed) → IsTrue (code.fits ps) → bytes.now ≡ code.spell ps → GivesAt (λ v. v.items) bytes.now result (Ok ps) }
    // Which fault it is, and where.
    ensures exact { GivesAt (λ v. v.items) bytes.now result (code.read bytes.now) }
{
    match code_of(alloc, bytes) {
        Ok(ops) => Ok(fitted(ops)),
        Err(error) => Err(error),
    }
}

struct Ops;

impl Writer for Ops {
    type Item = Placed;

    ghost spells = { λ _ p. (instruction p.at).spell p.op };

    ghost fits = { λ _ p. (instruction p.at).fits p.op };

    fn write(&self, alloc: Global, one: &Placed, out: &mut Seq<u8>) -> Result<(), AllocError> {
        put_op(alloc, one.at, &one.op, out)
    }
}

/// The bytes that spell these instructions.
pub fn encode(alloc: Global, ops: &[Placed]) -> Result<Vec<u8>, AllocError>
    requires { IsTrue (code.fits ops.now) }
    ensures spelled { IfOk result (λ v. v.items ≡ code.spell ops.now) }
    // What is written is read back as those instructions.
    ensures again { IfOk result (λ v. code.read v.items ≡ Ok ops.now) }
{
    let mut out = Seq::new(alloc);
    put_each(alloc, &Ops, ops, &mut out)?;
    Ok(out.into_vec())
}
