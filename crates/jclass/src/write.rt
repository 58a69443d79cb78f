ghost use Rattle.std.specs.Prelude.{◌≡◌, ◌++◌, IfOk, IsTrue, OnOk, false};
ghost use Rattle.jground.specs.jformat.BodyFormats.{block, whole};
ghost use Rattle.jground.specs.jformat.StatefulFormats.{counted_from};
ghost use Rattle.jparts.specs.jmaps.StackMapFormat.{maps};
ghost use Rattle.jclass.specs.IndexFormats.{access, index, u2, u4};
ghost use Rattle.jclass.specs.declared.fault.ClassFault.TheVariants.{Trailing, Truncated};
ghost use Rattle.jclass.specs.FlagRules.{names_class};
ghost use Rattle.jclass.specs.Attributes;
ghost use Rattle.jclass.specs.Attributes.{class_attribute, constant, field_attribute, saw_constant};
ghost use Rattle.jclass.specs.CodeFormat;
ghost use Rattle.jclass.specs.CodeFormat.{attribute, code_body, handler, ops, saw_maps};
ghost use Rattle.jclass.specs.MemberFormat.{code_fits, code_spell, field, method, method_attribute};
ghost use Rattle.jclass.specs.Class;
ghost use Rattle.jclass.specs.Class.{Spells, class_parts};
ghost use Rattle.jclass.specs.PoolChecks;

use crate::access::Access;
use crate::class::{Attribute, ClassParts, CodeAttribute, MemberInfo};
use crate::class_file::ClassFile;
use bitflags::Flags;
use jground::jbase::Seq;
use jground::jformat::{
    StateWriter, Writer, put_block, put_by, put_bytes, put_counted, put_sized32, put_u16, put_u32,
};
use jparts::jcode::{Handler, Placed, encode};
use jparts::jmaps::{RawFrame, put_frames};
use jparts::jpool::{Pool, put_entries};
use std::alloc::{AllocError, Global};

fn put_access(flags: Access, out: &mut Seq<u8>) -> Result<(), AllocError>
    ensures { OnOk result (out.new ≡ out.old ++ access.spell flags) }
{
    put_u16(flags.bits(), out)
}

// ---- attributes of classes and fields

#[tactic(auto, unfolding(crate::specs::Attributes::class_attribute))]
fn put_class_attribute(pool: &Pool, one: &Attribute, out: &mut Seq<u8>) -> Result<(), AllocError>
    requires { IsTrue ((class_attribute pool.now).fits one.now) }
    ensures { OnOk result (out.new ≡ out.old ++ (class_attribute pool.now).spell one.now) }
{
    // What the proof needs: the pool, of which the clause speaks.
    let _pool = pool;
    match one {
        Attribute::Raw { name, bytes } => {
            put_u16(*name, out)?;
            put_sized32(bytes.as_slice(), out)
        }
        _ => Ok(()),
    }
}

#[derive(Clone, Copy)]
struct ClassAttributeWriter<'r> {
    pool: &'r Pool,
}

impl<'r> Writer for ClassAttributeWriter<'r> {
    type Item = Attribute;

    ghost spells = { λ w. (class_attribute w.pool.now).spell };

    ghost fits = { λ w. (class_attribute w.pool.now).fits };

    fn write(&self, _alloc: Global, one: &Attribute, out: &mut Seq<u8>) -> Result<(), AllocError> {
        put_class_attribute(self.pool, one, out)
    }
}

#[derive(Clone, Copy)]
struct FieldAttributeWriter<'r> {
    pool: &'r Pool,
    flags: Access,
    desc: u16,
}

fn put_constant(value: u16, out: &mut Seq<u8>) -> Result<(), AllocError>
    ensures { OnOk result (out.new ≡ out.old ++ (block u4 Truncated (whole Trailing u2)).spell value) }
{
    put_u32(2, out)?;
    put_u16(value, out)
}

#[tactic(auto, unfolding(crate::specs::Attributes::field_attribute))]
fn put_field_attribute(
    field: FieldAttributeWriter<'_>,
    seen: bool,
    one: &Attribute,
    out: &mut Seq<u8>,
) -> Result<(), AllocError>
    requires { IsTrue ((field_attribute field.pool.now field.flags field.desc seen).fits one.now) }
    ensures { OnOk result (out.new ≡ out.old ++ (field_attribute field.entry.pool.now field.entry.flags field.entry.desc seen).spell one.now) }
{
    match one {
        Attribute::ConstantValue { name, value } => {
            put_u16(*name, out)?;
            put_constant(*value, out)
        }
        Attribute::Raw { name, bytes } => {
            put_u16(*name, out)?;
            put_sized32(bytes.as_slice(), out)
        }
        Attribute::Code { .. } => Ok(()),
    }
}

impl<'r> StateWriter for FieldAttributeWriter<'r> {
    type State = bool;

    type Item = Attribute;

    ghost spells = { λ w seen. (field_attribute w.pool.now w.flags w.desc seen).spell };

    ghost fits = { λ w seen. (field_attribute w.pool.now w.flags w.desc seen).fits };

    ghost goes_to = { λ _. saw_constant };

    fn write(
        &self,
        _alloc: Global,
        seen: bool,
        one: &Attribute,
        out: &mut Seq<u8>,
    ) -> Result<(), AllocError> {
        put_field_attribute(*self, seen, one, out)
    }

    fn next(&self, seen: bool, one: &Attribute) -> bool {
        match one {
            Attribute::ConstantValue { .. } => true,
            _ => seen,
        }
    }
}

// ---- code

#[derive(Clone, Copy)]
struct MapsWriter<'r> {
    pool: &'r Pool,
}

#[tactic(auto, using(crate::proofs::CodeLaws::maps_fitting, crate::proofs::CodeLaws::maps_spelling))]
fn put_maps(
    alloc: Global,
    pool: &Pool,
    frames: &[RawFrame],
    out: &mut Seq<u8>,
) -> Result<(), AllocError>
    requires { IsTrue ((CodeFormat.maps pool.now).fits frames.now) }
    ensures { OnOk result (out.new ≡ out.old ++ (CodeFormat.maps pool.now).spell frames.now) }
{
    // What the proof needs: the pool, of which the clause speaks.
    let _pool = pool;
    put_frames(alloc, frames, out)
}

impl<'r> Writer for MapsWriter<'r> {
    type Item = Seq<RawFrame>;

    ghost spells = { λ w. (CodeFormat.maps w.pool.now).spell };

    ghost fits = { λ w. (CodeFormat.maps w.pool.now).fits };

    fn write(
        &self,
        alloc: Global,
        frames: &Seq<RawFrame>,
        out: &mut Seq<u8>,
    ) -> Result<(), AllocError> {
        put_maps(alloc, self.pool, frames.as_slice(), out)
    }
}

#[tactic(auto, unfolding(crate::specs::CodeFormat::attribute))]
fn put_attribute(
    alloc: Global,
    pool: &Pool,
    seen: bool,
    one: &CodeAttribute,
    out: &mut Seq<u8>,
) -> Result<(), AllocError>
    requires { IsTrue ((attribute pool.now seen).fits one.now) }
    ensures { OnOk result (out.new ≡ out.old ++ (attribute pool.now seen).spell one.now) }
{
    // What the proof needs: whether one was seen before, of which the clause speaks.
    let _seen = seen;
    match one {
        CodeAttribute::Maps { name, frames } => {
            put_u16(*name, out)?;
            put_block(alloc, &MapsWriter { pool }, frames, out)
        }
        CodeAttribute::Raw { name, bytes } => {
            put_u16(*name, out)?;
            put_sized32(bytes.as_slice(), out)
        }
    }
}

#[derive(Clone, Copy)]
struct CodeAttributeWriter<'r> {
    pool: &'r Pool,
}

impl<'r> StateWriter for CodeAttributeWriter<'r> {
    type State = bool;

    type Item = CodeAttribute;

    ghost spells = { λ w seen. (attribute w.pool.now seen).spell };

    ghost fits = { λ w seen. (attribute w.pool.now seen).fits };

    ghost goes_to = { λ _. saw_maps };

    fn write(
        &self,
        alloc: Global,
        seen: bool,
        one: &CodeAttribute,
        out: &mut Seq<u8>,
    ) -> Result<(), AllocError> {
        put_attribute(alloc, self.pool, seen, one, out)
    }

    fn next(&self, seen: bool, one: &CodeAttribute) -> bool {
        match one {
            CodeAttribute::Maps { .. } => true,
            CodeAttribute::Raw { .. } => seen,
        }
    }
}

#[tactic(auto, unfolding(crate::specs::CodeFormat::handler))]
fn put_handler(
    pool: &Pool,
    ops: &[Placed],
    one: &Handler,
    out: &mut Seq<u8>,
) -> Result<(), AllocError>
    requires { IsTrue ((handler pool.now ops.now).fits one.now) }
    ensures { OnOk result (out.new ≡ out.old ++ (handler pool.now ops.now).spell one.now) }
{
    let (_pool, _ops) = (pool, ops);
    put_u16(one.start as u16, out)?;
    put_u16(one.end as u16, out)?;
    put_u16(one.at as u16, out)?;
    put_u16(one.class, out)
}

#[derive(Clone, Copy)]
struct HandlerWriter<'r> {
    pool: &'r Pool,
    ops: &'r [Placed],
}

impl<'r> Writer for HandlerWriter<'r> {
    type Item = Handler;

    ghost spells = { λ w. (handler w.pool.now w.ops.now).spell };

    ghost fits = { λ w. (handler w.pool.now w.ops.now).fits };

    fn write(&self, _alloc: Global, one: &Handler, out: &mut Seq<u8>) -> Result<(), AllocError> {
        put_handler(self.pool, self.ops, one, out)
    }
}

#[tactic(auto, unfolding(crate::specs::CodeFormat::ops))]
fn put_ops(
    alloc: Global,
    pool: &Pool,
    items: &[Placed],
    out: &mut Seq<u8>,
) -> Result<(), AllocError>
    requires { IsTrue ((ops pool.now).fits items.now) }
    ensures { OnOk result (out.new ≡ out.old ++ (ops pool.now).spell items.now) }
{
    // What the proof needs: the pool, of which the clause speaks.
    let _pool = pool;
    let text = encode(alloc, items)?;
    put_bytes(text.as_slice(), out)
}

/// Writes the instructions of a method.
#[derive(Clone, Copy)]
struct OpsWriter<'r> {
    pool: &'r Pool,
}

impl<'r> Writer for OpsWriter<'r> {
    type Item = Seq<Placed>;

    ghost spells = { λ w. (ops w.pool.now).spell };

    ghost fits = { λ w. (ops w.pool.now).fits };

    fn write(&self, alloc: Global, one: &Seq<Placed>, out: &mut Seq<u8>) -> Result<(), AllocError> {
        put_ops(alloc, self.pool, one.as_slice(), out)
    }
}

fn put_code_attributes(
    alloc: Global,
    pool: &Pool,
    attributes: &[CodeAttribute],
    out: &mut Seq<u8>,
) -> Result<(), AllocError>
    requires { IsTrue ((counted_from u2 (attribute pool.now) saw_maps false).fits attributes.now) }
    ensures { OnOk result (out.new ≡ out.old ++ (counted_from u2 (attribute pool.now) saw_maps false).spell attributes.now) }
{
    put_u16(attributes.len() as u16, out)?;
    put_by(alloc, &CodeAttributeWriter { pool }, false, attributes, out)
}

/// Writes what stands in a Code attribute behind its length. The item is the attribute.
#[derive(Clone, Copy)]
struct CodeWriter<'r> {
    pool: &'r Pool,
}

#[tactic(auto, unfolding(crate::specs::CodeFormat::code_content))]
fn put_code(
    alloc: Global,
    pool: &Pool,
    one: &Attribute,
    out: &mut Seq<u8>,
) -> Result<(), AllocError>
    requires { IsTrue (code_fits pool.now one.now) }
    ensures { OnOk result (out.new ≡ out.old ++ code_spell pool.now one.now) }
{
    let Attribute::Code {
        max_stack,
        max_locals,
        ops,
        handlers,
        attributes,
        ..
    } = one
    else {
        return Ok(());
    };
    put_u16(*max_stack, out)?;
    put_u16(*max_locals, out)?;
    put_block(alloc, &OpsWriter { pool }, ops, out)?;
    let writer = HandlerWriter {
        pool,
        ops: ops.as_slice(),
    };
    put_counted(alloc, &writer, handlers.as_slice(), out)?;
    put_code_attributes(alloc, pool, attributes.as_slice(), out)
}

impl<'r> Writer for CodeWriter<'r> {
    type Item = Attribute;

    ghost spells = { λ w. code_spell w.pool.now };

    ghost fits = { λ w. code_fits w.pool.now };

    fn write(&self, alloc: Global, one: &Attribute, out: &mut Seq<u8>) -> Result<(), AllocError> {
        put_code(alloc, self.pool, one, out)
    }
}

// ---- members

#[tactic(auto, unfolding(crate::specs::MemberFormat::method_attribute))]
fn put_method_attribute(
    alloc: Global,
    pool: &Pool,
    one: &Attribute,
    out: &mut Seq<u8>,
) -> Result<(), AllocError>
    requires { IsTrue ((method_attribute pool.now).fits one.now) }
    ensures { OnOk result (out.new ≡ out.old ++ (method_attribute pool.now).spell one.now) }
{
    match one {
        Attribute::Code { name, .. } => {
            put_u16(*name, out)?;
            put_block(alloc, &CodeWriter { pool }, one, out)
        }
        Attribute::Raw { name, bytes } => {
            put_u16(*name, out)?;
            put_sized32(bytes.as_slice(), out)
        }
        Attribute::ConstantValue { .. } => Ok(()),
    }
}

#[derive(Clone, Copy)]
struct MethodAttributeWriter<'r> {
    pool: &'r Pool,
}

impl<'r> Writer for MethodAttributeWriter<'r> {
    type Item = Attribute;

    ghost spells = { λ w. (method_attribute w.pool.now).spell };

    ghost fits = { λ w. (method_attribute w.pool.now).fits };

    fn write(&self, alloc: Global, one: &Attribute, out: &mut Seq<u8>) -> Result<(), AllocError> {
        put_method_attribute(alloc, self.pool, one, out)
    }
}

fn put_field_attributes(
    alloc: Global,
    pool: &Pool,
    one: &MemberInfo,
    out: &mut Seq<u8>,
) -> Result<(), AllocError>
    requires { IsTrue ((counted_from u2 (field_attribute pool.now one.now.flags one.now.desc) saw_constant false).fits one.now.attributes) }
    ensures { OnOk result
        (out.new ≡ out.old ++ (counted_from u2 (field_attribute pool.now one.now.flags one.now.desc) saw_constant false).spell one.now.attributes) }
{
    let attributes = one.attributes.as_slice();
    let writer = FieldAttributeWriter {
        pool,
        flags: one.flags,
        desc: one.desc,
    };
    put_u16(attributes.len() as u16, out)?;
    put_by(alloc, &writer, false, attributes, out)
}

#[tactic(auto, unfolding(crate::specs::MemberFormat::field, crate::specs::FlagRules::field_descriptor))]
fn put_field(
    alloc: Global,
    pool: &Pool,
    one: &MemberInfo,
    out: &mut Seq<u8>,
) -> Result<(), AllocError>
    requires { IsTrue ((field pool.now).fits one.now) }
    ensures { OnOk result (out.new ≡ out.old ++ (field pool.now).spell one.now) }
{
    put_access(one.flags, out)?;
    put_u16(one.name, out)?;
    put_u16(one.desc, out)?;
    put_field_attributes(alloc, pool, one, out)
}

#[derive(Clone, Copy)]
struct FieldWriter<'r> {
    pool: &'r Pool,
}

impl<'r> Writer for FieldWriter<'r> {
    type Item = MemberInfo;

    ghost spells = { λ w. (field w.pool.now).spell };

    ghost fits = { λ w. (field w.pool.now).fits };

    fn write(&self, alloc: Global, one: &MemberInfo, out: &mut Seq<u8>) -> Result<(), AllocError> {
        put_field(alloc, self.pool, one, out)
    }
}

#[tactic(auto, unfolding(crate::specs::MemberFormat::method, crate::specs::MemberFormat::method_parts, crate::specs::FlagRules::method_descriptor))]
fn put_method(
    alloc: Global,
    pool: &Pool,
    one: &MemberInfo,
    out: &mut Seq<u8>,
) -> Result<(), AllocError>
    requires { IsTrue ((method pool.now).fits one.now) }
    ensures { OnOk result (out.new ≡ out.old ++ (method pool.now).spell one.now) }
{
    put_access(one.flags, out)?;
    put_u16(one.name, out)?;
    put_u16(one.desc, out)?;
    put_counted(
        alloc,
        &MethodAttributeWriter { pool },
        one.attributes.as_slice(),
        out,
    )
}

#[derive(Clone, Copy)]
struct MethodWriter<'r> {
    pool: &'r Pool,
}

impl<'r> Writer for MethodWriter<'r> {
    type Item = MemberInfo;

    ghost spells = { λ w. (method w.pool.now).spell };

    ghost fits = { λ w. (method w.pool.now).fits };

    fn write(&self, alloc: Global, one: &MemberInfo, out: &mut Seq<u8>) -> Result<(), AllocError> {
        put_method(alloc, self.pool, one, out)
    }
}

// ---- the class file

#[derive(Clone, Copy)]
struct InterfaceWriter<'r> {
    pool: &'r Pool,
}

impl<'r> Writer for InterfaceWriter<'r> {
    type Item = u16;

    ghost spells = { λ w. (index (names_class w.pool.now)).spell };

    ghost fits = { λ w. (index (names_class w.pool.now)).fits };

    fn write(&self, _alloc: Global, one: &u16, out: &mut Seq<u8>) -> Result<(), AllocError> {
        put_u16(*one, out)
    }
}

#[tactic(auto, unfolding(crate::specs::PoolChecks::head, crate::specs::ClassFileShape::head, crate::specs::ClassFileShape::entries))]
fn put_head(alloc: Global, one: &ClassParts, out: &mut Seq<u8>) -> Result<(), AllocError>
    requires { IsTrue (PoolChecks.head.fits (class_parts one.now).0) }
    ensures { OnOk result (out.new ≡ out.old ++ PoolChecks.head.spell (class_parts one.now).0) }
{
    put_u32(0xcafe_babe, out)?;
    put_u16(one.minor, out)?;
    put_u16(one.major, out)?;
    put_entries(alloc, one.pool.entries(), out)
}

/// Writes what stands behind the pool that is known.
#[tactic(auto, unfolding(crate::specs::Class::tail))]
fn put_tail_by(
    alloc: Global,
    pool: &Pool,
    one: &ClassParts,
    out: &mut Seq<u8>,
) -> Result<(), AllocError>
    requires { IsTrue ((Class.tail pool.now).fits (class_parts one.now).1) }
    ensures { OnOk result (out.new ≡ out.old ++ (Class.tail pool.now).spell (class_parts one.now).1) }
{
    put_access(one.flags, out)?;
    put_u16(one.this_class, out)?;
    put_u16(one.super_class, out)?;
    put_counted(
        alloc,
        &InterfaceWriter { pool },
        one.interfaces.as_slice(),
        out,
    )?;
    put_counted(alloc, &FieldWriter { pool }, one.fields.as_slice(), out)?;
    put_counted(alloc, &MethodWriter { pool }, one.methods.as_slice(), out)?;
    put_counted(
        alloc,
        &ClassAttributeWriter { pool },
        one.attributes.as_slice(),
        out,
    )
}

fn put_tail(alloc: Global, one: &ClassParts, out: &mut Seq<u8>) -> Result<(), AllocError>
    requires { IsTrue ((Class.tail one.now.pool).fits (class_parts one.now).1) }
    ensures { OnOk result (out.new ≡ out.old ++ (Class.tail one.now.pool).spell (class_parts one.now).1) }
{
    put_tail_by(alloc, &one.pool, one, out)
}

/// The bytes that spell a class file: where it was read from bytes, those very bytes.
#[tactic(auto, unfolding(crate::specs::Class::class_file, crate::specs::Class::strict))]
pub fn write_class(alloc: Global, c: &ClassFile) -> Result<Vec<u8>, AllocError>
    ensures { IfOk result (λ text. Spells text.items c.now) }
{
    let parts = c.parts();
    let mut out = Seq::new(alloc);
    put_head(alloc, parts, &mut out)?;
    put_tail(alloc, parts, &mut out)?;
    Ok(out.into_vec())
}
