ghost use Rattle.std.specs.Prelude.{◌≡◌, IfOk};

use crate::class::{Attribute, ClassParts, CodeAttribute, MemberInfo};
use jground::jbase::{Seq, TryClone, all_again};
use jparts::jcode::Placed;
use jparts::jmaps::RawFrame;
use std::alloc::{AllocError, Global};

/// The same instructions at the same places again.
fn ops_again(alloc: Global, ops: &[Placed]) -> Result<Seq<Placed>, AllocError>
    ensures { IfOk result (λ same. same ≡ ops.now) }
{
    let mut same = Seq::new(alloc);
    for one in ops {
        let op = one.copy(alloc)?;
        same.push(op)?;
    }
    Ok(same)
}

/// The same frames again.
fn frames_again(alloc: Global, frames: &[RawFrame]) -> Result<Seq<RawFrame>, AllocError>
    ensures { IfOk result (λ same. same ≡ frames.now) }
{
    let mut same = Seq::new(alloc);
    for one in frames {
        let frame = one.copy(alloc)?;
        same.push(frame)?;
    }
    Ok(same)
}

impl CodeAttribute {
    /// The same attribute again.
    pub fn copy(&self, alloc: Global) -> Result<CodeAttribute, AllocError>
        ensures { IfOk result (λ same. same ≡ self.now) }
    {
        match self {
            CodeAttribute::Maps { name, frames } => {
                let frames = frames_again(alloc, frames.as_slice())?;
                Ok(CodeAttribute::Maps {
                    name: *name,
                    frames,
                })
            }
            CodeAttribute::Raw { name, bytes } => {
                let bytes = bytes.copy(alloc)?;
                Ok(CodeAttribute::Raw { name: *name, bytes })
            }
        }
    }
}

impl TryClone for CodeAttribute {
    fn again(&self, alloc: Global) -> Result<CodeAttribute, AllocError> {
        self.copy(alloc)
    }
}

impl Attribute {
    /// The same attribute again.
    pub fn copy(&self, alloc: Global) -> Result<Attribute, AllocError>
        ensures { IfOk result (λ same. same ≡ self.now) }
    {
        match self {
            Attribute::ConstantValue { name, value } => Ok(Attribute::ConstantValue {
                name: *name,
                value: *value,
            }),
            Attribute::Code {
                name,
                max_stack,
                max_locals,
                ops,
                handlers,
                attributes,
            } => {
                let ops = ops_again(alloc, ops.as_slice())?;
                let handlers = handlers.copy(alloc)?;
                let attributes = all_again(alloc, attributes.as_slice())?;
                Ok(Attribute::Code {
                    name: *name,
                    max_stack: *max_stack,
                    max_locals: *max_locals,
                    ops,
                    handlers,
                    attributes,
                })
            }
            Attribute::Raw { name, bytes } => {
                let bytes = bytes.copy(alloc)?;
                Ok(Attribute::Raw { name: *name, bytes })
            }
        }
    }
}

impl TryClone for Attribute {
    fn again(&self, alloc: Global) -> Result<Attribute, AllocError> {
        self.copy(alloc)
    }
}

impl MemberInfo {
    /// The same field or method again.
    pub fn copy(&self, alloc: Global) -> Result<MemberInfo, AllocError>
        ensures { IfOk result (λ same. same ≡ self.now) }
    {
        let attributes = all_again(alloc, self.attributes.as_slice())?;
        Ok(MemberInfo {
            flags: self.flags,
            name: self.name,
            desc: self.desc,
            attributes,
        })
    }
}

impl TryClone for MemberInfo {
    fn again(&self, alloc: Global) -> Result<MemberInfo, AllocError> {
        self.copy(alloc)
    }
}

impl ClassParts {
    /// The same parts again.
    pub fn copy(&self, alloc: Global) -> Result<ClassParts, AllocError>
        ensures { IfOk result (λ same. same ≡ self.now) }
    {
        let pool = self.pool.copy(alloc)?;
        let interfaces = self.interfaces.copy(alloc)?;
        let fields = all_again(alloc, self.fields.as_slice())?;
        let methods = all_again(alloc, self.methods.as_slice())?;
        let attributes = all_again(alloc, self.attributes.as_slice())?;
        Ok(ClassParts {
            minor: self.minor,
            major: self.major,
            pool,
            flags: self.flags,
            this_class: self.this_class,
            super_class: self.super_class,
            interfaces,
            fields,
            methods,
            attributes,
        })
    }
}
