use crate::access::Access;
use jground::jbase::Seq;
use jparts::jcode::{Handler, Placed};
use jparts::jmaps::RawFrame;
use jparts::jpool::Pool;

/// An attribute of a method's code. `name` is the index of its name.
#[derive(Debug, Drop)]
pub enum CodeAttribute {
    /// The frames of a StackMapTable (JVMS 4.7.4), as they are written.
    Maps { name: u16, frames: Seq<RawFrame> },
    /// Any other attribute.
    Raw { name: u16, bytes: Seq<u8> },
}

/// What stands in a Code attribute behind its name (JVMS 4.7.3).
#[derive(Debug, Drop)]
pub struct CodeBody {
    pub max_stack: u16,
    pub max_locals: u16,
    pub ops: Seq<Placed>,
    pub handlers: Seq<Handler>,
    pub attributes: Seq<CodeAttribute>,
}

/// An attribute of a class, a field or a method (JVMS 4.7). `name` is the index of its name.
#[rattlefmt::skip]
#[derive(Debug, Drop)]
pub enum Attribute {
    /// The constant value of a static field.
    ConstantValue { name: u16, value: u16 },
    /// The code of a method.
    Code { name: u16, max_stack: u16, max_locals: u16, ops: Seq<Placed>, handlers: Seq<Handler>, attributes: Seq<CodeAttribute> },
    /// Any other attribute.
    Raw { name: u16, bytes: Seq<u8> },
}

/// A field or a method (JVMS 4.5, 4.6). `name` and `desc` are indices of texts.
#[rattlefmt::skip]
#[derive(Debug, Drop)]
pub struct MemberInfo { pub flags: Access, pub name: u16, pub desc: u16, pub attributes: Seq<Attribute> }

/// The parts of a class file (JVMS 4.1), in the order in which they are written.
#[derive(Debug, Drop)]
pub struct ClassParts {
    pub minor: u16,
    pub major: u16,
    pub pool: Pool,
    pub flags: Access,
    /// The index of this class.
    pub this_class: u16,
    /// The index of the class above it, or 0.
    pub super_class: u16,
    /// The indices of the interfaces.
    pub interfaces: Seq<u16>,
    pub fields: Seq<MemberInfo>,
    pub methods: Seq<MemberInfo>,
    pub attributes: Seq<Attribute>,
}
