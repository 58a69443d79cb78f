use crate::jprogram::{ClassRef, Member};
use crate::juses::types::TypeRef;
use jparts::jcode::{CastOp, FieldOp};

/// A constant that an instruction pushes by an entry of the pool (JVMS 4.4).
#[derive(Clone, Copy, Debug, PartialEq, Eq)]
pub enum Constant {
    Int(i32),
    Long(i64),
    /// A string: the index of its text.
    Text(u16),
}

/// How a method is called (JVMS 6.5). A special call of an `<init>` is a case of its own.
#[derive(Clone, Copy, Debug, PartialEq, Eq)]
pub enum InvokeKind {
    Virtual,
    /// By invokespecial, of a method.
    Special,
    Static,
    Interface,
    /// By invokespecial, of an `<init>`.
    Init,
}

/// A field that an instruction names: the class by which it is named, its type, and what it stands for.
#[derive(Clone, Copy, Debug, PartialEq, Eq)]
pub struct FieldUse {
    pub owner: ClassRef,
    pub held: TypeRef,
    pub member: Member,
}

/// Types that stand one behind the other in a list of a program's.
#[derive(Clone, Copy, Debug, PartialEq, Eq)]
pub struct Span {
    pub first: u32,
    pub count: u32,
}

/// A method that an instruction names: the class by which it is named, where its parameters' types stand, the type of what it returns,
/// and what it stands for.
#[derive(Clone, Copy, Debug, PartialEq, Eq)]
pub struct CallUse {
    pub owner: ClassRef,
    pub params: Span,
    pub ret: Option<TypeRef>,
    pub member: Member,
}

/// What an instruction means by the pool of its class (JVMS 6.5), classes and types by number.
#[derive(Clone, Copy, Debug, PartialEq, Eq)]
pub enum Use {
    Push(Constant),
    Field(FieldOp, FieldUse),
    Call(InvokeKind, CallUse),
    /// Makes an object.
    Make(ClassRef),
    /// Makes an array of this type.
    MakeArray(TypeRef),
    /// Tests that a reference is of a type.
    Cast(CastOp, TypeRef),
}
