ghost use Rattle.std.specs.Prelude.{◌≡◌, IfOk};

use crate::vtype::{ArrayType, Element, Name, VType};
use std::alloc::{AllocError, Global};

impl Name {
    /// The same name again.
    pub fn copy(&self, alloc: Global) -> Result<Name, AllocError>
        ensures { IfOk result (λ name. name ≡ self.now) }
    {
        Ok(Name(self.0.copy(alloc)?))
    }
}

impl Element {
    /// The same element again.
    pub fn copy(&self, alloc: Global) -> Result<Element, AllocError>
        ensures { IfOk result (λ element. element ≡ self.now) }
    {
        match self {
            Element::Boolean => Ok(Element::Boolean),
            Element::Char => Ok(Element::Char),
            Element::Byte => Ok(Element::Byte),
            Element::Short => Ok(Element::Short),
            Element::Int => Ok(Element::Int),
            Element::Long => Ok(Element::Long),
            Element::Class(name) => Ok(Element::Class(name.copy(alloc)?)),
        }
    }
}

impl ArrayType {
    /// The same type again.
    pub fn copy(&self, alloc: Global) -> Result<ArrayType, AllocError>
        ensures { IfOk result (λ array. array ≡ self.now) }
    {
        let element = self.element.copy(alloc)?;
        Ok(ArrayType {
            depth: self.depth,
            element,
        })
    }
}

impl VType {
    /// The same type again.
    pub fn copy(&self, alloc: Global) -> Result<VType, AllocError>
        ensures { IfOk result (λ t. t ≡ self.now) }
    {
        match self {
            VType::Top => Ok(VType::Top),
            VType::Int => Ok(VType::Int),
            VType::Long => Ok(VType::Long),
            VType::Null => Ok(VType::Null),
            VType::UninitThis => Ok(VType::UninitThis),
            VType::Uninit(at) => Ok(VType::Uninit(*at)),
            VType::Object(name) => Ok(VType::Object(name.copy(alloc)?)),
            VType::Array(array) => Ok(VType::Array(array.copy(alloc)?)),
            VType::Ctx => Ok(VType::Ctx),
        }
    }
}
