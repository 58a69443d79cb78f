ghost use Rattle.std.specs.Prelude.{◌≡◌, IfSome, IsTrue, option_map};
ghost use Rattle.jclass.specs.Class.{class_file};
ghost use Rattle.jclass.specs.FileContents.{IsIn};
ghost use Rattle.jresolution.specs.jprogram.ClassFileParts.{code_of};
ghost use Rattle.jresolution.specs.juses.IndexedInstructions;
ghost use Rattle.jresolution.specs.juses.InternedInstructions.{AreCode, seen_code};

use crate::jprogram::{MethodId, NamedProgram};
use jclass::{Attribute, ClassParts, CodeAttribute, MemberInfo};
use jparts::jcode::{Handler, Placed};

/// The code of a method, lent.
#[derive(Clone, Copy)]
pub struct CodeRef<'a> {
    pub max_stack: u16,
    pub max_locals: u16,
    pub ops: &'a [Placed],
    pub handlers: &'a [Handler],
    pub attributes: &'a [CodeAttribute],
}

/// The code of a method, where it has one.
#[tactic(auto, unfolding(crate::specs::jprogram::ClassFileParts::code_of, jground::specs::jbase::FirstFaults::first_some))]
fn code_in(method: &MemberInfo) -> Option<CodeRef<'_>>
    ensures { option_map seen_code result ≡ code_of method.now }
{
    for attribute in method.attributes.as_slice() {
        if let Attribute::Code {
            max_stack,
            max_locals,
            ops,
            handlers,
            attributes,
            ..
        } = attribute
        {
            return Some(CodeRef {
                max_stack: *max_stack,
                max_locals: *max_locals,
                ops: ops.as_slice(),
                handlers: handlers.as_slice(),
                attributes: attributes.as_slice(),
            });
        }
    }
    None
}

/// The same of a method of a class file.
fn stored_code<'a>(class: &ClassParts, method: &'a MemberInfo) -> Option<CodeRef<'a>>
    requires good { IsTrue (class_file.fits class.now) }
    requires there { IsIn method.now class.now.methods }
    ensures same { option_map seen_code result ≡ code_of method.now }
    ensures good { IfSome result (λ c. AreCode c.ops.now) }
{
    code_in(method)
}

/// The code of a user's method, None where there is no such method, or where it has none (JVMS 4.7.3).
pub fn code_at(p: &NamedProgram, m: MethodId) -> Option<CodeRef<'_>>
    ensures same { option_map seen_code result ≡ IndexedInstructions.code_at p.now m }
    ensures good { IfSome result (λ c. AreCode c.ops.now) }
{
    let part = p.parts().get(m.class as usize)?;
    let class = part.class.parts();
    let method = class.methods.as_slice().get(m.method as usize)?;
    stored_code(class, method)
}
