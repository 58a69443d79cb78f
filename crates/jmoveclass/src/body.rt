ghost use Rattle.std.specs.Prelude.{◌≡◌, option_map};
ghost use Rattle.jground.specs.jbase.FirstFaults.{first_some};
ghost use Rattle.jresolution.specs.jprogram.ClassFileParts.{code_of};
ghost use Rattle.jmoveclass.specs.ProofNames.{or_no_frames};
ghost use Rattle.jmoveclass.specs.MovableClasses.{seen_body};
ghost use Rattle.jclass.specs.CodeFormat.{maps_of};

use jclass::{Attribute, CodeAttribute, MemberInfo};
use jparts::jcode::{Handler, Placed};
use jparts::jmaps::RawFrame;

/// The code of a method, lent.
#[derive(Clone, Copy)]
pub struct BodyRef<'a> {
    pub max_stack: u16,
    pub max_locals: u16,
    pub ops: &'a [Placed],
    pub handlers: &'a [Handler],
    pub attributes: &'a [CodeAttribute],
}

/// The code of a method, where it has one.
#[tactic(auto, unfolding(jresolution::specs::jprogram::ClassFileParts::code_of, jground::specs::jbase::FirstFaults::first_some))]
pub fn code_in(method: &MemberInfo) -> Option<BodyRef<'_>>
    ensures { option_map seen_body result ≡ code_of method.now }
{
    for attribute in method.attributes.as_slice() {
        if let Attribute::Code {
            max_stack,
            max_locals,
            ops,
            handlers,
            attributes,
            ..
        } = attribute
        {
            return Some(BodyRef {
                max_stack: *max_stack,
                max_locals: *max_locals,
                ops: ops.as_slice(),
                handlers: handlers.as_slice(),
                attributes: attributes.as_slice(),
            });
        }
    }
    None
}

/// The frames of a method's StackMapTable, none where it has none.
#[tactic(auto, unfolding(jground::specs::jbase::FirstFaults::first_some))]
pub fn frames_in(attributes: &[CodeAttribute]) -> &[RawFrame]
    ensures { result.now ≡ or_no_frames (first_some maps_of attributes.now) }
{
    for attribute in attributes {
        if let CodeAttribute::Maps { frames, .. } = attribute {
            return frames.as_slice();
        }
    }
    &[]
}
