ghost use Rattle.std.specs.Prelude.{◌≡◌, IfOk, IfSome, IsTrue, Some, option_map};
ghost use Rattle.jclass.specs.Class.{class_file};
ghost use Rattle.jclass.specs.FileContents.{IsIn};
ghost use Rattle.jresolution.specs.jprogram.MemberResolution.{part_of};
ghost use Rattle.jresolution.specs.juses.EntryUses.{AreUses};
ghost use Rattle.jtyping.specs.jrule.InternedFrames.{seen};
ghost use Rattle.jverify.specs.IncomingFrames;
ghost use Rattle.jverify.specs.CheckedMethods.{IsChecking, IsCounted, IsGood, frames_of, method_of, program_of};
ghost use Rattle.jverify.specs.MethodStarts.{IsFirst};
ghost use Rattle.jverify.specs.InternedMethods.{seen_body, seen_method};

use crate::method::{MethodRef, code_in, method_of};
use crate::news::news_of;
use crate::reading::declared_of;
use crate::verdict::{first_frame, frames_in};
use crate::walk::{Checking, first_of};
use jclass::{ClassParts, MemberInfo};
use jlinking::jlink::LinkedProgram;
use jresolution::jprogram::{MethodId, NamedProgram};
use jresolution::juses::Uses;
use jtyping::jrule::FrameRef;
use std::alloc::{AllocError, Global};

impl<'a> Checking<'a> {
    /// The frame with which the instruction at a place begins, where the method begins with a frame and no test before it fails.
    #[tactic(auto, unfolding(crate::specs::IncomingFrames::frame_at))]
    fn frame_at(
        &self,
        alloc: Global,
        first: FrameRef,
        place: u32,
    ) -> Result<Option<FrameRef>, AllocError>
        requires checking { IsChecking self.now }
        requires count { IsCounted self.now first }
        ensures { IfOk result (λ r. option_map (seen (program_of self.now)) r
            ≡ IncomingFrames.frame_at (program_of self.now) (method_of self.now) (frames_of self.now) place (method_of self.now).body.ops
            (Some (seen (program_of self.now) first))) }
    {
        let method = self.method;
        let ops = method.body.ops;
        let mut arriving = first_of(first);
        for (i, o) in ops.iter().enumerate() {
            let Some(f) = self.begun(alloc, o.at, arriving)? else {
                return Ok(None);
            };
            if o.at == place {
                return Ok(Some(f.frame));
            }
            match self.step(o, &ops[i + 1..], f)? {
                Some(next) => arriving = next,
                None => return Ok(None),
            }
        }
        Ok(None)
    }

    /// The same, where the method may not begin as it has to.
    fn frame_with(
        &self,
        alloc: Global,
        first: Option<FrameRef>,
        place: u32,
    ) -> Result<Option<FrameRef>, AllocError>
        requires checking { IsChecking self.now }
        requires first { IsFirst (program_of self.now) self.now.method.now first }
        requires count { IfSome first (IsCounted self.now) }
        ensures { IfOk result (λ r. option_map (seen (program_of self.now)) r
            ≡ IncomingFrames.frame_with (program_of self.now) (method_of self.now) (frames_of self.now) place) }
    {
        let Some(first) = first else {
            return Ok(None);
        };
        if !self.enters(&first) {
            return Ok(None);
        }
        self.frame_at(alloc, first, place)
    }
}

/// The frame with which the instruction at a place of a method begins, where all that is tested before holds.
#[tactic(auto, unfolding(crate::specs::IncomingFrames::frame_in, jtyping::specs::jwelltyped::DeclaredFrames::written))]
fn frame_in(
    alloc: Global,
    p: &NamedProgram,
    uses: &Uses,
    m: &MethodRef<'_>,
    place: u32,
) -> Result<Option<FrameRef>, AllocError>
    requires uses { AreUses p.now uses.now }
    requires good { IsGood (seen_body m.now.body) }
    ensures { IfOk result (λ r. option_map (seen p.now) r ≡ IncomingFrames.frame_in p.now (seen_method p.now m.now) place) }
{
    let news = news_of(alloc, p, uses, m.class, m.body.ops)?;
    let frames = frames_in(m.body.attributes);
    let params = m.params.as_slice();
    let declared = match declared_of(alloc, p, uses, m.class, &news, &m.body, params, frames)? {
        Ok(declared) => declared,
        Err(_) => return Ok(None),
    };
    let first = first_frame(alloc, p, m)?;
    let checking = Checking {
        p,
        uses,
        method: m,
        news: &news,
        declared: &declared,
    };
    let frame = checking.frame_with(alloc, first, place)?;
    Ok(frame)
}

/// The same of a method of a class file, which may have no code.
#[tactic(auto, using(crate::proofs::CodeFacts::good_code))]
fn frame_of(
    alloc: Global,
    p: &NamedProgram,
    uses: &Uses,
    i: u32,
    class: &ClassParts,
    method: &MemberInfo,
    place: u32,
) -> Result<Option<FrameRef>, AllocError>
    requires uses { AreUses p.now uses.now }
    requires part { part_of p.now i ≡ Some class.now }
    requires good { IsTrue (class_file.fits class.now) }
    requires there { IsIn method.now class.now.methods }
    ensures { IfOk result (λ r. option_map (seen p.now) r ≡ IncomingFrames.frame_of p.now class.now place method.now) }
{
    let Some(body) = code_in(method) else {
        return Ok(None);
    };
    let m = method_of(alloc, p, i, class, method, body)?;
    frame_in(alloc, p, uses, &m, place)
}

/// The frame before the instruction at a place of a method, where all that is tested before that one holds; None where something isn't, or
/// where there is no such instruction. So it says what stood on the stack where a program isn't well typed.
pub fn frame_before(
    alloc: Global,
    p: &LinkedProgram,
    m: MethodId,
    place: u32,
) -> Result<Option<FrameRef>, AllocError>
    ensures { IfOk result (λ r. option_map (seen p.now) r ≡ IncomingFrames.frame_before p.now m place) }
{
    let Some(part) = p.parts().get(m.class as usize) else {
        return Ok(None);
    };
    let class = part.class.parts();
    let Some(method) = class.methods.as_slice().get(m.method as usize) else {
        return Ok(None);
    };
    frame_of(alloc, p.named(), p.uses(), m.class, class, method, place)
}
