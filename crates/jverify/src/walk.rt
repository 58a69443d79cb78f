ghost use Rattle.std.specs.Prelude.{◌≡◌, ◌≤◌, ◌||◌, ◌⊎◌, List, IfOk, IfSome, Some, false, option_map, pos, slice_get, true};
ghost use Rattle.std.specs.List.{list_all, list_any};
ghost use Rattle.jparts.specs.jcode.InstructionForms as forms;
ghost use Rattle.jparts.specs.jcode.InstructionForms.{branches, form};
ghost use Rattle.jparts.specs.jcode.Instructions;
ghost use Rattle.jresolution.specs.juses.InternedTypes.{named};
ghost use Rattle.jtypes.specs.TypeFrames.{Frame};
ghost use Rattle.jparts.specs.declared.jpool.entry.Entry.{Entry};
ghost use Rattle.jtyping.specs.jrule.FormRules.{by_form};
ghost use Rattle.jtyping.specs.jrule.InstructionContext.{Here};
ghost use Rattle.jtyping.specs.jrule.InternedFrames.{seen};
ghost use Rattle.jtyping.specs.jwelltyped.DeclaredFrames.{declared_at};
ghost use Rattle.jtyping.specs.jwelltyped.MethodPremises;
ghost use Rattle.jtyping.specs.jwelltyped.VerifierTests;
ghost use Rattle.jtyping.specs.jwelltyped.ProofNames;
ghost use Rattle.jverify.specs.CheckedMethods as checking;
ghost use Rattle.jverify.specs.CheckedMethods.{IsChecking, IsCounted, IsHeld, IsHere, frames_of, method_of, program_of};
ghost use Rattle.jverify.specs.FrameFacts as keeping;
ghost use Rattle.jverify.specs.FrameFacts.{IsKnown, arrived, held_seen, is_served, none_begins, unknown};

use crate::declared::Declared;
use crate::held::{Arriving, Held, LocalsInfo, Served, is_same, spans};
use crate::method::MethodRef;
use crate::news::MethodNews;
use crate::storing::rests;
use jlib::{LibClass, Thrown};
use jparts::jcode::{Handler, OpForm, Placed, Switch, branch_at, branch_count, form_of, goes_on};
use jresolution::jprogram::{ClassRef, NamedProgram};
use jresolution::juses::{TypeRef, Uses, type_fits};
use jtyping::jrule::{FrameRef, TypingContext, rule};
use std::alloc::{AllocError, Global};

/// A method that is being checked.
#[derive(Clone, Copy)]
pub(crate) struct Checking<'a> {
    pub p: &'a NamedProgram,
    pub uses: &'a Uses,
    pub method: &'a MethodRef<'a>,
    pub news: &'a MethodNews<'a>,
    pub declared: &'a Declared,
}

/// What a handler of index 0 catches.
const THROWABLE: ClassRef = ClassRef::Lib(LibClass::Thrown(Thrown::Throwable));

/// Whether an instruction at a place is one of those that a handler covers (JVMS 4.7.3).
fn covers(at: u32, h: &Handler) -> bool
    ensures { result ≡ Instructions.covers at h.now }
{
    h.start <= at && at < h.end
}

/// The nearer of a place and that at which a handler begins, if it begins behind `at`.
fn nearer(at: u32, next: u32, h: &Handler) -> u32
    ensures near { result ≤ next }
    ensures start { (h.now.start ≤ at) ⊎ (result ≤ h.now.start) }
{
    if at < h.start && h.start < next {
        return h.start;
    }
    next
}

/// A frame that arrives, of which nothing is known.
pub(crate) fn first_of(frame: FrameRef) -> Arriving
    ensures frame { result.held.frame ≡ frame }
    ensures known { result.held.known ≡ unknown }
    ensures comes { result.comes ≡ true }
{
    Arriving {
        held: Held {
            frame,
            known: LocalsInfo {
                from: None,
                served: None,
            },
        },
        comes: true,
    }
}

impl<'a> Checking<'a> {
    // ---- handlers

    /// Whether a handler covers a place.
    fn is_covered(&self, at: u32) -> bool
        ensures { result ≡ list_any (Instructions.covers at) (method_of self.now).body.handlers }
    {
        let method = self.method;
        let handlers = method.body.handlers;
        handlers.iter().any(|h| covers(at, h))
    }

    /// The type of what a handler catches, of everything at index 0.
    fn caught_type(&self, h: &Handler) -> Option<TypeRef>
        requires { IsChecking self.now }
        ensures { option_map (named (program_of self.now)) result ≡ VerifierTests.caught_type (program_of self.now) (method_of self.now) h.now }
    {
        if h.class == 0 {
            return Some(TypeRef::Object(THROWABLE));
        }
        self.uses.class_at(self.method.class, h.class)
    }

    fn handler_fits(&self, f: &Held, h: &Handler) -> bool
        requires checking { IsChecking self.now }
        requires held { IsHeld self.now f.now }
        ensures { result
            ≡ VerifierTests.handler_fits (program_of self.now) (method_of self.now) (frames_of self.now)
            (held_seen (program_of self.now) f.now) h.now }
    {
        let Some(caught) = self.caught_type(h) else {
            return false;
        };
        if !type_fits(self.p, caught, TypeRef::Object(THROWABLE)) {
            return false;
        }
        self.declared
            .catches(self.p, &f.frame, f.known.from, caught, i64::from(h.at))
    }

    /// Whether the frame before an instruction at a place serves a handler, if it covers it.
    fn handler_test(&self, at: u32, f: &Held, h: &Handler) -> bool
        requires checking { IsChecking self.now }
        requires held { IsHeld self.now f.now }
        ensures { result
            ≡ ProofNames.handler_test (program_of self.now) (method_of self.now) (frames_of self.now) at
            (held_seen (program_of self.now) f.now) h.now }
    {
        if !covers(at, h) {
            return true;
        }
        self.handler_fits(f, h)
    }

    /// Whether the frame before an instruction at a place serves the handlers that cover it.
    fn handlers_fit(&self, at: u32, f: &Held) -> bool
        requires checking { IsChecking self.now }
        requires held { IsHeld self.now f.now }
        ensures { result
            ≡ VerifierTests.handlers_fit (program_of self.now) (method_of self.now) (frames_of self.now) at (held_seen (program_of self.now) f.now) }
    {
        let method = self.method;
        let handlers = method.body.handlers;
        handlers.iter().all(|h| self.handler_test(at, f, h))
    }

    // ---- handlers that were served before

    fn later_test(&self, since: u32, at: u32, f: &Held, h: &Handler) -> bool
        requires checking { IsChecking self.now }
        requires held { IsHeld self.now f.now }
        ensures { result
            ≡ (Instructions.covers since h.now
            || ProofNames.handler_test (program_of self.now) (method_of self.now) (frames_of self.now) at (held_seen (program_of self.now) f.now) h.now) }
    {
        if covers(since, h) {
            return true;
        }
        self.handler_test(at, f, h)
    }

    /// Whether the frame before an instruction at a place serves those handlers that cover it and not an earlier place.
    fn later_fit(&self, since: u32, at: u32, f: &Held) -> bool
        requires checking { IsChecking self.now }
        requires held { IsHeld self.now f.now }
        ensures { result ≡ list_all (λ h. Instructions.covers since h
            || ProofNames.handler_test (program_of self.now) (method_of self.now) (frames_of self.now) at (held_seen (program_of self.now) f.now) h)
            (method_of self.now).body.handlers }
    {
        let method = self.method;
        let handlers = method.body.handlers;
        handlers.iter().all(|h| self.later_test(since, at, f, h))
    }

    fn serves_since(&self, s: Served, at: u32, f: &Held) -> bool
        requires checking { IsChecking self.now }
        requires held { IsHeld self.now f.now }
        requires served { is_served (program_of self.now) (method_of self.now) (frames_of self.now)
            (held_seen (program_of self.now) f.now).locals f.now.frame.flag s ≡ true }
        ensures { result
            ≡ VerifierTests.handlers_fit (program_of self.now) (method_of self.now) (frames_of self.now) at (held_seen (program_of self.now) f.now) }
    {
        if spans(s, at) {
            return true;
        }
        self.later_fit(s.at, at, f)
    }

    /// Whether the frame before an instruction at a place serves the handlers that cover it. What its locals and its flag are known to serve
    /// isn't tested again.
    fn serves(&self, at: u32, f: &Held) -> bool
        requires checking { IsChecking self.now }
        requires held { IsHeld self.now f.now }
        ensures { result
            ≡ VerifierTests.handlers_fit (program_of self.now) (method_of self.now) (frames_of self.now) at (held_seen (program_of self.now) f.now) }
    {
        match f.known.served {
            None => self.handlers_fit(at, f),
            Some(s) => self.serves_since(s, at, f),
        }
    }

    /// The first place behind one at which a handler begins, or a place behind all.
    fn next_begin(&self, at: u32) -> u32
        ensures { none_begins (method_of self.now).body.handlers at result ≡ true }
    {
        let method = self.method;
        let handlers = method.body.handlers;
        let mut next = u32::MAX;
        for h in handlers {
            next = nearer(at, next, h);
        }
        next
    }

    /// What is known of handlers by a frame that serves them at a place.
    fn served_at(&self, at: u32, f: &Held) -> Served
        requires held { IsHeld self.now f.now }
        requires serves { VerifierTests.handlers_fit (program_of self.now) (method_of self.now) (frames_of self.now) at
            (held_seen (program_of self.now) f.now) ≡ true }
        ensures { is_served (program_of self.now) (method_of self.now) (frames_of self.now)
            (held_seen (program_of self.now) f.now).locals f.now.frame.flag result ≡ true }
    {
        if let Some(s) = f.known.served {
            if spans(s, at) {
                return s;
            }
        }
        Served {
            at,
            next: self.next_begin(at),
        }
    }

    /// What is known behind an instruction by a frame before it that serves its handlers: nothing, where the instruction may change locals
    /// or the flag.
    fn known_behind(&self, o: &Placed, f: &Held) -> LocalsInfo
        requires held { IsHeld self.now f.now }
        requires serves { VerifierTests.handlers_fit (program_of self.now) (method_of self.now) (frames_of self.now) o.now.at
            (held_seen (program_of self.now) f.now) ≡ true }
        ensures { (here : Here) (pool : List Entry) (g : Frame)
            → by_form (program_of self.now) here pool (form o.now.op) (held_seen (program_of self.now) f.now) ≡ Some g
            → IsKnown (program_of self.now) (method_of self.now) (frames_of self.now) g.locals g.flag result }
    {
        if !rests(self.p, &o.op, &f.frame) {
            return LocalsInfo {
                from: None,
                served: None,
            };
        }
        LocalsInfo {
            from: f.known.from,
            served: Some(self.served_at(o.at, f)),
        }
    }

    /// Whether a frame fits where the method begins.
    pub(crate) fn enters(&self, f: &FrameRef) -> bool
        requires { IsCounted self.now f.now }
        ensures { result ≡ VerifierTests.enters (program_of self.now) (frames_of self.now) (seen (program_of self.now) f.now)
            (method_of self.now).body.ops }
    {
        let method = self.method;
        match method.body.ops {
            [] => true,
            [o, ..] => self.declared.lets_in(self.p, f, None, i64::from(o.at)),
        }
    }

    // ---- an instruction

    /// The place of an instruction as the rule has to know it.
    fn here(&self, at: u16) -> TypingContext
        ensures { IsHere self.now at result }
    {
        let method = self.method;
        TypingContext {
            class: method.class,
            above: method.above,
            is_init: method.is_init,
            returns: method.returns,
            max_stack: method.body.max_stack,
            at,
            covered: self.is_covered(u32::from(at)),
        }
    }

    /// The frame behind an instruction.
    fn ruled(&self, o: &Placed, f: FrameRef) -> Result<Option<FrameRef>, AllocError>
        requires checking { IsChecking self.now }
        requires short { o.now.at ≤ 0xffff }
        requires count { IsCounted self.now f }
        ensures count { IfOk result (λ r. IfSome r (IsCounted self.now)) }
        ensures seen { IfOk result (λ r. option_map (seen (program_of self.now)) r
            ≡ by_form (program_of self.now) (MethodPremises.here_of (program_of self.now) (method_of self.now) o.now.at) (method_of self.now).pool
            (form o.now.op) (seen (program_of self.now) f)) }
    {
        let here = self.here(o.at as u16);
        let form = form_of(&o.op);
        let behind = rule(self.p, self.uses, &here, self.news, &form, f)?;
        Ok(behind)
    }

    /// Whether the frame behind an instruction serves where a branch of it leads, if it is one.
    fn branch_fits(&self, at: u32, by: Option<i32>, g: &Held) -> bool
        requires { IsHeld self.now g.now }
        ensures { result
            ≡ checking.branch_test (ProofNames.branch_fits (program_of self.now) (frames_of self.now) at (held_seen (program_of self.now) g.now)) by }
    {
        match by {
            Some(by) => self.declared.leads_in(
                self.p,
                &g.frame,
                g.known.from,
                i64::from(at) + i64::from(by),
            ),
            None => true,
        }
    }

    /// The same, where the frame serves another branch. One that leads there too isn't tested again.
    fn branch_fits_too(&self, at: u32, other: Option<i32>, by: Option<i32>, g: &Held) -> bool
        requires held { IsHeld self.now g.now }
        requires other { checking.branch_test
            (ProofNames.branch_fits (program_of self.now) (frames_of self.now) at (held_seen (program_of self.now) g.now)) other ≡ true }
        ensures { result
            ≡ checking.branch_test (ProofNames.branch_fits (program_of self.now) (frames_of self.now) at (held_seen (program_of self.now) g.now)) by }
    {
        if is_same(other, by) {
            return true;
        }
        self.branch_fits(at, by, g)
    }

    /// Whether the frame behind an instruction serves where its branches lead.
    fn branches_fit(&self, at: u32, form: &OpForm<&Switch>, g: &Held) -> bool
        requires { IsHeld self.now g.now }
        ensures { result
            ≡ list_all (ProofNames.branch_fits (program_of self.now) (frames_of self.now) at (held_seen (program_of self.now) g.now))
            (branches (forms.seen form.now)) }
    {
        let mut fitting = None;
        for i in 0..branch_count(form) {
            let by = branch_at(form, i);
            if !self.branch_fits_too(at, fitting, by, g) {
                return false;
            }
            fitting = by;
        }
        true
    }

    /// What arrives at the instruction behind one; None where it goes on and none is behind it, or where the frame doesn't fit there.
    fn onward(&self, g: Held, goes_on: bool, rest: &[Placed]) -> Option<Arriving>
        requires { IsHeld self.now g }
        ensures held { IfSome result (λ a. IsHeld self.now a.held) }
        ensures seen { option_map (arrived (program_of self.now)) result
            ≡ VerifierTests.onward (program_of self.now) (frames_of self.now) (held_seen (program_of self.now) g) goes_on rest.now }
    {
        if !goes_on {
            return Some(Arriving {
                held: g,
                comes: false,
            });
        }
        match rest {
            [] => None,
            [o, ..] => {
                if !self
                    .declared
                    .lets_in(self.p, &g.frame, g.known.from, i64::from(o.at))
                {
                    return None;
                }
                Some(Arriving {
                    held: g,
                    comes: true,
                })
            }
        }
    }

    fn leave(&self, o: &Placed, rest: &[Placed], g: Held) -> Option<Arriving>
        requires { IsHeld self.now g }
        ensures held { IfSome result (λ a. IsHeld self.now a.held) }
        ensures seen { option_map (arrived (program_of self.now)) result
            ≡ VerifierTests.leave (program_of self.now) (frames_of self.now) o.now rest.now (held_seen (program_of self.now) g) }
    {
        let form = form_of(&o.op);
        if !self.branches_fit(o.at, &form, &g) {
            return None;
        }
        self.onward(g, goes_on(&form), rest)
    }

    /// What arrives behind an instruction by the frame before it; None where a test of it fails.
    #[tactic(auto, unfolding(jtyping::specs::jwelltyped::VerifierTests::step))]
    pub(crate) fn step(
        &self,
        o: &Placed,
        rest: &[Placed],
        f: Held,
    ) -> Result<Option<Arriving>, AllocError>
        requires checking { IsChecking self.now }
        requires short { o.now.at ≤ 0xffff }
        requires held { IsHeld self.now f }
        ensures held { IfOk result (λ r. IfSome r (λ a. IsHeld self.now a.held)) }
        ensures seen { IfOk result (λ r. option_map (arrived (program_of self.now)) r
            ≡ VerifierTests.step (program_of self.now) (method_of self.now) (frames_of self.now) o.now rest.now (held_seen (program_of self.now) f)) }
    {
        if !self.serves(o.at, &f) {
            return Ok(None);
        }
        let known = self.known_behind(o, &f);
        let Some(frame) = self.ruled(o, f.frame)? else {
            return Ok(None);
        };
        Ok(self.leave(o, rest, Held { frame, known }))
    }

    /// The frame with which the instruction at a place begins: the declared one, or else what arrives.
    pub(crate) fn begun(
        &self,
        alloc: Global,
        at: u32,
        a: Arriving,
    ) -> Result<Option<Held>, AllocError>
        requires { IsHeld self.now a.held }
        ensures held { IfOk result (λ r. IfSome r (IsHeld self.now)) }
        ensures seen { IfOk result (λ r. option_map (held_seen (program_of self.now)) r
            ≡ VerifierTests.begun (declared_at (frames_of self.now) (pos at)) (arrived (program_of self.now) a)) }
    {
        let begun = self.declared.begun(alloc, self.p, at, a)?;
        Ok(begun)
    }

    /// The place of the first instruction with a test that fails, where the method begins with a frame. One frame is held.
    #[tactic(auto, unfolding(jtyping::specs::jwelltyped::VerifierTests::walk))]
    pub(crate) fn walk(&self, alloc: Global, first: FrameRef) -> Result<Option<u32>, AllocError>
        requires checking { IsChecking self.now }
        requires count { IsCounted self.now first }
        ensures { IfOk result (λ r. r
            ≡ VerifierTests.walk (program_of self.now) (method_of self.now) (frames_of self.now) (method_of self.now).body.ops
            (Some (seen (program_of self.now) first))) }
    {
        let method = self.method;
        let ops = method.body.ops;
        let mut arriving = first_of(first);
        for (i, o) in ops.iter().enumerate() {
            let Some(f) = self.begun(alloc, o.at, arriving)? else {
                return Ok(Some(o.at));
            };
            match self.step(o, &ops[i + 1..], f)? {
                Some(next) => arriving = next,
                None => return Ok(Some(o.at)),
            }
        }
        Ok(None)
    }
}
