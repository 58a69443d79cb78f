ghost use Rattle.std.specs.Prelude.{◌≡◌, true, IfOk, option_map};
ghost use Rattle.jresolution.specs.jprogram.ProgramClasses;
ghost use Rattle.jresolution.specs.jprogram.Heights;
ghost use Rattle.jresolution.specs.jprogram.SuperChecks;
ghost use Rattle.jresolution.specs.jprogram.ProofNames;

use crate::jprogram::classes::{NamedProgram, OBJECT};
use crate::jprogram::fault::{LinkFault, LinkKind};
use crate::jprogram::part::CodePart;
use crate::jprogram::parts::{class_text, super_name, this_name};
use bitflags::Flags;
use jclass::{Access, ClassParts};
use std::alloc::{AllocError, Global};

fn is_object(name: Option<&[u8]>) -> bool
    ensures { result ≡ SuperChecks.is_object (option_map (λ t. t.now) name.entry) }
{
    match name {
        Some(name) => name == OBJECT,
        None => false,
    }
}

impl NamedProgram {
    fn is_missing(&self, name: &[u8]) -> bool
        ensures { result ≡ SuperChecks.is_missing self.now name.now }
    {
        self.class_of(name).is_none()
    }

    fn super_missing(&self, name: Option<&[u8]>) -> bool
        ensures { result ≡ ProofNames.super_missing self.now (option_map (λ t. t.now) name.entry) }
    {
        match name {
            Some(name) => self.is_missing(name),
            None => true,
        }
    }

    fn face_missing(&self, class: &ClassParts) -> bool
        ensures { result ≡ SuperChecks.face_missing self.now class.now }
    {
        class
            .interfaces
            .as_slice()
            .iter()
            .any(|i| self.is_missing(class_text(&class.pool, *i)))
    }

    /// NoClass where a class has no superclass, or where this or an interface that it lists isn't found.
    #[tactic(auto, unfolding(crate::specs::jprogram::SuperChecks::missing_test))]
    pub fn missing_test(&self, class: &ClassParts) -> Option<LinkKind>
        ensures { result ≡ SuperChecks.missing_test self.now class.now }
    {
        if self.super_missing(super_name(class)) {
            return Some(LinkKind::NoClass);
        }
        if self.face_missing(class) {
            return Some(LinkKind::NoClass);
        }
        None
    }

    fn is_barred(&self, name: &[u8]) -> bool
        ensures { result ≡ ProgramClasses.holds ProofNames.is_barred (ProgramClasses.find self.now name.now) }
    {
        match self.find(name) {
            Some(found) => found.is_closed() || found.is_interface(),
            None => false,
        }
    }

    fn super_barred(&self, name: Option<&[u8]>) -> bool
        ensures { result ≡ SuperChecks.super_barred self.now (option_map (λ t. t.now) name.entry) }
    {
        match name {
            Some(name) => self.is_barred(name),
            None => true,
        }
    }

    fn lists_a_class(&self, class: &ClassParts) -> bool
        ensures { result ≡ SuperChecks.lists_a_class self.now class.now }
    {
        class
            .interfaces
            .as_slice()
            .iter()
            .any(|i| !self.is_interface(class_text(&class.pool, *i)))
    }

    /// BadSuper where a class's superclass is final, closed or an interface, where it lists a class, and where it is an interface and
    /// extends another class than Object.
    #[tactic(auto, unfolding(crate::specs::jprogram::SuperChecks::super_test))]
    pub fn super_test(&self, class: &ClassParts) -> Option<LinkKind>
        ensures { result ≡ SuperChecks.super_test self.now class.now }
    {
        if self.super_barred(super_name(class)) {
            return Some(LinkKind::BadSuper);
        }
        if self.lists_a_class(class) {
            return Some(LinkKind::BadSuper);
        }
        if class.flags.contains(Access::INTERFACE) && !is_object(super_name(class)) {
            return Some(LinkKind::BadSuper);
        }
        None
    }

    /// The test of circles, where heights don't show already that the class is in none.
    fn circle_unless(
        &self,
        alloc: Global,
        class: &ClassParts,
        heights: &[u32],
        ordered: bool,
    ) -> Result<Option<LinkKind>, AllocError>
        requires { ordered ≡ Heights.is_order self.now heights.now }
        ensures { IfOk result (λ o. o ≡ SuperChecks.circle_test self.now class.now) }
    {
        if self.is_apart(heights, ordered, this_name(class)) {
            return Ok(None);
        }
        self.circle_test(alloc, class)
    }

    fn supers_test(
        &self,
        alloc: Global,
        part: &CodePart,
        heights: &[u32],
        ordered: bool,
    ) -> Result<Option<LinkKind>, AllocError>
        requires { ordered ≡ Heights.is_order self.now heights.now }
        ensures { IfOk result (λ o. o ≡ SuperChecks.supers_test self.now part.now) }
    {
        let class = part.class.parts();
        if let Some(kind) = self.missing_test(class) {
            return Ok(Some(kind));
        }
        if let Some(kind) = self.super_test(class) {
            return Ok(Some(kind));
        }
        self.circle_unless(alloc, class, heights, ordered)
    }

    /// The first class that has no superclass or stands below one that isn't there, or below one that may not stand there, or above
    /// itself. What stands above a class is searched only where heights don't show that the class is in no circle.
    #[tactic(auto, unfolding(jground::specs::jbase::FirstFaults::first_along, crate::specs::jprogram::SuperChecks::supers_fault))]
    pub fn supers_fault(&self, alloc: Global) -> Result<Option<LinkFault>, AllocError>
        ensures { IfOk result (λ o. o ≡ SuperChecks.supers_fault self.now) }
    {
        let sought = self.heights(alloc)?;
        let heights = sought.as_slice();
        let ordered = self.is_order(heights);
        let parts = self.parts();
        for (i, part) in parts.iter().enumerate() {
            let class = i as u32;
            if let Some(kind) = self.supers_test(alloc, part, heights, ordered)? {
                return Ok(Some(LinkFault {
                    class,
                    member: None,
                    kind,
                }));
            }
        }
        Ok(None)
    }
}
