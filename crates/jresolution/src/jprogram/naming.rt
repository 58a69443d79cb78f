ghost use Rattle.std.specs.Prelude.{◌≡◌, IfOk, Some, slice_get};
ghost use Rattle.std.specs.List.{list_any};
ghost use Rattle.jresolution.specs.jprogram.NameChecks;
ghost use Rattle.jresolution.specs.jprogram.ProofNames;
ghost use Rattle.jresolution.specs.jprogram.NameChecks.{marks_in, text_marks};
ghost use Rattle.jresolution.specs.jprogram.ClassFileParts;

use crate::jprogram::classes::NamedProgram;
use crate::jprogram::fault::{LinkFault, LinkKind};
use crate::jprogram::part::CodePart;
use crate::jprogram::parts::this_name;
use jclass::{ClassParts, MemberInfo};
use jlib::{Side, class};
use jparts::jpool::{DescError, Descriptor, Entry, FieldType, read_descriptor};
use std::alloc::{AllocError, Global};

/// Whether a class of this name stands in the package that the passing library keeps for itself.
fn is_reserved(name: &[u8]) -> bool
    ensures { result ≡ NameChecks.is_reserved name.now }
{
    name.starts_with(b"sps/")
}

fn type_reserved(one: &FieldType) -> bool
    ensures { result ≡ NameChecks.type_reserved one.now }
{
    is_reserved(one.class.as_slice())
}

fn params_reserved(params: &[FieldType]) -> bool
    ensures { result ≡ list_any NameChecks.type_reserved params.now }
{
    params.iter().any(|one| type_reserved(one))
}

fn return_reserved(ret: &Option<FieldType>) -> bool
    ensures { result ≡ ProofNames.return_reserved ret.now }
{
    match ret {
        Some(one) => type_reserved(one),
        None => false,
    }
}

fn desc_reserved(desc: &Descriptor) -> bool
    ensures { result ≡ NameChecks.desc_reserved (Some desc.now) }
{
    match desc {
        Descriptor::Field(one) => type_reserved(one),
        Descriptor::Method { params, ret } => {
            params_reserved(params.as_slice()) || return_reserved(ret)
        }
    }
}

/// Whether a descriptor names such a class.
#[tactic(auto, unfolding(crate::specs::jprogram::NameChecks::text_reserved))]
fn text_reserved(alloc: Global, desc: &[u8]) -> Result<bool, AllocError>
    ensures { IfOk result (λ b. b ≡ NameChecks.text_reserved desc.now) }
{
    match read_descriptor(alloc, desc) {
        Ok(desc) => Ok(desc_reserved(&desc)),
        Err(DescError::Bad) => Ok(false),
        Err(DescError::Memory) => Err(AllocError),
    }
}

/// Whether a text names such a class: as the name of a class, or of an array by its element, and as a descriptor.
#[derive(Clone, Copy, Debug)]
pub struct TextMarks {
    pub class: bool,
    pub desc: bool,
}

fn marks_of(alloc: Global, text: &[u8]) -> Result<TextMarks, AllocError>
    ensures { IfOk result (λ m. m ≡ NameChecks.marks_of text.now) }
{
    let desc = text_reserved(alloc, text)?;
    Ok(TextMarks {
        class: is_reserved(text) || desc,
        desc,
    })
}

fn marks_in(alloc: Global, one: &Entry) -> Result<TextMarks, AllocError>
    ensures { IfOk result (λ m. m ≡ marks_in one.now) }
{
    match one {
        Entry::Utf8(text) => marks_of(alloc, text.as_slice()),
        _ => marks_of(alloc, &[]),
    }
}

/// The marks of a pool's texts: each is read once, however many entries name it.
fn text_marks(alloc: Global, entries: &[Entry]) -> Result<Vec<TextMarks>, AllocError>
    ensures { IfOk result (λ marks. marks.items ≡ text_marks entries.now) }
{
    let mut marks = Vec::new(alloc);
    for one in entries {
        let found = marks_in(alloc, one)?;
        marks.push(found)?;
    }
    Ok(marks)
}

fn mark_at(marks: &[TextMarks], i: u16) -> Option<TextMarks>
    ensures { result ≡ slice_get marks.now i }
{
    marks.get(usize::from(i)).copied()
}

fn class_at(entries: &[Entry], marks: &[TextMarks], i: u16) -> bool
    requires { marks.now ≡ text_marks entries.now }
    ensures { result ≡ NameChecks.class_reserved (ClassFileParts.text entries.now i) }
{
    match mark_at(marks, i) {
        Some(found) => found.class,
        None => false,
    }
}

fn desc_at(entries: &[Entry], marks: &[TextMarks], i: u16) -> bool
    requires { marks.now ≡ text_marks entries.now }
    ensures { result ≡ NameChecks.text_reserved (ClassFileParts.text entries.now i) }
{
    match mark_at(marks, i) {
        Some(found) => found.desc,
        None => false,
    }
}

fn entry_reserved(entries: &[Entry], marks: &[TextMarks], one: &Entry) -> bool
    requires { marks.now ≡ text_marks entries.now }
    ensures { result ≡ NameChecks.entry_reserved entries.now one.now }
{
    match one {
        Entry::Class(name) => class_at(entries, marks, *name),
        Entry::NameAndType(_, desc) => desc_at(entries, marks, *desc),
        _ => false,
    }
}

fn entries_reserved(entries: &[Entry], marks: &[TextMarks]) -> bool
    requires { marks.now ≡ text_marks entries.now }
    ensures { result ≡ list_any (NameChecks.entry_reserved entries.now) entries.now }
{
    entries
        .iter()
        .any(|one| entry_reserved(entries, marks, one))
}

fn members_reserved(class: &ClassParts, marks: &[TextMarks], members: &[MemberInfo]) -> bool
    requires { marks.now ≡ text_marks class.now.pool }
    ensures { result ≡ list_any (NameChecks.member_reserved class.now) members.now }
{
    let entries = class.pool.entries();
    members.iter().any(|one| desc_at(entries, marks, one.desc))
}

fn names_reserved(alloc: Global, class: &ClassParts) -> Result<bool, AllocError>
    ensures { IfOk result (λ b. b ≡ NameChecks.names_reserved class.now) }
{
    let entries = class.pool.entries();
    let marks = text_marks(alloc, entries)?;
    let marks = marks.as_slice();
    if entries_reserved(entries, marks) {
        return Ok(true);
    }
    if members_reserved(class, marks, class.methods.as_slice()) {
        return Ok(true);
    }
    Ok(members_reserved(class, marks, class.fields.as_slice()))
}

impl NamedProgram {
    /// ReservedName where a class of a program for the source library names one of the package `sps`: by a Class entry, an array's by
    /// its element, or by the descriptor of a NameAndType entry or of a member.
    #[tactic(auto, unfolding(crate::specs::jprogram::NameChecks::reserved_test))]
    pub fn reserved_test(
        &self,
        alloc: Global,
        class: &ClassParts,
    ) -> Result<Option<LinkKind>, AllocError>
        ensures { IfOk result (λ o. o ≡ NameChecks.reserved_test self.now class.now) }
    {
        match self.side() {
            Side::Passing => Ok(None),
            Side::Source => {
                if names_reserved(alloc, class)? {
                    return Ok(Some(LinkKind::ReservedName));
                }
                Ok(None)
            }
        }
    }

    fn stands_before(&self, i: u32, name: &[u8]) -> bool
        ensures { result ≡ NameChecks.stands_before self.now.parts i name.now }
    {
        match self.place_of(name) {
            Some(first) => first < i,
            None => false,
        }
    }

    /// Twice where the name of the class at a place is the library's, or that of a class before it.
    #[tactic(auto, unfolding(crate::specs::jprogram::NameChecks::taken_test))]
    pub fn taken_test(&self, i: u32, one: &ClassParts) -> Option<LinkKind>
        ensures { result ≡ NameChecks.taken_test self.now i one.now }
    {
        let name = this_name(one);
        if class(self.side(), name).is_some() {
            return Some(LinkKind::Twice);
        }
        if self.stands_before(i, name) {
            return Some(LinkKind::Twice);
        }
        None
    }

    fn naming_test(
        &self,
        alloc: Global,
        i: u32,
        part: &CodePart,
    ) -> Result<Option<LinkKind>, AllocError>
        ensures { IfOk result (λ o. o ≡ NameChecks.naming_test self.now i part.now) }
    {
        let class = part.class.parts();
        if let Some(kind) = self.reserved_test(alloc, class)? {
            return Ok(Some(kind));
        }
        Ok(self.taken_test(i, class))
    }

    /// The first class that names one of the package `sps` in a program for the source library, or whose name is the library's or that
    /// of a class before it.
    #[tactic(auto, unfolding(jground::specs::jbase::FirstFaults::first_along, crate::specs::jprogram::NameChecks::naming_fault))]
    pub fn naming_fault(&self, alloc: Global) -> Result<Option<LinkFault>, AllocError>
        ensures { IfOk result (λ o. o ≡ NameChecks.naming_fault self.now) }
    {
        let parts = self.parts();
        for (i, part) in parts.iter().enumerate() {
            let class = i as u32;
            if let Some(kind) = self.naming_test(alloc, class, part)? {
                return Ok(Some(LinkFault {
                    class,
                    member: None,
                    kind,
                }));
            }
        }
        Ok(None)
    }
}
