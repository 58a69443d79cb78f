ghost use Rattle.std.specs.Prelude.{◌≡◌, ◌≤◌, length, Some, slice_get};
ghost use Rattle.std.specs.List.{filter};
ghost use Rattle.jresolution.specs.jlayout.FieldCounts;
ghost use Rattle.jresolution.specs.jlayout.FieldLayout;

use crate::jprogram::{CodePart, NamedProgram};
use bitflags::Flags;
use jclass::{Access, MemberInfo};

/// Whether a field is one of its class, not of each object.
pub(crate) fn is_static(field: &MemberInfo) -> bool
    ensures { result ≡ FieldLayout.is_static field.now }
{
    field.flags.contains(Access::STATIC)
}

/// How many fields are those of objects.
fn instance_count(fields: &[MemberInfo]) -> usize
    ensures count { result ≡ length (filter FieldLayout.is_instance fields.now) }
    ensures most { result ≤ length fields.now }
{
    let mut count = 0usize;
    for field in fields {
        if !is_static(field) {
            count += 1;
        }
    }
    count
}

/// How many fields of objects a part's class declares.
pub(crate) fn own_in(part: &CodePart) -> u32
    ensures { result ≡ FieldCounts.own_in (Some part.now) }
{
    let class = part.class.parts();
    instance_count(class.fields.as_slice()) as u32
}

/// How many a user's class declares, by its place among the parts; none where there is no such class.
pub(crate) fn own_at(p: &NamedProgram, class: u32) -> u32
    ensures { result ≡ FieldCounts.own_at p.now class }
{
    match p.parts().get(class as usize) {
        Some(part) => own_in(part),
        None => 0,
    }
}
