ghost use Rattle.std.specs.Prelude.{◌≡◌, ℕ};
ghost use Rattle.jvalues.specs.declared.jops.value.Value.{Value};
ghost use Rattle.jresolution.specs.jprogram.MemberResolution.{desc_of};
ghost use Rattle.jresolution.specs.jlayout.FieldLayout;
ghost use Rattle.jsemantics.specs.jmachine.Narrowing.{narrowed};
ghost use Rattle.jready.specs.InlineOperands.{narrow};

use crate::instr::Narrow;
use jlinking::jlink::LinkedProgram;
use jresolution::jprogram::Member;

/// What is left of an int in a field of a descriptor (JVMS 4.3.2, 2.11.1).
pub(crate) fn narrow_of(desc: &[u8]) -> Narrow
    ensures { (v : Value ℕ) → narrowed (FieldLayout.element desc.now) v ≡ narrow result v }
{
    if desc == b"Z".as_slice() {
        return Narrow::Boolean;
    }
    if desc == b"B".as_slice() {
        return Narrow::Byte;
    }
    if desc == b"C".as_slice() {
        return Narrow::Char;
    }
    if desc == b"S".as_slice() {
        return Narrow::Short;
    }
    Narrow::Whole
}

/// What is left of an int in a field.
pub(crate) fn narrow_at(p: &LinkedProgram, field: Member) -> Narrow
    ensures { (v : Value ℕ) → narrowed (FieldLayout.element (desc_of p.now field)) v ≡ narrow result v }
{
    narrow_of(p.named().desc_of_member(field))
}
