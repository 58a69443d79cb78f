ghost use Rattle.std.specs.Prelude.{◌≡◌, List, Some, false, slice_get, true, ℕ};
ghost use Rattle.jclass.specs.declared.class.MemberInfo.{MemberInfo};
ghost use Rattle.jresolution.specs.declared.jprogram.member.Member.TheVariants.{Field};
ghost use Rattle.jresolution.specs.declared.jprogram.part.CodePart.{CodePart};
ghost use Rattle.jresolution.specs.jprogram.ProgramClasses.{Program, extends};
ghost use Rattle.jresolution.specs.jprogram.ClassFileParts.{this_name};
ghost use Rattle.jresolution.specs.jprogram.OrderedPrograms.{StandsInOrder};
ghost use Rattle.jresolution.specs.juses.PoolTables.{Grows};
ghost use Rattle.jresolution.specs.jlayout.InternedFields.{IsFieldOf, all_statics};
ghost use Rattle.jresolution.specs.jlayout.FieldLayout.{field_type, is_static, layout, slot};

/// The laws of layouts. Where the classes of a program stand in order, an object of a class begins with the fields of each class that its
/// class extends, and at the slot of a field of objects its type stands in the layout of the class that declares it. At the slot of a
/// static this field stands among all statics.
pub fn layout_laws()
    ensures above { (p : Program) (c d : List ℕ) → StandsInOrder p → extends p c d ≡ true → Grows (layout p d) (layout p c) }
    ensures fields { (p : Program) (i j s : ℕ) (part : CodePart) (m : MemberInfo) → StandsInOrder p
        → IsFieldOf p i j part m → is_static m ≡ false → slot p (Field i j) ≡ Some s
        → slice_get (layout p (this_name part.class)) s ≡ Some (field_type p part.class m) }
    ensures statics { (p : Program) (i j s : ℕ) (part : CodePart) (m : MemberInfo)
        → IsFieldOf p i j part m → is_static m ≡ true → slot p (Field i j) ≡ Some s
        → slice_get (all_statics p) s ≡ Some (part, m) }
{}
