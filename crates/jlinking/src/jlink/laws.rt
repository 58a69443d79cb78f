ghost use Rattle.std.specs.Prelude.{◌≡◌, ◌<◌, ℕ, [], Some, length, slice_get};
ghost use Rattle.std.specs.Option.{IsSome};
ghost use Rattle.jclass.specs.declared.class.CodeBody.{CodeBody};
ghost use Rattle.jresolution.specs.declared.jprogram.member.CallKind.{CallKind};
ghost use Rattle.jresolution.specs.declared.jprogram.member.ClassId.{ClassId};
ghost use Rattle.jresolution.specs.declared.jprogram.member.Member.{Member};
ghost use Rattle.jresolution.specs.declared.jprogram.member.MethodId.{MethodId};
ghost use Rattle.jresolution.specs.declared.jprogram.part.CodePart.{CodePart};
ghost use Rattle.jresolution.specs.jprogram.ProgramClasses.{Program};
ghost use Rattle.jresolution.specs.jprogram.MemberResolution.{select};
ghost use Rattle.jresolution.specs.jprogram.ClassFileParts.{this_name};
ghost use Rattle.jparts.specs.declared.jcode.names.FieldOp.{FieldOp};
ghost use Rattle.jresolution.specs.juses.IndexedInstructions.{Instruction, Used, code_at, instruction_at};
ghost use Rattle.jresolution.specs.juses.InstructionMeanings as meanings;
ghost use Rattle.jresolution.specs.declared.juses.meaning.InvokeKind.{InvokeKind};
ghost use Rattle.jresolution.specs.juses.InstructionMeanings.{CallMeaning, FieldMeaning};
ghost use Rattle.jlinking.specs.jlink.NamedCalls.{IsNamedCall};
ghost use Rattle.jlinking.specs.jlink.ProgramFiles.{AreFiles, LeadsWithin};
ghost use Rattle.jlinking.specs.jlink.NamedFields.{IsNamedField};
ghost use Rattle.jlinking.specs.jlink.LinkedPrograms.{Links};
ghost use Rattle.jlinking.specs.jlink.SelectedMethods.{IsSelectedAs};

/// The law of selection: the method that is selected where another one is called has its name and its descriptor (JVMS 5.4.6).
pub fn selection_law()
    ensures { (p : Program) (on : ClassId) (m : Member) (call : CallKind) → IsSelectedAs p m (select p on m call) }
{}

/// In a program that links and whose parts are class files, each instruction of a method's code has a meaning, and the numbers to which one
/// leads are those of instructions of its method (JVMS 4.9.1, 6.5).
pub fn instruction_laws()
    ensures means { (p : Program) (m : MethodId) (body : CodeBody) (i : ℕ) → Links p → AreFiles p → code_at p m ≡ Some body → i < length body.ops
        → IsSome (instruction_at p m i) }
    ensures leads { (p : Program) (m : MethodId) (body : CodeBody) (i : ℕ) (one : Instruction) → code_at p m ≡ Some body
        → instruction_at p m i ≡ Some one
        → LeadsWithin body one }
{}

/// The law of fields, in a program that links: an instruction names a static field where it takes one, and else one of the objects of a
/// class which the class extends by which the field is named; none holds a security context (JVMS 5.4.3.2, 6.5: getfield, putfield,
/// getstatic, putstatic).
pub fn field_law()
    ensures { (p : Program) (m : MethodId) (i : ℕ) (op : FieldOp) (f : FieldMeaning) → Links p
        → instruction_at p m i ≡ Some (Used (meanings.Field op f))
        → IsNamedField p op f }
{}

/// The law of calls, in a program that links: an instruction that doesn't call a constructor names none, and where it calls one of the
/// library's, this is that of the class by which it is named (JVMS 5.4.3.3, 6.5: invokespecial).
pub fn call_law()
    ensures { (p : Program) (m : MethodId) (i : ℕ) (by : InvokeKind) (c : CallMeaning) → Links p
        → instruction_at p m i ≡ Some (Used (meanings.Call by c))
        → IsNamedCall p by c }
{}

/// The law of names, where each part is a class file: no class has the empty name (JVMS 4.2.1).
pub fn name_law()
    ensures { (p : Program) (i : ℕ) (part : CodePart) → AreFiles p → slice_get p.parts i ≡ Some part → this_name part.class ≡ [] → ⊥ }
{}
