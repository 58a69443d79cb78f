ghost use Rattle.std.specs.Prelude.{◌≡◌, ℕ, Some};
ghost use Rattle.jparts.specs.declared.jcode.op_form.PoolForm.{PoolForm};
ghost use Rattle.jresolution.specs.declared.jprogram.member.Member.{Member};
ghost use Rattle.jresolution.specs.jprogram.ProgramClasses.{Program};
ghost use Rattle.jresolution.specs.jprogram.MemberResolution.{resolved};
ghost use Rattle.jresolution.specs.juses.InstructionMeanings.{Meaning, index_of, meant, member_meant};
ghost use Rattle.jresolution.specs.juses.PoolTables.{pool_at};

/// The law of members: the member of a field or of a call is the one to which its entry is resolved (JVMS 5.4.3).
pub fn member_law()
    ensures { (p : Program) (class : ℕ) (f : PoolForm) (m : Meaning) (x : Member) → meant p (pool_at p class) f ≡ Some m
        → member_meant m ≡ Some x → resolved p class (index_of f) ≡ Some x }
{}
