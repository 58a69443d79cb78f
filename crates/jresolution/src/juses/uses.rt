ghost use Rattle.std.specs.Prelude.{◌≡◌, IfOk, option_map, slice_get};
ghost use Rattle.jresolution.specs.jprogram.ProgramClasses.{Program};
ghost use Rattle.jresolution.specs.jprogram.InterfaceSearch.{IsLayered};
ghost use Rattle.jresolution.specs.jprogram.MemberResolution;
ghost use Rattle.jresolution.specs.juses.InstructionMeanings;
ghost use Rattle.jresolution.specs.juses.InstructionMeanings.{array_meant, meaning_of, meant, spanned};
ghost use Rattle.jresolution.specs.juses.PoolTables.{entries_at, kept_in, pool_at};
ghost use Rattle.jresolution.specs.juses.InternedTypes.{named};
ghost use Rattle.jresolution.specs.juses.EntryUses.{AreUses};

use crate::jprogram::{Member, NamedProgram};
use crate::juses::entries::{Kept, entries_of};
use crate::juses::meaning::{Span, Use};
use crate::juses::types::TypeRef;
use crate::juses::using::{array_made, class_in, index_of, used};
use jground::jbase::Seq;
use jparts::jcode::PoolForm;
use std::alloc::{AllocError, Global};

/// What each entry of a program's pools stands for, made once of the program and looked at without memory.
#[derive(Debug, Drop)]
pub struct Uses {
    /// Of each part each entry.
    parts: Seq<Seq<Kept>>,
    /// The types of parameters.
    types: Seq<TypeRef>,
}

impl Uses {
    /// The table of a program. No class or interface may stand among its own interfaces.
    ///
    /// An error says that no memory was left, or that the parameters have more than 2 ^ 32 types.
    pub fn of(alloc: Global, p: &NamedProgram) -> Result<Uses, AllocError>
        requires { IsLayered p.now }
        ensures { IfOk result (λ uses. AreUses p.now uses) }
    {
        let mut types = Seq::new(alloc);
        let mut parts = Seq::new(alloc);
        for part in p.parts() {
            let entries = entries_of(alloc, p, &mut types, &part.class.parts().pool)?;
            parts.push(entries)?;
        }
        Ok(Uses { parts, types })
    }

    fn kept_at(&self, class: u32, i: u16) -> Kept
        ensures { result ≡ kept_in (slice_get (entries_at self.now.parts class) i) }
    {
        let Some(entries) = self.parts.as_slice().get(class as usize) else {
            return Kept::Nothing;
        };
        match entries.as_slice().get(usize::from(i)) {
            Some(one) => *one,
            None => Kept::Nothing,
        }
    }

    /// What an instruction by an entry of the pool means in its part (JVMS 6.5). None where its entry stands for nothing: what it names
    /// isn't there, is of a kind that is left out, or isn't what the instruction takes.
    pub fn use_at(&self, class: u32, form: PoolForm) -> Option<Use>
        ensures { (p : Program) → AreUses p self.now
            → option_map (meaning_of p (pool_at p class) self.now.types) result ≡ meant p (pool_at p class) form }
    {
        let kept = self.kept_at(class, index_of(form));
        used(form, kept)
    }

    /// What the instruction means in a part that makes an array of the class at an index.
    pub fn array_use_at(&self, class: u32, i: u16) -> Option<Use>
        ensures { (p : Program) → AreUses p self.now
            → option_map (meaning_of p (pool_at p class) self.now.types) result ≡ array_meant p (pool_at p class) i }
    {
        let kept = self.kept_at(class, i);
        array_made(kept)
    }

    /// The type of the class at an index of a part's pool.
    pub fn class_at(&self, class: u32, i: u16) -> Option<TypeRef>
        ensures { (p : Program) → AreUses p self.now → option_map (named p) result ≡ InstructionMeanings.class_at p (pool_at p class) i }
    {
        let kept = self.kept_at(class, i);
        class_in(kept)
    }

    /// The member that the entry at an index of a part's pool stands for: of a Fieldref a field, of a Methodref and of an
    /// InterfaceMethodref a method.
    pub fn member_at(&self, class: u32, i: u16) -> Option<Member>
        ensures { (p : Program) → AreUses p self.now → result ≡ MemberResolution.resolved p class i }
    {
        let kept = self.kept_at(class, i);
        kept.member()
    }

    /// The types that stand at a span: those of a method's parameters, the newest first.
    pub fn params(&self, span: Span) -> &[TypeRef]
        ensures { result.now ≡ spanned self.now.types span }
    {
        let types = self.types.as_slice();
        let first = (span.first as usize).min(types.len());
        let (_, behind) = types.split_at(first);
        let count = (span.count as usize).min(behind.len());
        let (params, _) = behind.split_at(count);
        params
    }
}
