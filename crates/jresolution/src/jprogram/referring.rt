ghost use Rattle.std.specs.Prelude.{◌≡◌, IfOk, option_and_then, option_map, slice_get};
ghost use Rattle.jparts.specs.jpool.ConstantPools.{name_and_type_at};
ghost use Rattle.jresolution.specs.jprogram.InterfaceSearch;
ghost use Rattle.jresolution.specs.jprogram.InterfaceSearch.{IsLayered};
ghost use Rattle.jresolution.specs.jprogram.MemberResolution;

use crate::jprogram::classes::NamedProgram;
use crate::jprogram::member::Member;
use crate::jprogram::parts::{class_text, text_at};
use crate::jprogram::searching::Sort;
use jparts::jpool::{Entry, Pool};
use std::alloc::{AllocError, Global};

impl NamedProgram {
    fn resolve_by(
        &self,
        alloc: Global,
        sort: Sort,
        class: &[u8],
        name: &[u8],
        desc: &[u8],
    ) -> Result<Option<Member>, AllocError>
        requires { IsLayered self.now }
        ensures { IfOk result (λ m. m ≡ InterfaceSearch.resolve_by self.now sort class.now name.now desc.now) }
    {
        match sort {
            Sort::Method => self.resolve_method(alloc, class, name, desc),
            Sort::Field => self.resolve_field(alloc, class, name, desc),
        }
    }

    /// The member of a class entry's class that a NameAndType entry says.
    fn looked_up(
        &self,
        alloc: Global,
        sort: Sort,
        pool: &Pool,
        class: u16,
        both: u16,
    ) -> Result<Option<Member>, AllocError>
        requires { IsLayered self.now }
        ensures { IfOk result
            (λ m. m ≡ option_and_then (MemberResolution.looked_up pool.now class (InterfaceSearch.resolve_by self.now sort))
            (name_and_type_at pool.now both)) }
    {
        let Some((name, desc)) = pool.name_and_type(both) else {
            return Ok(None);
        };
        let name = text_at(pool, name);
        let desc = text_at(pool, desc);
        self.resolve_by(alloc, sort, class_text(pool, class), name, desc)
    }

    fn referred(&self, alloc: Global, pool: &Pool, i: u16) -> Result<Option<Member>, AllocError>
        requires { IsLayered self.now }
        ensures { IfOk result (λ m. m ≡ MemberResolution.referred self.now pool.now (slice_get pool.now i)) }
    {
        match pool.entry(i) {
            Some(Entry::Field(class, both)) => {
                self.looked_up(alloc, Sort::Field, pool, *class, *both)
            }
            Some(Entry::Method(class, both)) => {
                self.looked_up(alloc, Sort::Method, pool, *class, *both)
            }
            Some(Entry::InterfaceMethod(class, both)) => {
                self.looked_up(alloc, Sort::Method, pool, *class, *both)
            }
            _ => Ok(None),
        }
    }

    /// The member that the entry at an index of a part's pool stands for: of a Fieldref a field, of a Methodref and of an
    /// InterfaceMethodref a method. None where the entry is none of these, or stands for none.
    ///
    /// No class or interface may stand among its own interfaces.
    #[tactic(auto, unfolding(crate::specs::jprogram::MemberResolution::resolved))]
    pub fn resolved(&self, alloc: Global, class: u32, i: u16) -> Result<Option<Member>, AllocError>
        requires { IsLayered self.now }
        ensures { IfOk result (λ m. m ≡ MemberResolution.resolved self.now class i) }
    {
        let Some(part) = self.parts().get(class as usize) else {
            return Ok(None);
        };
        self.referred(alloc, &part.class.parts().pool, i)
    }
}
