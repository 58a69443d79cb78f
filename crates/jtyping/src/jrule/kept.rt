ghost use Rattle.std.specs.Prelude.{◌≡◌, ◌++◌, ◌-◌, ◌<◌, ◌≤◌, OnErr, OnOk, length, map, replicate, slice_get, slice_set};
ghost use Rattle.jtyping.specs.jrule.FilledLocals.{filled};
ghost use Rattle.jtyping.specs.jrule.TypeSubstitution.{swapped};

use crate::jrule::unready::Unready;
use jground::jbase::Seq;
use jresolution::juses::TypeRef;
use std::alloc::AllocError;
use std::marker::Model;

/// The locals of a frame. Those behind the last that was set are Top, and aren't kept.
#[derive(Debug, Drop)]
pub struct Locals {
    items: Vec<TypeRef>,
    /// How many there are.
    count: usize,
}

impl Model for Locals {
    ghost use Rattle.std.specs.Prelude.{◌≤◌, List, length};
    ghost use Rattle.jresolution.specs.declared.juses.types.TypeRef.{TypeRef};
    ghost use Rattle.jtyping.specs.jrule.FilledLocals.{filled};

    ghost Value = { List TypeRef };

    ghost view = { λ s. filled s.items.items s.count };

    ghost invariant = { λ s. length s.items.items ≤ s.count };
}

impl Locals {
    /// So many locals, of which each behind the given ones is Top. It takes no memory.
    pub fn of(items: Seq<TypeRef>, count: usize) -> Locals
        requires { length items ≤ count }
        ensures { result ≡ items ++ replicate (count - length items) TypeRef.Top }
    {
        Locals {
            items: items.into_vec(),
            count,
        }
    }

    /// How many there are.
    #[tactic(auto, using(crate::proofs::JruleProofs::LocalPrefixes::filled_length))]
    pub fn len(&self) -> usize
        ensures { result ≡ length self.now }
    {
        self.count
    }

    /// The type of a local; none where it isn't there.
    #[tactic(auto, using(crate::proofs::JruleProofs::LocalPrefixes::got_kept, crate::proofs::JruleProofs::LocalPrefixes::got_top, crate::proofs::JruleProofs::LocalPrefixes::got_none,),)]
    pub fn get(&self, n: usize) -> Option<TypeRef>
        ensures { result ≡ slice_get self.now n }
    {
        if n < self.items.len() {
            return Some(self.items[n]);
        }
        if n < self.count {
            return Some(TypeRef::Top);
        }
        None
    }

    /// Gives a local another type. It takes memory where the local wasn't kept. After an error they are as they were.
    pub fn set(&mut self, n: usize, t: TypeRef) -> Result<(), AllocError>
        requires { n < length self.old }
        ensures ok { OnOk result (self.new ≡ slice_set self.old n t) }
        ensures err { OnErr result (self.new ≡ self.old) }
    {
        if n < self.items.len() {
            self.items[n] = t;
            return Ok(());
        }
        self.items.resize(n + 1, TypeRef::Top)?;
        self.items[n] = t;
        Ok(())
    }

    /// Those that are kept.
    #[tactic(auto, using(crate::proofs::JruleProofs::LocalPrefixes::filled_length))]
    pub fn as_slice(&self) -> &[TypeRef]
        ensures { result.now ++ replicate (length self.now - length result.now) TypeRef.Top ≡ self.now }
    {
        self.items.as_slice()
    }

    /// The locals with another type for each that stands for an object.
    #[tactic(auto, using(crate::proofs::JruleProofs::LocalPrefixes::swapped_kept))]
    pub(crate) fn all_swapped(self, it: Unready, new: TypeRef) -> Locals
        ensures { result ≡ map (swapped it new) self }
    {
        Locals {
            items: it.all_swapped(new, self.items),
            count: self.count,
        }
    }
}
