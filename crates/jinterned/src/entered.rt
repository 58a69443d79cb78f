use jcache::Key;

/// A context that a domain enters, by its number.
#[derive(Clone, Copy, PartialEq, Eq)]
pub struct Entered {
    pub context: u64,
    pub domain: u32,
}

impl Key for Entered {
    ghost use Rattle.jinterned.specs.DomainEntryCache.{key};
    ghost use Rattle.std.proofs.Common.{rules};

    ghost numbered = { λ k. key k.context k.domain };

    ghost exact = { Prim.search rules };

    #[inline]
    fn number(self) -> u64 {
        self.context
            .wrapping_mul(31)
            .wrapping_add(u64::from(self.domain))
    }
}
