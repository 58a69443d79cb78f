ghost use Rattle.std.specs.Prelude.{◌≡◌, ◌<◌, ◌∷◌, [], List, IfOk, IfSome, OnErr, Some, length, slice_get};
ghost use Rattle.std.specs.Option.{option_copied};
ghost use Rattle.jdomain.specs.Domains.{has};
ghost use Rattle.jdomain.specs.DomainStacks.{Stack, walk};
ghost use Rattle.jctx.specs.declared.item.Item.{Item};
ghost use Rattle.jctx.specs.Contexts.{along, verdict};
ghost use Rattle.jinterned.specs.DomainEntryCache.{IsEntered};
ghost use Rattle.jinterned.specs.InternedContexts.{AreTabled, HoldsEntered, HoldsPrivileged};

use crate::entered::Entered;
use crate::pairs::Pair;
use crate::store::Store;
use jcache::Memo;
use jctx::context_laws;
use jdomain::{Domains, Verdict};
use jperm::Permission;
use std::alloc::{AllocError, Global};
use std::marker::Model;

/// Contexts by number, each once. Contracts see the list of them; the first restricts nothing.
#[derive(Drop)]
pub struct Table {
    store: Store,
    /// The numbers of what contexts became that domains entered.
    known: Memo<Entered, u64>,
    /// The context that is looked for. Its room stays.
    made: Vec<Pair>,
}

impl Model for Table {
    ghost use Rattle.std.specs.Prelude.{List};
    ghost use Rattle.jctx.specs.declared.item.Item.{Item};
    ghost use Rattle.jinterned.specs.DomainEntryCache.{AreRight};
    ghost use Rattle.jinterned.specs.ContextStores.{contexts_of};
    ghost use Rattle.jinterned.specs.InternedContexts.{AreTabled};

    ghost Value = { List (List Item) };

    ghost view = { λ t. contexts_of t.store };

    ghost invariant = { λ t. AreTabled (contexts_of t.store) × AreRight (contexts_of t.store) t.known };
}

impl Table {
    /// The context alone that restricts nothing.
    pub fn open(alloc: Global) -> Result<Table, AllocError>
        ensures { IfOk result (λ t. t ≡ [] ∷ []) }
    {
        let store = Store::open(alloc)?;
        let known = Memo::new(alloc)?;
        Ok(Table {
            store,
            known,
            made: Vec::new(alloc),
        })
    }

    /// How many contexts have numbers, which are those below.
    pub fn len(&self) -> u64
        ensures { result ≡ length self.now }
    {
        self.store.len()
    }

    /// The laws of a table: its first context is the empty one, no two are equal, and no item of one is covered by an earlier one. It
    /// does nothing; its contract is the laws.
    pub fn distinct(&self)
        ensures { AreTabled self.now }
    {
        self.store.named();
    }

    /// The number of what a domain makes of a context that it enters, where this is known.
    #[inline]
    fn known(&self, c: u64, d: u32) -> Option<u64>
        requires { c < length self.now }
        ensures { IfSome result (λ n. IsEntered self.now c d n) }
    {
        context_laws();
        if self.store.begins_with(c, d) {
            return Some(c);
        }
        self.known.get(Entered {
            context: c,
            domain: d,
        })
    }

    /// Remembers what a domain made of a context.
    fn remember(&mut self, c: u64, d: u32, n: u64)
        requires there { c < length self.old }
        requires made { IsEntered self.old c d n }
        ensures { self.new ≡ self.old }
    {
        let entered = Entered {
            context: c,
            domain: d,
        };
        self.known.put(entered, n);
    }

    /// The number of what a domain makes of a context that it enters, which is put behind the others where the table doesn't hold it.
    fn make_entered(&mut self, alloc: Global, c: u64, d: u32) -> Result<u64, AllocError>
        requires { c < length self.old }
        ensures ok { IfOk result (HoldsEntered self.old self.new c d) }
        ensures err { OnErr result (self.new ≡ self.old) }
    {
        context_laws();
        self.store.named();
        self.store.entered(&mut self.made, c, d)?;
        let n = self.store.intern(alloc, &self.made)?;
        Ok(n)
    }

    /// The number of what a domain makes of a context that it enters. After an error the table is as before.
    pub fn enter(&mut self, alloc: Global, c: u64, d: u32) -> Result<u64, AllocError>
        requires { c < length self.old }
        ensures ok { IfOk result (HoldsEntered self.old self.new c d) }
        ensures err { OnErr result (self.new ≡ self.old) }
    {
        if let Some(n) = self.known(c, d) {
            return Ok(n);
        }
        let n = self.make_entered(alloc, c, d)?;
        self.remember(c, d, n);
        Ok(n)
    }

    /// The number of the context of a privilege that a method of a domain takes in a context. After an error the table is as before.
    pub fn privileged(
        &mut self,
        alloc: Global,
        d: u32,
        given: Option<u64>,
        limits: Option<&[Permission]>,
        c: u64,
    ) -> Result<u64, AllocError>
        requires there { c < length self.old }
        requires given { IfSome given (λ g. g < length self.old) }
        ensures ok { IfOk result (HoldsPrivileged self.old self.new d given (option_copied limits.entry) c) }
        ensures err { OnErr result (self.new ≡ self.old) }
    {
        context_laws();
        self.store.named();
        self.store
            .privileged(alloc, &mut self.made, d, given, limits, c)?;
        self.store.named();
        let n = self.store.intern(alloc, &self.made)?;
        Ok(n)
    }

    /// What a context decides for a permission. It takes no memory.
    pub fn verdict(&self, c: u64, domains: &Domains, asked: &Permission) -> Verdict
        requires { c < length self.now }
        ensures value { (items : List Item) → slice_get self.now c ≡ Some items → result ≡ verdict (has domains.now) asked.now items }
        // The context of a stack decides as the walk of the stack does.
        ensures along { (s : Stack) → slice_get self.now c ≡ Some (along s) → result ≡ walk (has domains.now) asked.now s }
    {
        context_laws();
        self.store.verdict(c, domains, asked)
    }
}
