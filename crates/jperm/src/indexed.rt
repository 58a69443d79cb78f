ghost use Rattle.std.specs.Prelude.{◌≡◌, IfOk};
ghost use Rattle.jperm.specs.Permissions.{covers};

use crate::chains::{Chains, chains_of, look_up};
use crate::coverage::Coverage;
use crate::permission::Permission;
use jground::jbase::Seq;
use std::alloc::{AllocError, Global};
use std::marker::Model;

/// A list of permissions beside which an index is kept, made once, so that a check looks at few entries. Contracts see the list.
///
/// A check of a permission that has a name looks at the entries of its kind and name, and at those that end in `*` or `.*` where
/// the name goes on; one of a permission on a file at all of its kind.
#[derive(Drop)]
pub struct Indexed {
    list: Seq<Permission>,
    chains: Chains,
}

impl Model for Indexed {
    ghost use Rattle.std.specs.Prelude.{List};
    ghost use Rattle.jperm.specs.declared.permission.Permission.{Permission};
    ghost use Rattle.jperm.specs.PermissionChains.{AreChains};

    ghost Value = { List Permission };

    ghost view = { λ x. x.list };

    ghost invariant = { λ x. AreChains x.list x.chains };
}

impl Indexed {
    /// The list with its index.
    pub fn of(alloc: Global, list: Seq<Permission>) -> Result<Indexed, AllocError>
        ensures { IfOk result (λ x. x ≡ list) }
    {
        let chains = chains_of(alloc, list.as_slice())?;
        Ok(Indexed { list, chains })
    }

    /// The permissions in their order, lent.
    pub fn as_slice(&self) -> &[Permission]
        ensures { result.now ≡ self.now }
    {
        self.list.as_slice()
    }

    /// Whether the list covers the asked permission, as `covers` says. It takes no memory.
    #[tactic(auto, using(crate::proofs::ChainLookup::answered))]
    pub fn covers(&self, asked: &Permission) -> bool
        ensures { result ≡ covers self.now asked.now }
    {
        let mut found = Coverage::none();
        look_up(&self.chains, self.list.as_slice(), asked, &mut found);
        found.suffices(asked)
    }
}
