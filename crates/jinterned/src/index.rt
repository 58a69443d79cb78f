ghost use Rattle.std.specs.Prelude.{◌≡◌, ◌<◌, ◌∷◌, ◌++◌, ◌+◌, ◌-◌, [], IfOk, OnErr, OnOk, Some, bit_and, length, get_or, slice_get, slice_set};
ghost use Rattle.jinterned.specs.DigestChains.{AreLinked, IsLast, IsOn};

use std::alloc::{AllocError, Global};
use std::marker::Model;

/// How many chains there are before the first entry.
const CHAINS: usize = 65536;

/// Entries by their digests, in chains: each entry names the one before it of its chain. There are as many chains as entries, or more, so
/// that a chain stays short. Contracts see the list of digests.
#[derive(Drop)]
pub struct Index {
    /// The number behind the last entry of each chain, 0 where it has none.
    heads: Vec<usize>,
    digests: Vec<u64>,
    /// For each entry the number behind the last one before it of its chain, 0 where there is none.
    earlier: Vec<usize>,
}

impl Model for Index {
    ghost use Rattle.std.specs.Prelude.{ℕ, List};
    ghost use Rattle.jinterned.specs.DigestChains.{AreLinked};

    ghost Value = { List ℕ };

    ghost view = { λ x. x.digests.items };

    ghost invariant = { λ x. AreLinked x.digests.items x.heads.items x.earlier.items };
}

/// Puts an entry of a digest behind the others of its chain. After an error all is as before.
fn link(heads: &mut Vec<usize>, earlier: &mut Vec<usize>, digest: u64) -> Result<(), AllocError>
    requires { 0 < length heads.old.items }
    ensures heads { OnOk result
        (heads.new.items ≡ slice_set heads.old.items (bit_and digest (length heads.old.items - 1)) (length earlier.old.items + 1)) }
    ensures earlier { OnOk result
        (earlier.new.items ≡ earlier.old.items ++ get_or heads.old.items (bit_and digest (length heads.old.items - 1)) 0 ∷ []) }
    ensures same_heads { OnErr result (heads.new.items ≡ heads.old.items) }
    ensures same_earlier { OnErr result (earlier.new.items ≡ earlier.old.items) }
{
    let p = digest as usize & (heads.len() - 1);
    earlier.push(heads[p])?;
    heads[p] = earlier.len();
    Ok(())
}

/// Puts all entries onto chains anew, of which there are so many as there are heads.
fn relink(heads: &mut Vec<usize>, digests: &[u64], earlier: &mut Vec<usize>)
    requires some { 0 < length heads.old.items }
    requires long { length earlier.old.items ≡ length digests.now }
    ensures { AreLinked digests.now heads.new.items earlier.new.items }
{
    heads.fill(0);
    for i in 0..digests.len() {
        let p = digests[i] as usize & (heads.len() - 1);
        earlier[i] = heads[p];
        heads[p] = i + 1;
    }
}

/// From the number behind an entry along its chain: the number behind the first one found that has a digest, 0 where none has.
fn along(digests: &[u64], earlier: &[usize], start: usize, digest: u64) -> usize
    requires { IsOn digests.now earlier.now digest start }
    ensures { IsLast digests.now digest start result }
{
    let mut at = start;
    while at != 0 {
        let i = at - 1;
        if digests[i] == digest {
            return at;
        }
        at = earlier[i];
    }
    at
}

impl Index {
    /// No entries.
    pub fn open(alloc: Global) -> Result<Index, AllocError>
        ensures { IfOk result (λ x. x ≡ []) }
    {
        let mut heads = Vec::new(alloc);
        heads.resize(CHAINS, 0)?;
        Ok(Index {
            heads,
            digests: Vec::new(alloc),
            earlier: Vec::new(alloc),
        })
    }

    /// The number behind the last entry of a digest, 0 where there is none.
    pub fn last(&self, digest: u64) -> usize
        ensures { IsLast self.now digest (length self.now) result }
    {
        let p = digest as usize & (self.heads.len() - 1);
        along(&self.digests, &self.earlier, self.heads[p], digest)
    }

    /// The number behind the last entry before this one that has its digest, 0 where there is none. The entry is there.
    pub fn find_previous(&self, i: usize, digest: u64) -> usize
        requires { slice_get self.now i ≡ Some digest }
        ensures { IsLast self.now digest i result }
    {
        along(&self.digests, &self.earlier, self.earlier[i], digest)
    }

    /// Has twice as many chains, where there are as many entries as chains.
    fn spread(&mut self) -> Result<(), AllocError>
        ensures { self.new ≡ self.old }
    {
        let chains = self.heads.len();
        if self.digests.len() < chains {
            return Ok(());
        }
        self.heads.resize(chains.saturating_mul(2), 0)?;
        relink(&mut self.heads, &self.digests, &mut self.earlier);
        Ok(())
    }

    /// Puts an entry behind the others. After an error all is as before.
    pub fn add(&mut self, digest: u64) -> Result<(), AllocError>
        ensures ok { OnOk result (self.new ≡ self.old ++ digest ∷ []) }
        ensures err { OnErr result (self.new ≡ self.old) }
    {
        self.spread()?;
        let count = self.digests.len();
        self.digests.push(digest)?;
        match link(&mut self.heads, &mut self.earlier, digest) {
            Ok(()) => Ok(()),
            Err(err) => {
                self.digests.truncate(count);
                Err(err)
            }
        }
    }
}
