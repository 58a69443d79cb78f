ghost use Rattle.std.specs.Prelude.{◌≡◌, ◌<◌, ◌^◌, IfSome, Some, slice_get, true, option_and_then};
ghost use Rattle.jparts.specs.jpool.ConstantPools.{name_and_type_at};
ghost use Rattle.jresolution.specs.juses.EntryTextCache.{HasTexts};
ghost use Rattle.jparts.specs.jpool.PoolEntries.{class_parts};

use jparts::jpool::{Entry, Pool};

/// Where the texts of a reference stand in its pool: the name of its class, its own name, and its descriptor.
#[derive(Clone, Copy, Debug)]
pub struct Indices {
    pub owner: u16,
    pub name: u16,
    pub desc: u16,
}

/// The index of the text that the class at an index names.
fn class_name_index(pool: &Pool, i: u16) -> Option<u16>
    ensures { result ≡ option_and_then class_parts (slice_get pool.now i) }
{
    match pool.entry(i) {
        Some(Entry::Class(name)) => Some(*name),
        _ => None,
    }
}

impl Indices {
    /// Those of a reference to what a NameAndType entry says, in the class of a Class entry. None where one of the two is no such entry.
    pub fn of(pool: &Pool, class: u16, both: u16) -> Option<Indices>
        ensures { IfSome result (HasTexts pool.now class both) }
    {
        let (name, desc) = pool.name_and_type(both)?;
        let owner = class_name_index(pool, class)?;
        Some(Indices { owner, name, desc })
    }

    /// A number by which most of them are told apart.
    pub fn number(self) -> u64
        ensures { result < 2 ^ 48 }
    {
        let both = u64::from(self.owner) * 65536 + u64::from(self.name);
        both * 65536 + u64::from(self.desc)
    }

    /// Whether others are the same.
    pub fn is_same(self, other: Indices) -> bool
        ensures { result ≡ true → self ≡ other }
    {
        if self.owner != other.owner {
            return false;
        }
        if self.name != other.name {
            return false;
        }
        self.desc == other.desc
    }
}
