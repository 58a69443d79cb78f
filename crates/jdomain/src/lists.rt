ghost use Rattle.std.specs.Prelude.{◌≡◌, ◌<◌, All, IfOk, length, map};
ghost use Rattle.jdomain.specs.GrantShares.{IsList, Keeps, Knows, list_at, taken};

use crate::share::{Share, marks, taken};
use crate::source::CodeSource;
use jground::jbase::Seq;
use jperm::Indexed;
use std::alloc::{AllocError, Global};
use std::collections::BTreeMap;

/// The lists of sources, and for each source the number of its own. Sources that take of the same shares have one list.
#[derive(Drop)]
pub struct Lists {
    pub all: Seq<Indexed>,
    pub numbers: Seq<usize>,
}

/// What a source takes of shares, with its index.
fn list_of(alloc: Global, shares: &[Share], source: &CodeSource) -> Result<Indexed, AllocError>
    ensures { IfOk result (λ list. list ≡ taken shares.now source.now) }
{
    let permissions = taken(alloc, shares, source)?;
    Indexed::of(alloc, permissions)
}

/// The number of a source's list, which is made where none takes of the same shares.
fn number_of(
    alloc: Global,
    shares: &[Share],
    source: &CodeSource,
    all: &mut Seq<Indexed>,
    known: &mut BTreeMap<Vec<u8>, usize>,
) -> Result<usize, AllocError>
    requires { Knows shares.now all.old known.old }
    ensures list { IfOk result (IsList shares.now all.new source.now) }
    ensures knows { IfOk result (λ k. Knows shares.now all.new known.new) }
    ensures keeps { IfOk result (λ k. Keeps all.old all.new) }
{
    let marks = marks(alloc, shares, source)?;
    if let Some(number) = known.get(marks.as_slice()) {
        return Ok(*number);
    }
    let number = all.as_slice().len();
    all.push(list_of(alloc, shares, source)?)?;
    known.insert(marks, number)?;
    Ok(number)
}

/// What each source takes of shares.
pub fn lists_of(
    alloc: Global,
    shares: &[Share],
    sources: &[CodeSource],
) -> Result<Lists, AllocError>
    ensures lists { IfOk result (λ lists. map (list_at lists.all) lists.numbers ≡ map (taken shares.now) sources.now) }
    ensures there { IfOk result (λ lists. All (λ k. k < length lists.all) lists.numbers) }
{
    let mut all = Seq::new(alloc);
    let mut numbers = Seq::new(alloc);
    let mut known = BTreeMap::new(alloc);
    for source in sources {
        numbers.push(number_of(alloc, shares, source, &mut all, &mut known)?)?;
    }
    Ok(Lists { all, numbers })
}
