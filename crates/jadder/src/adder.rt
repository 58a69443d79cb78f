ghost use Rattle.std.specs.Prelude.{◌≡◌, ◌⊎◌, ◌≤◌, ◌<◌, ◌+◌, ◌++◌, ◌∷◌, [], List, Some, None, IfOk, IsTrue, MatchResult, OnErr, OnOk, length, take};
ghost use Rattle.std.specs.List.{position};
ghost use Rattle.jparts.specs.declared.jpool.entry.Entry.{Entry};
ghost use Rattle.jparts.specs.declared.jpool.entry.Entry.TheVariants.{Unused};
ghost use Rattle.jparts.specs.jpool.EntryLayouts.{has_spelling, laid, names_text};
ghost use Rattle.jparts.specs.jpool.PoolEntries.{entry};
ghost use Rattle.jparts.specs.jpool.ConstantPools.{IsPool};
ghost use Rattle.jadder.specs.declared.adder.AddError.TheVariants.{Memory};
ghost use Rattle.jadder.specs.EntryInterning.{IsLeast, added, put_behind, same};
ghost use Rattle.jadder.specs.ConstantNumbers.{AreLeast, IsNumbered, Notes, number_at};

use indexmap::IndexMap;
use jground::jbase::Seq;
use jparts::jpool::{Entry, Pool, is_wide, put_entry};
use std::alloc::{AllocError, Global};
use std::marker::Model;

/// Why an entry wasn't added.
#[derive(Clone, Copy, Debug, PartialEq, Eq)]
pub enum AddError {
    /// No equal entry is there, and the pool's count would exceed 65,535.
    PoolFull,
    /// No memory was left. It may come at any time.
    Memory,
}

impl From<AllocError> for AddError {
    ghost from_gives = { λ _ error. error ≡ Memory };

    fn from(_: AllocError) -> AddError {
        AddError::Memory
    }
}

/// The bytes that spell an entry.
fn spelled(alloc: Global, one: &Entry) -> Result<Vec<u8>, AllocError>
    requires { IsTrue (has_spelling one.now) }
    ensures fits { OnOk result (IsTrue (entry.fits one.now)) }
    ensures text { IfOk result (λ text. text.items ≡ entry.spell one.now) }
{
    let mut out = Seq::new(alloc);
    put_entry(one, &mut out)?;
    Ok(out.into_vec())
}

/// The number of indices that an entry takes.
fn width(one: &Entry) -> usize
    ensures { result ≡ length (laid one.now) }
{
    if is_wide(one) { 2 } else { 1 }
}

/// The number at a spelling.
fn number_of(numbers: &IndexMap<Vec<u8>, u16>, text: &[u8]) -> Option<u16>
    ensures { result ≡ number_at numbers.now text.now }
{
    numbers.get(text).copied()
}

/// Gives an entry a number, unless an equal one has one already. `Unused` gets none.
fn note(
    alloc: Global,
    numbers: &mut IndexMap<Vec<u8>, u16>,
    one: &Entry,
    i: u16,
) -> Result<(), AllocError>
    requires { (one.now ≡ Unused) ⊎ IsTrue (has_spelling one.now) }
    ensures { OnOk result (Notes one.now i numbers.old numbers.new) }
{
    if let Entry::Unused = one {
        return Ok(());
    }
    let text = spelled(alloc, one)?;
    if numbers.contains_key(text.as_slice()) {
        return Ok(());
    }
    numbers.insert(text, i)?;
    Ok(())
}

/// The least index of each entry of a pool.
fn numbers_of(alloc: Global, entries: &[Entry]) -> Result<IndexMap<Vec<u8>, u16>, AllocError>
    requires { IsPool entries.now }
    ensures { IfOk result (λ numbers. AreLeast numbers entries.now) }
{
    let mut numbers = IndexMap::new(alloc);
    for (i, one) in entries.iter().enumerate() {
        note(alloc, &mut numbers, one, i as u16)?;
    }
    Ok(numbers)
}

/// A pool that grows: an entry is added only where no equal one is there, so what names an entry keeps naming it. Contracts
/// see it as the list of the pool's entries by their indices. The look-up of an equal entry takes constant time.
#[derive(Drop)]
pub struct Adder {
    alloc: Global,
    pool: Pool,
    /// The least index of each entry, by the bytes that spell it.
    numbers: IndexMap<Vec<u8>, u16>,
}

impl Model for Adder {
    ghost use Rattle.std.specs.Prelude.{List};
    ghost use Rattle.jparts.specs.declared.jpool.entry.Entry.{Entry};
    ghost use Rattle.jadder.specs.ConstantNumbers.{IsNumbered};

    ghost Value = { List Entry };

    ghost view = { λ a. a.pool };

    ghost invariant = { λ a. IsNumbered a.numbers a.pool };
}

impl Adder {
    /// An adder over a pool that has an index 0. It keeps the allocator.
    pub fn over(alloc: Global, pool: Pool) -> Result<Adder, AllocError>
        requires { 0 < length pool }
        ensures { IfOk result (λ adder. adder ≡ pool) }
    {
        let numbers = numbers_of(alloc, pool.entries())?;
        Ok(Adder {
            alloc,
            pool,
            numbers,
        })
    }

    /// The pool as it stands.
    pub fn pool(&self) -> &Pool
        ensures same { result.now ≡ self.now }
        ensures kept { IsPool self.now }
    {
        &self.pool
    }

    /// The pool as it stands, handed out. It takes no memory.
    pub fn into_pool(self) -> Pool
        ensures { result ≡ self }
    {
        self.pool
    }

    /// The least index of an entry that is equal to `e`, or the index behind the others, where `e` is put. The entry has a
    /// spelling of its own: it isn't `Unused`, and a text has at most 65,535 bytes. A class names a text of the pool.
    ///
    /// `PoolFull` comes exactly where no equal entry is there and the pool's count would exceed 65,535. After an error the
    /// pool is as it was.
    pub fn add(&mut self, e: Entry) -> Result<u16, AddError>
        requires spelled { IsTrue (has_spelling e) }
        requires named { IsTrue (names_text self.old e) }
        // What is added, and where; without an answer there was no room, or no memory.
        ensures value { MatchResult result (λ i. added e self.old ≡ Some (i, self.new)) (λ x. (x ≡ Memory) ⊎ (added e self.old ≡ None)) }
        // The answer is the first place at which the entry then stands.
        ensures least { IfOk result (λ i. IsLeast e self.new i) }
        // The entries that were there keep their indices.
        ensures kept { OnOk result (take (length self.old) self.new ≡ self.old) }
        ensures err { OnErr result (self.new ≡ self.old) }
    {
        let text = spelled(self.alloc, &e)?;
        if let Some(i) = number_of(&self.numbers, text.as_slice()) {
            return Ok(i);
        }
        self.append(e, text)
    }

    /// Puts an entry behind the others, which is spelled by these bytes and isn't there.
    fn append(&mut self, e: Entry, text: Vec<u8>) -> Result<u16, AddError>
        requires fits { IsTrue (entry.fits e) }
        requires text { text.items ≡ entry.spell e }
        requires named { IsTrue (names_text self.old e) }
        requires absent { position (same e) self.old ≡ None }
        ensures value { MatchResult result (λ i. put_behind e self.old ≡ Some (i, self.new)) (λ x. (x ≡ Memory) ⊎ (put_behind e self.old ≡ None)) }
        ensures least { IfOk result (λ i. IsLeast e self.new i) }
        ensures kept { OnOk result (take (length self.old) self.new ≡ self.old) }
        ensures err { OnErr result (self.new ≡ self.old) }
    {
        let i = self.pool.entries().len();
        if i + width(&e) > 0xffff {
            return Err(AddError::PoolFull);
        }
        self.numbers.reserve(1)?;
        self.pool.push(e)?;
        self.numbers.insert(text, i as u16).unwrap();
        Ok(i as u16)
    }
}
