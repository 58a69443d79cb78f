ghost use Rattle.std.specs.Prelude.{◌≡◌, IfOk, OnOk, slice_get};
ghost use Rattle.jresolution.specs.jprogram.NameTable.{Notes, place_at};
ghost use Rattle.jresolution.specs.jprogram.ClassFileParts.{text};
ghost use Rattle.jlinking.specs.jmembers.PoolTexts.{AreFirst, entry_text, number_of, numbers_of};

use jparts::jpool::Entry;
use std::alloc::{AllocError, Global};
use std::collections::BTreeMap;
use std::marker::Model;

/// Gives a text a number, unless it has one already.
pub fn note(
    alloc: Global,
    numbers: &mut BTreeMap<Vec<u8>, usize>,
    text: &[u8],
    i: usize,
) -> Result<(), AllocError>
    ensures { OnOk result (Notes text.now i numbers.old numbers.new) }
{
    if numbers.contains_key(text) {
        return Ok(());
    }
    let own = Vec::from_slice(alloc, text)?;
    numbers.insert(own, i)?;
    Ok(())
}

/// The text of an entry, empty where it is none.
pub fn entry_text(one: &Entry) -> &[u8]
    ensures { result.now ≡ entry_text one.now }
{
    match one {
        Entry::Utf8(text) => text.as_slice(),
        _ => &[],
    }
}

/// The place of the first entry of each text.
fn first_places(alloc: Global, entries: &[Entry]) -> Result<BTreeMap<Vec<u8>, usize>, AllocError>
    ensures { IfOk result (λ places. AreFirst entries.now places) }
{
    let mut places = BTreeMap::new(alloc);
    for (i, one) in entries.iter().enumerate() {
        note(alloc, &mut places, entry_text(one), i)?;
    }
    Ok(places)
}

fn place_in(places: &BTreeMap<Vec<u8>, usize>, text: &[u8]) -> Option<usize>
    ensures { result ≡ place_at places.now text.now }
{
    places.get(text).copied()
}

fn number_in(places: &BTreeMap<Vec<u8>, usize>, entries: &[Entry], text: &[u8]) -> usize
    requires { AreFirst entries.now places.now }
    ensures { result ≡ number_of entries.now text.now }
{
    match place_in(places, text) {
        Some(i) => i,
        None => entries.len(),
    }
}

fn numbers_of(
    alloc: Global,
    places: &BTreeMap<Vec<u8>, usize>,
    entries: &[Entry],
) -> Result<Vec<usize>, AllocError>
    requires { AreFirst entries.now places.now }
    ensures { IfOk result (λ numbers. numbers.items ≡ numbers_of entries.now entries.now) }
{
    let mut numbers = Vec::new(alloc);
    for one in entries {
        numbers.push(number_in(places, entries, entry_text(one)))?;
    }
    Ok(numbers)
}

fn number_at(numbers: &[usize], i: u16) -> Option<usize>
    ensures { result ≡ slice_get numbers.now i }
{
    numbers.get(usize::from(i)).copied()
}

/// The texts of a pool by numbers: two have one number exactly where they are equal. So long texts that many entries or members name are
/// compared once. Contracts see the pool's entries.
#[derive(Drop)]
pub struct Numbers<'a> {
    entries: &'a [Entry],
    /// The number of each entry's text.
    numbers: Vec<usize>,
    /// The number of the empty text, which is at indices where none is.
    none: usize,
}

impl<'a> Model for Numbers<'a> {
    ghost use Rattle.std.specs.Prelude.{◌≡◌, [], List};
    ghost use Rattle.jparts.specs.declared.jpool.entry.Entry.{Entry};
    ghost use Rattle.jlinking.specs.jmembers.PoolTexts.{number_of, numbers_of};

    ghost Value = { List Entry };

    ghost view = { λ n. n.entries.now };

    ghost invariant = { λ n. (n.numbers.items ≡ numbers_of n.entries.now n.entries.now) × (n.none ≡ number_of n.entries.now []) };
}

impl<'a> Numbers<'a> {
    /// The numbers of the texts among entries.
    pub fn of(alloc: Global, entries: &'a [Entry]) -> Result<Numbers<'a>, AllocError>
        ensures { IfOk result (λ n. n ≡ entries.now) }
    {
        let places = first_places(alloc, entries)?;
        let none = number_in(&places, entries, &[]);
        let numbers = numbers_of(alloc, &places, entries)?;
        Ok(Numbers {
            entries,
            numbers,
            none,
        })
    }

    /// The number of the text at an index.
    pub fn at(&self, i: u16) -> usize
        ensures { result ≡ number_of self.now (text self.now i) }
    {
        match number_at(self.numbers.as_slice(), i) {
            Some(number) => number,
            None => self.none,
        }
    }
}
