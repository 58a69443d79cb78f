ghost use Rattle.std.specs.Prelude.{◌≡◌, IfSome};
ghost use Rattle.jresolution.specs.jprogram.ProgramClasses.{Program};
ghost use Rattle.jserving.specs.jinvoke.Answers.{OwnerIs};
ghost use Rattle.jserving.specs.jinvoke.CallSiteCache.{Remember};

use crate::jinvoke::choosing::{Answer, Beside, CallKey};
use jresolution::jprogram::ClassRef;
use jresolution::juses::InvokeKind;
use std::alloc::Global;
use std::marker::Model;

/// The number of no place.
const NONE: u32 = u32::MAX;

/// The last answer at each site, by the site's number, and the class by which its entry names the method. A site gets a place of its own
/// with its first answer, so that no answer takes the place of another site's. What is remembered grows with the sites that are used: 4
/// bytes for each number up to the highest, and a place for each site. Where no memory is left for it nothing more is remembered.
/// Contracts see the list of the places, each with what was asked and what stands beside it.
#[derive(Drop)]
pub(crate) struct Sites {
    /// Of each site the number of its place.
    numbers: Vec<u32>,
    places: Vec<Option<(CallKey, Beside)>>,
}

impl Model for Sites {
    ghost use Rattle.std.specs.Prelude.{List, Option};
    ghost use Rattle.jserving.specs.declared.jinvoke.choosing.Beside.{Beside};
    ghost use Rattle.jserving.specs.declared.jinvoke.choosing.CallKey.{CallKey};

    ghost Value = { List (Option (CallKey × Beside)) };

    ghost view = { λ s. s.places.items };
}

impl Sites {
    /// Nothing was asked yet. It takes no memory.
    #[tactic(auto, unfolding(crate::specs::jinvoke::CallSiteCache::Remember))]
    pub(crate) fn new(alloc: Global) -> Sites
        // Whatever the program and the function are, what is remembered is right.
        ensures { (p : Program) (f : CallKey → Answer) → Remember p f result }
    {
        Sites {
            numbers: Vec::new(alloc),
            places: Vec::new(alloc),
        }
    }

    /// The answer for a key, if it was the last one at a site.
    #[tactic(auto, unfolding(crate::specs::jinvoke::CallSiteCache::Remember))]
    #[inline]
    pub(crate) fn get(&self, site: usize, key: CallKey) -> Option<Answer>
        // Where the answers of a function are remembered, this is one.
        ensures { (p : Program) (f : CallKey → Answer) → Remember p f self.now → IfSome result (λ a. a ≡ f key) }
    {
        let Some(number) = self.numbers.get(site) else {
            return None;
        };
        match self.places.get(*number as usize) {
            Some(Some((known, beside))) => {
                if *known == key {
                    return Some(beside.answer);
                }
                None
            }
            Some(None) => None,
            None => None,
        }
    }

    /// The class by which an entry names the method of such a call, if that was the last one at a site.
    #[tactic(auto, unfolding(crate::specs::jinvoke::CallSiteCache::Remember))]
    #[inline]
    pub(crate) fn owner(
        &self,
        site: usize,
        class: u32,
        by: InvokeKind,
        pool: u16,
    ) -> Option<Option<ClassRef>>
        // Where what is remembered is right of a program, so is this class.
        ensures { (p : Program) (f : CallKey → Answer) → Remember p f self.now → IfSome result (λ owner. OwnerIs p class by pool owner) }
    {
        let Some(number) = self.numbers.get(site) else {
            return None;
        };
        match self.places.get(*number as usize) {
            Some(Some((known, beside))) => {
                if known.class == class && known.by == by && known.pool == pool {
                    return Some(beside.owner);
                }
                None
            }
            Some(None) => None,
            None => None,
        }
    }

    /// Whether a site has a number, which it gets where there is memory for it.
    fn has_number(&mut self, site: usize) -> bool
        ensures { self.new ≡ self.old }
    {
        if site < self.numbers.len() {
            return true;
        }
        match site.checked_add(1) {
            None => false,
            Some(count) => self.numbers.resize(count, NONE).is_ok(),
        }
    }

    /// Puts a place for a site behind the others, where there is memory for it.
    #[tactic(auto, unfolding(crate::specs::jinvoke::CallSiteCache::Remember))]
    fn add(&mut self, site: usize, key: CallKey, beside: Beside)
        // Where what is remembered is right and this is, what is remembered is right again.
        ensures { (p : Program) (f : CallKey → Answer) → Remember p f self.old
            → beside.answer ≡ f key → OwnerIs p key.class key.by key.pool beside.owner → Remember p f self.new }
    {
        let number = self.places.len();
        if number >= NONE as usize || site >= self.numbers.len() {
            return;
        }
        if self.places.push(Some((key, beside))).is_ok() {
            self.numbers[site] = number as u32;
        }
    }

    /// The same, with a number for the site.
    fn begin(&mut self, site: usize, key: CallKey, beside: Beside)
        ensures { (p : Program) (f : CallKey → Answer) → Remember p f self.old
            → beside.answer ≡ f key → OwnerIs p key.class key.by key.pool beside.owner → Remember p f self.new }
    {
        if !self.has_number(site) {
            return;
        }
        self.add(site, key, beside);
    }

    /// The place of a site, or one behind all where it has none.
    fn place(&self, site: usize) -> usize {
        match self.numbers.get(site) {
            None => self.places.len(),
            Some(number) => *number as usize,
        }
    }

    /// Remembers what stands beside a key, and forgets what stood there before at the site.
    #[tactic(auto, unfolding(crate::specs::jinvoke::CallSiteCache::Remember))]
    pub(crate) fn put(&mut self, site: usize, key: CallKey, beside: Beside)
        // Where what is remembered is right and this is, what is remembered is right again.
        ensures { (p : Program) (f : CallKey → Answer) → Remember p f self.old
            → beside.answer ≡ f key → OwnerIs p key.class key.by key.pool beside.owner → Remember p f self.new }
    {
        let at = self.place(site);
        if at >= self.places.len() {
            self.begin(site, key, beside);
            return;
        }
        self.places[at] = Some((key, beside));
    }
}
