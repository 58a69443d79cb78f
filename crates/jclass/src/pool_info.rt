ghost use Rattle.std.specs.Prelude.{◌≡◌, ◌&&◌, Bool, IfOk, List, ℕ, Option, option_map, slice_get};
ghost use Rattle.jparts.specs.jpool.ConstantPools;
ghost use Rattle.jparts.specs.jpool.Descriptors.{is_field_descriptor, method_slots};
ghost use Rattle.jclass.specs.FlagRules;
ghost use Rattle.jclass.specs.FlagRules.{descriptor_fault, is_int, most_slots, suits, suits_field, within};

use crate::access::Access;
use crate::fault::ClassFault;
use bitflags::Flags;
use jparts::jpool::{Entry, Pool, TextUses};
use std::alloc::{AllocError, Global};
use std::marker::Model;

/// What a reader of class files knows of the pool: its entries, and what its texts may be used as. Contracts see it as the
/// pool's entries.
#[derive(Drop)]
pub struct PoolInfo<'p> {
    pool: &'p Pool,
    uses: TextUses<'p>,
}

impl<'p> Model for PoolInfo<'p> {
    ghost use Rattle.std.specs.Prelude.{◌≡◌, List};
    ghost use Rattle.jparts.specs.declared.jpool.entry.Entry.{Entry};

    ghost Value = { List Entry };

    ghost view = { λ k. k.pool.now };

    ghost invariant = { λ k. k.uses ≡ k.pool.now };
}

/// Whether a text is there and is this one.
pub fn is_text(text: Option<&[u8]>, wanted: &[u8]) -> bool
    ensures { result ≡ FlagRules.is_text (option_map (λ t. t.now) text.entry) wanted.now }
{
    match text {
        Some(text) => text == wanted,
        None => false,
    }
}

/// Whether a method with these flags is static.
#[tactic(auto, unfolding(crate::specs::FlagRules::is_static))]
pub fn is_static(flags: Access) -> bool
    ensures { result ≡ FlagRules.is_static flags }
{
    flags.contains(Access::STATIC)
}

/// Whether a method with these flags is abstract or native.
#[tactic(auto, unfolding(crate::specs::FlagRules::has_no_code))]
pub fn has_no_code(flags: Access) -> bool
    ensures { result ≡ FlagRules.has_no_code flags }
{
    flags.contains(Access::ABSTRACT) || flags.contains(Access::NATIVE)
}

fn most_slots(flags: Access) -> usize
    ensures { result ≡ most_slots flags }
{
    if is_static(flags) { 255 } else { 254 }
}

fn is_within(limit: usize, slots: Option<usize>) -> bool
    ensures { result ≡ within limit slots }
{
    match slots {
        None => false,
        Some(slots) => slots <= limit,
    }
}

fn is_int(text: &[u8]) -> bool
    ensures { result ≡ is_int text.now }
{
    text == b"I".as_slice()
        || text == b"S".as_slice()
        || text == b"C".as_slice()
        || text == b"B".as_slice()
        || text == b"Z".as_slice()
}

fn suits(text: &[u8], one: Option<&Entry>) -> bool
    ensures { result ≡ suits text.now (option_map (λ e. e.now) one.entry) }
{
    match one {
        Some(Entry::Integer(_)) => is_int(text),
        Some(Entry::Long(_)) => text == b"J".as_slice(),
        Some(Entry::Float(_)) => text == b"F".as_slice(),
        Some(Entry::Double(_)) => text == b"D".as_slice(),
        Some(Entry::Str(_)) => text == b"Ljava/lang/String;".as_slice(),
        _ => false,
    }
}

impl<'p> PoolInfo<'p> {
    /// What is known of a pool.
    pub fn of(alloc: Global, pool: &'p Pool) -> Result<PoolInfo<'p>, AllocError>
        ensures { IfOk result (λ k. k ≡ pool.now) }
    {
        let uses = TextUses::of(alloc, pool.entries())?;
        Ok(PoolInfo { pool, uses })
    }

    /// The entry at an index.
    pub fn entry(&self, i: u16) -> Option<&Entry>
        ensures { option_map (λ one. one.now) result ≡ slice_get self.now i }
    {
        self.pool.entry(i)
    }

    /// Whether a text stands at an index.
    #[tactic(auto, unfolding(jparts::specs::jpool::ConstantPools::is_utf8, jparts::specs::jpool::ConstantPools::utf8_at))]
    pub fn is_utf8(&self, i: u16) -> bool
        ensures { result ≡ ConstantPools.is_utf8 self.now i }
    {
        self.pool.utf8(i).is_some()
    }

    /// Whether a class or an array type stands at an index.
    #[tactic(auto, unfolding(jparts::specs::jpool::ConstantPools::is_class))]
    pub fn is_class(&self, i: u16) -> bool
        ensures { result ≡ ConstantPools.is_class self.now i }
    {
        matches!(self.pool.entry(i), Some(Entry::Class(_)))
    }

    /// Whether a class stands at an index that is no array type.
    #[tactic(auto, unfolding(crate::specs::FlagRules::names_class, jparts::specs::jpool::PoolTextUses::use_of))]
    pub fn names_class(&self, i: u16) -> bool
        ensures { result ≡ FlagRules.names_class self.now i }
    {
        match self.uses.class_use(i) {
            None => false,
            Some(found) => found.is_class_name,
        }
    }

    /// The same, or index 0.
    #[tactic(auto, unfolding(crate::specs::FlagRules::names_super))]
    pub fn names_super(&self, i: u16) -> bool
        ensures { result ≡ FlagRules.names_super self.now i }
    {
        i == 0 || self.names_class(i)
    }

    /// Whether a class or an array type stands at an index, or it is 0.
    #[tactic(auto, unfolding(crate::specs::FlagRules::names_caught))]
    pub fn names_caught(&self, i: u16) -> bool
        ensures { result ≡ FlagRules.names_caught self.now i }
    {
        i == 0 || self.is_class(i)
    }

    /// Whether the text at an index is the name of a constant value.
    #[tactic(auto, unfolding(crate::specs::FlagRules::is_constant_value))]
    pub fn is_constant_value(&self, i: u16) -> bool
        ensures { result ≡ FlagRules.is_constant_value self.now i }
    {
        is_text(self.pool.utf8(i), b"ConstantValue")
    }

    /// Whether the text at an index is the name of a code.
    #[tactic(auto, unfolding(crate::specs::FlagRules::is_code))]
    pub fn is_code(&self, i: u16) -> bool
        ensures { result ≡ FlagRules.is_code self.now i }
    {
        is_text(self.pool.utf8(i), b"Code")
    }

    /// Whether the text at an index is the name of frames.
    #[tactic(auto, unfolding(crate::specs::FlagRules::is_maps))]
    pub fn is_maps(&self, i: u16) -> bool
        ensures { result ≡ FlagRules.is_maps self.now i }
    {
        is_text(self.pool.utf8(i), b"StackMapTable")
    }

    /// What is wrong with the index of a field's descriptor, if anything is.
    #[tactic(auto, unfolding(jparts::specs::jpool::PoolTextUses::use_of))]
    pub fn field_fault(&self, i: u16) -> Option<ClassFault>
        ensures { result ≡ descriptor_fault is_field_descriptor (ConstantPools.utf8_at self.now i) }
    {
        let Some(found) = self.uses.text_use(i) else {
            return Some(ClassFault::Index);
        };
        if found.is_field {
            return None;
        }
        Some(ClassFault::Descriptor)
    }

    /// What is wrong with the index of a method's descriptor, if anything is.
    #[tactic(auto, unfolding(jparts::specs::jpool::PoolTextUses::use_of))]
    pub fn method_fault(&self, flags: Access, i: u16) -> Option<ClassFault>
        ensures { result ≡ descriptor_fault (λ t. within (most_slots flags) (method_slots t)) (ConstantPools.utf8_at self.now i) }
    {
        let Some(found) = self.uses.text_use(i) else {
            return Some(ClassFault::Index);
        };
        if is_within(most_slots(flags), found.slots) {
            return None;
        }
        Some(ClassFault::Descriptor)
    }

    /// Whether the entry at an index may be the constant of a field whose descriptor stands at another.
    #[tactic(auto, unfolding(crate::specs::FlagRules::suits_field))]
    pub fn suits_field(&self, desc: u16, i: u16) -> bool
        ensures { result ≡ suits_field self.now desc i }
    {
        match self.pool.utf8(desc) {
            None => false,
            Some(text) => suits(text, self.pool.entry(i)),
        }
    }
}
