ghost use Rattle.std.specs.Prelude.{◌≡◌, IfOk, Some, option_and_then, option_map};
ghost use Rattle.jparts.specs.jpool.ConstantPools;
ghost use Rattle.jparts.specs.jpool.ConstantPools.{class_name_at, descriptor_fault, name_fault, utf8_at};
ghost use Rattle.jparts.specs.jpool.PoolEntries.{utf8_parts};
ghost use Rattle.jparts.specs.jpool.PoolTextUses.{use_in, use_of, uses_of};

use crate::jpool::entry::Entry;
use crate::jpool::fault::PoolFault;
use crate::jpool::fault::PoolFault::{BadDescriptor, BadIndex, BadName};
use crate::jpool::judge::{EntryTest, is_member, is_utf8, unless_good};
use crate::jpool::names::is_class_name;
use crate::jpool::pool::name_of;
use crate::jpool::scan::{is_array_descriptor, is_field_descriptor, method_slots};
use std::alloc::{AllocError, Global};
use std::marker::Model;

/// What a text of the pool may be used as.
#[derive(Clone, Copy, Debug)]
pub struct TextUse {
    /// Whether it is a class name (JVMS 4.2.1).
    pub is_class_name: bool,
    /// Whether it is the descriptor of an array type (JVMS 4.3.2).
    pub is_array: bool,
    /// Whether it is a field descriptor (JVMS 4.3.2).
    pub is_field: bool,
    /// The slots of its parameters, where it is a method descriptor (JVMS 4.3.3).
    pub slots: Option<usize>,
}

#[tactic(auto, unfolding(crate::specs::jpool::PoolTextUses::use_of))]
fn use_of(text: &[u8]) -> TextUse
    ensures { result ≡ use_of text.now }
{
    TextUse {
        is_class_name: is_class_name(text),
        is_array: is_array_descriptor(text),
        is_field: is_field_descriptor(text),
        slots: method_slots(text),
    }
}

fn use_in_entry(one: &Entry) -> Option<TextUse>
    ensures { result ≡ option_map use_of (option_and_then utf8_parts (Some one.now)) }
{
    match one {
        Entry::Utf8(text) => Some(use_of(text.as_slice())),
        _ => None,
    }
}

fn uses_of(alloc: Global, entries: &[Entry]) -> Result<Vec<Option<TextUse>>, AllocError>
    ensures { IfOk result (λ uses. uses.items ≡ uses_of entries.now) }
{
    entries.iter().map(|one| use_in_entry(one)).collect(alloc)
}

/// The uses of a pool's texts, each of which is judged once, however many entries name it. Contracts see them as the pool's
/// entries.
#[derive(Debug, Drop)]
pub struct TextUses<'a> {
    entries: &'a [Entry],
    uses: Vec<Option<TextUse>>,
}

impl<'a> Model for TextUses<'a> {
    ghost use Rattle.std.specs.Prelude.{◌≡◌, List};
    ghost use Rattle.jparts.specs.declared.jpool.entry.Entry.{Entry};
    ghost use Rattle.jparts.specs.jpool.PoolTextUses.{uses_of};

    ghost Value = { List Entry };

    ghost view = { λ t. t.entries.now };

    ghost invariant = { λ t. t.uses.items ≡ uses_of t.entries.now };
}

impl<'a> TextUses<'a> {
    /// The uses of the texts among entries.
    pub fn of(alloc: Global, entries: &'a [Entry]) -> Result<TextUses<'a>, AllocError>
        ensures { IfOk result (λ t. t ≡ entries.now) }
    {
        let uses = uses_of(alloc, entries)?;
        Ok(TextUses { entries, uses })
    }

    /// What the text at an index may be used as. None exactly where no `Utf8` is there.
    #[tactic(auto, unfolding(crate::specs::jpool::ConstantPools::utf8_at), using(crate::proofs::JpoolProofs::Tables::use_at))]
    pub fn text_use(&self, i: u16) -> Option<TextUse>
        ensures { result ≡ option_map use_of (utf8_at self.now i) }
    {
        match self.uses.as_slice().get(usize::from(i)) {
            Some(found) => *found,
            None => None,
        }
    }

    /// What the text that the class at an index names may be used as. None exactly where no `Class` is there that names one.
    #[tactic(auto, unfolding(crate::specs::jpool::ConstantPools::class_name_at))]
    pub fn class_use(&self, i: u16) -> Option<TextUse>
        ensures { result ≡ option_map use_of (class_name_at self.now i) }
    {
        let name = name_of(self.entries, i)?;
        self.text_use(name)
    }

    #[tactic(auto, unfolding(crate::specs::jpool::PoolTextUses::use_of))]
    fn name_fault_at(&self, i: u16) -> Option<PoolFault>
        ensures { result ≡ name_fault (utf8_at self.now i) }
    {
        let Some(found) = self.text_use(i) else {
            return Some(BadIndex);
        };
        if found.is_class_name || found.is_array {
            return None;
        }
        Some(BadName)
    }

    #[tactic(auto, unfolding(crate::specs::jpool::PoolTextUses::use_of, crate::specs::jpool::Descriptors::is_method_descriptor, crate::specs::jpool::Descriptors::method_slots,),)]
    fn descriptor_fault_at(&self, i: u16) -> Option<PoolFault>
        ensures { result ≡ descriptor_fault (utf8_at self.now i) }
    {
        let Some(found) = self.text_use(i) else {
            return Some(BadIndex);
        };
        if found.is_field || found.slots.is_some() {
            return None;
        }
        Some(BadDescriptor)
    }

    /// What is wrong with what an entry names among all entries of its pool: an index that isn't there or is of another kind, a
    /// class's text that is neither a class name nor an array descriptor, or a member's descriptor that is none. What method
    /// handles, method types and dynamic calls name isn't looked at.
    #[tactic(auto, unfolding(crate::specs::jpool::ConstantPools::entry_fault))]
    pub fn entry_fault(&self, one: &Entry) -> Option<PoolFault>
        ensures { result ≡ ConstantPools.entry_fault self.now one.now }
    {
        match one {
            Entry::Class(name) => self.name_fault_at(*name),
            Entry::Str(text) => unless_good(is_utf8(self.entries, *text)),
            Entry::Field(class, both)
            | Entry::Method(class, both)
            | Entry::InterfaceMethod(class, both) => {
                unless_good(is_member(self.entries, *class, *both))
            }
            Entry::NameAndType(name, descriptor) => {
                if !is_utf8(self.entries, *name) {
                    return Some(BadIndex);
                }
                self.descriptor_fault_at(*descriptor)
            }
            _ => None,
        }
    }
}

/// The test of what an entry names among all.
impl<'a> EntryTest for TextUses<'a> {
    type Kind = PoolFault;

    ghost faults = { λ entries. ConstantPools.entry_fault entries };

    fn fault_of(&self, one: &Entry) -> Option<PoolFault> {
        self.entry_fault(one)
    }
}
