ghost use Rattle.std.specs.Prelude.{◌≡◌, ◌<◌, [], ◌∷◌, ◌++◌, Some, IfOk, OnOk, fold, length, slice_set};
ghost use Rattle.jperm.specs.PermissionChains.{AreChains, linked, looked, looked_behind, newest, slot};
ghost use Rattle.jperm.specs.PermissionKeys.{class_kind, key_of, keys_of, kind_keys, named_key, named_keys, stepped, text_key};

use crate::coverage::Coverage;
use crate::name::{DOT, is_wildcard};
use crate::permission::{BasicClass, Permission};
use jground::jbase::Seq;
use std::alloc::{AllocError, Global};

/// The key of what is found in no other way: all permissions, permissions on files, those that were never made.
const ALL: u64 = 0;

const FILE: u64 = 4;

const UNRESOLVED: u64 = 5;

/// The key of the empty name of a property.
const PROPERTY: u64 = 3;

/// The chains in which the entries of a list stand. Entries whose keys have the same slot stand in one.
#[derive(Drop)]
pub struct Chains {
    /// The newest entry of each slot.
    pub heads: Seq<Option<usize>>,
    /// Behind each entry the one that stands before it in its chain.
    pub older: Seq<Option<usize>>,
}

// ---- keys

/// The key of a text with one more unit.
#[tactic(auto, unfolding(crate::specs::PermissionKeys::stepped))]
fn stepped(key: u64, unit: u16) -> u64
    ensures { result ≡ stepped key unit }
{
    key.wrapping_mul(1_099_511_628_211)
        .wrapping_add(u64::from(unit))
}

/// The key of a text, on from that of its kind.
fn text_key(kind: u64, text: &[u16]) -> u64
    ensures { result ≡ text_key kind text.now }
{
    let mut key = kind;
    for unit in text {
        key = stepped(key, *unit);
    }
    key
}

/// The key of a name: a wildcard is found by what stands before its `*`.
fn named_key(kind: u64, name: &[u16]) -> u64
    ensures { result ≡ named_key kind name.now }
{
    if is_wildcard(name) {
        text_key(kind, &name[..name.len() - 1])
    } else {
        text_key(kind, name)
    }
}

fn class_kind(class: BasicClass) -> u64
    ensures { result ≡ class_kind class }
{
    match class {
        BasicClass::Runtime => 1,
        BasicClass::Security => 2,
    }
}

fn key_of(member: &Permission) -> u64
    ensures { result ≡ key_of member.now }
{
    match member {
        Permission::All => ALL,
        Permission::Basic { class, name } => named_key(class_kind(*class), name.as_slice()),
        Permission::Property { name, .. } => named_key(PROPERTY, name.as_slice()),
        Permission::File { .. } => FILE,
        Permission::Unresolved { .. } => UNRESOLVED,
    }
}

// ---- making chains

fn linked(links: &[Option<usize>], k: usize) -> Option<usize>
    ensures { result ≡ linked links.now k }
{
    match links.get(k) {
        Some(place) => *place,
        None => None,
    }
}

/// The slot of a key among so many.
fn slot(count: usize, key: u64) -> usize
    requires { 0 < count }
    ensures slot { result ≡ slot count key }
    ensures within { result < count }
{
    (key % count as u64) as usize
}

/// The newest entry whose key has the slot of a key.
fn newest(heads: &[Option<usize>], key: u64) -> Option<usize>
    requires { 0 < length heads.now }
    ensures { result ≡ newest heads.now key }
{
    linked(heads, slot(heads.len(), key))
}

/// Puts the next entry of a list into the chain of its key.
fn add(
    heads: &mut Seq<Option<usize>>,
    older: &mut Seq<Option<usize>>,
    key: u64,
) -> Result<(), AllocError>
    requires { 0 < length heads.old }
    ensures older { OnOk result (older.new ≡ older.old ++ newest heads.old key ∷ []) }
    ensures heads { OnOk result (heads.new ≡ slice_set heads.old (slot (length heads.old) key) (Some (length older.old))) }
{
    let place = older.as_slice().len();
    let k = slot(heads.as_slice().len(), key);
    older.push(newest(heads.as_slice(), key))?;
    heads.set(k, Some(place));
    Ok(())
}

/// How many slots so many entries have: some two for each, so that few share one.
fn slot_count(entries: usize) -> usize
    ensures { 0 < result }
{
    if entries < 0x1_0000_0000 {
        2 * entries + 1
    } else {
        entries
    }
}

/// The chains of a list's entries.
#[tactic(auto, using(crate::proofs::KeyChains::none_stand, crate::proofs::KeyChains::all_stand))]
pub fn chains_of(alloc: Global, list: &[Permission]) -> Result<Chains, AllocError>
    ensures { IfOk result (λ chains. AreChains list.now chains) }
{
    let count = slot_count(list.len());
    let mut heads = Seq::from_vec(vec![in alloc; None; count]?);
    let mut older = Seq::new(alloc);
    for member in list {
        add(&mut heads, &mut older, key_of(member))?;
    }
    Ok(Chains { heads, older })
}

// ---- going along them

/// Looks at the entries in the chain of a key.
#[tactic(auto, using(crate::proofs::KeyChains::chain_at, crate::proofs::KeyChains::along_none, crate::proofs::KeyChains::along_end))]
fn look(chains: &Chains, list: &[Permission], key: u64, asked: &Permission, found: &mut Coverage)
    requires { 0 < length chains.now.heads }
    ensures { found.new ≡ looked list.now chains.now asked.now found.old key }
{
    let steps = chains.older.as_slice().len();
    let mut at = newest(chains.heads.as_slice(), key);
    for step in 0..steps {
        let Some(place) = at else {
            return;
        };
        found.note_at(list, place, asked);
        at = linked(chains.older.as_slice(), place);
    }
}

/// Looks at those in the chain of a key that ends with this unit, if the unit is a dot.
fn look_behind(
    chains: &Chains,
    list: &[Permission],
    key: u64,
    unit: u16,
    asked: &Permission,
    found: &mut Coverage,
)
    requires { 0 < length chains.now.heads }
    ensures { found.new ≡ looked_behind list.now chains.now asked.now found.old key unit }
{
    if unit == DOT {
        look(chains, list, key, asked, found);
    }
}

/// Looks at all of a kind whose names can cover a name.
#[tactic(auto, using(crate::proofs::NameKeys::keys_next), unfolding(crate::specs::PermissionKeys::keys_from))]
fn look_named(
    chains: &Chains,
    list: &[Permission],
    kind: u64,
    name: &[u16],
    asked: &Permission,
    found: &mut Coverage,
)
    requires { 0 < length chains.now.heads }
    ensures { found.new ≡ fold (looked list.now chains.now asked.now) found.old (named_keys kind name.now) }
{
    let mut key = kind;
    look(chains, list, key, asked, found);
    for unit in name {
        key = stepped(key, *unit);
        look_behind(chains, list, key, *unit, asked, found);
    }
    look(chains, list, key, asked, found);
}

/// Looks at all of the kind of an asked permission that can cover it.
fn look_kind(chains: &Chains, list: &[Permission], asked: &Permission, found: &mut Coverage)
    requires { 0 < length chains.now.heads }
    ensures { found.new ≡ fold (looked list.now chains.now asked.now) found.old (kind_keys asked.now) }
{
    match asked {
        Permission::Basic { class, name } => {
            look_named(
                chains,
                list,
                class_kind(*class),
                name.as_slice(),
                asked,
                found,
            )
        }
        Permission::Property { name, .. } => {
            look_named(chains, list, PROPERTY, name.as_slice(), asked, found)
        }
        Permission::File { .. } => look(chains, list, FILE, asked, found),
        _ => {}
    }
}

/// Looks at all that can cover an asked permission.
pub fn look_up(chains: &Chains, list: &[Permission], asked: &Permission, found: &mut Coverage)
    requires { 0 < length chains.now.heads }
    ensures { found.new ≡ fold (looked list.now chains.now asked.now) found.old (keys_of asked.now) }
{
    look(chains, list, ALL, asked, found);
    look_kind(chains, list, asked, found);
}
