ghost use Rattle.std.specs.Prelude.{◌≡◌, ◌≤◌, ◌<◌, IfOk, length};
ghost use Rattle.jresolution.specs.jprogram.NameSlots;
ghost use Rattle.jresolution.specs.jprogram.NameSlots.{AreSlots, Fills};

use crate::jprogram::firsts::digest_text;
use crate::jprogram::part::CodePart;
use crate::jprogram::parts::this_name;
use jground::jbase::Seq;
use std::alloc::{AllocError, Global};

/// The slot of a name among so many.
fn slot_of(count: usize, name: &[u8]) -> usize
    requires { 0 < count }
    ensures slot { result ≡ NameSlots.slot_of count name.now }
    ensures within { result < count }
{
    (digest_text(0, name) % count as u64) as usize
}

fn place_at(slots: &Seq<Option<u32>>, k: usize) -> Option<u32>
    ensures { result ≡ NameSlots.place_at slots.now k }
{
    match slots.as_slice().get(k) {
        Some(place) => *place,
        None => None,
    }
}

/// Gives a slot a place, unless it has one already.
#[tactic(auto, using(crate::proofs::JprogramProofs::NameSlots::fills_new, crate::proofs::JprogramProofs::NameSlots::fills_before))]
fn fill(slots: &mut Seq<Option<u32>>, k: usize, i: u32)
    requires { k < length slots.old }
    ensures { Fills k i slots.old slots.new }
{
    if place_at(slots, k).is_some() {
        return;
    }
    slots.set(k, Some(i));
}

/// The slots of parts: some eight for each, so that few names share one.
#[tactic(auto, using(crate::proofs::JprogramProofs::NameSlots::free_length, crate::proofs::JprogramProofs::NameSlots::filled_none, crate::proofs::JprogramProofs::NameSlots::filled_end,),)]
pub fn slots_of(alloc: Global, parts: &[CodePart]) -> Result<Seq<Option<u32>>, AllocError>
    requires { length parts.now ≤ 0xffff }
    ensures { IfOk result (λ slots. AreSlots parts.now slots) }
{
    let count = 8 * parts.len() + 1;
    let mut slots = Seq::from_vec(vec![in alloc; None; count]?);
    for (i, part) in parts.iter().enumerate() {
        let k = slot_of(count, this_name(part.class.parts()));
        fill(&mut slots, k, i as u32);
    }
    Ok(slots)
}

/// What stands in the slot of a name.
pub fn place_in(slots: &Seq<Option<u32>>, name: &[u8]) -> Option<u32>
    requires { 0 < length slots.now }
    ensures { result ≡ NameSlots.place_in slots.now name.now }
{
    place_at(slots, slot_of(slots.as_slice().len(), name))
}
