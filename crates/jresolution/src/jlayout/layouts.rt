ghost use Rattle.std.specs.Prelude.{◌≡◌, ◌+◌, ◌-◌, ◌<◌, ◌≤◌, IfOk, Some, length, option_map, slice_get, ℕ};
ghost use Rattle.std.specs.List.{flat_map};
ghost use Rattle.jresolution.specs.declared.jprogram.member.Member.TheVariants.{Field};
ghost use Rattle.jresolution.specs.jprogram.ProgramClasses.{Program};
ghost use Rattle.jresolution.specs.jprogram.OrderedPrograms.{StandsInOrder};
ghost use Rattle.jresolution.specs.jlayout.FieldCounts;
ghost use Rattle.jresolution.specs.jlayout.FieldCounts.{AreCounts, count_of};
ghost use Rattle.jresolution.specs.jlayout.FieldLayout;
ghost use Rattle.jresolution.specs.jlayout.FieldLayout.{slot, statics_before, statics_of};
ghost use Rattle.jresolution.specs.jlayout.LayoutTables.{AreAllSlots, AreLayouts, kept_at};

use crate::jlayout::counts::counts_of;
use crate::jlayout::fields::own_in;
use crate::jlayout::slots::{Next, slots_of};
use crate::jprogram::{CodePart, NamedProgram};
use jground::jbase::Seq;
use std::alloc::{AllocError, Global};

/// Where the fields of a program stand (JVMS 2.5.3), by number: those of an object in its own list, behind those of the classes above its
/// own, and the statics of all classes in one list. It is made once of the program, in one pass, and looked at without memory.
#[derive(Debug, Drop)]
pub struct Layouts {
    /// Of each class how many fields its objects have.
    counts: Seq<u32>,
    /// Of each class where its fields stand.
    slots: Seq<Seq<u32>>,
    /// How many statics there are.
    statics: u32,
}

/// How many fields an object of a part's class has from the classes above, where it has so many in all.
fn count_above(part: &CodePart, count: u32) -> u32
    requires { FieldCounts.own_in (Some part.now) ≤ count }
    ensures { result ≡ count - FieldCounts.own_in (Some part.now) }
{
    count - own_in(part)
}

/// Of each field of the class at a place where it stands, and how many statics there are with those of this class.
fn slots_at(
    alloc: Global,
    p: &NamedProgram,
    counts: &[u32],
    class: usize,
    statics: u32,
) -> Result<(Seq<u32>, u32), AllocError>
    requires order { StandsInOrder p.now }
    requires counts { AreCounts p.now counts.now }
    requires there { class < length p.now.parts }
    requires statics { statics ≡ statics_before p.now class }
    ensures slots { IfOk result (λ both. (j : ℕ) → slice_get both.0 j ≡ slot p.now (Field class j)) }
    ensures statics { IfOk result (λ both. both.1 ≡ statics_before p.now (class + 1)) }
{
    let part = &p.parts()[class];
    let instance = count_above(part, counts[class]);
    let fields = part.class.parts().fields.as_slice();
    let both = slots_of(alloc, fields, Next { statics, instance })?;
    Ok(both)
}

/// Of each class where its fields stand, and how many statics there are.
fn all_slots(
    alloc: Global,
    p: &NamedProgram,
    counts: &[u32],
) -> Result<(Seq<Seq<u32>>, u32), AllocError>
    requires order { StandsInOrder p.now }
    requires counts { AreCounts p.now counts.now }
    ensures slots { IfOk result (λ both. AreAllSlots p.now both.0) }
    ensures statics { IfOk result (λ both. both.1 ≡ length (flat_map statics_of p.now.parts)) }
{
    let mut slots = Seq::new(alloc);
    let mut statics = 0u32;
    for class in 0..p.parts().len() {
        let (own, behind) = slots_at(alloc, p, counts, class, statics)?;
        slots.push(own)?;
        statics = behind;
    }
    Ok((slots, statics))
}

impl Layouts {
    /// The table of a program whose classes stand in order.
    ///
    /// An error says that no memory was left, or that there are 2 ^ 32 fields or more, which no program has: it has at most 65,535 classes
    /// of 65,535 fields each.
    pub fn of(alloc: Global, p: &NamedProgram) -> Result<Layouts, AllocError>
        requires { StandsInOrder p.now }
        ensures { IfOk result (λ l. AreLayouts p.now l) }
    {
        let counts = counts_of(alloc, p)?;
        let (slots, statics) = all_slots(alloc, p, counts.as_slice())?;
        Ok(Layouts {
            counts,
            slots,
            statics,
        })
    }

    /// How many fields an object of a user's class has, those of the classes above it included, by the place of the class among the parts.
    /// None where there is no such class.
    pub fn field_count(&self, class: u32) -> Option<u32>
        ensures { (p : Program) → AreLayouts p self.now → result ≡ option_map (count_of p) (slice_get p.parts class) }
    {
        self.counts.as_slice().get(class as usize).copied()
    }

    /// Where a user's field stands, by the place of its class among the parts and its own among the fields: a static among the statics of
    /// all classes, another among the fields of each object that has it. None where there is no such field.
    pub fn slot(&self, class: u32, field: u32) -> Option<u32>
        ensures { (p : Program) → AreLayouts p self.now → result ≡ slot p (Field class field) }
    {
        let own = self.slots.as_slice().get(class as usize)?;
        own.as_slice().get(field as usize).copied()
    }

    /// How many statics the classes of a program have in all.
    pub fn static_count(&self) -> u32
        ensures { (p : Program) → AreLayouts p self.now → result ≡ length (flat_map statics_of p.parts) }
    {
        self.statics
    }
}
