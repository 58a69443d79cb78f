ghost use Rattle.std.specs.Prelude.{◌≡◌, ◌+◌, IfOk, OnOk, reverse, slice_get};
ghost use Rattle.jresolution.specs.jprogram.OrderedPrograms.{StandsInOrder};
ghost use Rattle.jresolution.specs.jlayout.FieldCounts;
ghost use Rattle.jresolution.specs.jlayout.FieldCounts.{AreCounts, AreKnown, Climbs, count_at};

use crate::jlayout::fields::own_at;
use crate::jprogram::{ClassRef, NamedProgram};
use jground::jbase::Seq;
use std::alloc::{AllocError, Global};

/// Classes whose fields aren't counted yet, each directly above the one before it, and how many fields stand above the last.
#[derive(Drop)]
struct Path {
    classes: Vec<u32>,
    above: u32,
}

/// The sum of two counts of fields. 65,535 classes of 65,535 fields have fewer than 2 ^ 32.
pub(crate) fn sum_of(a: u32, b: u32) -> Result<u32, AllocError>
    ensures { IfOk result (λ n. n ≡ a + b) }
{
    match a.checked_add(b) {
        Some(n) => Ok(n),
        None => Err(AllocError),
    }
}

/// The user's class directly above a user's class.
fn above_at(p: &NamedProgram, class: u32) -> Option<u32>
    ensures { result ≡ FieldCounts.above_at p.now class }
{
    match p.super_of(ClassRef::User(class)) {
        Some(ClassRef::User(above)) => Some(above),
        _ => None,
    }
}

fn known_at(known: &[Option<u32>], class: u32) -> Option<u32>
    ensures { result ≡ FieldCounts.known_in (slice_get known.now class) }
{
    match known.get(class as usize) {
        Some(count) => *count,
        None => None,
    }
}

fn keep(p: &NamedProgram, known: &mut Seq<Option<u32>>, class: u32, count: u32)
    requires known { AreKnown p.now known.old }
    requires count { count ≡ count_at p.now class }
    ensures { AreKnown p.now known.new }
{
    if (class as usize) < known.as_slice().len() {
        known.set(class as usize, Some(count));
    }
}

/// The classes from one upwards, to one whose fields are counted or to the last of the user's classes.
fn path_from(
    alloc: Global,
    p: &NamedProgram,
    known: &[Option<u32>],
    class: u32,
) -> Result<Path, AllocError>
    requires order { StandsInOrder p.now }
    requires known { AreKnown p.now known.now }
    ensures { IfOk result (λ path. Climbs p.now class path.above (reverse path.classes.items)) }
{
    let mut classes = Vec::new(alloc);
    let mut next = Some(class);
    while let Some(at) = next {
        if let Some(above) = known_at(known, at) {
            return Ok(Path { classes, above });
        }
        classes.push(at)?;
        next = above_at(p, at);
    }
    Ok(Path { classes, above: 0 })
}

/// Counts the fields of the classes of a path, the highest first, and keeps each count.
fn count_along(
    p: &NamedProgram,
    known: &mut Seq<Option<u32>>,
    path: Path,
    class: u32,
) -> Result<u32, AllocError>
    requires known { AreKnown p.now known.old }
    requires path { Climbs p.now class path.above (reverse path.classes.items) }
    ensures count { IfOk result (λ n. n ≡ count_at p.now class) }
    ensures known { OnOk result (AreKnown p.now known.new) }
{
    let mut count = path.above;
    let mut classes = path.classes;
    while let Some(at) = classes.pop() {
        count = sum_of(count, own_at(p, at))?;
        keep(p, known, at, count);
    }
    Ok(count)
}

/// How many fields an object of a user's class has. What is counted on the way up is kept, so that each class is counted once.
fn count_of(
    alloc: Global,
    p: &NamedProgram,
    known: &mut Seq<Option<u32>>,
    class: u32,
) -> Result<u32, AllocError>
    requires order { StandsInOrder p.now }
    requires known { AreKnown p.now known.old }
    ensures count { IfOk result (λ n. n ≡ count_at p.now class) }
    ensures known { OnOk result (AreKnown p.now known.new) }
{
    let path = path_from(alloc, p, known.as_slice(), class)?;
    count_along(p, known, path, class)
}

fn none_known(alloc: Global, p: &NamedProgram) -> Result<Seq<Option<u32>>, AllocError>
    ensures { IfOk result (λ known. AreKnown p.now known) }
{
    let none = vec![in alloc; None; p.parts().len()]?;
    Ok(Seq::from_vec(none))
}

/// Of each user's class how many fields its objects have.
pub(crate) fn counts_of(alloc: Global, p: &NamedProgram) -> Result<Seq<u32>, AllocError>
    requires { StandsInOrder p.now }
    ensures { IfOk result (λ counts. AreCounts p.now counts) }
{
    let mut known = none_known(alloc, p)?;
    let mut counts = Seq::new(alloc);
    for class in 0..p.parts().len() {
        let count = count_of(alloc, p, &mut known, class as u32)?;
        counts.push(count)?;
    }
    Ok(counts)
}
