ghost use Rattle.std.specs.Prelude.{◌≡◌, ◌<◌, ◌^◌, true, false, length, option_map};
ghost use Rattle.std.specs.List.{list_all};
ghost use Rattle.std.specs.Option.{option_to_list};
ghost use Rattle.jlib.specs.LibraryClasses as library;
ghost use Rattle.jresolution.specs.jprogram.ProgramClasses;
ghost use Rattle.jresolution.specs.jprogram.Heights;
ghost use Rattle.jresolution.specs.jprogram.ClassFileParts;

use crate::jprogram::classes::NamedProgram;
use crate::jprogram::found_class::FoundClass;
use crate::jprogram::part::CodePart;
use crate::jprogram::parts::{class_text, super_name, this_name};
use jclass::ClassParts;
use jlib::{LIBRARY_CLASSES, LibClass, class};
use std::alloc::{AllocError, Global};

/// A height above those of all classes of the library.
const ABOVE_LIBRARY: u32 = LIBRARY_CLASSES + 2;

/// A class whose supers are being gone through, its interfaces and then its superclass: its place, the next of them, and the least
/// number so far of a class without a height that it stands below.
#[derive(Clone, Copy)]
struct Visit {
    part: usize,
    next: usize,
    least: u32,
}

impl Visit {
    /// Behind a super.
    fn past(self) -> Visit {
        Visit {
            part: self.part,
            next: self.next.saturating_add(1),
            least: self.least,
        }
    }

    /// Where a class of a number, without a height, is come to.
    fn reaching(self, number: u32) -> Visit {
        Visit {
            part: self.part,
            next: self.next,
            least: self.least.min(number),
        }
    }
}

fn set_height(heights: &mut Vec<u32>, i: usize, height: u32) {
    if i < heights.len() {
        heights[i] = height;
    }
}

fn height_at(heights: &[u32], i: usize) -> u32
    ensures { result ≡ Heights.height_at heights.now i }
{
    match heights.get(i) {
        Some(height) => *height,
        None => 0,
    }
}

/// How many classes stand above one of the library.
#[tactic(auto, using(crate::proofs::JprogramProofs::Order::height_few))]
fn count_above(class: LibClass) -> u32
    ensures count { result ≡ library.height class }
    ensures few { result < 2 ^ 16 }
{
    let mut count = 0u32;
    let mut at = class;
    while let Some(above) = at.superclass() {
        count += 1;
        at = above;
    }
    count
}

fn count_faces(class: LibClass) -> u32
    ensures { result ≡ length (option_to_list (library.implemented class)) }
{
    match class.implemented() {
        Some(_) => 1,
        None => 0,
    }
}

fn lib_height(class: LibClass) -> u32
    ensures { result ≡ Heights.lib_height class }
{
    count_above(class) + count_faces(class)
}

/// What is known while heights are sought (Tarjan, Depth-first search and linear graph algorithms, 1972).
#[derive(Drop)]
struct Climb {
    /// How many classes had been come to when a class was, itself included; 0 where it wasn't yet.
    numbers: Vec<u32>,
    /// 0 where a class has no height yet.
    heights: Vec<u32>,
    /// Those that were come to and have no height yet, in the order of their numbers.
    waiting: Vec<usize>,
    open: Vec<Visit>,
    /// How many were come to.
    count: u32,
    /// The greatest height so far.
    height: u32,
}

impl Climb {
    fn of(alloc: Global, count: usize) -> Result<Climb, AllocError> {
        let numbers = vec![in alloc; 0u32; count]?;
        let heights = vec![in alloc; 0u32; count]?;
        Ok(Climb {
            numbers,
            heights,
            waiting: Vec::new(alloc),
            open: Vec::new(alloc),
            count: 0,
            height: ABOVE_LIBRARY,
        })
    }

    fn number_at(&self, i: usize) -> u32 {
        height_at(self.numbers.as_slice(), i)
    }

    fn begin(&mut self, part: usize) -> Result<(), AllocError> {
        self.count = self.count.saturating_add(1);
        set_height(&mut self.numbers, part, self.count);
        self.waiting.push(part)?;
        self.open.push(Visit {
            part,
            next: 0,
            least: self.count,
        })?;
        Ok(())
    }

    /// Gives a class its height, and those that were come to behind it and wait: they stand in circles with it.
    fn close(&mut self, part: usize) {
        self.height = self.height.saturating_add(1);
        for _ in 0..self.waiting.len() {
            let Some(next) = self.waiting.pop() else {
                return;
            };
            set_height(&mut self.heights, next, self.height);
            if next == part {
                return;
            }
        }
    }

    /// All supers of a class were gone through: goes back to the class that it was come to from.
    fn end(&mut self, visit: Visit) -> Result<(), AllocError> {
        if visit.least == self.number_at(visit.part) {
            self.close(visit.part);
        }
        if let Some(below) = self.open.pop() {
            self.open.push(below.reaching(visit.least))?;
        }
        Ok(())
    }

    /// Goes on with a class by a super at a place.
    fn pass(&mut self, visit: Visit, i: usize) -> Result<(), AllocError> {
        let number = self.number_at(i);
        if number == 0 {
            self.open.push(visit.past())?;
            return self.begin(i);
        }
        if height_at(self.heights.as_slice(), i) == 0 {
            self.open.push(visit.past().reaching(number))?;
            return Ok(());
        }
        self.skip(visit)
    }

    fn skip(&mut self, visit: Visit) -> Result<(), AllocError> {
        self.open.push(visit.past())?;
        Ok(())
    }
}

impl NamedProgram {
    // ---- seeking heights

    fn super_at(&self, part: usize, k: usize) -> Option<&[u8]> {
        let part = self.parts().get(part)?;
        let class = part.class.parts();
        let faces = class.interfaces.as_slice();
        if let Some(i) = faces.get(k) {
            return Some(class_text(&class.pool, *i));
        }
        if k == faces.len() {
            return super_name(class);
        }
        None
    }

    /// How many steps it takes at most to go through all classes: one for each super of a class, and one to end it.
    fn most_visits(&self) -> usize {
        let mut count = 0usize;
        for part in self.parts() {
            let faces = part.class.parts().interfaces.as_slice().len();
            count = count.saturating_add(faces.saturating_add(2));
        }
        count
    }

    fn go_on(&self, climb: &mut Climb, visit: Visit) -> Result<(), AllocError> {
        let Some(name) = self.super_at(visit.part, visit.next) else {
            return climb.end(visit);
        };
        match self.place_of(name) {
            Some(i) => climb.pass(visit, i as usize),
            None => climb.skip(visit),
        }
    }

    fn climb(&self, climb: &mut Climb, root: usize, most: usize) -> Result<(), AllocError> {
        climb.begin(root)?;
        for _ in 0..most {
            let Some(top) = climb.open.pop() else {
                return Ok(());
            };
            self.go_on(climb, top)?;
        }
        Ok(())
    }

    /// A height for each part, greater than those of what stands directly above it, but that classes in one circle have one height. It is
    /// only sought here; whether it is one is tested.
    pub(crate) fn heights(&self, alloc: Global) -> Result<Vec<u32>, AllocError> {
        let most = self.most_visits();
        let mut climb = Climb::of(alloc, self.parts().len())?;
        for root in 0..self.parts().len() {
            if climb.number_at(root) == 0 {
                self.climb(&mut climb, root, most)?;
            }
        }
        Ok(climb.heights)
    }

    // ---- testing them

    fn height_of(&self, heights: &[u32], name: &[u8]) -> u32
        ensures { result ≡ Heights.height_of self.now heights.now name.now }
    {
        match self.find(name) {
            Some(FoundClass::User(i, _)) => height_at(heights, i as usize),
            Some(FoundClass::Lib(class)) => lib_height(class),
            None => 0,
        }
    }

    fn super_below(&self, heights: &[u32], height: u64, name: Option<&[u8]>) -> bool
        ensures { result ≡ Heights.super_below self.now heights.now height (option_map (λ t. t.now) name.entry) }
    {
        match name {
            Some(name) => (self.height_of(heights, name) as u64) < height,
            None => true,
        }
    }

    fn faces_below(&self, heights: &[u32], height: u64, class: &ClassParts) -> bool
        ensures { result ≡ list_all
            (λ i. Heights.is_below self.now heights.now height (ClassFileParts.class_text class.now.pool i)) class.now.interfaces }
    {
        class.interfaces.as_slice().iter().all(|i| (self.height_of(
            heights,
            class_text(&class.pool, *i),
        ) as u64)
            < height)
    }

    fn is_above(&self, heights: &[u32], height: u64, class: &ClassParts) -> bool
        ensures { result ≡ Heights.is_above self.now heights.now height class.now }
    {
        if !self.super_below(heights, height, super_name(class)) {
            return false;
        }
        self.faces_below(heights, height, class)
    }

    #[tactic(auto, unfolding(crate::specs::jprogram::Heights::is_part_above))]
    fn is_part_above(&self, heights: &[u32], part: &CodePart) -> bool
        ensures { result ≡ Heights.is_part_above self.now heights.now part.now }
    {
        let parts = part.class.parts();
        let name = this_name(parts);
        if class(self.side(), name).is_some() {
            return false;
        }
        let height = self.height_of(heights, name) as u64;
        self.is_above(heights, height + 1, parts)
    }

    /// Whether heights are an order: no name is the library's, and nothing that stands directly above a class is higher. Those that are
    /// sought are one in each program where no name stands twice or is the library's.
    #[tactic(auto, unfolding(crate::specs::jprogram::Heights::is_order))]
    pub(crate) fn is_order(&self, heights: &[u32]) -> bool
        ensures { result ≡ Heights.is_order self.now heights.now }
    {
        let parts = self.parts();
        parts.iter().all(|part| self.is_part_above(heights, part))
    }

    fn is_strict(&self, heights: &[u32], name: &[u8]) -> bool
        ensures { result ≡ Heights.is_strict self.now heights.now name.now }
    {
        let height = self.height_of(heights, name) as u64;
        match self.find(name) {
            Some(FoundClass::User(_, class)) => self.is_above(heights, height, class.parts()),
            Some(FoundClass::Lib(_)) => false,
            None => false,
        }
    }

    /// Whether heights show that a class doesn't stand above itself. Where they are an order, they show it of each that is in no circle,
    /// and of others never.
    pub(crate) fn is_apart(&self, heights: &[u32], ordered: bool, name: &[u8]) -> bool
        requires { ordered ≡ Heights.is_order self.now heights.now }
        ensures { result ≡ true → ProgramClasses.reaches self.now (length (ProgramClasses.known self.now)) name.now name.now ≡ false }
    {
        if ordered {
            return self.is_strict(heights, name);
        }
        false
    }
}
