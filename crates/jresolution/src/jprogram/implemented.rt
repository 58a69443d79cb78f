ghost use Rattle.std.specs.Prelude.{◌≡◌, ◌+◌, ◌||◌, ℕ, false, true, IfOk, IfSome, OnOk, is_some, length, option_map, slice_get};
ghost use Rattle.std.specs.List.{list_all, list_any};
ghost use Rattle.std.specs.Str.{bytes_eq};
ghost use Rattle.jresolution.specs.jprogram.BitSets;
ghost use Rattle.jresolution.specs.jprogram.ProgramClasses;
ghost use Rattle.jresolution.specs.jprogram.ImplementedInterfaces;
ghost use Rattle.jresolution.specs.jprogram.ImplementedInterfaces.{Adds, AreInterfaces, AreRows};
ghost use Rattle.jresolution.specs.jprogram.OrderedPrograms.{StandsInOrder};

use crate::jprogram::classes::NamedProgram;
use crate::jprogram::found_class::FoundClass;
use crate::jprogram::part::ClassRef;
use crate::jprogram::parts::{class_text, super_name};
use crate::jprogram::sets::{has, join, put};
use jclass::ClassParts;
use jground::jbase::Seq;
use jlib::LibClass;
use std::alloc::{AllocError, Global};
use std::marker::Model;

/// For each class of a program the interfaces that it implements: a bit for each interface. What is asked of the table is asked of its
/// program too.
#[derive(Drop)]
pub struct Interfaces {
    rows: Seq<Option<Seq<u64>>>,
}

impl Model for Interfaces {
    ghost use Rattle.std.specs.Prelude.{List, Option, ℕ};

    ghost Value = { List (Option (List ℕ)) };

    ghost view = { λ t. t.rows };
}

/// The numbers of the library's interfaces.
fn lib_number(class: LibClass) -> Option<usize>
    ensures { result ≡ ImplementedInterfaces.lib_number class }
{
    match class {
        LibClass::Cloneable => Some(0),
        LibClass::Serializable => Some(1),
        LibClass::Runnable => Some(2),
        LibClass::PrivilegedAction => Some(3),
        _ => None,
    }
}

/// The number of the interface that a class of the library lists.
fn listed_number(class: LibClass) -> Option<usize>
    ensures { result ≡ ImplementedInterfaces.listed_number class }
{
    match class.implemented() {
        Some(face) => lib_number(face),
        None => None,
    }
}

/// The numbers of the users' interfaces, behind those of the library's.
fn behind_lib(number: Option<u32>) -> Option<usize>
    ensures { result ≡ option_map (λ n. n + 4) number }
{
    match number {
        Some(number) => Some(number as usize + 4),
        None => None,
    }
}

fn put_some(row: &mut Seq<u64>, number: Option<usize>) -> Result<(), AllocError>
    ensures { OnOk result ((n : ℕ) → BitSets.has row.new n ≡ (BitSets.has row.old n || ImplementedInterfaces.is_number n number)) }
{
    match number {
        Some(number) => put(row, number),
        None => Ok(()),
    }
}

/// A row that is made.
fn row_at(rows: &[Option<Seq<u64>>], i: usize) -> Option<&[u64]>
    ensures { option_map (λ row. row.now) result ≡ ImplementedInterfaces.row_in (slice_get rows.now i) }
{
    match rows.get(i) {
        Some(Some(row)) => Some(row.as_slice()),
        _ => None,
    }
}

fn are_made(rows: &[Option<Seq<u64>>]) -> bool
    ensures { result ≡ list_all is_some rows.now }
{
    rows.iter().all(|row| row.is_some())
}

fn no_rows(alloc: Global, count: usize) -> Result<Seq<Option<Seq<u64>>>, AllocError>
    ensures count { IfOk result (λ rows. length rows ≡ count) }
    ensures none { IfOk result (λ rows. (i : ℕ) → ImplementedInterfaces.is_made_at rows i ≡ false) }
{
    let mut rows = Seq::new(alloc);
    while rows.as_slice().len() < count {
        rows.push(None)?;
    }
    Ok(rows)
}

fn is_number(number: usize, listed: Option<usize>) -> bool
    ensures { result ≡ ImplementedInterfaces.is_number number listed }
{
    match listed {
        Some(listed) => number == listed,
        None => false,
    }
}

impl NamedProgram {
    fn user_number(&self, i: u32) -> Option<usize>
        ensures { result ≡ ImplementedInterfaces.user_number self.now i }
    {
        behind_lib(self.face_number(i))
    }

    fn number_at(&self, class: ClassRef) -> Option<usize>
        ensures { result ≡ ImplementedInterfaces.number_at self.now class }
    {
        match class {
            ClassRef::User(i) => self.user_number(i),
            ClassRef::Lib(class) => lib_number(class),
        }
    }

    fn number_of(&self, name: &[u8]) -> Option<usize>
        ensures { result ≡ ImplementedInterfaces.number_of self.now name.now }
    {
        match self.find(name) {
            Some(FoundClass::User(i, _)) => self.user_number(i),
            Some(FoundClass::Lib(class)) => lib_number(class),
            None => None,
        }
    }

    // ---- making a row

    fn put_name(&self, row: &mut Seq<u64>, name: &[u8]) -> Result<(), AllocError>
        requires { StandsInOrder self.now }
        ensures { OnOk result (Adds self.now (λ i. bytes_eq i name.now) row.old row.new) }
    {
        put_some(row, self.number_of(name))
    }

    fn add_row_at(
        &self,
        rows: &[Option<Seq<u64>>],
        row: &mut Seq<u64>,
        i: usize,
    ) -> Result<bool, AllocError>
        ensures made { IfOk result (λ b. b ≡ is_some (ImplementedInterfaces.row_in (slice_get rows.now i))) }
        ensures added { IfOk result
            (λ b. b ≡ true → IfSome (ImplementedInterfaces.row_in (slice_get rows.now i)) (λ other. BitSets.Joins other row.old row.new)) }
    {
        match row_at(rows, i) {
            Some(other) => {
                join(row, other)?;
                Ok(true)
            }
            None => Ok(false),
        }
    }

    /// Puts what the class of a name implements into a row. No where its own row isn't made yet.
    fn add_row(
        &self,
        rows: &[Option<Seq<u64>>],
        row: &mut Seq<u64>,
        name: &[u8],
    ) -> Result<bool, AllocError>
        requires order { StandsInOrder self.now }
        requires rows { AreRows self.now rows.now }
        ensures made { IfOk result (λ b. b ≡ ImplementedInterfaces.is_made self.now rows.now name.now) }
        ensures added { IfOk result (λ b. b ≡ true → Adds self.now (λ i. ProgramClasses.implements self.now name.now i) row.old row.new) }
    {
        match self.find(name) {
            Some(FoundClass::User(i, _)) => self.add_row_at(rows, row, i as usize),
            Some(FoundClass::Lib(class)) => {
                put_some(row, listed_number(class))?;
                Ok(true)
            }
            None => Ok(true),
        }
    }

    /// Puts an interface and what it implements into a row.
    fn add_face(
        &self,
        rows: &[Option<Seq<u64>>],
        row: &mut Seq<u64>,
        name: &[u8],
    ) -> Result<bool, AllocError>
        requires order { StandsInOrder self.now }
        requires rows { AreRows self.now rows.now }
        ensures made { IfOk result (λ b. b ≡ ImplementedInterfaces.is_made self.now rows.now name.now) }
        ensures added { IfOk result (λ b. b ≡ true → Adds self.now (λ i. ImplementedInterfaces.is_or_has self.now i name.now) row.old row.new) }
    {
        self.put_name(row, name)?;
        let made = self.add_row(rows, row, name)?;
        Ok(made)
    }

    fn add_faces(
        &self,
        rows: &[Option<Seq<u64>>],
        row: &mut Seq<u64>,
        class: &ClassParts,
    ) -> Result<bool, AllocError>
        requires order { StandsInOrder self.now }
        requires rows { AreRows self.now rows.now }
        ensures made { IfOk result (λ b. b ≡ list_all (ImplementedInterfaces.face_made self.now rows.now class.now) class.now.interfaces) }
        ensures added { IfOk result
            (λ b. b ≡ true → Adds self.now
            (λ i. list_any (ImplementedInterfaces.face_has self.now i class.now) class.now.interfaces) row.old row.new) }
    {
        for i in class.interfaces.as_slice() {
            if !self.add_face(rows, row, class_text(&class.pool, *i))? {
                return Ok(false);
            }
        }
        Ok(true)
    }

    fn add_above(
        &self,
        rows: &[Option<Seq<u64>>],
        row: &mut Seq<u64>,
        name: Option<&[u8]>,
    ) -> Result<bool, AllocError>
        requires order { StandsInOrder self.now }
        requires rows { AreRows self.now rows.now }
        ensures made { IfOk result (λ b. b ≡ ImplementedInterfaces.above_made self.now rows.now (option_map (λ t. t.now) name.entry)) }
        ensures added { IfOk result
            (λ b. b ≡ true → Adds self.now (λ i. ImplementedInterfaces.above_has self.now i (option_map (λ t. t.now) name.entry)) row.old row.new) }
    {
        match name {
            Some(name) => self.add_row(rows, row, name),
            None => Ok(true),
        }
    }

    /// The row of a class, where the rows of what stands directly above it are made: no longer in memory than its words.
    fn row_of(
        &self,
        alloc: Global,
        rows: &[Option<Seq<u64>>],
        class: &ClassParts,
    ) -> Result<Option<Seq<u64>>, AllocError>
        requires order { StandsInOrder self.now }
        requires rows { AreRows self.now rows.now }
        ensures made { IfOk result (λ o. is_some o ≡ ImplementedInterfaces.supers_made self.now rows.now class.now) }
        ensures right { IfOk result (λ o. IfSome o (ImplementedInterfaces.IsRowOf self.now class.now)) }
    {
        let mut row = Seq::new(alloc);
        if !self.add_faces(rows, &mut row, class)? {
            return Ok(None);
        }
        if !self.add_above(rows, &mut row, super_name(class))? {
            return Ok(None);
        }
        let exact = row.copy(alloc)?;
        Ok(Some(exact))
    }

    // ---- making the table

    /// Makes the row of a part, unless it is made or one of those that stand directly above it isn't.
    fn settle(
        &self,
        alloc: Global,
        rows: &mut Seq<Option<Seq<u64>>>,
        j: usize,
    ) -> Result<(), AllocError>
        requires order { StandsInOrder self.now }
        requires rows { AreRows self.now rows.old }
        ensures rows { OnOk result (AreRows self.now rows.new) }
        ensures kept { OnOk result (ImplementedInterfaces.Keeps rows.old rows.new) }
        ensures made { OnOk result (ImplementedInterfaces.Readies self.now j rows.old rows.new) }
    {
        let Some(part) = self.parts().get(j) else {
            return Ok(());
        };
        if row_at(rows.as_slice(), j).is_some() {
            return Ok(());
        }
        let made = self.row_of(alloc, rows.as_slice(), part.class.parts())?;
        if let Some(row) = made {
            rows.set(j, Some(row));
        }
        Ok(())
    }

    /// The places of the parts, those with smaller heights first. Nothing is said of it: it only makes the first round enough.
    fn by_heights(&self, alloc: Global) -> Result<Vec<(u32, usize)>, AllocError> {
        let heights = self.heights(alloc)?;
        let mut order = Vec::new(alloc);
        for (i, height) in heights.iter().enumerate() {
            order.push((*height, i))?;
        }
        order.sort()?;
        Ok(order)
    }

    fn settle_in_order(
        &self,
        alloc: Global,
        rows: &mut Seq<Option<Seq<u64>>>,
    ) -> Result<(), AllocError>
        requires order { StandsInOrder self.now }
        requires rows { AreRows self.now rows.old }
        ensures { OnOk result (AreRows self.now rows.new) }
    {
        let order = self.by_heights(alloc)?;
        for next in order.iter() {
            self.settle(alloc, rows, next.1)?;
        }
        Ok(())
    }

    fn round(&self, alloc: Global, rows: &mut Seq<Option<Seq<u64>>>) -> Result<(), AllocError>
        requires order { StandsInOrder self.now }
        requires rows { AreRows self.now rows.old }
        ensures rows { OnOk result (AreRows self.now rows.new) }
        ensures made { OnOk result ((j : ℕ) → ImplementedInterfaces.Readies self.now j rows.old rows.new) }
    {
        for j in 0..self.parts().len() {
            self.settle(alloc, rows, j)?;
        }
        Ok(())
    }

    /// Makes the rows that aren't made: in each round those at least of which all that stands above them is made.
    fn fill(&self, alloc: Global, rows: &mut Seq<Option<Seq<u64>>>) -> Result<(), AllocError>
        requires order { StandsInOrder self.now }
        requires rows { AreRows self.now rows.old }
        ensures { OnOk result (AreInterfaces self.now rows.new) }
    {
        let steps = self.most_steps();
        for step in 0..steps {
            if are_made(rows.as_slice()) {
                return Ok(());
            }
            self.round(alloc, rows)?;
        }
        Ok(())
    }

    // ---- asking it

    /// Whether the class of the first name implements the interface of the second: whether this is among the interfaces that it or a
    /// class above it lists, or among those that these extend (JVMS 4.1, 5.4.3.3). It takes no memory: the program's table is handed in.
    pub fn implements(&self, table: &Interfaces, class: &[u8], interface: &[u8]) -> bool
        requires order { StandsInOrder self.now }
        requires table { AreInterfaces self.now table.now }
        ensures { result ≡ ProgramClasses.implements self.now class.now interface.now }
    {
        let Some(number) = self.number_of(interface) else {
            return false;
        };
        match self.find(class) {
            Some(FoundClass::User(i, _)) => table.has(i as usize, number),
            Some(FoundClass::Lib(class)) => is_number(number, listed_number(class)),
            None => false,
        }
    }

    /// The same by numbers of the program's classes, without looking names up.
    pub fn implements_at(&self, table: &Interfaces, class: ClassRef, interface: ClassRef) -> bool
        requires order { StandsInOrder self.now }
        requires table { AreInterfaces self.now table.now }
        requires class { ImplementedInterfaces.IsNumber self.now class }
        requires interface { ImplementedInterfaces.IsNumber self.now interface }
        ensures { result ≡ ProgramClasses.implements self.now (ProgramClasses.name_at self.now class) (ProgramClasses.name_at self.now interface) }
    {
        let Some(number) = self.number_at(interface) else {
            return false;
        };
        match class {
            ClassRef::User(i) => table.has(i as usize, number),
            ClassRef::Lib(class) => is_number(number, listed_number(class)),
        }
    }
}

impl Interfaces {
    /// The table of a program.
    pub fn of(alloc: Global, program: &NamedProgram) -> Result<Interfaces, AllocError>
        requires { StandsInOrder program.now }
        ensures { IfOk result (λ t. AreInterfaces program.now t) }
    {
        let mut rows = no_rows(alloc, program.parts().len())?;
        program.settle_in_order(alloc, &mut rows)?;
        program.fill(alloc, &mut rows)?;
        Ok(Interfaces { rows })
    }

    fn has(&self, i: usize, number: usize) -> bool
        ensures { result ≡ ImplementedInterfaces.row_has (ImplementedInterfaces.row_in (slice_get self.now i)) number }
    {
        match row_at(self.rows.as_slice(), i) {
            Some(row) => has(row, number),
            None => false,
        }
    }
}
