ghost use Rattle.std.specs.Prelude.{◌≡◌, ℕ, IfOk, List, Some, replicate};
ghost use Rattle.jresolution.specs.jprogram.ProgramClasses.{Program};
ghost use Rattle.jlibcalls.specs.jconstants.StringConstants;
ghost use Rattle.jlibcalls.specs.jconstants.StringConstants.{AreKnown, AreNone, IsObject};

use jground::jbase::Seq;
use jlinking::jlink::LinkedProgram;
use std::alloc::{AllocError, Global};

/// So many times 0.
fn nothing(alloc: Global, count: usize) -> Result<Seq<u32>, AllocError>
    ensures { IfOk result (λ row. row ≡ replicate count 0) }
{
    let row = Vec::from_elem(alloc, 0, count)?;
    Ok(Seq::from_vec(row))
}

/// Rows without numbers: one for each class of a program, with a place for each index of its pool.
pub(crate) fn rows_of(alloc: Global, p: &LinkedProgram) -> Result<Vec<Seq<u32>>, AllocError>
    ensures { IfOk result (λ rows. AreNone rows.items) }
{
    let mut rows = Vec::new(alloc);
    for part in p.parts() {
        let row = nothing(alloc, part.class.parts().pool.entries().len())?;
        rows.push(row)?;
    }
    Ok(rows)
}

/// The number that rows have for an index of a class, 0 for none.
#[inline]
pub(crate) fn number_at(rows: &[Seq<u32>], class: u32, index: u16) -> u32
    ensures { result ≡ StringConstants.number_at rows.now class index }
{
    let Some(row) = rows.get(class as usize) else {
        return 0;
    };
    match row.as_slice().get(usize::from(index)) {
        None => 0,
        Some(number) => *number,
    }
}

/// Puts a number, where rows have a place for it.
fn put_number(rows: &mut Vec<Seq<u32>>, class: u32, index: u16, number: u32)
    ensures { (p : Program) (constants : List (List ℕ × ℕ)) → AreKnown p constants rows.old.items → IsObject p constants class index (Some number)
        → AreKnown p constants rows.new.items }
{
    if class as usize >= rows.len() {
        return;
    }
    if usize::from(index) >= rows[class as usize].as_slice().len() {
        return;
    }
    rows[class as usize].set(usize::from(index), number);
}

/// Puts the number of the constant at an index of a class's pool, where there is one.
pub(crate) fn note(rows: &mut Vec<Seq<u32>>, class: u32, index: u16, number: Option<u32>)
    ensures { (p : Program) (constants : List (List ℕ × ℕ)) → AreKnown p constants rows.old.items → IsObject p constants class index number
        → AreKnown p constants rows.new.items }
{
    if let Some(o) = number {
        put_number(rows, class, index, o);
    }
}
