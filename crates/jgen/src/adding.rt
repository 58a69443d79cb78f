ghost use Rattle.std.specs.Prelude.{◌≡◌, ◌≤◌, ◌+◌, IfOk, IsTrue, Some, length, slice_get};
ghost use Rattle.jparts.specs.declared.jpool.entry.Entry.TheVariants as entries;
ghost use Rattle.jparts.specs.jpool.EntryLayouts.{has_spelling, laid, names_text};
ghost use Rattle.jparts.specs.jpool.ConstantPools.{is_utf8};
ghost use Rattle.jmove.specs.PoolAdditions.{with_class, with_entry, with_member, with_text};
ghost use Rattle.jgen.specs.ClassFileItems.{Puts, with_field, with_method, with_string};

use jadder::{AddError, Adder};
use jground::jbase::Seq;
use jparts::jpool::Entry;
use std::alloc::{AllocError, Global};

/// Puts an entry into a pool that has room for it, unless an equal one is there.
fn put(pool: &mut Adder, e: Entry) -> Result<u16, AllocError>
    requires spelled { IsTrue (has_spelling e) }
    requires named { IsTrue (names_text pool.old e) }
    requires narrow { length (laid e) ≡ 1 }
    requires room { length pool.old + 1 ≤ 0xffff }
    ensures value { Puts 1 (with_entry e) result pool.old pool.new }
    ensures there { IfOk result (λ i. slice_get pool.new i ≡ Some e) }
{
    match pool.add(e) {
        Ok(i) => Ok(i),
        Err(AddError::PoolFull) => unreachable!(),
        Err(AddError::Memory) => Err(AllocError),
    }
}

fn text_entry(alloc: Global, text: &[u8]) -> Result<Entry, AllocError>
    ensures { IfOk result (λ e. e ≡ entries.Utf8 text.now) }
{
    let text = Seq::from_slice(alloc, text)?;
    Ok(Entry::Utf8(text))
}

/// Puts a text.
pub fn put_text(alloc: Global, pool: &mut Adder, text: &[u8]) -> Result<u16, AllocError>
    requires short { length text.now ≤ 0xffff }
    requires room { length pool.old + 1 ≤ 0xffff }
    ensures value { Puts 1 (with_text text.now) result pool.old pool.new }
    ensures there { IfOk result (λ i. IsTrue (is_utf8 pool.new i)) }
{
    let e = text_entry(alloc, text)?;
    put(pool, e)
}

/// Puts the class of a name: its name first.
pub fn put_class(alloc: Global, pool: &mut Adder, name: &[u8]) -> Result<u16, AllocError>
    requires short { length name.now ≤ 0xffff }
    requires room { length pool.old + 2 ≤ 0xffff }
    ensures { Puts 2 (with_class name.now) result pool.old pool.new }
{
    let text = put_text(alloc, pool, name)?;
    put(pool, Entry::Class(text))
}

/// Puts a string: its text first.
pub fn put_string(alloc: Global, pool: &mut Adder, text: &[u8]) -> Result<u16, AllocError>
    requires short { length text.now ≤ 0xffff }
    requires room { length pool.old + 2 ≤ 0xffff }
    ensures { Puts 2 (with_string text.now) result pool.old pool.new }
{
    let text = put_text(alloc, pool, text)?;
    put(pool, Entry::Str(text))
}

/// Puts a name and a type.
fn put_both(alloc: Global, pool: &mut Adder, name: &[u8], text: &[u8]) -> Result<u16, AllocError>
    requires name { length name.now ≤ 0xffff }
    requires text { length text.now ≤ 0xffff }
    requires room { length pool.old + 3 ≤ 0xffff }
    ensures { Puts 3 (with_member name.now text.now) result pool.old pool.new }
{
    let name = put_text(alloc, pool, name)?;
    let text = put_text(alloc, pool, text)?;
    put(pool, Entry::NameAndType(name, text))
}

/// Puts a class's field.
pub fn put_field(
    alloc: Global,
    pool: &mut Adder,
    class: &[u8],
    name: &[u8],
    text: &[u8],
) -> Result<u16, AllocError>
    requires class { length class.now ≤ 0xffff }
    requires name { length name.now ≤ 0xffff }
    requires text { length text.now ≤ 0xffff }
    requires room { length pool.old + 6 ≤ 0xffff }
    ensures { Puts 6 (with_field class.now name.now text.now) result pool.old pool.new }
{
    let class = put_class(alloc, pool, class)?;
    let both = put_both(alloc, pool, name, text)?;
    put(pool, Entry::Field(class, both))
}

/// Puts a class's method.
pub fn put_method(
    alloc: Global,
    pool: &mut Adder,
    class: &[u8],
    name: &[u8],
    text: &[u8],
) -> Result<u16, AllocError>
    requires class { length class.now ≤ 0xffff }
    requires name { length name.now ≤ 0xffff }
    requires text { length text.now ≤ 0xffff }
    requires room { length pool.old + 6 ≤ 0xffff }
    ensures { Puts 6 (with_method class.now name.now text.now) result pool.old pool.new }
{
    let class = put_class(alloc, pool, class)?;
    let both = put_both(alloc, pool, name, text)?;
    put(pool, Entry::Method(class, both))
}
