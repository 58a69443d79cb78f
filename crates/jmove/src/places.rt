ghost use Rattle.std.specs.Prelude.{◌≡◌, ◌+◌, ◌<◌, ◌≤◌, ℕ, IfOk, length, slice_set};
ghost use Rattle.jmove.specs.AssemblyLines.{Laid, end_of, place_of};
ghost use Rattle.jmove.specs.MethodExpansion.{expansions};
ghost use Rattle.jmove.specs.PlaceTables.{in_table};

use crate::method::{Expand, Setting};
use crate::sizing::reach;
use jparts::jcode::Placed;
use std::alloc::{AllocError, Global};
use std::marker::Model;

/// Where old places lie in moved code. Contracts see it as a table.
#[derive(Drop)]
pub struct Places {
    /// The new place of each old one at which an instruction began, and the new end for all others.
    table: Vec<u16>,
    /// The new end.
    end: u16,
}

impl Model for Places {
    ghost use Rattle.std.specs.Prelude.{ℕ, ◌≤◌, slice_index_or};
    ghost use Rattle.jmove.specs.PlaceTables.{Table};

    ghost Value = { Table };

    ghost view = { λ p. record { places = p.table.items; past = p.end } };

    ghost invariant = { λ p. (p.end ≤ 0x7fff) × ((old : ℕ) → slice_index_or p.table.items old p.end ≤ 0x7fff) };
}

impl Places {
    /// Where an old place lies now.
    pub fn at(&self, old: usize) -> u16
        ensures value { result ≡ in_table self.now old }
        ensures near { result ≤ 0x7fff }
    {
        let table = self.table.as_slice();
        if old < table.len() {
            return table[old];
        }
        self.end
    }
}

/// Writes a place into the table.
fn note(table: &mut Vec<u16>, old: usize, new: u16)
    requires { old < length table.old.items }
    ensures { table.new.items ≡ slice_set table.old.items old new }
{
    table[old] = new;
}

/// The new places of code of so many bytes, whose expansions stand from one place to another.
pub fn places_of(
    alloc: Global,
    s: Setting,
    kinds: &[Expand],
    ops: &[Placed],
    length_of: u32,
    begin: u32,
    end: u16,
) -> Result<Places, AllocError>
    requires same { length kinds.now ≡ length ops.now }
    requires laid { Laid 0 ops.now length_of }
    requires reached { end_of begin (expansions s kinds.now ops.now) ≡ end }
    requires near { end ≤ 0x7fff }
    ensures { IfOk result (λ places. in_table places ≡ λ old. place_of old begin (expansions s kinds.now ops.now)) }
{
    let mut table = vec![in alloc; end; length_of as usize]?;
    let mut at = begin;
    for (i, one) in ops.iter().enumerate() {
        note(&mut table, one.at as usize, at as u16);
        at = reach(s, kinds[i], &one.op, at);
    }
    Ok(Places { table, end })
}
