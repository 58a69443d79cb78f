ghost use Rattle.std.specs.Prelude.{◌≡◌, ◌||◌, ◌==◌, pos, length, IsTrue};
ghost use Rattle.jparts.specs.jcode.Instructions.{code, is_place};
ghost use Rattle.jclass.specs.CodeFormat.{begins, ends};

use jparts::jcode::Placed;
use std::marker::Model;

/// Where the instructions of a code stand. Contracts see it as the instructions.
#[derive(Drop)]
pub struct Places<'a> {
    ops: &'a [Placed],
    size: u32,
}

impl<'a> Model for Places<'a> {
    ghost use Rattle.std.specs.Prelude.{◌≡◌, List, IsTrue, length};
    ghost use Rattle.jparts.specs.declared.jcode.op.Placed.{Placed};
    ghost use Rattle.jparts.specs.jcode.Instructions.{code};

    ghost Value = { List Placed };

    ghost view = { λ p. p.ops.now };

    ghost invariant = { λ p. IsTrue (code.fits p.ops.now) × (p.size ≡ length (code.spell p.ops.now)) };
}

impl<'a> Places<'a> {
    /// The places of instructions whose code has this size.
    pub fn of(ops: &'a [Placed], size: u32) -> Places<'a>
        requires fit { IsTrue (code.fits ops.now) }
        requires size { size ≡ length (code.spell ops.now) }
        ensures { result ≡ ops.now }
    {
        Places { ops, size }
    }

    /// Whether an instruction begins at a place.
    pub fn begins(&self, at: u32) -> bool
        ensures { result ≡ begins self.now at }
    {
        self.ops
            .binary_search_by_key(&i64::from(at), |one| i64::from(one.at))
            .is_ok()
    }

    /// Whether an instruction begins at a place, or the code ends there.
    pub fn ends(&self, at: u32) -> bool
        ensures { result ≡ ends self.now at }
    {
        at == self.size || self.begins(at)
    }
}
