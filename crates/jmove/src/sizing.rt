ghost use Rattle.std.specs.Prelude.{◌≡◌, ◌+◌, ◌≤◌, ℕ, length};
ghost use Rattle.jparts.specs.declared.jcode.names.Access.{Access};
ghost use Rattle.jparts.specs.jcode.Instructions.{size};
ghost use Rattle.jmove.specs.AssemblyLines;
ghost use Rattle.jmove.specs.MethodExpansion.{expansion, expansions, move_ref};

use crate::method::{Expand, Setting};
use jparts::jcode::{Op, Placed, size_at};

/// How many bytes an aload or an astore has.
#[tactic(auto, using(crate::proofs::Sizes::move_size))]
pub fn move_size(local: u32) -> u32
    ensures value { (at : ℕ) (access : Access) → size at (move_ref access local) ≡ result }
    ensures few { result ≤ 4 }
{
    if local < 256 { 2 } else { 4 }
}

/// The place that the expansion of an instruction reaches.
#[tactic(auto, using(crate::proofs::Sizes::sizes))]
pub fn reach(s: Setting, kind: Expand, op: &Op, at: u32) -> u32
    requires { AssemblyLines.reach at (expansion s kind op.now) ≤ 0xffff_ffff }
    ensures { result ≡ AssemblyLines.reach at (expansion s kind op.now) }
{
    let load = move_size(u32::from(s.local));
    match kind {
        Expand::Same => at + size_at(op, at),
        Expand::Call(_) => {
            let call = at + load;
            call + size_at(op, call)
        }
        Expand::Check(_) | Expand::Snapshot(_) => at + load + 3,
        Expand::Privileged(_) | Expand::PrivilegedWith(_) => at + 6,
        Expand::PrivilegedLimited(_) => at + load + 6,
    }
}

/// The place behind the expansions of code that begin at a place.
pub fn end_of(s: Setting, kinds: &[Expand], ops: &[Placed], at: u32) -> u32
    requires same { length kinds.now ≡ length ops.now }
    requires fits { AssemblyLines.end_of at (expansions s kinds.now ops.now) ≤ 0xffff_ffff }
    ensures { result ≡ AssemblyLines.end_of at (expansions s kinds.now ops.now) }
{
    let mut at = at;
    for (i, one) in ops.iter().enumerate() {
        at = reach(s, kinds[i], &one.op, at);
    }
    at
}
