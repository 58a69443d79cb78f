ghost use Rattle.std.specs.Prelude.{◌≡◌, ◌≤◌, ◌<◌, ◌+◌, ◌*◌, IfOk, length};
ghost use Rattle.jgen.specs.Draws;
ghost use Rattle.jgen.specs.Draws.{kinds, state};
ghost use Rattle.jgen.specs.ProofNames.{drawn};

use jground::jbase::Seq;
use std::alloc::{AllocError, Global};

/// What is drawn for a class.
#[derive(Clone, Copy)]
pub struct Kind {
    /// The number of the class that it calls.
    pub next: u32,
    /// Whether it calls as a privileged action.
    pub privileged: bool,
    /// Whether the policy grants it the permission.
    pub granted: bool,
}

/// The state behind a state.
fn next(x: u64) -> u64
    requires { x < 0x8000_0000 }
    ensures next { result ≡ Draws.next x }
    ensures small { result < 0x8000_0000 }
{
    (1_103_515_245 * x + 12_345) % 0x8000_0000
}

/// The first state of a seed.
#[tactic(auto, unfolding(crate::specs::Draws::state))]
fn first(seed: u64) -> u64
    ensures first { result ≡ state seed 0 }
    ensures small { result < 0x8000_0000 }
{
    seed % 0x8000_0000
}

/// The kind of a class by its three draws.
fn kind_of(one: u64, two: u64, three: u64, i: u32, size: u32) -> Kind
    requires { 1 ≤ size }
    ensures { result ≡ Draws.kind_by (drawn one) (drawn two) (drawn three) i size }
{
    Kind {
        next: ((one / 65_536) % u64::from(size)) as u32,
        privileged: (two / 65_536) % 4 == 0,
        granted: i == 0 || (three / 65_536) % 2 == 0,
    }
}

/// The kinds of all classes.
pub fn kinds_of(alloc: Global, seed: u64, size: u32) -> Result<Seq<Kind>, AllocError>
    requires { 1 ≤ size }
    ensures kinds { IfOk result (λ all. all ≡ kinds seed size) }
    ensures length { IfOk result (λ all. length all ≡ size) }
{
    let mut all = Seq::new(alloc);
    let mut x = first(seed);
    for i in 0..size {
        let one = next(x);
        let two = next(one);
        let three = next(two);
        all.push(kind_of(one, two, three, i, size))?;
        x = three;
    }
    Ok(all)
}
