ghost use Rattle.std.specs.Prelude.{◌≡◌, fold};
ghost use Rattle.jinterned.specs.ContextDigests;

use crate::pairs::Pair;
use bitflags::Flags;
use jground::jbase::Seq;
use jperm::{BasicClass, Permission};

/// A digest with one more number. It isn't linear in the number, so that equal digests aren't had by solving equations.
#[tactic(auto, unfolding(crate::specs::ContextDigests::stirred))]
#[inline]
fn stirred(sum: u64, n: u64) -> u64
    ensures { result ≡ ContextDigests.stirred sum n }
{
    let x = sum.wrapping_add(n);
    let y = x.wrapping_mul(x.wrapping_mul(2).wrapping_add(1));
    y / (1 << 32) + y % (1 << 32) * (1 << 32)
}

fn digest_text(start: u64, text: &[u16]) -> u64
    ensures { result ≡ ContextDigests.digest_text start text.now }
{
    let mut sum = start;
    for unit in text {
        sum = stirred(sum, u64::from(*unit));
    }
    sum
}

/// What the permissions of a class begin with.
fn class_number(class: BasicClass) -> u64
    ensures { result ≡ ContextDigests.class_number class }
{
    match class {
        BasicClass::Runtime => 65538,
        BasicClass::Security => 65539,
    }
}

fn digest_permission(sum: u64, p: &Permission) -> u64
    ensures { result ≡ ContextDigests.digest_permission sum p.now }
{
    match p {
        Permission::All => stirred(sum, 65537),
        Permission::Basic { class, name } => {
            digest_text(stirred(sum, class_number(*class)), name.as_slice())
        }
        Permission::Property { name, actions } => {
            let named = digest_text(stirred(sum, 65540), name.as_slice());
            stirred(named, u64::from(actions.set().bits()))
        }
        Permission::File { name, actions, .. } => {
            let named = digest_text(stirred(sum, 65541), name.as_slice());
            stirred(named, u64::from(actions.set().bits()))
        }
        Permission::Unresolved { class } => digest_text(stirred(sum, 65542), class.as_slice()),
    }
}

/// A number by which most limits are told apart.
pub fn digest_limits(limits: &Seq<Permission>) -> u64
    ensures { result ≡ ContextDigests.digest_limits limits.now }
{
    let mut sum = 0;
    for p in limits.as_slice() {
        sum = digest_permission(sum, p);
    }
    sum
}

/// A pair as one number.
#[inline]
fn number_of(p: Pair) -> u64
    ensures { result ≡ ContextDigests.number_of p }
{
    u64::from(p.limits) * (1 << 32) + u64::from(p.domain)
}

/// A pair's number over all bits, so that what is stirred with it can't be made up for half by half.
#[tactic(auto, unfolding(crate::specs::ContextDigests::spread))]
#[inline]
fn spread(p: Pair) -> u64
    ensures { result ≡ ContextDigests.spread p }
{
    number_of(p).wrapping_mul(11_400_714_819_323_198_485)
}

/// A digest with one more pair.
#[inline]
fn with_one(sum: u64, p: Pair) -> u64
    ensures { result ≡ ContextDigests.with_one sum p }
{
    stirred(sum, spread(p))
}

/// A digest with four more pairs. Only one stirring waits for the digest before.
#[inline]
fn with_four(sum: u64, a: Pair, b: Pair, c: Pair, d: Pair) -> u64
    ensures { result ≡ ContextDigests.with_four sum a b c d }
{
    let front = stirred(stirred(0, number_of(a)), spread(b));
    let back = stirred(0, number_of(c)).wrapping_add(spread(d));
    stirred(sum, front.wrapping_add(back))
}

/// On from the digest of what stands in front.
fn digest_rest(start: u64, pairs: &[Pair]) -> u64
    ensures { result ≡ fold ContextDigests.with_one start pairs.now }
{
    let mut sum = start;
    for p in pairs {
        sum = with_one(sum, *p);
    }
    sum
}

/// A number by which most lists of pairs are told apart.
pub fn digest_pairs(pairs: &[Pair]) -> u64
    ensures { result ≡ ContextDigests.digest_pairs pairs.now }
{
    let mut sum = 0;
    let mut rest = pairs;
    while let [a, b, c, d, more @ ..] = rest {
        sum = with_four(sum, *a, *b, *c, *d);
        rest = more;
    }
    digest_rest(sum, rest)
}
