ghost use Rattle.std.specs.Prelude.{◌≡◌, ◌<◌, [], get_or, length};
ghost use Rattle.jinterned.specs.InternedContexts.{alike, pairwise, same_limits, same_pair};

use crate::lists::Lists;
use crate::pairs::Pair;
use jground::jbase::Seq;
use jperm::Permission;

/// Whether permissions are the same, one by one.
fn same_members(a: &[Permission], b: &[Permission]) -> bool
    ensures { result ≡ same_limits a.now b.now }
{
    if a.len() != b.len() {
        return false;
    }
    for i in 0..a.len() {
        if !a[i].equal(&b[i]) {
            return false;
        }
    }
    true
}

/// Whether limits are the same, one by one.
pub fn are_same(a: &Seq<Permission>, b: &Seq<Permission>) -> bool
    ensures { result ≡ same_limits a.now b.now }
{
    same_members(a.as_slice(), b.as_slice())
}

/// Whether pairs are the same.
#[inline]
fn same_pair(a: Pair, b: Pair) -> bool
    ensures { result ≡ same_pair a b }
{
    a.limits == b.limits && a.domain == b.domain
}

/// Whether pairs are the same, one by one.
fn same_pairs(a: &[Pair], b: &[Pair]) -> bool
    requires { length a.now ≡ length b.now }
    ensures { result ≡ pairwise same_pair a.now b.now }
{
    for i in 0..a.len() {
        if !same_pair(a[i], b[i]) {
            return false;
        }
    }
    true
}

/// Whether a list by its number has just these pairs. It is there.
pub fn holds_at(lists: &Lists, n: usize, pairs: &[Pair]) -> bool
    requires { n < length lists.now }
    ensures { result ≡ alike same_pair (get_or lists.now n []) pairs.now }
{
    let count = lists.count(n);
    if count != pairs.len() {
        return false;
    }
    let mut rest = pairs;
    let mut i = 0;
    while i < count {
        let run = lists.run(n, i);
        let (front, behind) = rest.split_at(run.len());
        if !same_pairs(run, front) {
            return false;
        }
        rest = behind;
        i += run.len();
    }
    true
}
