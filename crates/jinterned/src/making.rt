ghost use Rattle.std.specs.Prelude.{◌≡◌, ◌<◌, ◌∷◌, ◌++◌, [], IfOk, IfSome, OnOk, Some, drop, get_or, length, map, option_map, slice_get};
ghost use Rattle.std.specs.Option.{option_copied};
ghost use Rattle.jdomain.specs.Domains.{has};
ghost use Rattle.jctx.specs.Contexts as contexts;
ghost use Rattle.jctx.specs.ProofNames;
ghost use Rattle.jctx.specs.ContextGrowth.{added, hidden, joined};
ghost use Rattle.jctx.specs.ContextItems as items;
ghost use Rattle.jctx.specs.PrivilegeLimits.{add_limits};
ghost use Rattle.jinterned.specs.PairLists.{Extends};
ghost use Rattle.jinterned.specs.LimitExtension.{AreExtended};
ghost use Rattle.jinterned.specs.LimitSets.{limits_at};
ghost use Rattle.jinterned.specs.ContextStores.{AllNamed, AreNamed, item_of, items_of};
ghost use Rattle.jinterned.specs.InternedContexts.{before, others};

use crate::limits::imply;
use crate::lists::Lists;
use crate::pairs::Pair;
use crate::sets::Sets;
use jdomain::{Domains, Verdict};
use jperm::Permission;
use std::alloc::{AllocError, Global};

/// Whether an item has another's domain and only limits that the other has too.
fn covers(sets: &Sets, a: Pair, b: Pair) -> bool
    requires a { a.limits < length sets.now }
    requires b { b.limits < length sets.now }
    ensures { result ≡ items.covers (item_of sets.now a) (item_of sets.now b) }
{
    if a.domain != b.domain {
        return false;
    }
    sets.is_within(a.limits, b.limits)
}

/// Whether one of the items covers an item.
fn hides(sets: &Sets, made: &[Pair], pair: Pair) -> bool
    requires made { AreNamed (length sets.now) made.now }
    requires pair { pair.limits < length sets.now }
    ensures { result ≡ hidden (items_of sets.now made.now) (item_of sets.now pair) }
{
    for earlier in made {
        if covers(sets, *earlier, pair) {
            return true;
        }
    }
    false
}

/// Puts an item behind the others, unless one of them covers it.
fn add(sets: &Sets, made: &mut Vec<Pair>, pair: Pair) -> Result<(), AllocError>
    requires made { AreNamed (length sets.now) made.old.items }
    requires pair { pair.limits < length sets.now }
    ensures added { OnOk result (items_of sets.now made.new.items ≡ added (items_of sets.now made.old.items) (item_of sets.now pair)) }
    ensures named { OnOk result (AreNamed (length sets.now) made.new.items) }
{
    if hides(sets, made, pair) {
        return Ok(());
    }
    made.push(pair)?;
    Ok(())
}

/// Adds each item of a list, unless one before it covers it.
pub fn add_all(sets: &Sets, lists: &Lists, made: &mut Vec<Pair>, n: usize) -> Result<(), AllocError>
    requires there { n < length lists.now }
    requires lists { AllNamed (length sets.now) lists.now }
    requires made { AreNamed (length sets.now) made.old.items }
    ensures added { OnOk result
        (items_of sets.now made.new.items ≡ joined (items_of sets.now made.old.items) (items_of sets.now (get_or lists.now n []))) }
    ensures named { OnOk result (AreNamed (length sets.now) made.new.items) }
{
    for i in 0..lists.count(n) {
        add(sets, made, lists.read(n, i))?;
    }
    Ok(())
}

/// How many items stand in front of the first of a domain.
fn before(run: &[Pair], d: u32) -> usize
    ensures { result ≡ before d run.now }
{
    let mut i = 0;
    while i < run.len() {
        if d == run[i].domain {
            return i;
        }
        i += 1;
    }
    i
}

/// The items behind the first, where there is one.
fn without_first(run: &[Pair]) -> &[Pair]
    ensures { result.now ≡ drop 1 run.now }
{
    match run {
        [_, more @ ..] => more,
        [] => run,
    }
}

/// Puts each item but those of a domain behind the others.
fn add_run(sets: &Sets, made: &mut Vec<Pair>, run: &[Pair], d: u32) -> Result<(), AllocError>
    requires made { AreNamed (length sets.now) made.old.items }
    requires run { AreNamed (length sets.now) run.now }
    ensures added { OnOk result (items_of sets.now made.new.items ≡ items_of sets.now made.old.items ++ others d (items_of sets.now run.now)) }
    ensures named { OnOk result (AreNamed (length sets.now) made.new.items) }
{
    let mut rest = run;
    while !rest.is_empty() {
        let (front, behind) = rest.split_at(before(rest, d));
        made.extend_from_slice(front)?;
        rest = without_first(behind);
    }
    Ok(())
}

/// Puts each item of a list but those of a domain behind the others.
pub fn add_others(
    sets: &Sets,
    lists: &Lists,
    made: &mut Vec<Pair>,
    n: usize,
    d: u32,
) -> Result<(), AllocError>
    requires there { n < length lists.now }
    requires lists { AllNamed (length sets.now) lists.now }
    requires made { AreNamed (length sets.now) made.old.items }
    ensures added { OnOk result
        (items_of sets.now made.new.items ≡ items_of sets.now made.old.items ++ others d (items_of sets.now (get_or lists.now n []))) }
    ensures named { OnOk result (AreNamed (length sets.now) made.new.items) }
{
    let count = lists.count(n);
    let mut i = 0;
    while i < count {
        let run = lists.run(n, i);
        add_run(sets, made, run, d)?;
        i += run.len();
    }
    Ok(())
}

/// The number of a list of limits with new ones added, and that of the list without them.
#[derive(Clone, Copy)]
pub struct Extended {
    from: u32,
    to: u32,
}

/// The number of limits with new ones added, where the last such number may be known.
fn limited_by(
    alloc: Global,
    sets: &mut Sets,
    known: Option<Extended>,
    n: u32,
    limits: &[Permission],
) -> Result<u32, AllocError>
    requires there { n < length sets.old }
    requires known { IfSome known (AreExtended sets.old limits.now) }
    ensures ok { IfOk result (λ m. slice_get sets.new m ≡ Some (add_limits (limits_at sets.old n) limits.now)) }
    ensures more { Extends sets.old sets.new }
{
    if let Some(known) = known {
        if known.from == n {
            return Ok(known.to);
        }
    }
    sets.add(alloc, n, limits)
}

/// Adds an item with the limits, unless one of the others covers it. The last such limits may be known, and are afterwards.
fn add_limited(
    alloc: Global,
    sets: &mut Sets,
    made: &mut Vec<Pair>,
    known: Option<Extended>,
    pair: Pair,
    limits: &[Permission],
) -> Result<Extended, AllocError>
    requires made { AreNamed (length sets.old) made.old.items }
    requires known { IfSome known (AreExtended sets.old limits.now) }
    requires pair { pair.limits < length sets.old }
    ensures known { IfOk result (AreExtended sets.new limits.now) }
    ensures added { OnOk result
        (items_of sets.new made.new.items ≡ added (items_of sets.old made.old.items) (items.with_limits limits.now (item_of sets.old pair))) }
    ensures named { OnOk result (AreNamed (length sets.new) made.new.items) }
    ensures more { Extends sets.old sets.new }
{
    let n = limited_by(alloc, sets, known, pair.limits, limits)?;
    let limited = Pair {
        limits: n,
        domain: pair.domain,
    };
    add(sets, made, limited)?;
    Ok(Extended {
        from: pair.limits,
        to: n,
    })
}

/// Adds each item of a list with the limits, unless one before it covers it.
fn add_all_limited(
    alloc: Global,
    sets: &mut Sets,
    lists: &Lists,
    made: &mut Vec<Pair>,
    n: usize,
    limits: &[Permission],
) -> Result<(), AllocError>
    requires there { n < length lists.now }
    requires lists { AllNamed (length sets.old) lists.now }
    requires made { AreNamed (length sets.old) made.old.items }
    ensures added { OnOk result (items_of sets.new made.new.items
        ≡ joined (items_of sets.old made.old.items) (map (items.with_limits limits.now) (items_of sets.old (get_or lists.now n [])))) }
    ensures named { OnOk result (AreNamed (length sets.new) made.new.items) }
    ensures more { Extends sets.old sets.new }
{
    let mut known = None;
    for i in 0..lists.count(n) {
        let last = add_limited(alloc, sets, made, known, lists.read(n, i), limits)?;
        known = Some(last);
    }
    Ok(())
}

/// Begins with a domain without limits.
pub fn begin(sets: &Sets, made: &mut Vec<Pair>, d: u32) -> Result<(), AllocError>
    ensures begun { OnOk result (items_of sets.now made.new.items ≡ items.plain d ∷ []) }
    ensures named { OnOk result (AreNamed (length sets.now) made.new.items) }
{
    sets.distinct();
    made.clear();
    made.push(Pair {
        limits: 0,
        domain: d,
    })?;
    Ok(())
}

/// Adds what isn't covered of a context that was given, if one was.
pub fn add_given(
    sets: &Sets,
    lists: &Lists,
    made: &mut Vec<Pair>,
    given: Option<u64>,
) -> Result<(), AllocError>
    requires there { IfSome given (λ g. g < length lists.now) }
    requires lists { AllNamed (length sets.now) lists.now }
    requires made { AreNamed (length sets.now) made.old.items }
    ensures added { OnOk result (items_of sets.now made.new.items
        ≡ joined (items_of sets.now made.old.items) (ProofNames.given_items (option_map (λ g. items_of sets.now (get_or lists.now g [])) given))) }
    ensures named { OnOk result (AreNamed (length sets.now) made.new.items) }
{
    match given {
        Some(n) => add_all(sets, lists, made, n as usize),
        None => Ok(()),
    }
}

/// Adds what a privilege takes over of the context behind it.
pub fn add_behind(
    alloc: Global,
    sets: &mut Sets,
    lists: &Lists,
    made: &mut Vec<Pair>,
    limits: Option<&[Permission]>,
    n: usize,
) -> Result<(), AllocError>
    requires there { n < length lists.now }
    requires lists { AllNamed (length sets.old) lists.now }
    requires made { AreNamed (length sets.old) made.old.items }
    ensures added { OnOk result (items_of sets.new made.new.items
        ≡ joined (items_of sets.old made.old.items) (contexts.limited (option_copied limits.entry) (items_of sets.old (get_or lists.now n [])))) }
    ensures named { OnOk result (AreNamed (length sets.new) made.new.items) }
    ensures more { Extends sets.old sets.new }
{
    match limits {
        Some(limits) => add_all_limited(alloc, sets, lists, made, n, limits),
        None => Ok(()),
    }
}

/// Whether a domain lacks a permission and none of the limits implies it.
fn fails(sets: &Sets, pair: Pair, domains: &Domains, asked: &Permission) -> bool
    requires { pair.limits < length sets.now }
    ensures { result ≡ items.fails (has domains.now) asked.now (item_of sets.now pair) }
{
    if domains.implies(pair.domain, asked) {
        return false;
    }
    !imply(sets.get(pair.limits).as_slice(), asked)
}

/// What an item decides for a permission.
fn decide_item(sets: &Sets, pair: Pair, domains: &Domains, asked: &Permission) -> Verdict
    requires { pair.limits < length sets.now }
    ensures { result ≡ contexts.verdict (has domains.now) asked.now (item_of sets.now pair ∷ []) }
{
    if fails(sets, pair, domains, asked) {
        return Verdict::Denied(pair.domain);
    }
    Verdict::Granted
}

/// What items decide for a permission.
fn decide_run(sets: &Sets, run: &[Pair], domains: &Domains, asked: &Permission) -> Verdict
    requires { AreNamed (length sets.now) run.now }
    ensures { result ≡ contexts.verdict (has domains.now) asked.now (items_of sets.now run.now) }
{
    for pair in run {
        if fails(sets, *pair, domains, asked) {
            return Verdict::Denied(pair.domain);
        }
    }
    Verdict::Granted
}

/// What the items of a list decide for a permission, run by run.
fn decide_runs(
    sets: &Sets,
    lists: &Lists,
    n: usize,
    domains: &Domains,
    asked: &Permission,
) -> Verdict
    requires there { n < length lists.now }
    requires lists { AllNamed (length sets.now) lists.now }
    ensures { result ≡ contexts.verdict (has domains.now) asked.now (items_of sets.now (get_or lists.now n [])) }
{
    let count = lists.count(n);
    let mut i = 0;
    while i < count {
        let run = lists.run(n, i);
        if let Verdict::Denied(d) = decide_run(sets, run, domains, asked) {
            return Verdict::Denied(d);
        }
        i += run.len();
    }
    Verdict::Granted
}

/// What two items decide for a permission.
fn decide_two(
    sets: &Sets,
    first: Pair,
    second: Pair,
    domains: &Domains,
    asked: &Permission,
) -> Verdict
    requires first { first.limits < length sets.now }
    requires second { second.limits < length sets.now }
    ensures { result ≡ contexts.verdict (has domains.now) asked.now (items_of sets.now (first ∷ second ∷ [])) }
{
    if fails(sets, first, domains, asked) {
        return Verdict::Denied(first.domain);
    }
    decide_item(sets, second, domains, asked)
}

/// What two items and those behind them decide for a permission.
fn decide_all(
    sets: &Sets,
    head: Pair,
    next: Pair,
    behind: &[Pair],
    domains: &Domains,
    asked: &Permission,
) -> Verdict
    requires head { head.limits < length sets.now }
    requires next { next.limits < length sets.now }
    requires behind { AreNamed (length sets.now) behind.now }
    ensures { result ≡ contexts.verdict (has domains.now) asked.now (items_of sets.now (head ∷ next ∷ behind.now)) }
{
    if fails(sets, head, domains, asked) {
        return Verdict::Denied(head.domain);
    }
    if fails(sets, next, domains, asked) {
        return Verdict::Denied(next.domain);
    }
    decide_run(sets, behind, domains, asked)
}

/// What a list decides for a permission. One of one or two items is decided without runs, and one that lies in one region as a whole: its
/// first two items need no look into the region.
pub fn decide(
    sets: &Sets,
    lists: &Lists,
    n: usize,
    domains: &Domains,
    asked: &Permission,
) -> Verdict
    requires there { n < length lists.now }
    requires lists { AllNamed (length sets.now) lists.now }
    ensures { result ≡ contexts.verdict (has domains.now) asked.now (items_of sets.now (get_or lists.now n [])) }
{
    let count = lists.count(n);
    if count == 0 {
        return Verdict::Granted;
    }
    let head = lists.head(n);
    if count == 1 {
        return decide_item(sets, head, domains, asked);
    }
    if count == 2 {
        return decide_two(sets, head, lists.next(n), domains, asked);
    }
    let behind = lists.run(n, 2);
    if behind.len() < count - 2 {
        return decide_runs(sets, lists, n, domains, asked);
    }
    decide_all(sets, head, lists.next(n), behind, domains, asked)
}
