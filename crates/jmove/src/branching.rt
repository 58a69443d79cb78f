ghost use Rattle.std.specs.Prelude.{◌≡◌, ◌≤◌, IfOk, map};
ghost use Rattle.jmove.specs.AssemblyLines.{lookup_with, switch_with, table_with, with_branches};
ghost use Rattle.jmove.specs.ProofNames.{case_with};
ghost use Rattle.jmove.specs.PlaceTables.{distances};

use crate::places::Places;
use jground::jbase::Seq;
use jparts::jcode::{Boxed, Case, Goto, LookupSwitch, Op, Switch, TableSwitch};
use std::alloc::{AllocError, Global};
use std::marker::Model;

/// How far the branches of one instruction lead from its new place. Contracts see the table, the old place and the new one.
#[derive(Drop)]
pub struct Distances<'a> {
    places: &'a Places,
    /// The old place that the branches counted from.
    from: u32,
    /// The new place of the instruction.
    at: u32,
}

impl<'a> Model for Distances<'a> {
    ghost use Rattle.std.specs.Prelude.{◌≤◌};
    ghost use Rattle.jmove.specs.PlaceTables.{Moving};

    ghost Value = { Moving };

    ghost view = { λ d. record { table = d.places.now; from = d.from; at = d.at } };

    ghost invariant = { λ d. d.at ≤ 0x7fff };
}

impl<'a> Distances<'a> {
    /// The distances of branches that counted from an old place, from a new one.
    pub fn between(places: &'a Places, from: u32, at: u32) -> Distances<'a>
        requires { at ≤ 0x7fff }
        ensures { result ≡ record { table = places.now; from = from; at = at } }
    {
        Distances { places, from, at }
    }

    fn short(&self, by: i32) -> i16
        ensures { result ≡ distances self.now by }
    {
        let old = (i64::from(self.from) + i64::from(by)).unsigned_abs();
        let new = i32::from(self.places.at(old as usize));
        (new - self.at as i32) as i16
    }

    fn long(&self, by: i32) -> i32
        ensures { result ≡ distances self.now by }
    {
        i32::from(self.short(by))
    }
}

fn all_long(alloc: Global, old: &[i32], by: &Distances<'_>) -> Result<Vec<i32>, AllocError>
    ensures { IfOk result (λ new. new.items ≡ map (distances by.now) old.now) }
{
    old.iter().map(|one| by.long(*one)).collect(alloc)
}

fn case_led(one: Case, by: &Distances<'_>) -> Case
    ensures { result ≡ case_with (distances by.now) one }
{
    Case {
        key: one.key,
        branch: by.long(one.branch),
    }
}

fn cases_led(alloc: Global, cases: &[Case], by: &Distances<'_>) -> Result<Vec<Case>, AllocError>
    ensures { IfOk result (λ led. led.items ≡ map (case_with (distances by.now)) cases.now) }
{
    cases.iter().map(|one| case_led(*one, by)).collect(alloc)
}

fn table_led(
    alloc: Global,
    table: &TableSwitch,
    by: &Distances<'_>,
) -> Result<TableSwitch, AllocError>
    ensures { IfOk result (λ led. led ≡ table_with (distances by.now) table.now) }
{
    let branches = all_long(alloc, table.branches.as_slice(), by)?;
    Ok(TableSwitch {
        default: by.long(table.default),
        low: table.low,
        high: table.high,
        branches: Seq::from_vec(branches),
    })
}

fn lookup_led(
    alloc: Global,
    lookup: &LookupSwitch,
    by: &Distances<'_>,
) -> Result<LookupSwitch, AllocError>
    ensures { IfOk result (λ led. led ≡ lookup_with (distances by.now) lookup.now) }
{
    let cases = cases_led(alloc, lookup.cases.as_slice(), by)?;
    Ok(LookupSwitch {
        default: by.long(lookup.default),
        cases: Seq::from_vec(cases),
    })
}

fn switch_led(alloc: Global, switch: &Switch, by: &Distances<'_>) -> Result<Switch, AllocError>
    ensures { IfOk result (λ led. led ≡ switch_with (distances by.now) switch.now) }
{
    match switch {
        Switch::Table(table) => Ok(Switch::Table(table_led(alloc, table, by)?)),
        Switch::Lookup(lookup) => Ok(Switch::Lookup(lookup_led(alloc, lookup, by)?)),
    }
}

fn boxed_led(
    alloc: Global,
    switch: &Switch,
    by: &Distances<'_>,
) -> Result<Boxed<Switch>, AllocError>
    ensures { IfOk result (λ led. led ≡ switch_with (distances by.now) switch.now) }
{
    let led = switch_led(alloc, switch, by)?;
    Boxed::new(alloc, led)
}

/// An instruction with other distances of its branches.
pub fn retarget_branches(alloc: Global, op: &Op, by: &Distances<'_>) -> Result<Op, AllocError>
    ensures { IfOk result (λ led. led ≡ with_branches (distances by.now) op.now) }
{
    match op {
        Op::If(test, old) => Ok(Op::If(*test, by.short(i32::from(*old)))),
        Op::IfInt(test, old) => Ok(Op::IfInt(*test, by.short(i32::from(*old)))),
        Op::IfRef(test, old) => Ok(Op::IfRef(*test, by.short(i32::from(*old)))),
        Op::Goto(Goto::Narrow(old)) => Ok(Op::Goto(Goto::Narrow(by.short(i32::from(*old))))),
        Op::Goto(Goto::Wide(old)) => Ok(Op::Goto(Goto::Wide(by.long(*old)))),
        Op::Switch(switch) => Ok(Op::Switch(boxed_led(alloc, switch.get(), by)?)),
        Op::Nop
        | Op::AconstNull
        | Op::IntConst(_)
        | Op::LongConst(_)
        | Op::Ldc(_)
        | Op::Ldc2(_)
        | Op::IntLocal(_)
        | Op::LongLocal(_)
        | Op::RefLocal(_)
        | Op::ArrayLoad(_)
        | Op::ArrayStore(_)
        | Op::Stack(_)
        | Op::Two(_)
        | Op::Divide(_)
        | Op::One(_)
        | Op::Iinc(_, _)
        | Op::Return(_)
        | Op::Field(_, _)
        | Op::Call(_, _)
        | Op::CallInterface(_, _)
        | Op::New(_)
        | Op::Object(_)
        | Op::Cast(_, _)
        | Op::Wide(_) => op.copy(alloc),
    }
}
