ghost use Rattle.std.specs.Prelude.{◌≡◌, IfOk};

use crate::jcode::op::{LookupSwitch, Op, Placed, Switch, TableSwitch};
use crate::jcode::pointer::Boxed;
use std::alloc::{AllocError, Global};

impl TableSwitch {
    /// The same switch again.
    pub fn copy(&self, alloc: Global) -> Result<TableSwitch, AllocError>
        ensures { IfOk result (λ s. s ≡ self.now) }
    {
        let branches = self.branches.copy(alloc)?;
        Ok(TableSwitch {
            default: self.default,
            low: self.low,
            high: self.high,
            branches,
        })
    }
}

impl LookupSwitch {
    /// The same switch again.
    pub fn copy(&self, alloc: Global) -> Result<LookupSwitch, AllocError>
        ensures { IfOk result (λ s. s ≡ self.now) }
    {
        let cases = self.cases.copy(alloc)?;
        Ok(LookupSwitch {
            default: self.default,
            cases,
        })
    }
}

impl Switch {
    /// The same switch again.
    pub fn copy(&self, alloc: Global) -> Result<Switch, AllocError>
        ensures { IfOk result (λ s. s ≡ self.now) }
    {
        match self {
            Switch::Table(table) => Ok(Switch::Table(table.copy(alloc)?)),
            Switch::Lookup(lookup) => Ok(Switch::Lookup(lookup.copy(alloc)?)),
        }
    }
}

fn boxed(alloc: Global, switch: &Switch) -> Result<Boxed<Switch>, AllocError>
    ensures { IfOk result (λ s. s ≡ switch.now) }
{
    let same = switch.copy(alloc)?;
    Boxed::new(alloc, same)
}

impl Op {
    /// The same instruction again.
    pub fn copy(&self, alloc: Global) -> Result<Op, AllocError>
        ensures { IfOk result (λ op. op ≡ self.now) }
    {
        match self {
            Op::Nop => Ok(Op::Nop),
            Op::AconstNull => Ok(Op::AconstNull),
            Op::IntConst(n) => Ok(Op::IntConst(*n)),
            Op::LongConst(n) => Ok(Op::LongConst(*n)),
            Op::Ldc(op) => Ok(Op::Ldc(*op)),
            Op::Ldc2(n) => Ok(Op::Ldc2(*n)),
            Op::IntLocal(op) => Ok(Op::IntLocal(*op)),
            Op::LongLocal(op) => Ok(Op::LongLocal(*op)),
            Op::RefLocal(op) => Ok(Op::RefLocal(*op)),
            Op::ArrayLoad(element) => Ok(Op::ArrayLoad(*element)),
            Op::ArrayStore(element) => Ok(Op::ArrayStore(*element)),
            Op::Stack(op) => Ok(Op::Stack(*op)),
            Op::Two(op) => Ok(Op::Two(*op)),
            Op::Divide(op) => Ok(Op::Divide(*op)),
            Op::One(op) => Ok(Op::One(*op)),
            Op::Iinc(n, by) => Ok(Op::Iinc(*n, *by)),
            Op::If(test, by) => Ok(Op::If(*test, *by)),
            Op::IfInt(test, by) => Ok(Op::IfInt(*test, *by)),
            Op::IfRef(test, by) => Ok(Op::IfRef(*test, *by)),
            Op::Goto(op) => Ok(Op::Goto(*op)),
            Op::Switch(switch) => Ok(Op::Switch(boxed(alloc, switch.get())?)),
            Op::Return(kind) => Ok(Op::Return(*kind)),
            Op::Field(op, n) => Ok(Op::Field(*op, *n)),
            Op::Call(op, n) => Ok(Op::Call(*op, *n)),
            Op::CallInterface(n, slots) => Ok(Op::CallInterface(*n, *slots)),
            Op::New(op) => Ok(Op::New(*op)),
            Op::Object(op) => Ok(Op::Object(*op)),
            Op::Cast(op, n) => Ok(Op::Cast(*op, *n)),
            Op::Wide(op) => Ok(Op::Wide(*op)),
        }
    }
}

impl Placed {
    /// The same instruction at the same place again.
    pub fn copy(&self, alloc: Global) -> Result<Placed, AllocError>
        ensures { IfOk result (λ p. p ≡ self.now) }
    {
        let op = self.op.copy(alloc)?;
        Ok(Placed { at: self.at, op })
    }
}
