ghost use Rattle.std.specs.Prelude.{◌≡◌, pos, ◌-ℤ◌};
ghost use Rattle.jparts.specs.jcode.InstructionForms;
ghost use Rattle.jparts.specs.jcode.InstructionForms.{const_value, local_form, new_form, seen};
ghost use Rattle.jparts.specs.ProofNames.{distance, ldc_index, object_form, wide_form};
ghost use Rattle.jparts.specs.jcode.Opcodes.{int_step, slot_step, long_step};

use crate::jcode::names::{LocalKind, ObjectOp, Slot, SmallInt, SmallLong};
use crate::jcode::op::{Goto, IntConst, Ldc, LocalOp, NewOp, Op, Switch, Wide};
use crate::jcode::op_form::{ArrayForm, Flow, LocalForm, OpForm, PoolForm, Simple};

fn int_value(n: SmallInt) -> i32
    ensures { result ≡ pos (int_step n) -ℤ pos 1 }
{
    match n {
        SmallInt::MinusOne => -1,
        SmallInt::Zero => 0,
        SmallInt::One => 1,
        SmallInt::Two => 2,
        SmallInt::Three => 3,
        SmallInt::Four => 4,
        SmallInt::Five => 5,
    }
}

fn long_value(n: SmallLong) -> i64
    ensures { result ≡ pos (long_step n) }
{
    match n {
        SmallLong::Zero => 0,
        SmallLong::One => 1,
    }
}

fn slot_value(slot: Slot) -> u16
    ensures { result ≡ slot_step slot }
{
    match slot {
        Slot::Zero => 0,
        Slot::One => 1,
        Slot::Two => 2,
        Slot::Three => 3,
    }
}

fn const_value(n: IntConst) -> i32
    ensures { result ≡ const_value n }
{
    match n {
        IntConst::Small(n) => int_value(n),
        IntConst::Byte(n) => i32::from(n),
        IntConst::Short(n) => i32::from(n),
    }
}

fn ldc_index(op: Ldc) -> u16
    ensures { result ≡ ldc_index op }
{
    match op {
        Ldc::Narrow(n) => u16::from(n),
        Ldc::Wide(n) => n,
    }
}

fn distance(op: Goto) -> i32
    ensures { result ≡ distance op }
{
    match op {
        Goto::Narrow(by) => i32::from(by),
        Goto::Wide(by) => by,
    }
}

fn local_form(kind: LocalKind, op: LocalOp) -> LocalForm
    ensures { result ≡ local_form kind op }
{
    match op {
        LocalOp::At(access, n) => LocalForm::Move(access, kind, u16::from(n)),
        LocalOp::Slot(access, slot) => LocalForm::Move(access, kind, slot_value(slot)),
    }
}

fn wide_form(op: Wide) -> LocalForm
    ensures { result ≡ wide_form op }
{
    match op {
        Wide::Local(kind, access, n) => LocalForm::Move(access, kind, n),
        Wide::Iinc(n, by) => LocalForm::Increment(n, by),
    }
}

fn new_form<'a>(op: NewOp) -> OpForm<&'a Switch>
    ensures { seen result ≡ new_form op }
{
    match op {
        NewOp::Object(n) => OpForm::Pool(PoolForm::New(n)),
        NewOp::Array(element) => OpForm::Array(ArrayForm::New(element)),
        NewOp::RefArray(n) => OpForm::Array(ArrayForm::NewRef(n)),
    }
}

fn object_form<'a>(op: ObjectOp) -> OpForm<&'a Switch>
    ensures { seen result ≡ object_form op }
{
    match op {
        ObjectOp::ArrayLength => OpForm::Array(ArrayForm::Length),
        ObjectOp::Throw => OpForm::Flow(Flow::Throw),
    }
}

/// The form of an instruction (JVMS 6.5). It takes no memory: a switch is that of the instruction.
///
/// All spellings of an instruction have one form: iload_1, iload 1 and wide iload 1; iconst_3, bipush 3 and sipush 3; goto and
/// goto_w; ldc and ldc_w.
#[tactic(auto, unfolding(crate::specs::jcode::InstructionForms::form))]
pub fn form_of(op: &Op) -> OpForm<&Switch>
    ensures { seen result ≡ InstructionForms.form op.now }
{
    match op {
        Op::Nop => OpForm::Simple(Simple::Nothing),
        Op::AconstNull => OpForm::Simple(Simple::Null),
        Op::IntConst(n) => OpForm::Simple(Simple::Int(const_value(*n))),
        Op::LongConst(n) => OpForm::Simple(Simple::Long(long_value(*n))),
        Op::Ldc(op) => OpForm::Pool(PoolForm::Constant(ldc_index(*op))),
        Op::Ldc2(n) => OpForm::Pool(PoolForm::LongConstant(*n)),
        Op::IntLocal(op) => OpForm::Local(local_form(LocalKind::Int, *op)),
        Op::LongLocal(op) => OpForm::Local(local_form(LocalKind::Long, *op)),
        Op::RefLocal(op) => OpForm::Local(local_form(LocalKind::Ref, *op)),
        Op::ArrayLoad(element) => OpForm::Array(ArrayForm::Load(*element)),
        Op::ArrayStore(element) => OpForm::Array(ArrayForm::Store(*element)),
        Op::Stack(op) => OpForm::Stack(*op),
        Op::Two(op) => OpForm::Simple(Simple::Two(*op)),
        Op::Divide(op) => OpForm::Simple(Simple::Divide(*op)),
        Op::One(op) => OpForm::Simple(Simple::One(*op)),
        Op::Iinc(n, by) => OpForm::Local(LocalForm::Increment(u16::from(*n), i16::from(*by))),
        Op::If(test, by) => OpForm::Flow(Flow::If(*test, i32::from(*by))),
        Op::IfInt(test, by) => OpForm::Flow(Flow::IfInt(*test, i32::from(*by))),
        Op::IfRef(test, by) => OpForm::Flow(Flow::IfRef(*test, i32::from(*by))),
        Op::Goto(op) => OpForm::Flow(Flow::Goto(distance(*op))),
        Op::Switch(switch) => OpForm::Flow(Flow::Switch(switch.get())),
        Op::Return(kind) => OpForm::Flow(Flow::Return(*kind)),
        Op::Field(op, n) => OpForm::Pool(PoolForm::Field(*op, *n)),
        Op::Call(op, n) => OpForm::Pool(PoolForm::Call(*op, *n)),
        Op::CallInterface(n, slots) => OpForm::Pool(PoolForm::CallInterface(*n, *slots)),
        Op::New(op) => new_form(*op),
        Op::Object(op) => object_form(*op),
        Op::Cast(op, n) => OpForm::Pool(PoolForm::Cast(*op, *n)),
        Op::Wide(op) => OpForm::Local(wide_form(*op)),
    }
}
