ghost use Rattle.std.specs.Prelude.{◌≡◌};
ghost use Rattle.jparts.specs.jcode.InstructionForms;
ghost use Rattle.jparts.specs.jcode.InstructionForms.{array_effect, compared, element, flow_effect, local, local_effect, returned, simple_effect};

use crate::jcode::names::{Access, Element, LocalKind, RefTest, Returned};
use crate::jcode::op_form::{ArrayForm, Flow, LocalForm, OpForm, Simple};
use jvalues::jnames::{Effect, Kind, Kinds};

fn simple_effect(form: Simple) -> Effect
    ensures { result ≡ simple_effect form }
{
    match form {
        Simple::Nothing => Effect::taking(Kinds::None),
        Simple::Null => Effect::giving(Kinds::None, Kind::Null),
        Simple::Int(_) => Effect::giving(Kinds::None, Kind::Int),
        Simple::Long(_) => Effect::giving(Kinds::None, Kind::Long),
        Simple::Two(op) => op.effect(),
        Simple::Divide(op) => op.effect(),
        Simple::One(op) => op.effect(),
    }
}

fn local(kind: LocalKind) -> Kind
    ensures { result ≡ local kind }
{
    match kind {
        LocalKind::Int => Kind::Int,
        LocalKind::Long => Kind::Long,
        LocalKind::Ref => Kind::Held,
    }
}

fn local_effect(form: LocalForm) -> Effect
    ensures { result ≡ local_effect form }
{
    match form {
        LocalForm::Move(Access::Load, kind, _) => Effect::giving(Kinds::None, local(kind)),
        LocalForm::Move(Access::Store, kind, _) => Effect::taking(Kinds::One(local(kind))),
        LocalForm::Increment(_, _) => Effect::taking(Kinds::None),
    }
}

fn compared(test: RefTest) -> Kinds
    ensures { result ≡ compared test }
{
    match test {
        RefTest::Same => Kinds::Two(Kind::Ref, Kind::Ref),
        RefTest::Other => Kinds::Two(Kind::Ref, Kind::Ref),
        RefTest::Null => Kinds::One(Kind::Ref),
        RefTest::NonNull => Kinds::One(Kind::Ref),
    }
}

fn returned(kind: Returned) -> Kinds
    ensures { result ≡ returned kind }
{
    match kind {
        Returned::Int => Kinds::One(Kind::Int),
        Returned::Long => Kinds::One(Kind::Long),
        Returned::Ref => Kinds::One(Kind::Ref),
        Returned::Nothing => Kinds::None,
    }
}

fn flow_effect<S>(form: &Flow<S>) -> Effect
    ensures { result ≡ flow_effect form.now }
{
    match form {
        Flow::If(_, _) => Effect::taking(Kinds::One(Kind::Int)),
        Flow::IfInt(_, _) => Effect::taking(Kinds::Two(Kind::Int, Kind::Int)),
        Flow::IfRef(test, _) => Effect::taking(compared(*test)),
        Flow::Goto(_) => Effect::taking(Kinds::None),
        Flow::Switch(_) => Effect::taking(Kinds::One(Kind::Int)),
        Flow::Return(kind) => Effect::taking(returned(*kind)),
        Flow::Throw => Effect::taking(Kinds::One(Kind::Ref)),
    }
}

fn element(kind: Element) -> Kind
    ensures { result ≡ element kind }
{
    match kind {
        Element::Int => Kind::Int,
        Element::Long => Kind::Long,
        Element::Ref => Kind::Ref,
        Element::Byte => Kind::Int,
        Element::Char => Kind::Int,
        Element::Short => Kind::Int,
    }
}

fn array_effect(form: ArrayForm) -> Effect
    ensures { result ≡ array_effect form }
{
    match form {
        ArrayForm::New(_) => Effect::giving(Kinds::One(Kind::Int), Kind::Array),
        ArrayForm::NewRef(_) => Effect::giving(Kinds::One(Kind::Int), Kind::Array),
        ArrayForm::Load(kind) => Effect::giving(Kinds::Two(Kind::Int, Kind::Array), element(kind)),
        ArrayForm::Store(kind) => Effect::taking(Kinds::Three(
            element(kind),
            Kind::Int,
            Kind::Array,
        )),
        ArrayForm::Length => Effect::giving(Kinds::One(Kind::Array), Kind::Int),
    }
}

/// The kinds that a form takes from the stack and gives to it, for a type checker and a machine alike.
///
/// `None` is answered where the form itself doesn't say them: for moves of the stack, which take and give items of any kinds,
/// and for forms by the pool, of which the entry says what they take and give.
#[tactic(auto, unfolding(crate::specs::jcode::InstructionForms::effect))]
pub fn effect_of<S>(form: &OpForm<S>) -> Option<Effect>
    ensures { result ≡ InstructionForms.effect form.now }
{
    match form {
        OpForm::Simple(form) => Some(simple_effect(*form)),
        OpForm::Local(form) => Some(local_effect(*form)),
        OpForm::Flow(form) => Some(flow_effect(form)),
        OpForm::Array(form) => Some(array_effect(*form)),
        OpForm::Stack(_) | OpForm::Pool(_) => None,
    }
}
