ghost use Rattle.std.specs.Prelude.{◌≡◌, ℕ, List, option_map};
ghost use Rattle.std.specs.Str.{bytes_eq};
ghost use Rattle.jrows.specs.jcalls.MethodCalls.{selected_on};
ghost use Rattle.jsemantics.specs.jmachine.CallTargets;
ghost use Rattle.jsemantics.specs.jmachine.World;
ghost use Rattle.jsemantics.specs.jmachine.World.{world};
ghost use Rattle.jparts.specs.declared.jpool.entry.Entry.{Entry};
ghost use Rattle.jresolution.specs.declared.jprogram.member.Member.TheVariants as members;
ghost use Rattle.jresolution.specs.declared.jprogram.member.Selected.TheVariants as selections;
ghost use Rattle.jresolution.specs.jprogram.ProgramClasses.{Program};
ghost use Rattle.jready.specs.DecodedInstructions.{call_form};
ghost use Rattle.jtypes.specs.Assignability;
ghost use Rattle.jresolution.specs.declared.juses.types.TypeRef.{TypeRef};
ghost use Rattle.jresolution.specs.juses.InstructionMeanings.{call_named, meaning_of};
ghost use Rattle.jresolution.specs.juses.InternedTypes.{class_named};
ghost use Rattle.jserving.specs.jinvoke.Answers;
ghost use Rattle.jserving.specs.jinvoke.Answers.{IsCallAt, OwnerIs, id_on, in_meaning, key, number_by};
ghost use Rattle.jserving.specs.jinvoke.CallQueries.{call_of, class_of, told};
ghost use Rattle.jserving.specs.jinvoke.InterfaceCalls.{face_answer};

use crate::jinvoke::asked::{Asked, Face};
use crate::jinvoke::method_lookup::MethodLookup;
use jlib::{LibCall, LibClass};
use jmemory::jheap::Kind;
use jparts::jcode::{CallOp, PoolForm};
use jresolution::jprogram::{CallKind, ClassId, ClassRef, Member, MethodId, Reach, Selected};
use jresolution::juses::{CallUse, InvokeKind, Use, code_at};
use jruntime::jstate::{class_numbered, library_number};

/// What is asked about a call: the class in whose code it stands, by its place among the parts, the index of its entry, how it calls, and
/// the heap's number for the class of its object, where it looks for a method there. Arrays have none.
#[derive(Clone, Copy, Debug, PartialEq, Eq)]
pub struct CallKey {
    pub class: u32,
    pub pool: u16,
    pub by: InvokeKind,
    pub on: Option<u32>,
}

/// What is selected where a method is called.
#[derive(Clone, Copy, Debug, PartialEq, Eq)]
pub enum Chosen {
    /// A user's method, whether it has code, and how many locals and operands its frames have at most.
    Method {
        method: MethodId,
        has_code: bool,
        most: u32,
        stack: u32,
    },
    Lib(LibCall),
    /// A method without code.
    Abstract,
    Missing,
}

/// What is known of a call.
#[derive(Clone, Copy, Debug, PartialEq, Eq)]
pub struct Answer {
    pub what: Chosen,
    /// The object's class has the interface by which it is called.
    pub has: bool,
    /// What is selected isn't public. Both are asked where it is called by an interface.
    pub hidden: bool,
}

/// What is remembered beside the site of a call.
#[derive(Clone, Copy, Debug, PartialEq, Eq)]
pub(crate) struct Beside {
    pub answer: Answer,
    /// The class by which its entry names the method, if it names one.
    pub owner: Option<ClassRef>,
}

// ---- classes of objects

/// The heap's number for the class of an object of a kind. Arrays have none.
#[inline]
pub fn number_of(kind: Kind) -> Option<u32>
    ensures { result ≡ number_by kind }
{
    match kind {
        Kind::Object(n) => Some(n),
        Kind::Array(_) => None,
        Kind::Text => Some(library_number(LibClass::String)),
        Kind::Piece => Some(library_number(LibClass::StringBuilder)),
    }
}

/// What a call asks of the class of its object, which is of a kind: the heap's number for it. Where the class doesn't matter it asks nothing.
#[inline]
#[tactic(auto, using(crate::proofs::JinvokeProofs::ReceiverClasses::special_alike, crate::proofs::JinvokeProofs::ReceiverClasses::static_alike, crate::proofs::JinvokeProofs::ReceiverClasses::init_alike,),)]
pub(crate) fn asked_of(by: InvokeKind, kind: Kind) -> Option<u32>
    ensures { (p : Program) (class pool : ℕ) → Answers.answer p (key class by pool result) ≡ Answers.answer p (key class by pool (number_by kind)) }
{
    match by {
        InvokeKind::Virtual => number_of(kind),
        InvokeKind::Special => None,
        InvokeKind::Static => None,
        InvokeKind::Interface => number_of(kind),
        InvokeKind::Init => None,
    }
}

fn class_id(class: ClassRef) -> ClassId
    ensures { result ≡ World.class_id class }
{
    match class {
        ClassRef::User(i) => ClassId::User(i),
        ClassRef::Lib(c) => ClassId::Lib(c),
    }
}

fn id_of(on: Option<u32>) -> ClassId
    ensures { result ≡ id_on on }
{
    match on {
        None => ClassId::Array,
        Some(n) => class_id(class_numbered(n)),
    }
}

fn form_of(by: InvokeKind, pool: u16) -> PoolForm
    ensures { result ≡ call_form by pool }
{
    match by {
        InvokeKind::Virtual => PoolForm::Call(CallOp::Virtual, pool),
        InvokeKind::Special => PoolForm::Call(CallOp::Special, pool),
        InvokeKind::Static => PoolForm::Call(CallOp::Static, pool),
        InvokeKind::Interface => PoolForm::CallInterface(pool, 0),
        InvokeKind::Init => PoolForm::Call(CallOp::Special, pool),
    }
}

/// The method that an instruction names which calls one.
fn call_in(meant: Option<Use>) -> Option<CallUse>
    ensures { (p : Program) (pool : List Entry) (types : List TypeRef) →
        option_map (call_named p types) result ≡ in_meaning (option_map (meaning_of p pool types) meant) }
{
    match meant {
        None => None,
        Some(Use::Push(_)) => None,
        Some(Use::Field(_, _)) => None,
        Some(Use::Call(_, call)) => Some(call),
        Some(Use::Make(_)) => None,
        Some(Use::MakeArray(_)) => None,
        Some(Use::Cast(_, _)) => None,
    }
}

// ---- what is selected

impl<'p> MethodLookup<'p> {
    fn is_above_arrays(&self, class: ClassRef) -> bool
        ensures { result ≡ Assignability.is_above_arrays (class_named self.now class) }
    {
        let name = self.program().name_of(class);
        name == b"java/lang/Object".as_slice()
            || name == b"java/lang/Cloneable".as_slice()
            || name == b"java/io/Serializable".as_slice()
    }

    /// Whether an object of the class of one of the heap's numbers is one of a class or an interface.
    fn is_one_of(&self, on: Option<u32>, class: ClassRef) -> bool
        ensures { result ≡ Answers.is_one_of self.now on (class_named self.now class) }
    {
        match on {
            None => self.is_above_arrays(class),
            Some(n) => self.is_of(class_numbered(n), class),
        }
    }

    /// A method as it is.
    #[tactic(auto, unfolding(jsemantics::specs::jmachine::World::world))]
    fn itself(&self, member: Member) -> Selected
        ensures { result ≡ (world self.now).itself member }
    {
        self.program().named().itself(member)
    }

    #[tactic(auto, unfolding(jsemantics::specs::jmachine::World::world))]
    fn select(&self, on: ClassId, member: Member, kind: CallKind) -> Selected
        ensures { result ≡ (world self.now).select on member kind }
    {
        self.program().select(on, member, kind)
    }

    /// The method that is selected from the class above on.
    #[tactic(auto, unfolding(jsemantics::specs::jmachine::World::world))]
    fn from_above(&self, class: u32, member: Member) -> Selected
        ensures { result ≡ CallTargets.from_above (world self.now) member ((world self.now).above class) }
    {
        match self.program().named().super_of(ClassRef::User(class)) {
            None => Selected::Missing,
            Some(above) => self.select(class_id(above), member, CallKind::Special),
        }
    }

    #[tactic(auto, unfolding(jsemantics::specs::jmachine::World::world))]
    fn is_own(&self, class: u32, owner: ClassRef) -> bool
        ensures { result ≡ bytes_eq (class_named self.now owner).0 ((world self.now).named class).0 }
    {
        self.program().name_of(owner) == self.program().name_of(ClassRef::User(class))
    }

    /// A method of this class as it is, one of a class above as that class has it.
    fn special(&self, class: u32, call: &CallUse) -> Selected
        ensures { (types : List TypeRef) → result ≡ CallTargets.special (world self.now) class (call_named self.now types call.now) }
    {
        if self.is_own(class, call.owner) {
            return self.itself(call.member);
        }
        self.from_above(class, call.member)
    }

    fn selected(&self, key: CallKey, call: &CallUse) -> Selected
        ensures { (types : List TypeRef) → result ≡ selected_on (world self.now) key.class key.by (call_named self.now types call.now)
            (id_on key.on) }
    {
        match key.by {
            InvokeKind::Virtual => self.select(id_of(key.on), call.member, CallKind::Virtual),
            InvokeKind::Special => self.special(key.class, call),
            InvokeKind::Static => self.itself(call.member),
            InvokeKind::Interface => self.select(id_of(key.on), call.member, CallKind::Interface),
            InvokeKind::Init => self.itself(call.member),
        }
    }

    // ---- the answer

    /// A user's method that is selected.
    #[tactic(auto, using(crate::proofs::JinvokeProofs::CallAnswers::bare_is, crate::proofs::JinvokeProofs::CallAnswers::coded_is))]
    fn method_chosen(&self, method: MethodId) -> Chosen
        ensures { result ≡ Answers.chosen self.now (selections.Method method) }
    {
        match code_at(self.program().named(), method) {
            None => Chosen::Method {
                method,
                has_code: false,
                most: 0,
                stack: 0,
            },
            Some(body) => Chosen::Method {
                method,
                has_code: true,
                most: u32::from(body.max_locals),
                stack: u32::from(body.max_stack),
            },
        }
    }

    fn chosen(&self, found: Selected) -> Chosen
        ensures { result ≡ Answers.chosen self.now found }
    {
        match found {
            Selected::Method(m) => self.method_chosen(m),
            Selected::Lib(call) => Chosen::Lib(call),
            Selected::Abstract(_) => Chosen::Abstract,
            Selected::Missing => Chosen::Missing,
        }
    }

    #[tactic(auto, unfolding(jsemantics::specs::jmachine::World::world))]
    fn is_public(&self, method: Member) -> bool
        ensures { result ≡ (world self.now).is_public method }
    {
        matches!(self.program().named().reach_of(method), Reach::Public)
    }

    fn is_hidden(&self, found: Selected) -> bool
        ensures { result ≡ CallTargets.is_hidden (world self.now) found }
    {
        match found {
            Selected::Method(m) => !self.is_public(Member::Method(m)),
            Selected::Abstract(m) => !self.is_public(m),
            Selected::Lib(_) => false,
            Selected::Missing => false,
        }
    }

    fn hides(&self, by: InvokeKind, found: Selected) -> bool
        ensures { result ≡ Answers.hides self.now by found }
    {
        match by {
            InvokeKind::Interface => self.is_hidden(found),
            InvokeKind::Virtual => false,
            InvokeKind::Special => false,
            InvokeKind::Static => false,
            InvokeKind::Init => false,
        }
    }

    fn has(&self, key: CallKey, call: &CallUse) -> bool
        ensures { (types : List TypeRef) → result ≡ Answers.has self.now key.by (call_named self.now types call.now) key.on }
    {
        match key.by {
            InvokeKind::Interface => self.is_one_of(key.on, call.owner),
            InvokeKind::Virtual => false,
            InvokeKind::Special => false,
            InvokeKind::Static => false,
            InvokeKind::Init => false,
        }
    }

    #[tactic(auto, using(crate::proofs::JinvokeProofs::CallAnswers::answer_made))]
    fn answer_by(&self, key: CallKey, call: &CallUse) -> Answer
        ensures { (types : List TypeRef) → result ≡ Answers.answer_by self.now key (call_named self.now types call.now) }
    {
        let found = self.selected(key, call);
        Answer {
            what: self.chosen(found),
            has: self.has(key, call),
            hidden: self.hides(key.by, found),
        }
    }

    /// What a key's entry names.
    #[tactic(auto, using(crate::proofs::JinvokeProofs::CallAnswers::call_there))]
    fn call_at(&self, key: CallKey) -> Option<CallUse>
        ensures { IsCallAt self.now key result }
    {
        call_in(
            self.program()
                .uses()
                .use_at(key.class, form_of(key.by, key.pool)),
        )
    }

    /// The class by which the entry at an index of the pool of a class names the method of such a call.
    #[inline]
    #[tactic(auto, using(crate::proofs::JinvokeProofs::CallAnswers::owner_named))]
    pub fn owner_at(&self, class: u32, by: InvokeKind, pool: u16) -> Option<ClassRef>
        ensures { OwnerIs self.now class by pool result }
    {
        match self.call_at(CallKey {
            class,
            pool,
            by,
            on: None,
        }) {
            None => None,
            Some(call) => Some(call.owner),
        }
    }

    /// What is known of a call that the machine makes itself, on an object of the class of one of the heap's numbers.
    fn face_answer(&self, face: Face, on: Option<u32>) -> Answer
        ensures { result ≡ face_answer self.now (class_of face) (call_of face) on }
    {
        let found = self.select(
            id_of(on),
            Member::LibMethod(face.call()),
            CallKind::Interface,
        );
        Answer {
            what: self.chosen(found),
            has: self.is_one_of(on, ClassRef::Lib(face.class())),
            hidden: self.is_hidden(found),
        }
    }

    /// What is known of a call, by its key.
    #[tactic(auto, using(crate::proofs::JinvokeProofs::CallAnswers::answered, crate::proofs::JinvokeProofs::CallAnswers::unanswered))]
    pub fn answer(&self, key: CallKey) -> Answer
        ensures { result ≡ Answers.answer self.now key }
    {
        match self.call_at(key) {
            Some(call) => self.answer_by(key, &call),
            None => Answer {
                what: Chosen::Missing,
                has: false,
                hidden: false,
            },
        }
    }

    /// What is known of what is asked.
    pub(crate) fn told(&self, asked: Asked) -> Answer
        ensures { result ≡ told self.now asked }
    {
        match asked {
            Asked::Call(key) => self.answer(key),
            Asked::Face { face, on } => self.face_answer(face, on),
        }
    }
}
