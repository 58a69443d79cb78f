ghost use Rattle.std.specs.Prelude.{◌≡◌, ℕ, List, Option, Some, IfOk, OnOk, reverse};
ghost use Rattle.jlib.specs.declared.side.Side.{Side as SideOf};
ghost use Rattle.jsemantics.specs.jmachine.AccessQueries.{Ask as AskOf};
ghost use Rattle.jsemantics.specs.jmachine.Security.{Rules};
ghost use Rattle.jguard.specs.GuardQueries.{given_by, said};
ghost use Rattle.jguard.specs.NumberMeanings.{AnswersFor, AreKnown, IsAskKnown, IsKnown, IsThat, Keeps};

use crate::ask::{Answer, Ask};
use jlib::Side;
use std::alloc::{AllocError, Global};

/// A side of the library, as a type.
pub trait Sided {
    const SIDE: Side;

    ghost SIDE: { SideOf };
}

/// The side of the programs as they were written.
#[derive(Clone, Copy)]
pub struct OnSource;

/// The side of the programs that hand contexts on.
#[derive(Clone, Copy)]
pub struct OnPassing;

impl Sided for OnSource {
    ghost use Rattle.jlib.specs.declared.side.Side.TheVariants.{Source};

    const SIDE: Side = Side::Source;

    ghost SIDE = { Source };
}

impl Sided for OnPassing {
    ghost use Rattle.jlib.specs.declared.side.Side.TheVariants.{Passing};

    const SIDE: Side = Side::Passing;

    ghost SIDE = { Passing };
}

/// Who answers what a machine asks of access control. What is kept goes by numbers, and so does what frames carry; contracts see what
/// they stand for, and the rules by which is answered. A number that was given keeps what it stands for.
pub trait Guard {
    /// The side of the programs that it is asked by.
    type On: Sided;

    /// What a frame carries.
    type Mark: Copy;

    /// What a number stands for.
    ghost Kept: { Type 0 };

    /// What a mark stands for.
    ghost Entry: { Type 0 };

    /// What each number stands for that was given.
    ghost kept: { Self → ℕ → Option Kept };

    /// What each mark stands for that was given.
    ghost entry: { Self → Self.Mark → Option Entry };

    /// The rules by which it answers.
    ghost rules: { Self → Rules Kept Entry };

    /// The mark of a method of a domain.
    ghost mark: { ℕ → Self.Mark };

    /// What an ask makes of the guard: how it may be behind the ask, by how it was before. A guard may count asks, or write them down.
    ghost asked: { Self → AskOf ℕ → Self → Type 0 };

    /// The mark of a frame of a method of a domain.
    fn mark_of(&self, domain: u32) -> Self::Mark
        ensures mark { result ≡ mark domain }
        ensures stands { (d : ℕ) → entry self.now (mark d) ≡ Some ((rules self.now).entry_of d) }
        ensures side { (rules self.now).side ≡ Self.On.SIDE };

    /// The context that `main` is given, none on the source side. After an error earlier numbers keep what they stand for.
    fn first(&mut self, alloc: Global) -> Result<Option<u64>, AllocError>
        ensures stands { IfOk result (λ n. IsThat (kept self.new) n (rules self.old).first) }
        ensures rules { rules self.new ≡ rules self.old }
        ensures keeps { Keeps (kept self.old) (kept self.new) }
        ensures marks { Keeps (entry self.old) (entry self.new) };

    /// Answers an ask of a thread, by the marks of its frames, the oldest frame's first, and by what it inherited. The numbers and
    /// the marks are ones that this guard gave. The answer stands for what the rules answer, by what these stand for. After an error
    /// earlier numbers keep what they stand for.
    fn secure(
        &mut self,
        alloc: Global,
        ask: Ask,
        marks: &[Self::Mark],
        inherited: Option<u64>,
    ) -> Result<Answer<Self::Mark>, AllocError>
        requires ask { IsAskKnown (kept self.old) (said ask) }
        requires marks { AreKnown (entry self.old) (reverse marks.now) }
        requires inherited { IsKnown (kept self.old) inherited }
        ensures answer { IfOk result
            (λ a. AnswersFor (kept self.old) (kept self.new) (entry self.old) (entry self.new) (rules self.old) (said ask.entry)
            (reverse marks.now) inherited (given_by a)) }
        ensures once { OnOk result (asked self.old (said ask.entry) self.new) }
        ensures rules { rules self.new ≡ rules self.old }
        ensures keeps { Keeps (kept self.old) (kept self.new) }
        ensures marks { Keeps (entry self.old) (entry self.new) };
}
