ghost use Rattle.std.specs.Prelude.{◌≡◌, ◌<◌, ◌≤◌, ◌+◌, ◌^◌, ◌∷◌, ◌++◌, [], ℕ, IfOk, OnOk, OnErr, None, Some, MatchBool, drop, length, map, reverse, slice_get, slice_set, take};
ghost use Rattle.jsemantics.specs.jmachine.MachineStates.{FrameOf};
ghost use Rattle.jsemantics.specs.jmachine.FrameOperations.{carrying, standing, with_operands};
ghost use Rattle.jsemantics.specs.jmachine.BasicInstructions.{local_at};
ghost use Rattle.jruntime.specs.jstate.FrameLists.{all, framed, holding, keeping, pushed, starting, with_newest};

use crate::jstate::places::Places;
use jresolution::jprogram::MethodId;
use jstacks::Pile;
use jvalues::jops::Value;
use std::alloc::{AllocError, Global};
use std::marker::Model;

/// Where a frame stands.
#[derive(Clone, Copy)]
struct At {
    method: MethodId,
    place: u32,
}

/// The frames of a thread that has one. Contracts see the newest, and those below it, the newest of them first, as the machine's
/// definition has them. What the frames carry lies side by side, so that it can be lent.
#[derive(Drop)]
pub struct Frames<M> {
    at: At,
    mark: M,
    below: Vec<At>,
    marks: Vec<M>,
    locals: Pile<Option<Value>>,
    operands: Pile<Value>,
}

impl<M> Model for Frames<M> {
    ghost use Rattle.jruntime.specs.jstate.FrameLists.{Framed, Lies, shown};

    ghost Value = { Framed M };

    ghost view = { λ f. shown f.at f.mark f.below.items f.marks.items f.locals f.operands };

    ghost invariant = { λ f. Lies f.mark f.below.items f.marks.items f.locals f.operands };
}

// ---- how frames begin and go

/// Puts one more place below, and what one more frame carries behind what the others do. After an error nothing has changed.
fn stand<M: Copy>(
    below: &mut Vec<At>,
    marks: &mut Vec<M>,
    at: At,
    mark: M,
) -> Result<(), AllocError>
    ensures below { OnOk result (below.new.items ≡ below.old.items ++ at ∷ []) }
    ensures marks { OnOk result (marks.new.items ≡ marks.old.items ++ mark ∷ []) }
    ensures err { OnErr result ((below.new.items ≡ below.old.items) × (marks.new.items ≡ marks.old.items)) }
{
    marks.push(mark)?;
    if below.push(at).is_err() {
        marks.pop();
        return Err(AllocError);
    }
    Ok(())
}

impl<M: Copy> Frames<M> {
    /// The one frame of a thread that begins: of a method with so many locals, with arguments, the newest last. There is room for so many
    /// operands.
    pub fn open(
        alloc: Global,
        method: MethodId,
        most: u32,
        stack: u32,
        arguments: &[Value],
        mark: M,
    ) -> Result<Frames<M>, AllocError>
        ensures { IfOk result (λ f. f ≡ record { newest = starting method most (reverse arguments.now) mark; below = [] }) }
    {
        let mut locals = Pile::new(alloc);
        locals.open_from::<Value, Places>(arguments, most, None)?;
        let mut operands = Pile::new(alloc);
        operands.open()?;
        operands.reserve(stack as usize)?;
        let mut marks = Vec::new(alloc);
        marks.push(mark)?;
        Ok(Frames {
            at: At { method, place: 0 },
            mark,
            below: Vec::new(alloc),
            marks,
            locals,
            operands,
        })
    }

    /// Puts a frame of a method with so many locals on the others. Its arguments are the newest operands of the frame that calls,
    /// which loses them. They are there. Room for so many operands of its own is taken with it. After an error nothing is said of the frames.
    pub fn begin(
        &mut self,
        method: MethodId,
        most: u32,
        stack: u32,
        arguments: usize,
        mark: M,
    ) -> Result<(), AllocError>
        requires { arguments ≤ length self.old.newest.operands }
        ensures { OnOk result (self.new
            ≡ pushed (starting method most (take arguments self.old.newest.operands) mark)
            (holding (drop arguments self.old.newest.operands) self.old)) }
    {
        let given = self.operands.top(arguments);
        self.locals.open_from::<Value, Places>(given, most, None)?;
        self.operands.shrink(arguments);
        if self.operands.open().is_err() {
            self.locals.close();
            return Err(AllocError);
        }
        if stand(&mut self.below, &mut self.marks, self.at, mark).is_err() {
            self.operands.close();
            self.locals.close();
            return Err(AllocError);
        }
        self.at = At { method, place: 0 };
        self.mark = mark;
        self.operands.reserve(stack as usize)?;
        Ok(())
    }

    /// Takes the newest frame away, where there is one below it. Where there is none nothing changes, and the answer is no.
    pub fn leave(&mut self) -> bool
        ensures { MatchBool result (framed self.old.below ≡ Some self.new) ((self.old.below ≡ []) × (self.new ≡ self.old)) }
    {
        match self.below.pop() {
            None => false,
            Some(at) => {
                self.marks.pop();
                self.at = at;
                self.mark = self.marks[self.below.len()];
                self.locals.close();
                self.operands.close();
                true
            }
        }
    }
}

// ---- where a frame stands

impl<M: Copy> Frames<M> {
    /// How many frames there are.
    #[inline]
    pub fn depth(&self) -> usize
        ensures { result ≡ length (all self.now) }
    {
        self.below.len() + 1
    }

    /// The method of the newest frame.
    #[inline]
    pub fn method(&self) -> MethodId
        ensures { result ≡ self.now.newest.method }
    {
        self.at.method
    }

    /// The number of the instruction where the newest frame stands.
    #[inline]
    pub fn place(&self) -> u32
        ensures { result ≡ self.now.newest.place }
    {
        self.at.place
    }

    /// What the newest frame carries.
    #[inline]
    pub fn mark(&self) -> M
        ensures { result ≡ self.now.newest.entry }
    {
        self.mark
    }

    /// What all frames carry, the oldest first, lent.
    #[inline]
    pub fn marks(&self) -> &[M]
        ensures { reverse result.now ≡ map (λ (f : FrameOf ℕ M). f.entry) (all self.now) }
    {
        self.marks.as_slice()
    }

    /// The newest frame goes on at a number.
    #[inline]
    pub fn go_to(&mut self, place: u32)
        ensures { self.new ≡ with_newest (standing self.old.newest place self.old.newest.operands) self.old }
    {
        self.at.place = place;
    }

    /// The newest frame goes on behind its instruction.
    #[inline]
    pub fn go_on(&mut self)
        requires { self.old.newest.place + 1 < 2 ^ 32 }
        ensures { self.new ≡ with_newest (standing self.old.newest (self.old.newest.place + 1) self.old.newest.operands) self.old }
    {
        self.at.place += 1;
    }

    /// The newest frame carries something else from now on.
    #[inline]
    pub fn carry(&mut self, mark: M)
        ensures { self.new ≡ with_newest (carrying mark self.old.newest) self.old }
    {
        let n = self.below.len();
        self.marks[n] = mark;
        self.mark = mark;
    }
}

// ---- operands

impl<M: Copy> Frames<M> {
    /// How many operands the newest frame has.
    #[inline]
    pub fn count(&self) -> usize
        ensures { result ≡ length self.now.newest.operands }
    {
        self.operands.len()
    }

    /// An operand of the newest frame, counted from its newest. It is there.
    #[inline]
    pub fn operand(&self, i: usize) -> Value
        requires { i < length self.now.newest.operands }
        ensures { Some result ≡ slice_get self.now.newest.operands i }
    {
        self.operands.get(i)
    }

    /// Puts an operand on those of the newest frame. After an error nothing has changed.
    #[inline]
    pub fn push(&mut self, value: Value) -> Result<(), AllocError>
        ensures ok { OnOk result (self.new ≡ holding (value ∷ self.old.newest.operands) self.old) }
        ensures err { OnErr result (self.new ≡ self.old) }
    {
        self.operands.push(value)?;
        Ok(())
    }

    /// Takes so many of the newest frame's operands away. They are there.
    #[inline]
    pub fn shrink(&mut self, n: usize)
        requires { n ≤ length self.old.newest.operands }
        ensures { self.new ≡ holding (drop n self.old.newest.operands) self.old }
    {
        self.operands.shrink(n);
    }

    /// Puts an operand in the place of so many of the newest frame's. They are there, and it is at least one.
    #[inline]
    #[tactic(auto, using(crate::proofs::JstateProofs::FrameLists::replaced))]
    pub fn replace(&mut self, n: usize, value: Value)
        requires some { 0 < n }
        requires few { n ≤ length self.old.newest.operands }
        ensures { self.new ≡ holding (value ∷ drop n self.old.newest.operands) self.old }
    {
        self.operands.shrink(n - 1);
        self.operands.set(0, value);
    }
}

// ---- locals

impl<M: Copy> Frames<M> {
    /// How many locals the newest frame has.
    #[inline]
    pub fn locals(&self) -> usize
        ensures { result ≡ length self.now.newest.locals }
    {
        self.locals.len()
    }

    /// What a local of the newest frame holds, where it is there and holds something.
    #[inline]
    pub fn local(&self, n: usize) -> Option<Value>
        ensures { result ≡ local_at self.now.newest.locals n }
    {
        if n >= self.locals.len() {
            return None;
        }
        self.locals.at(n)
    }

    /// Puts what a local of the newest frame holds. It is there.
    #[inline]
    pub fn set_local(&mut self, n: usize, held: Option<Value>)
        requires { n < length self.old.newest.locals }
        ensures { self.new ≡ keeping (slice_set self.old.newest.locals n held) self.old }
    {
        self.locals.set_at(n, held);
    }
}
