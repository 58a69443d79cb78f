ghost use Rattle.std.specs.Prelude.{◌≡◌, ◌↔◌, ℕ, ℤ, ◌+ℤ◌, List, Some, pos, slice_get, true};
ghost use Rattle.jparts.specs.declared.jcode.op.Handler.{Handler};
ghost use Rattle.jparts.specs.declared.jcode.op.Placed.{Placed};
ghost use Rattle.jparts.specs.jcode.InstructionForms.{branches, form, goes_on};
ghost use Rattle.jclass.specs.FileContents.{IsIn};
ghost use Rattle.jtypes.specs.TypeFrames.{Frame};
ghost use Rattle.jresolution.specs.jprogram.ProgramClasses.{Program, tree};
ghost use Rattle.jresolution.specs.juses.IndexedInstructions as instructions;
ghost use Rattle.jresolution.specs.juses.IndexedInstructions.{Instruction, instruction, targets};
ghost use Rattle.jtyping.specs.jrule.TypingRule.{rule};
ghost use Rattle.jtyping.specs.jwelltyped.DeclaredFrames.{Written, declared_at, first_frame};
ghost use Rattle.jtyping.specs.jwelltyped.MethodPremises.{Method, here_of};
ghost use Rattle.jparts.specs.jcode.Instructions.{covers};
ghost use Rattle.jtyping.specs.jwelltyped.WellTypedness.{AreFrames, Caught, Continues, FitsAt, HasFrame, ProgramIsTyped, Serves};
ghost use Rattle.jtyping.specs.jwelltyped.VerifierTests.{WellTyped, frame_fits};

/// The law of typing: no test fails in a program exactly where each instruction of its methods can be given a frame so that these fit one
/// another.
pub fn typing_law()
    ensures { (p : Program) → WellTyped p ↔ ProgramIsTyped p }
{}

/// The laws of the frames of a method: they are no others, each instruction has one and serves with it, and it is the declared one where
/// one is declared.
pub fn frames_law()
    ensures one { (p : Program) (m : Method) (ws : List Written) (fs gs : List Frame) → AreFrames p m ws fs → AreFrames p m ws gs → fs ≡ gs }
    ensures each { (p : Program) (m : Method) (ws : List Written) (fs : List Frame) → AreFrames p m ws fs →
        (n : ℕ) (o : Placed) → slice_get m.body.ops n ≡ Some o → HasFrame p m ws fs n o }
    ensures declared { (p : Program) (m : Method) (ws : List Written) (fs : List Frame) → AreFrames p m ws fs →
        (n : ℕ) (o : Placed) (f g : Frame) → slice_get m.body.ops n ≡ Some o → slice_get fs n ≡ Some f → declared_at ws (pos o.at) ≡ Some g → f ≡ g }
{}

/// The laws of where frames lead. The one with which a method begins fits that of its first instruction. Behind an instruction that goes on
/// and serves with its frame stands another, where the frame behind it arrives. That frame fits the one of each instruction to which it may
/// branch, and what a handler catches that covers it goes on there.
pub fn leading_law()
    ensures first { (p : Program) (m : Method) (ws : List Written) (fs : List Frame) → AreFrames p m ws fs →
        (o : Placed) → slice_get m.body.ops 0 ≡ Some o → FitsAt p fs 0 (first_frame m) }
    ensures onward { (p : Program) (m : Method) (ws : List Written) (fs : List Frame) (n : ℕ) (o : Placed) (f : Frame) →
        (x : Serves p m ws fs n o f) → goes_on (form o.op) ≡ true → Continues p m ws fs n x.behind }
    ensures branch { (p : Program) (m : Method) (ws : List Written) (fs : List Frame) → AreFrames p m ws fs →
        (n k : ℕ) (o to : Placed) (f g : Frame) (by : ℤ) → (x : Serves p m ws fs n o f) → IsIn by (branches (form o.op)) →
        slice_get m.body.ops k ≡ Some to → slice_get fs k ≡ Some g → pos to.at ≡ pos o.at +ℤ by → frame_fits (tree p) x.behind g ≡ true }
    ensures handler { (p : Program) (m : Method) (ws : List Written) (fs : List Frame) → AreFrames p m ws fs →
        (n k : ℕ) (o to : Placed) (f g : Frame) (h : Handler) → Serves p m ws fs n o f → IsIn h m.body.handlers → covers o.at h ≡ true →
        slice_get m.body.ops k ≡ Some to → slice_get fs k ≡ Some g → to.at ≡ h.at → Caught p m f h g }
{}

/// The laws of instructions by number, as a machine goes through them. The rule gives the frame behind an instruction that serves with its
/// own, behind one that goes on stands another, and the frame fits wherever it leads.
pub fn number_law()
    ensures gives { (p : Program) (m : Method) (ws : List Written) (fs : List Frame) (n : ℕ) (o : Placed) (f : Frame) (i : Instruction) →
        (x : Serves p m ws fs n o f) → instruction p m.pool m.body.ops o ≡ Some i → rule p (here_of p m o.at) i f ≡ Some x.behind }
    ensures onward { (p : Program) (m : Method) (ws : List Written) (fs : List Frame) (n : ℕ) (o : Placed) (f : Frame) (i : Instruction) →
        (x : Serves p m ws fs n o f) → instruction p m.pool m.body.ops o ≡ Some i → instructions.goes_on i ≡ true → Continues p m ws fs n x.behind }
    ensures target { (p : Program) (m : Method) (ws : List Written) (fs : List Frame) → AreFrames p m ws fs →
        (n k : ℕ) (o : Placed) (f : Frame) (i : Instruction) → (x : Serves p m ws fs n o f) → instruction p m.pool m.body.ops o ≡ Some i →
        IsIn k (targets i) → FitsAt p fs k x.behind }
{}
