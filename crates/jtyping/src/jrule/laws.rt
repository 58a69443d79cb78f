ghost use Rattle.jresolution.specs.jprogram.ProgramClasses.{Program};
ghost use Rattle.jtyping.specs.jrule.FormRules.{IsByForm};
ghost use Rattle.jtyping.specs.jrule.FrameExtension.{LooksNoFurther};
ghost use Rattle.jtyping.specs.jrule.NewSites.{AsksPlaces};
ghost use Rattle.jtyping.specs.jrule.PreciseFrames.{IsPreciseItself, KeepsPrecise, PreciseFits};

/// The law of the rule: an instruction's is that of its form, wherever the instruction leads, and whatever its numbers are.
pub fn form_law()
    ensures { (p : Program) → IsByForm p }
{}

/// The law of the rule and of `new` instructions: of a method's the rule asks what the one at a place makes, and nothing else.
pub fn news_law<S>()
    ensures { (p : Program) → AsksPlaces S p }
{}

/// The law of the rule and of further locals: behind those that an instruction names the rule doesn't look. Where it gives a frame, it
/// gives the same one with further locals, none of which is an object before its `<init>`, and with as much room on the stack or more.
pub fn local_law<S>()
    ensures { (p : Program) → LooksNoFurther S p }
{}

/// The laws of the rule and of frames of more precise types, in programs whose classes stand in order. A frame is as precise as itself;
/// what is more precise than a frame fits what that frame fits; and where the rule gives a frame behind one, it gives one that is more
/// precise behind a frame that is more precise.
pub fn precise_law<S>()
    ensures itself { (p : Program) → IsPreciseItself p }
    ensures fitting { (p : Program) → PreciseFits p }
    ensures kept { (p : Program) → KeepsPrecise S p }
{}
