ghost use Rattle.std.specs.Prelude.{◌≡◌, Bool, true, false, codes};
ghost use Rattle.jtypes.specs.declared.vtype.ArrayType.{ArrayType};
ghost use Rattle.jtypes.specs.declared.vtype.Name.{Name};
ghost use Rattle.jtypes.specs.declared.vtype.VType.{VType};
ghost use Rattle.jtypes.specs.declared.vtype.VType.TheVariants.{Array, Null, Object, Top};
ghost use Rattle.jtypes.specs.Assignability.{fits, fits_where};
ghost use Rattle.jtypes.specs.TypeFrames.{FitsTops, Frame, IsReflexive, IsTransitive, KeepsFlag, TopIsNoLong, frame_fits};

use crate::ancestry::Ancestry;

/// The laws of what fits what, whatever every array fits. Each type fits itself, and Top. Null fits every object and every array,
/// and each of these fits an object of `java/lang/Object`. What fits a class fits what this class fits; of an interface and of
/// arrays this isn't so.
pub fn fits_laws<N: Ancestry>()
    ensures itself { (n : N) (above : Name → Bool) (a : VType) → fits_where above (N.tree n) a a ≡ true }
    ensures top { (n : N) (above : Name → Bool) (a : VType) → fits_where above (N.tree n) a Top ≡ true }
    ensures null_object { (n : N) (above : Name → Bool) (c : Name) → fits_where above (N.tree n) Null (Object c) ≡ true }
    ensures null_array { (n : N) (above : Name → Bool) (b : ArrayType) → fits_where above (N.tree n) Null (Array b) ≡ true }
    ensures object { (n : N) (above : Name → Bool) (c d : Name) → N.valid n → d.0 ≡ codes "java/lang/Object"
        → fits_where above (N.tree n) (Object c) (Object d) ≡ true }
    ensures array { (n : N) (a : ArrayType) (d : Name) → d.0 ≡ codes "java/lang/Object" → fits (N.tree n) (Array a) (Object d) ≡ true }
    ensures above { (n : N) (above : Name → Bool) (a : ArrayType) (d : Name) → above d ≡ true
        → fits_where above (N.tree n) (Array a) (Object d) ≡ true }
    ensures chain { (n : N) (above : Name → Bool) (c d e : Name) → N.valid n → (N.tree n).is_interface d ≡ false
        → fits_where above (N.tree n) (Object c) (Object d) ≡ true → fits_where above (N.tree n) (Object d) (Object e) ≡ true
        → fits_where above (N.tree n) (Object c) (Object e) ≡ true }
{}

/// The laws of what fits what of frames, by what fits what of types. A frame fits itself, and frames fit along a chain, where types
/// do. Any locals fit as many of Top, while a long on the stack doesn't fit Top. A frame in which `this` isn't initialised fits
/// only such frames.
pub fn frame_laws()
    ensures itself { (f : VType → VType → Bool) → IsReflexive f → IsReflexive (frame_fits f) }
    ensures chain { (f : VType → VType → Bool) → IsTransitive f → IsTransitive (frame_fits f) }
    ensures tops { (f : VType → VType → Bool) → FitsTops f }
    ensures long { (f : VType → VType → Bool) → TopIsNoLong f }
    ensures flag { (f : VType → VType → Bool) → KeepsFlag f }
{}
