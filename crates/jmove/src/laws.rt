ghost use Rattle.jmove.specs.CodePlacement.{CodeLaid, EndAbove, EndBehind, PlaceBehind, PlaceWithin};
ghost use Rattle.jmove.specs.MethodLimits.{Renumbered, SameCanMove, SameLimit, Short};

/// The laws of lines and places: what lines say of the places behind their instructions, and where the instructions of code stand.
pub fn line_laws()
    ensures end_behind { EndBehind }
    ensures place_behind { PlaceBehind }
    ensures end_above { EndAbove }
    ensures place_within { PlaceWithin }
    ensures code_laid { CodeLaid }
{}

/// The laws of limits. Whether a method can be moved, and which limit it breaks, doesn't depend on indices of the pool: neither on those
/// of the references that its instructions' expansions call, nor on those of the classes that its frames name. So limits may be asked for
/// before anything is put into a pool. A method that breaks no limit becomes code of at most 32,767 bytes.
pub fn limit_laws()
    ensures same_limit { SameLimit }
    ensures same_can_move { SameCanMove }
    ensures renumbered { Renumbered }
    ensures short { Short }
{}
