ghost use Rattle.jserving.specs.jcells.ObjectEquivalence.{
  KeptLast,
  MadeStaysAlike,
  MoreStayAlike,
  PermissionsLast,
  RowsLeaveOne,
  RowsStayAlike,
  WrittenStaysAlike,
};

/// The laws of what a machine keeps besides its heap: what makes the same of the objects makes the same of them behind a row, behind what is
/// made, and behind a cell that is written; and so no object names a permission or a kept number that isn't there, if none did. It has no
/// body to run; its contract is the laws.
#[tactic(auto, using(crate::proofs::JcellsProofs::ShapePreservation::lastings))]
pub fn alike_laws<M>()
    ensures left { RowsLeaveOne M }
    ensures rows { RowsStayAlike M }
    ensures more { MoreStayAlike }
    ensures made { MadeStaysAlike }
    ensures written { WrittenStaysAlike }
    ensures permissions { PermissionsLast }
    ensures kept { KeptLast }
{}
