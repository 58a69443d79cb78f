ghost use Rattle.jsimulation_laws.specs.relation.InstructionExpansion.{FewExpanded};
ghost use Rattle.jsimulation_laws.specs.relation.StepCounts.{StepsExpanded, StepsFew};

/// Laws of what instructions become: each becomes one, two or three; where it invokes no method it is answered by as many steps; and each step
/// is answered by 1 to 7. It has no body to run; its contract is the laws.
pub fn expanding_law()
    ensures few { FewExpanded }
    ensures expanded { StepsExpanded }
    ensures steps { StepsFew }
{}
