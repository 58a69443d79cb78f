ghost use Rattle.jvalues.specs.jops.ValueKinds.{DivisionByKinds, DivisionGives, OneByKinds, OneGives, TestByKinds, TwoByKinds, TwoGives};
ghost use Rattle.jvalues.specs.jops.Shuffles.{LooksAtFour, LooksNoDeeper};

/// The laws of moves of the stack, over items of any type: an instruction looks at the newest four items alone, and where one of
/// its forms fits them, it does the same with anything in the places of items that aren't there. So `shuffle` of the newest four
/// items says what becomes of the stack. It has no body to run; its contract is the laws.
pub fn shuffle_laws<V>()
    ensures four { LooksAtFour V }
    ensures below { LooksNoDeeper V }
{}

/// The laws of operations, whatever stands for a security context: `two`, `one` and `divide` have a value exactly where their
/// operands are of the kinds that the instruction takes, and the value is of the kind that it gives; `test` has one exactly for two
/// ints, and for two references where these may be compared. It has no body to run; its contract is the laws.
pub fn kind_laws<K>()
    ensures two { TwoByKinds K }
    ensures two_gives { TwoGives K }
    ensures one { OneByKinds K }
    ensures one_gives { OneGives K }
    ensures division { DivisionByKinds K }
    ensures division_gives { DivisionGives K }
    ensures test { TestByKinds K }
{}
