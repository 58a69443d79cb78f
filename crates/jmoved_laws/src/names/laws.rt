ghost use Rattle.jmoved_laws.specs.names.ResolvedCalls.{CallsAreResolved, CallsStay};
ghost use Rattle.jmoved_laws.specs.names.ShadowedMethods.{ClearBelow, ClearWhereHad};
ghost use Rattle.jmoved_laws.specs.names.MovedLookUps.{FoundAsItself};
ghost use Rattle.jmoved_laws.specs.names.OpeningLaws.{ChargeStays, DomainsStay, MainHasCode, MainsStay, MakesStay, OwnFieldsStay, StoreStays, StringsStay};
ghost use Rattle.jmoved_laws.specs.names.WorldLaws.{ClassesStay};

/// The law of what stands in the way: along the chain of a class that has a user's method by the class or the interface by which it is named, no
/// method of the library that is handed no context has its name and its descriptor (JVMS 5.4.5, 5.4.6).
pub fn clear_law()
    ensures below { ClearBelow }
    ensures had { ClearWhereHad }
{}

/// The law of finding: by a moved descriptor a class of the moved program declares the very method that its class declared by the old one, both
/// `run` and Thread's constructor in their passing forms, and nothing else (JVMS 5.4.3.3).
pub fn found_law()
    ensures { FoundAsItself }
{}

/// The law of classes and fields: those of the moved program are those of the program, at all names, where the program links, is well typed and
/// breaks no limit.
pub fn world_law()
    ensures { ClassesStay }
{}

/// The law of resolved calls, in a program that links: a call that an instruction names is resolved from the class by which it is named, which is
/// an interface where an interface's method is called, and no other one; its member is static where it is called so, a constructor where it
/// begins an object, and takes and gives what its descriptor says (JVMS 5.4.3, 6.5).
pub fn resolved_law()
    ensures { CallsAreResolved }
{}

/// The law of calls: where its operands were taken, a call comes to the same in the moved program, with its method's context where it hands one
/// on, and without where it doesn't.
pub fn call_law()
    ensures { CallsStay }
{}

/// The laws of methods: the domain of each is what it was, and so are the fields that it may write before it calls another `<init>`; `new` makes
/// objects of the same class; and the `main` of each class is the same method, which has code.
pub fn begin_law()
    ensures domains { DomainsStay }
    ensures own { OwnFieldsStay }
    ensures makes { MakesStay }
    ensures main { MainsStay }
    ensures coded { MainHasCode }
{}

/// The laws of openings: a run of the moved program begins with the same store, and costs as many cells before it does.
pub fn opening_law()
    ensures texts { StringsStay }
    ensures charge { ChargeStays }
    ensures store { StoreStays }
{}
