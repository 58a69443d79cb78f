ghost use Rattle.jrewriting.specs.jrewrite.LinkageLaws.{NamesStay, SupersStay};
ghost use Rattle.jrewriting.specs.jrewrite.MemberLaws.{MembersStay};
ghost use Rattle.jrewriting.specs.jrewrite.RewrittenParts.{PartsAreFiles};
ghost use Rattle.jrewriting.specs.jrewrite.ReferenceLaws.{CodeStays, LinksStay};

/// The laws of linking that moved programs keep: the first two of its phases find nothing.
pub fn standing_laws()
    ensures names { NamesStay }
    ensures supers { SupersStay }
{}

/// The law of parts. Each part of the moved program is a class file, where the program links, is well typed and breaks no limit; so it has a
/// spelling, and `ClassFile` may take it.
pub fn part_laws()
    ensures { PartsAreFiles }
{}

/// The law of members. In the moved program the third phase of linking finds nothing: no member stands twice, descriptors name classes that
/// are there, and no method is one that the library fixes, or overrides a final one (JVMS 4.5, 4.6, 5.4.5).
pub fn member_law()
    ensures { MembersStay }
{}

/// The law of references. In the moved program the fourth phase of linking finds nothing: instructions, handlers and frames name classes and
/// members that are there, may be used, and are used as they may be (JVMS 5.4.3, 5.4.4, 6.5).
pub fn code_law()
    ensures { CodeStays }
{}

/// The law of linking. The moved program links.
pub fn link_law()
    ensures { LinksStay }
{}
