ghost use Rattle.jmemory.specs.jregion.RegionLaws.{AddsZeros, AddsUp, AreLong, BeginsEmpty, KeepsSize, ReadsTheWrite, WritesOne};

/// The laws of a region as the list of its blocks: none when it is opened; placing adds a block of zeros at the end; a write changes
/// one cell of one block, which is read again; the lengths of the blocks and the room add up to what was opened. It has no body to
/// run; its contract is the laws.
pub fn region_laws()
    ensures begins { BeginsEmpty }
    ensures adds { AddsZeros }
    ensures long { AreLong }
    ensures writes { WritesOne }
    ensures reads { ReadsTheWrite }
    ensures adds_up { AddsUp }
    ensures size { KeepsSize }
{}
