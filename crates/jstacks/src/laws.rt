ghost use Rattle.jstacks.specs.ListStackLaws.{ClosesTheOpened, CountsBothWays, LeavesOthers, ReadsTheWrite};

/// The laws of lists one on the other: a read gives the last write to its place, and a write changes no other item; items are
/// counted from the newest and from the oldest; the lists below stay. It has no body to run; its contract is the laws.
pub fn pile_laws<T: Copy>()
    ensures reads { ReadsTheWrite T }
    ensures others { LeavesOthers T }
    ensures counts { CountsBothWays T }
    ensures closes { ClosesTheOpened T }
{}
