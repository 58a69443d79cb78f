use crate::kept::{grant, keep, walk};
use crate::permissions::readings;
use crate::words::put;
use jdomain::{Domains, Verdict};
use jground::jtext::Units;
use jsnapshots::{InspectMark, Kept};
use std::alloc::{AllocError, Global};
use tests_rows::{Answer, Unread};

/// The mark of a frame.
fn mark(domain: u32, privileged: Option<u64>) -> InspectMark {
    InspectMark { domain, privileged }
}

/// The number of a privilege whose limits are to read these properties.
fn limited(
    alloc: Global,
    kept: &mut Kept,
    given: Option<u64>,
    names: &[&str],
) -> Result<u64, Unread> {
    let root = Units::from_text(alloc, "/")?;
    let limits = readings(alloc, &root, names)?;
    grant(alloc, kept, given, Some(limits.as_slice()))
}

/// The number of a stack of two frames that aren't privileged.
fn pair(alloc: Global, kept: &mut Kept, older: u32, newer: u32) -> Result<u64, Unread> {
    keep(alloc, kept, &[mark(older, None), mark(newer, None)], None)
}

/// The number of the privilege that a stack writes as a letter.
fn privilege(alloc: Global, kept: &mut Kept, letter: u8) -> Result<u64, Unread> {
    match letter {
        b'a' => grant(alloc, kept, None, None),
        b'b' => limited(alloc, kept, None, &["y"]),
        b'c' => limited(alloc, kept, None, &[]),
        b'd' => limited(alloc, kept, None, &["y", "x"]),
        b'e' => {
            let low = pair(alloc, kept, 1, 3)?;
            grant(alloc, kept, Some(low), None)
        }
        b'f' => {
            let high = pair(alloc, kept, 1, 0)?;
            grant(alloc, kept, Some(high), None)
        }
        b'g' => {
            let low = pair(alloc, kept, 1, 3)?;
            limited(alloc, kept, Some(low), &["x"])
        }
        _ => within(alloc, kept),
    }
}

/// The number of a privilege that was given a stack in which a frame was given one that denies by domain 3.
fn within(alloc: Global, kept: &mut Kept) -> Result<u64, Unread> {
    let low = pair(alloc, kept, 1, 3)?;
    let denied = grant(alloc, kept, Some(low), None)?;
    let nested = keep(alloc, kept, &[mark(0, Some(denied))], None)?;
    grant(alloc, kept, Some(nested), None)
}

/// The privileges that stacks write as letters, from `a` on.
fn privileges(alloc: Global, kept: &mut Kept) -> Result<[u64; 8], Unread> {
    let letters = b"abcdefgh";
    let mut made = [0; 8];
    for i in 0..8usize {
        made[i] = privilege(alloc, kept, letters[i])?;
    }
    Ok(made)
}

/// The mark of a frame that a stack writes as its domain and its privilege, `-` for none.
fn mark_of(privileges: &[u64], domain: u8, letter: u8) -> InspectMark {
    let place = usize::from(letter.wrapping_sub(b'a'));
    let domain = u32::from(domain.wrapping_sub(b'0'));
    mark(domain, privileges.get(place).copied())
}

/// The marks of a stack that is written as two bytes a frame, the oldest first: its domain, and its privilege or `-`.
fn marks_of(
    alloc: Global,
    privileges: &[u64],
    stack: &str,
) -> Result<Vec<InspectMark>, AllocError> {
    let mut marks = Vec::new(alloc);
    let bytes = stack.as_bytes();
    for i in 0..bytes.len() / 2 {
        marks.push(mark_of(privileges, bytes[2 * i], bytes[2 * i + 1]))?;
    }
    Ok(marks)
}

/// Tells a verdict: `+` for what is granted, and else the domain that denies.
fn tell_verdict(verdict: Result<Verdict, Unread>, answer: &mut Answer) {
    match verdict {
        Ok(Verdict::Granted) => answer.tell("+"),
        Ok(Verdict::Denied(domain)) => answer.debug(&domain),
        Err(why) => answer.fail(why),
    }
}

/// What the walk of a stack decides, whose privileges are kept for it.
fn walk_of(
    alloc: Global,
    kept: &mut Kept,
    domains: &Domains,
    stack: &str,
) -> Result<Verdict, Unread> {
    let privileges = privileges(alloc, kept)?;
    let marks = marks_of(alloc, &privileges, stack)?;
    walk(alloc, kept, domains, marks.as_slice(), None)
}

/// What a walk of a stack decides that isn't kept.
pub fn walked(domains: &Domains, stack: &str, answer: &mut Answer) {
    let alloc = answer.alloc();
    let Ok(mut kept) = Kept::open(alloc) else {
        return answer.lack();
    };
    tell_verdict(walk_of(alloc, &mut kept, domains, stack), answer);
}

/// Keeps a stack on an inherited one: its number.
fn keep_stack(
    alloc: Global,
    kept: &mut Kept,
    privileges: &[u64],
    inherited: Option<u64>,
    stack: &str,
) -> Result<u64, Unread> {
    let marks = marks_of(alloc, privileges, stack)?;
    keep(alloc, kept, marks.as_slice(), inherited)
}

/// Keeps the stacks of a group, which stand between `,`, on an inherited one, and puts their numbers.
fn keep_group(
    alloc: Global,
    kept: &mut Kept,
    inherited: Option<u64>,
    group: &str,
    numbers: &mut Vec<u64>,
) -> Result<(), Unread> {
    let privileges = privileges(alloc, kept)?;
    for stack in group.split(',') {
        let one = keep_stack(alloc, kept, &privileges, inherited, stack)?;
        put(one, numbers)?;
    }
    Ok(())
}

/// The number of the stack that others inherit, `-` for none.
fn inherited(alloc: Global, kept: &mut Kept, stack: &str) -> Result<Option<u64>, Unread> {
    if stack == "-" {
        return Ok(None);
    }
    Ok(Some(keep_stack(alloc, kept, &[], None, stack)?))
}

/// Keeps the stacks of groups, which stand between single spaces, on an inherited one: their numbers.
fn keep_groups(
    alloc: Global,
    kept: &mut Kept,
    base: &str,
    groups: &str,
) -> Result<Vec<u64>, Unread> {
    let inherited = inherited(alloc, kept, base)?;
    let mut numbers = Vec::new(alloc);
    for group in groups.split(' ') {
        keep_group(alloc, kept, inherited, group, &mut numbers)?;
    }
    Ok(numbers)
}

/// Tells what is decided on kept stacks.
fn tell_verdicts(kept: &Kept, domains: &Domains, numbers: &[u64], answer: &mut Answer) {
    for one in numbers {
        tell_verdict(walk(answer.alloc(), kept, domains, &[], Some(*one)), answer);
    }
}

/// What is decided on the stacks of groups, on an inherited one, `-` for none: all of them are kept before the first is decided.
pub fn decided(domains: &Domains, fields: &str, answer: &mut Answer) {
    let (base, groups) = answer.parted(fields, " | ");
    let alloc = answer.alloc();
    let Ok(mut kept) = Kept::open(alloc) else {
        return answer.lack();
    };
    match keep_groups(alloc, &mut kept, base, groups) {
        Ok(numbers) => tell_verdicts(&kept, domains, numbers.as_slice(), answer),
        Err(why) => answer.fail(why),
    }
}

/// The numbers of two stacks without privileges.
fn keep_two(alloc: Global, kept: &mut Kept, one: &str, other: &str) -> Result<(u64, u64), Unread> {
    let one = keep_stack(alloc, kept, &[], None, one)?;
    let other = keep_stack(alloc, kept, &[], None, other)?;
    Ok((one, other))
}

/// Whether two stacks without privileges have one number, and how many entries there are then, where nothing was kept.
pub fn entries(fields: &str, answer: &mut Answer) {
    let (one, other) = answer.parted(fields, " | ");
    let alloc = answer.alloc();
    let Ok(mut kept) = Kept::open(alloc) else {
        return answer.lack();
    };
    match keep_two(alloc, &mut kept, one, other) {
        Ok((one, other)) if one == other => answer.tell("the same, "),
        Ok(_) => answer.tell("another, "),
        Err(why) => answer.fail(why),
    }
    answer.debug(&kept.len());
}

/// The number of a stack in which two frames are given the stack before, under limits that imply nothing, so often; the oldest stack
/// has one frame of a domain.
fn linked(alloc: Global, kept: &mut Kept, oldest: u32, long: u32) -> Result<u64, Unread> {
    let mut given = keep(alloc, kept, &[mark(oldest, None)], None)?;
    for _ in 0..long {
        let one = limited(alloc, kept, Some(given), &[])?;
        let frame = mark(0, Some(one));
        given = keep(alloc, kept, &[frame, frame], None)?;
    }
    Ok(given)
}

/// What is decided on such a stack.
fn chain_of(
    alloc: Global,
    kept: &mut Kept,
    domains: &Domains,
    oldest: u32,
    long: u32,
) -> Result<Verdict, Unread> {
    let given = linked(alloc, kept, oldest, long)?;
    walk(alloc, kept, domains, &[], Some(given))
}

/// What is decided on a stack in which two frames are given the stack before, under limits that imply nothing, so often; the oldest
/// stack has one frame of a domain.
pub fn chain(domains: &Domains, fields: &str, answer: &mut Answer) {
    let (oldest, long) = answer.parted(fields, " | ");
    let (oldest, long) = (answer.number(oldest), answer.number(long));
    let alloc = answer.alloc();
    let Ok(mut kept) = Kept::open(alloc) else {
        return answer.lack();
    };
    tell_verdict(chain_of(alloc, &mut kept, domains, oldest, long), answer);
}
