ghost use Rattle.std.specs.Prelude.{◌<◌, length};

use crate::permissions::readings;
use jctx::{Context, Item, enter, privileged, top};
use jdomain::{Domains, Verdict};
use jground::jtext::Units;
use jinterned::Table;
use jperm::Permission;
use std::alloc::{AllocError, Global};
use tests_rows::{Answer, Unread, number};

/// The limits that a word names: to read a property, or none.
fn limits_of(alloc: Global, directory: &Units, name: &str) -> Result<Vec<Permission>, Unread> {
    if name.is_empty() {
        return Ok(Vec::new(alloc));
    }
    readings(alloc, directory, &[name])
}

/// The context of a privilege with limits that is given the context of one domain.
fn limited_in(
    alloc: Global,
    given: u32,
    domain: u32,
    limits: &[Permission],
    behind: &Context,
) -> Result<Context, AllocError> {
    let empty = top(alloc)?;
    let given = enter(alloc, &empty, given)?;
    privileged(alloc, domain, Some(&given), Some(limits), behind)
}

/// The context of a privilege with limits, maybe in the context of one domain that is given.
fn limited_by(
    alloc: Global,
    given: Option<u32>,
    domain: u32,
    limits: &[Permission],
    behind: &Context,
) -> Result<Context, AllocError> {
    match given {
        Some(given) => limited_in(alloc, given, domain, limits, behind),
        None => privileged(alloc, domain, None, Some(limits), behind),
    }
}

/// The number behind a sign, where there is one.
fn given_of(word: &str) -> Result<Option<u32>, Unread> {
    match word {
        "" => Ok(None),
        word => Ok(Some(number(word)?)),
    }
}

/// The same, where words say the limits and what is given.
fn limited(
    alloc: Global,
    directory: &Units,
    domain: u32,
    words: &str,
    behind: &Context,
) -> Result<Context, Unread> {
    let (name, given) = words.split_once('@').unwrap_or((words, ""));
    let given = given_of(given)?;
    let limits = limits_of(alloc, directory, name)?;
    Ok(limited_by(alloc, given, domain, limits.as_slice(), behind)?)
}

/// The context behind one more word.
fn with_word(
    alloc: Global,
    directory: &Units,
    word: &str,
    behind: &Context,
) -> Result<Context, Unread> {
    if let Some(domain) = word.strip_suffix('!') {
        return Ok(privileged(alloc, number(domain)?, None, None, behind)?);
    }
    match word.split_once(':') {
        Some((domain, words)) => limited(alloc, directory, number(domain)?, words, behind),
        None => Ok(enter(alloc, behind, number(word)?)?),
    }
}

/// The context that words make, the last one innermost; `-` are no words.
fn context_of(alloc: Global, directory: &Units, words: &str) -> Result<Context, Unread> {
    let mut context = top(alloc)?;
    if words == "-" {
        return Ok(context);
    }
    for word in words.split(' ') {
        context = with_word(alloc, directory, word, &context)?;
    }
    Ok(context)
}

/// Tells the domain of an item, and a stroke for each of its limits.
fn tell_item(item: &Item, answer: &mut Answer) {
    answer.spaced(&item.domain);
    for _ in item.limits.as_slice() {
        answer.tell("'");
    }
}

/// Tells a context: the domain of each item, with a stroke behind it for each of its limits; `-` where there is none.
fn tell_context(context: &Context, answer: &mut Answer) {
    if context.as_slice().is_empty() {
        return answer.tell("-");
    }
    for item in context.as_slice() {
        tell_item(item, answer);
    }
}

/// A context as a text.
fn shown(alloc: Global, context: &Context) -> Result<String, Unread> {
    let mut answer = Answer::new(alloc);
    tell_context(context, &mut answer);
    answer.into_text()
}

/// Tells a context, if its copy is told so too.
fn tell_copied(context: &Context, copy: &Context, answer: &mut Answer) {
    let one = shown(answer.alloc(), context);
    let other = shown(answer.alloc(), copy);
    match (&one, &other) {
        (Ok(one), Ok(other)) if one.as_str() == other.as_str() => answer.tell(one.as_str()),
        (Ok(_), Ok(_)) => answer.tell("its copy is another"),
        _ => answer.lack(),
    }
}

/// What a context shows, and its copy too.
pub fn context(directory: &Units, words: &str, answer: &mut Answer) {
    let alloc = answer.alloc();
    let context = match context_of(alloc, directory, words) {
        Ok(context) => context,
        Err(why) => return answer.fail(why),
    };
    match context.copy(alloc) {
        Ok(copy) => tell_copied(&context, &copy, answer),
        Err(_) => answer.lack(),
    }
}

/// What the context of a number answers.
fn verdict_at(
    contexts: &Table,
    n: u64,
    domains: &Domains,
    asked: &Permission,
) -> Result<Verdict, Unread> {
    if n >= contexts.len() {
        return Err(Unread::Line);
    }
    Ok(contexts.verdict(n, domains, asked))
}

/// What the context of the number that words make answers, in a table.
fn verdict_in(
    alloc: Global,
    directory: &Units,
    contexts: &mut Table,
    domains: &Domains,
    words: &str,
    asked: &Permission,
) -> Result<Verdict, Unread> {
    if words == "-" {
        return verdict_at(contexts, 0, domains, asked);
    }
    let n = number_of(alloc, directory, contexts, words, 0)?;
    verdict_at(contexts, n, domains, asked)
}

/// The same, in a new table.
fn verdict_by_number(
    alloc: Global,
    directory: &Units,
    domains: &Domains,
    words: &str,
    asked: &Permission,
) -> Result<Verdict, Unread> {
    let mut contexts = Table::open(alloc)?;
    verdict_in(alloc, directory, &mut contexts, domains, words, asked)
}

/// What the walk of the context that words make answers.
fn verdict_of_walk(
    alloc: Global,
    directory: &Units,
    domains: &Domains,
    words: &str,
    asked: &Permission,
) -> Result<Verdict, Unread> {
    let context = context_of(alloc, directory, words)?;
    Ok(context.verdict(domains, asked))
}

/// What the walk of a context answers, and that of its number too.
pub fn verdict(
    directory: &Units,
    domains: &Domains,
    words: &str,
    asked: &Permission,
    answer: &mut Answer,
) {
    let alloc = answer.alloc();
    let walked = verdict_of_walk(alloc, directory, domains, words, asked);
    let numbered = verdict_by_number(alloc, directory, domains, words, asked);
    match (walked, numbered) {
        (Ok(walked), Ok(numbered)) if walked != numbered => {
            answer.tell("by its number it is another");
        }
        (Ok(Verdict::Granted), Ok(_)) => answer.tell("granted"),
        (Ok(Verdict::Denied(domain)), Ok(_)) => {
            answer.tell("denied by ");
            answer.debug(&domain);
        }
        (Err(why), _) | (_, Err(why)) => answer.fail(why),
    }
}

/// The number of the context of a privilege with limits, in the first context, behind that of a number.
fn limited_behind(
    alloc: Global,
    directory: &Units,
    contexts: &mut Table,
    domain: u32,
    name: &str,
    n: u64,
) -> Result<u64, Unread>
    requires known { n < length contexts.old }
    requires some { 0 < length contexts.old }
{
    let limits = limits_of(alloc, directory, name)?;
    Ok(contexts.privileged(alloc, domain, Some(0), Some(limits.as_slice()), n)?)
}

/// The number of a context behind one more word, where the words before have this number.
fn number_behind(
    alloc: Global,
    directory: &Units,
    contexts: &mut Table,
    word: &str,
    n: u64,
) -> Result<u64, Unread> {
    if n >= contexts.len() {
        return Err(Unread::Line);
    }
    if let Some(domain) = word.strip_suffix('!') {
        return Ok(contexts.privileged(alloc, number(domain)?, None, None, n)?);
    }
    match word.split_once(':') {
        Some((domain, name)) => {
            limited_behind(alloc, directory, contexts, number(domain)?, name, n)
        }
        None => Ok(contexts.enter(alloc, n, number(word)?)?),
    }
}

/// The number of the context that words make, the last one innermost, from that of a number on.
fn number_of(
    alloc: Global,
    directory: &Units,
    contexts: &mut Table,
    words: &str,
    n: u64,
) -> Result<u64, Unread> {
    let mut number = n;
    for word in words.split(' ') {
        number = number_behind(alloc, directory, contexts, word, number)?;
    }
    Ok(number)
}

/// The number of the last context where words stand so often behind the one of a number.
fn last_turn(
    alloc: Global,
    directory: &Units,
    contexts: &mut Table,
    words: &str,
    from: u64,
    times: u32,
) -> Result<u64, Unread> {
    let mut last = from;
    for _ in 0..times {
        last = number_of(alloc, directory, contexts, words, from)?;
    }
    Ok(last)
}

/// Tells three numbers.
fn tell_three(one: u64, two: u64, three: u64, answer: &mut Answer) {
    answer.debug(&one);
    answer.tell(", ");
    answer.debug(&two);
    answer.tell(", ");
    answer.debug(&three);
}

/// The numbers of the contexts of words, and of the last turn of others behind them.
fn turned(
    alloc: Global,
    directory: &Units,
    contexts: &mut Table,
    (base, words): (&str, &str),
    times: u32,
) -> Result<(u64, u64), Unread> {
    let from = number_of(alloc, directory, contexts, base, 0)?;
    let last = last_turn(alloc, directory, contexts, words, from, times)?;
    Ok((from, last))
}

/// Tells two numbers of contexts, and how many have numbers.
fn tell_numbers(found: Result<(u64, u64), Unread>, contexts: &Table, answer: &mut Answer) {
    match found {
        Ok((one, other)) => tell_three(one, other, contexts.len(), answer),
        Err(why) => answer.fail(why),
    }
}

/// The numbers of contexts where words stand behind those of a loop, so often: each turn begins with the same context. That of the
/// first words, that of the last turn, and how many contexts have numbers.
pub fn turns(directory: &Units, fields: &str, answer: &mut Answer) {
    let (times, fields) = answer.parted(fields, " | ");
    let words = answer.parted(fields, " | ");
    let alloc = answer.alloc();
    let times = answer.number(times);
    let Ok(mut contexts) = Table::open(alloc) else {
        return answer.lack();
    };
    let found = turned(alloc, directory, &mut contexts, words, times);
    tell_numbers(found, &contexts, answer);
}

/// The number of the context of so many domains, each called by the one before.
fn risen(alloc: Global, contexts: &mut Table, count: u32) -> Result<u64, Unread> {
    let mut n = 0;
    for domain in 0..count {
        if n >= contexts.len() {
            return Err(Unread::Line);
        }
        n = contexts.enter(alloc, n, domain)?;
    }
    Ok(n)
}

/// The numbers of the contexts of so many domains, made twice.
fn twice(alloc: Global, contexts: &mut Table, count: u32) -> Result<(u64, u64), Unread> {
    let once = risen(alloc, contexts, count)?;
    let again = risen(alloc, contexts, count)?;
    Ok((once, again))
}

/// The numbers of the contexts of so many domains, made twice, and how many contexts have numbers.
pub fn rising(count: &str, answer: &mut Answer) {
    let alloc = answer.alloc();
    let count = answer.number(count);
    let Ok(mut contexts) = Table::open(alloc) else {
        return answer.lack();
    };
    let found = twice(alloc, &mut contexts, count);
    tell_numbers(found, &contexts, answer);
}

/// Domains of the context of a number, that of the first call first. The domains of all these contexts, times the powers of
/// 1,099,511,628,211 from the last call's on, have one sum modulo 2 ^ 64, since its square is 870 times itself less 189,225.
fn alike(number: u32) -> [u32; 4] {
    let (k, j) = (number / 256, number % 256);
    [
        j.wrapping_mul(189_225).wrapping_add(1_600_000_000),
        k.wrapping_mul(189_225)
            .wrapping_sub(j.wrapping_mul(870))
            .wrapping_add(1_000_000_000),
        j.wrapping_sub(k.wrapping_mul(870))
            .wrapping_add(500_000_000),
        k,
    ]
}

/// The number of the context of domains, each called by the one before.
fn called(alloc: Global, contexts: &mut Table, domains: &[u32]) -> Result<u64, Unread> {
    let mut n = 0;
    for domain in domains {
        if n >= contexts.len() {
            return Err(Unread::Line);
        }
        n = contexts.enter(alloc, n, *domain)?;
    }
    Ok(n)
}

/// The number of the last of so many contexts of domains that are alike.
fn last_alike(alloc: Global, contexts: &mut Table, count: u32) -> Result<u64, Unread> {
    let mut n = 0;
    for number in 0..count {
        n = called(alloc, contexts, &alike(number))?;
    }
    Ok(n)
}

/// The numbers of the last of so many contexts of domains that are alike, made twice.
fn alike_twice(alloc: Global, contexts: &mut Table, count: u32) -> Result<(u64, u64), Unread> {
    let once = last_alike(alloc, contexts, count)?;
    let again = last_alike(alloc, contexts, count)?;
    Ok((once, again))
}

/// The numbers of the last of so many contexts of domains that are alike, made twice, and how many contexts have numbers.
pub fn alikes(count: &str, answer: &mut Answer) {
    let alloc = answer.alloc();
    let count = answer.number(count);
    let Ok(mut contexts) = Table::open(alloc) else {
        return answer.lack();
    };
    let found = alike_twice(alloc, &mut contexts, count);
    tell_numbers(found, &contexts, answer);
}
