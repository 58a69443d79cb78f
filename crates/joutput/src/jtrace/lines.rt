ghost use Rattle.std.specs.Prelude.{◌≡◌, ◌+◌, ◌*◌, ◌<◌, ◌≤◌, ◌^◌, IfErr, OnOk, nat_le, length, take, codes};
ghost use Rattle.jground.specs.jbase.FaultCauses.{HasCause, appended};
ghost use Rattle.joutput.specs.jio.PartialOutput.{IsCutAt};
ghost use Rattle.jperm.specs.PermissionTexts.{text_of};
ghost use Rattle.joutput.specs.jtrace.TraceLines.{line, end_line, told, checked, most_units, units_of, texts, room};
ghost use Rattle.joutput.specs.ProofNames.{line_feed, behind_denial};

use crate::jio::{Part, PutFault, Sink, put_all, write_line};
use crate::jtrace::event::{End, Event};
use jperm::{PARTS, Permission, text_laws};

/// The most units of an event's text that `write_event` writes.
pub const MOST_UNITS: usize = 4_294_967_295;

/// How many parts a check's line has before the permission's: a word, a number and a blank.
const BEFORE: usize = 3;

/// How many parts a check's line has at most: behind the permission come a word and a number.
const CHECK_PARTS: usize = BEFORE + PARTS + 2;

/// Whether a permission's text has at most `MOST_UNITS` units.
fn is_short_permission(asked: &Permission) -> bool
    ensures { result ≡ nat_le (length (text_of asked.now)) most_units }
{
    text_laws();
    let mut units = 0;
    for at in 0..PARTS {
        let more = asked.part(at).len();
        if more > MOST_UNITS - units {
            return false;
        }
        units += more;
    }
    true
}

/// A line of a word, a thread's number and a text.
fn write_told<'a, K: Sink>(
    out: &mut K,
    word: &'a str,
    thread: u32,
    text: &'a [u16],
) -> Result<(), PutFault>
    requires short_word { length word.now < 100 }
    requires short_text { length text.now < 2 ^ 32 }
    ensures ok { OnOk result (K.out out.new ≡ appended (K.out out.old) (told word.now thread text.now line_feed)) }
    ensures err { IfErr result (λ e. IsCutAt (K.out out.old) (K.out out.new) (told word.now thread text.now line_feed) e.written) }
    ensures cause { HasCause (K.faults out.old) (K.faults out.new) result }
{
    let thread = u64::from(thread);
    write_line(
        out,
        &[
            Part::Plain(word),
            Part::Number(thread),
            Part::Plain(" "),
            Part::Text(text),
        ],
    )
}

/// The first parts of a check's line: a word, the thread's number, and the permission in its parts. The places behind these
/// are free for two more.
fn check_parts<'a>(word: &'a str, thread: u32, asked: &'a Permission) -> [Part<'a>; CHECK_PARTS]
    ensures size { length result ≡ CHECK_PARTS }
    ensures bytes { texts (take (BEFORE + PARTS) result) ≡ checked word.now thread (text_of asked.now) }
    ensures room { room (take (BEFORE + PARTS) result) ≡ length word.now + 21 + 6 * length (text_of asked.now) }
{
    text_laws();
    let mut parts = [Part::Plain(" "); CHECK_PARTS];
    parts[0] = Part::Plain(word);
    parts[1] = Part::Number(u64::from(thread));
    for at in 0..PARTS {
        parts[BEFORE + at] = Part::Text(asked.part(at));
    }
    parts
}

/// The line of a granted check.
fn write_grant<K: Sink>(out: &mut K, thread: u32, asked: &Permission) -> Result<(), PutFault>
    requires { length (text_of asked.now) < 2 ^ 32 }
    ensures ok { OnOk result (K.out out.new ≡ appended (K.out out.old) (told (codes "grant ") thread (text_of asked.now) line_feed)) }
    ensures err { IfErr result (λ e. IsCutAt (K.out out.old) (K.out out.new) (told (codes "grant ") thread (text_of asked.now) line_feed) e.written) }
    ensures cause { HasCause (K.faults out.old) (K.faults out.new) result }
{
    let parts = check_parts("grant ", thread, asked);
    let (parts, _) = parts.split_at(BEFORE + PARTS);
    write_line(out, parts)
}

/// The line of a denied check.
fn write_deny<K: Sink>(
    out: &mut K,
    thread: u32,
    asked: &Permission,
    domain: u32,
) -> Result<(), PutFault>
    requires { length (text_of asked.now) < 2 ^ 32 }
    ensures ok { OnOk result (K.out out.new ≡ appended (K.out out.old) (told (codes "deny ") thread (text_of asked.now) (behind_denial domain))) }
    ensures err { IfErr result
        (λ e. IsCutAt (K.out out.old) (K.out out.new) (told (codes "deny ") thread (text_of asked.now) (behind_denial domain)) e.written) }
    ensures cause { HasCause (K.faults out.old) (K.faults out.new) result }
{
    let domain = u64::from(domain);
    let mut parts = check_parts("deny ", thread, asked);
    parts[BEFORE + PARTS] = Part::Plain(" domain ");
    parts[BEFORE + PARTS + 1] = Part::Number(domain);
    write_line(out, &parts)
}

impl Event {
    /// Whether the event's text has at most `MOST_UNITS` units, so that its line can be written.
    #[tactic(auto, unfolding(crate::specs::jtrace::TraceLines::units_of))]
    pub fn is_short(&self) -> bool
        ensures { result ≡ nat_le (units_of self.now) most_units }
    {
        match self {
            Event::Out { text, .. } => text.as_slice().len() <= MOST_UNITS,
            Event::Grant { asked, .. } => is_short_permission(asked),
            Event::Deny { asked, .. } => is_short_permission(asked),
            Event::Throw { class, .. } => class.as_slice().len() <= MOST_UNITS,
            Event::Uncaught { class, .. } => class.as_slice().len() <= MOST_UNITS,
        }
    }
}

/// Writes the line of an event, without memory. A line of at most 256 bytes is one piece; a longer one goes out in pieces of
/// 256 bytes, the last of which may be shorter. At a fault exactly the line's first `written` bytes went out.
#[tactic(auto, unfolding(crate::specs::jtrace::TraceLines::line, crate::specs::jtrace::TraceLines::units_of))]
pub fn write_event<K: Sink>(out: &mut K, event: &Event) -> Result<(), PutFault>
    requires { units_of event.now ≤ most_units }
    ensures ok { OnOk result (K.out out.new ≡ appended (K.out out.old) (line event.now)) }
    ensures err { IfErr result (λ e. IsCutAt (K.out out.old) (K.out out.new) (line event.now) e.written) }
    ensures cause { HasCause (K.faults out.old) (K.faults out.new) result }
{
    match event {
        Event::Out { thread, text } => write_told(out, "out ", *thread, text.as_slice()),
        Event::Grant { thread, asked } => write_grant(out, *thread, asked),
        Event::Deny {
            thread,
            asked,
            domain,
        } => write_deny(out, *thread, asked, *domain),
        Event::Throw { thread, class } => write_told(out, "throw ", *thread, class.as_slice()),
        Event::Uncaught { thread, class } => {
            write_told(out, "uncaught ", *thread, class.as_slice())
        }
    }
}

/// Writes the line of an end as one piece, without memory. At a fault exactly the line's first `written` bytes went out.
#[tactic(auto, unfolding(crate::specs::jtrace::TraceLines::end_line))]
pub fn write_end<K: Sink>(out: &mut K, end: End) -> Result<(), PutFault>
    ensures ok { OnOk result (K.out out.new ≡ appended (K.out out.old) (end_line end)) }
    ensures err { IfErr result (λ e. IsCutAt (K.out out.old) (K.out out.new) (end_line end) e.written) }
    ensures cause { HasCause (K.faults out.old) (K.faults out.new) result }
{
    match end {
        End::Finished => put_all(out, b"end finished\n"),
        End::Uncaught => put_all(out, b"end uncaught\n"),
        End::Deadlock => put_all(out, b"end deadlock\n"),
        End::HeapFull => put_all(out, b"end heap\n"),
        End::Bound => put_all(out, b"end bound\n"),
    }
}
