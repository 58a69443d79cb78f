ghost use Rattle.std.specs.Prelude.{◌≡◌, ◌<◌, ◌^◌, IfOk, length};
ghost use Rattle.joutput.specs.jio.LineParts.{line_of, room_of};
ghost use Rattle.jshow.specs.CommandAnswers.{Puts};
ghost use Rattle.jshow.specs.Refusals.{text_line};
ghost use Rattle.jshow.specs.Listings.{domain_line, domain_lines, listing, permission_line, permission_lines, permission_units, permission_word};

use jdomain::{CodeSource, Domains};
use jground::jtext::Units;
use joutput::jio::{Part, Sink, write_line};
use joutput::jtrace::RunFault;
use jperm::Permission;
use std::alloc::{AllocError, Global};

/// The most units of a permission in a line.
const MOST_UNITS: usize = 0x7fff_ffff;

/// The most bytes of a URL in a line.
const MOST_BYTES: usize = 0x7fff_ffff;

// ---- permissions

/// What a permission's line begins with.
#[tactic(auto, unfolding(crate::specs::Listings::permission_word))]
fn permission_word(permission: &Permission) -> &'static str
    ensures word { result.now ≡ permission_word permission.now }
    ensures few { length result.now < 32 }
{
    match permission {
        Permission::Unresolved { .. } => "unresolved ",
        _ => "permission ",
    }
}

/// What a permission's line tells.
#[tactic(auto, unfolding(crate::specs::Listings::permission_units))]
fn permission_units(alloc: Global, permission: &Permission) -> Result<Units, AllocError>
    ensures { IfOk result (λ units. units ≡ permission_units permission.now) }
{
    match permission {
        Permission::Unresolved { class } => class.copy(alloc),
        _ => permission.text(alloc),
    }
}

/// Writes a line of these parts.
fn put_line<K: Sink>(parts: &[Part<'_>], out: &mut K) -> Result<(), RunFault>
    requires { room_of parts.now < 2 ^ 64 }
    ensures { Puts (line_of parts.now) result K.out K.faults out.old out.new }
{
    write_line(out, parts)?;
    Ok(())
}

/// Writes a line of a few words and a text. Where the text has more than 2,147,483,647 units, the answer is that no memory was left.
fn put_text<K: Sink>(words: &str, units: &[u16], out: &mut K) -> Result<(), RunFault>
    requires { length words.now < 2 ^ 32 }
    ensures { Puts (text_line words.now units.now) result K.out K.faults out.old out.new }
{
    if MOST_UNITS < units.len() {
        return Err(RunFault::Memory);
    }
    put_line(&[Part::Plain(words), Part::Text(units)], out)
}

/// Writes the line of a permission.
fn put_permission<K: Sink>(
    alloc: Global,
    permission: &Permission,
    out: &mut K,
) -> Result<(), RunFault>
    ensures { Puts (permission_line permission.now) result K.out K.faults out.old out.new }
{
    let units = permission_units(alloc, permission)?;
    put_text(permission_word(permission), units.as_slice(), out)
}

/// Writes the lines of permissions.
fn put_permissions<K: Sink>(
    alloc: Global,
    permissions: &[Permission],
    out: &mut K,
) -> Result<(), RunFault>
    ensures { Puts (permission_lines permissions.now) result K.out K.faults out.old out.new }
{
    for permission in permissions {
        put_permission(alloc, permission, out)?;
    }
    Ok(())
}

// ---- domains

/// Writes the line of a domain.
fn put_source<K: Sink>(d: u32, source: &CodeSource, out: &mut K) -> Result<(), RunFault>
    ensures { Puts (domain_line d source.now) result K.out K.faults out.old out.new }
{
    let url = source.text();
    if MOST_BYTES < url.len() {
        return Err(RunFault::Memory);
    }
    let parts = [
        Part::Plain("domain "),
        Part::Number(u64::from(d)),
        Part::Plain(" "),
        Part::Plain(url),
    ];
    put_line(&parts, out)
}

/// Writes all lines of a domain.
fn put_domain<K: Sink>(
    alloc: Global,
    d: u32,
    source: &CodeSource,
    permissions: &[Permission],
    out: &mut K,
) -> Result<(), RunFault>
    ensures { Puts (domain_lines d source.now permissions.now) result K.out K.faults out.old out.new }
{
    put_source(d, source, out)?;
    put_permissions(alloc, permissions, out)
}

/// Writes the lines of all domains.
pub fn put_listing<K: Sink>(
    alloc: Global,
    sources: &[CodeSource],
    domains: &Domains,
    out: &mut K,
) -> Result<(), RunFault>
    requires { length domains.now ≡ length sources.now }
    ensures { Puts (listing 0 sources.now domains.now) result K.out K.faults out.old out.new }
{
    for (at, source) in sources.iter().enumerate() {
        let Ok(d) = u32::try_from(at) else {
            return Err(RunFault::Memory);
        };
        put_domain(alloc, d, source, domains.list(d), out)?;
    }
    Ok(())
}
