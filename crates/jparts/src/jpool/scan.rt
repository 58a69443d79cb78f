ghost use Rattle.std.specs.Prelude.{◌≡◌, ◌<◌, ◌≤◌, ◌*◌, ◌+◌, ◌↔◌, ℕ, IsTrue, List, IfSome, option_map, length};
ghost use Rattle.std.specs.List.{position, prefix_len};
ghost use Rattle.jparts.specs.jpool.Descriptors;
ghost use Rattle.jparts.specs.jpool.Descriptors.{class_at, base_at, type_at, return_at, closing_at, slots_at, is_bracket, is_semicolon};
ghost use Rattle.jparts.specs.ProofNames.{slots_of_type};
ghost use Rattle.jparts.specs.jpool.FieldTypes.{piece};

use crate::jpool::names::is_class_name;

/// A field type in a text.
#[derive(Clone, Copy)]
pub struct ScannedType<'a> {
    pub depth: u32,
    pub base: u8,
    pub class: &'a [u8],
}

fn semicolon_of(text: &[u8]) -> Option<usize>
    ensures first { result ≡ position is_semicolon text.now }
    ensures within { IfSome result (λ i. i < length text.now) }
{
    for (i, b) in text.iter().enumerate() {
        if *b == b';' {
            return Some(i);
        }
    }
    None
}

#[tactic(auto, unfolding(crate::specs::jpool::Descriptors::class_at))]
fn class_of(text: &[u8]) -> Option<(&[u8], &[u8])>
    ensures { option_map (λ x. ((76, x.0.now), x.1.now)) result ≡ class_at text.now }
{
    let end = semicolon_of(text)?;
    let (name, _) = text.split_at(end);
    let (_, rest) = text.split_at(end + 1);
    if !is_class_name(name) {
        return None;
    }
    Some((name, rest))
}

#[tactic(auto, unfolding(crate::specs::jpool::Descriptors::base_at))]
fn base_of(text: &[u8]) -> Option<((u8, &[u8]), &[u8])>
    ensures { option_map (λ x. ((x.0.0, x.0.1.now), x.1.now)) result ≡ base_at text.now }
{
    match text {
        [] => None,
        [b'L', rest @ ..] => {
            let (name, behind) = class_of(rest)?;
            Some(((b'L', name), behind))
        }
        [
            b @ (b'B' | b'C' | b'D' | b'F' | b'I' | b'J' | b'S' | b'Z'),
            rest @ ..,
        ] => { Some(((*b, &[]), rest)) }
        [_, ..] => None,
    }
}

fn brackets_of(text: &[u8]) -> usize
    ensures number { result ≡ prefix_len is_bracket text.now }
    ensures within { result ≤ length text.now }
{
    for (i, b) in text.iter().enumerate() {
        if *b != b'[' {
            return i;
        }
    }
    text.len()
}

/// A field type at the front of a text, and the rest.
#[tactic(auto, unfolding(crate::specs::jpool::Descriptors::type_at))]
pub fn type_of(text: &[u8]) -> Option<(ScannedType<'_>, &[u8])>
    ensures { option_map (λ x. (piece x.0, x.1.now)) result ≡ type_at text.now }
{
    let depth = brackets_of(text);
    let (_, rest) = text.split_at(depth);
    let ((base, class), rest) = base_of(rest)?;
    if depth > u32::MAX as usize {
        return None;
    }
    Some((
        ScannedType {
            depth: depth as u32,
            base,
            class,
        },
        rest,
    ))
}

/// What is returned, at the front of a text, and the rest.
#[tactic(auto, unfolding(crate::specs::jpool::Descriptors::return_at))]
pub fn return_of(text: &[u8]) -> Option<(Option<ScannedType<'_>>, &[u8])>
    ensures { option_map (λ x. (option_map piece x.0, x.1.now)) result ≡ return_at text.now }
{
    match text {
        [] => None,
        [b'V', rest @ ..] => Some((None, rest)),
        [_, ..] => {
            let (one, rest) = type_of(text)?;
            Some((Some(one), rest))
        }
    }
}

/// The field type that all of a text is.
#[tactic(auto, unfolding(crate::specs::jpool::Descriptors::field_of))]
pub fn piece_of(text: &[u8]) -> Option<ScannedType<'_>>
    ensures { option_map piece result ≡ Descriptors.field_of text.now }
{
    let (one, rest) = type_of(text)?;
    if !rest.is_empty() {
        return None;
    }
    Some(one)
}

/// The slots of a type.
pub fn slots_in(depth: u32, base: u8) -> usize
    ensures number { result ≡ slots_of_type depth base }
    ensures few { result ≤ 2 }
{
    if depth == 0 && (base == b'J' || base == b'D') {
        return 2;
    }
    1
}

/// What is behind a closing parenthesis.
#[tactic(auto, unfolding(crate::specs::jpool::Descriptors::closing_at))]
pub fn closing_of(text: &[u8]) -> Option<&[u8]>
    ensures { option_map (λ x. x.now) result ≡ closing_at text.now }
{
    match text {
        [b')', rest @ ..] => Some(rest),
        _ => None,
    }
}

/// The slots of a method's parameters, up to a closing parenthesis, and the rest behind it.
fn params_slots(text: &[u8]) -> Option<(usize, &[u8])>
    ensures { option_map (λ x. (x.0, x.1.now)) result ≡ slots_at (length text.now) text.now }
{
    // What the proof needs: a slice has no more bytes than a usize counts.
    let _size = text.len();
    let mut count = 0;
    let mut rest = text;
    for _ in 0..text.len() {
        if let Some(behind) = closing_of(rest) {
            return Some((count, behind));
        }
        let (one, behind) = type_of(rest)?;
        count += slots_in(one.depth, one.base);
        rest = behind;
    }
    None
}

/// The slots of a method descriptor's parameters, without its receiver. None exactly where the text is no method descriptor.
#[tactic(auto, unfolding(crate::specs::jpool::Descriptors::method_slots, crate::specs::jpool::Descriptors::method_of))]
pub fn method_slots(text: &[u8]) -> Option<usize>
    ensures { result ≡ Descriptors.method_slots text.now }
{
    match text {
        [b'(', rest @ ..] => {
            let (count, rest) = params_slots(rest)?;
            let (_, rest) = return_of(rest)?;
            if !rest.is_empty() || count > 255 {
                return None;
            }
            Some(count)
        }
        _ => None,
    }
}

/// Whether a text is a field descriptor (JVMS 4.3.2).
#[tactic(auto, unfolding(crate::specs::jpool::Descriptors::is_field_descriptor))]
pub fn is_field_descriptor(text: &[u8]) -> bool
    ensures { result ≡ Descriptors.is_field_descriptor text.now }
{
    piece_of(text).is_some()
}

/// Whether a text is the descriptor of an array type: a field descriptor that begins with a bracket.
#[tactic(auto, unfolding(crate::specs::jpool::Descriptors::is_array_descriptor))]
pub fn is_array_descriptor(text: &[u8]) -> bool
    ensures { result ≡ Descriptors.is_array_descriptor text.now }
{
    match piece_of(text) {
        Some(one) => one.depth > 0,
        None => false,
    }
}

/// Whether a text is a method descriptor, whose parameters take at most 255 slots (JVMS 4.3.3).
#[tactic(auto, unfolding(crate::specs::jpool::Descriptors::is_method_descriptor, crate::specs::jpool::Descriptors::method_slots))]
pub fn is_method_descriptor(text: &[u8]) -> bool
    ensures { result ≡ Descriptors.is_method_descriptor text.now }
{
    method_slots(text).is_some()
}
