ghost use Rattle.std.specs.Prelude.{◌≡◌, ◌<◌, ◌∷◌, IfSome, length, nat_eq, position};
ghost use Rattle.std.specs.Option.{option_copied};
ghost use Rattle.jperm.specs.TextPieces.{pieces, pieces_if};

/// The first piece of a text that is split at a unit, and what stands behind that unit, if it is there.
#[tactic(auto, using(crate::proofs::Walks::first_pieces))]
pub fn first_piece(text: &[u16], at: u16) -> (&[u16], Option<&[u16]>)
    ensures pieces { pieces at text.now ≡ result.0.now ∷ pieces_if at (option_copied result.1) }
    ensures shorter { IfSome result.1 (λ rest. length rest.now < length text.now) }
{
    match place_of(text, at) {
        Some(end) => (&text[..end], Some(&text[end + 1..])),
        None => (text, None),
    }
}

/// The first place in a text where a unit stands.
fn place_of(text: &[u16], wanted: u16) -> Option<usize>
    ensures value { result ≡ position (λ u. nat_eq u wanted) text.now }
    ensures within { IfSome result (λ place. place < length text.now) }
{
    text.iter().position(|unit| *unit == wanted)
}
