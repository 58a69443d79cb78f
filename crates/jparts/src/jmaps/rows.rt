ghost use Rattle.std.specs.Prelude.{◌≡◌};
ghost use Rattle.jparts.specs.jmaps.StackMapFormat.{row};

use crate::jmaps::types::{Number, Row};

fn given(delta: Number, locals: u16, stack: u16) -> Row
    ensures { result ≡ record { delta = delta; locals = Number.Given locals; stack = Number.Given stack } }
{
    Row {
        delta,
        locals: Number::Given(locals),
        stack: Number::Given(stack),
    }
}

#[tactic(auto, unfolding(crate::specs::jmaps::StackMapFormat::row))]
/// What a type byte says of the frame behind it, `None` exactly for 128 to 246, which are reserved.
pub fn row_of(form: u8) -> Option<Row>
    ensures { result ≡ row form }
{
    let form = u16::from(form);
    if form < 64 {
        return Some(given(Number::Given(form), 0, 0));
    }
    if form < 128 {
        return Some(given(Number::Given(form - 64), 0, 1));
    }
    if form < 247 {
        return None;
    }
    if form < 248 {
        return Some(given(Number::Written, 0, 1));
    }
    if form < 252 {
        return Some(given(Number::Written, 0, 0));
    }
    if form < 255 {
        return Some(given(Number::Written, form - 251, 0));
    }
    Some(Row {
        delta: Number::Written,
        locals: Number::Written,
        stack: Number::Written,
    })
}
