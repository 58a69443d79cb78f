ghost use Rattle.std.specs.Prelude.{◌≡◌, ⊤};
ghost use Rattle.tests_base.specs.SamplePrograms.{few, few_above, few_chain, few_itself, few_object};

use jground::jbase::Seq;
use jtypes::{Ancestry, ArrayType, Element, Name, VType, fits};
use std::alloc::{AllocError, Global};
use tests_rows::{Answer, Unread, number};

/// A program where `p/B` extends `p/A`, and `p/I`, `Cloneable` and `Serializable` are interfaces.
struct Few;

impl Ancestry for Few {
    ghost tree = { λ _. few };

    ghost valid = { λ _. ⊤ };

    fn is_interface(&self, c: &Name) -> bool {
        let c = c.0.as_slice();
        c == b"java/lang/Cloneable".as_slice()
            || c == b"java/io/Serializable".as_slice()
            || c == b"p/I".as_slice()
    }

    fn extends(&self, c: &Name, d: &Name) -> bool {
        let c = c.0.as_slice();
        let d = d.0.as_slice();
        if c == d {
            return true;
        }
        if d == b"java/lang/Object".as_slice() {
            return true;
        }
        if c == b"p/B".as_slice() {
            return d == b"p/A".as_slice();
        }
        false
    }

    ghost reflexive = { λ _ c. few_itself c };

    ghost transitive = { λ _ c d e _ first second. few_chain c d e first second };

    ghost below_object = { λ _ c d _ at. few_object c d at };

    ghost above_interface = { λ _ _ c d is ext. few_above c d is ext };
}

fn name(alloc: Global, text: &[u8]) -> Result<Name, AllocError> {
    Ok(Name(Seq::from_slice(alloc, text)?))
}

/// What a letter of a descriptor stands for, or the class of a name.
fn element(alloc: Global, text: &[u8]) -> Result<Element, AllocError> {
    match text {
        [b'Z'] => Ok(Element::Boolean),
        [b'C'] => Ok(Element::Char),
        [b'B'] => Ok(Element::Byte),
        [b'S'] => Ok(Element::Short),
        [b'I'] => Ok(Element::Int),
        [b'J'] => Ok(Element::Long),
        _ => Ok(Element::Class(name(alloc, text)?)),
    }
}

/// An array of some dimensions, or, with none, a type by its letter or its class's name.
fn vtype(alloc: Global, depth: u32, text: &[u8]) -> Result<VType, AllocError> {
    if depth > 0 {
        let element = element(alloc, text)?;
        return Ok(VType::Array(ArrayType { depth, element }));
    }
    match text {
        [b'T'] => Ok(VType::Top),
        [b'I'] => Ok(VType::Int),
        [b'J'] => Ok(VType::Long),
        [b'N'] => Ok(VType::Null),
        [b'U'] => Ok(VType::UninitThis),
        [b'3'] => Ok(VType::Uninit(3)),
        [b'4'] => Ok(VType::Uninit(4)),
        [b'X'] => Ok(VType::Ctx),
        _ => Ok(VType::Object(name(alloc, text)?)),
    }
}

/// The type of words: its dimensions, and its letter or its class's name.
pub fn type_of(alloc: Global, words: &str) -> Result<VType, Unread> {
    let (depth, name) = words.split_once(' ').ok_or(Unread::Line)?;
    Ok(vtype(alloc, number(depth)?, name.as_bytes())?)
}

/// A mark for each type of a list: `1` where the type of words fits it.
pub fn found(words: &str, all: &[VType], answer: &mut Answer) {
    let Ok(a) = type_of(answer.alloc(), words) else {
        return answer.refuse();
    };
    for b in all {
        answer.tell(if fits(&Few, &a, b) { "1" } else { "." });
    }
}
