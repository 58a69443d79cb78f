ghost use Rattle.std.specs.Prelude.{◌≡◌, ◌+◌, ◌<◌, ◌^◌, ◌%◌, Ok, true, nat_lt};
ghost use Rattle.std.specs.Int.{w16, to_be_bytes};
ghost use Rattle.jground.specs.jformat.Format.{number_at};
ghost use Rattle.jground.proofs.JformatProofs.Blocks.{all_law};

use jground::jbase::Seq;
use jground::jformat::{
    BodyReader, ReadError, Reader, StateReader, StateWriter, Writer, block_of, counted_of, i8_of,
    i16_of, many_of, put_block, put_by, put_counted, put_i16, put_sized16, put_u16, times_by_of,
    u16_of, words_of,
};
use std::alloc::{AllocError, Global};
use tests_rows::Answer;

/// Numbers of two bytes.
struct Short;

impl Reader for Short {
    type Kind = u8;

    type Item = u16;

    ghost reads = { λ _. number_at w16 0 };

    fn read<'a>(&self, _alloc: Global, bytes: &'a [u8]) -> Result<(u16, &'a [u8]), ReadError<u8>> {
        u16_of(0, bytes)
    }
}

impl Writer for Short {
    type Item = u16;

    ghost spells = { λ _ n. to_be_bytes w16 n };

    ghost fits = { λ _ n. true };

    fn write(&self, _alloc: Global, item: &u16, out: &mut Seq<u8>) -> Result<(), AllocError> {
        put_u16(*item, out)
    }
}

/// All bytes of a text.
struct Text;

impl BodyReader for Text {
    type Kind = u8;

    type Item = Seq<u8>;

    ghost reads = { λ _ bytes. Ok bytes };

    ghost within = { λ _ bytes d e. all_law.within bytes d e };

    fn read(&self, alloc: Global, bytes: &[u8]) -> Result<Seq<u8>, ReadError<u8>> {
        Ok(Seq::from_slice(alloc, bytes)?)
    }
}

/// Numbers of two bytes, by a state that counts them.
struct Nth;

impl StateReader for Nth {
    type Kind = u8;

    type State = u8;

    type Item = u16;

    ghost reads = { λ _ _. number_at w16 0 };

    ghost goes_to = { λ _ s _. (s + 1) % 256 };

    fn read<'a>(
        &self,
        _alloc: Global,
        _state: u8,
        bytes: &'a [u8],
    ) -> Result<(u16, &'a [u8]), ReadError<u8>> {
        u16_of(0, bytes)
    }

    fn next(&self, state: u8, _item: &u16) -> u8 {
        state.wrapping_add(1)
    }
}

impl StateWriter for Nth {
    type State = u8;

    type Item = u16;

    ghost spells = { λ _ _ n. to_be_bytes w16 n };

    ghost fits = { λ _ _ n. true };

    ghost goes_to = { λ _ s _. (s + 1) % 256 };

    fn write(
        &self,
        _alloc: Global,
        _state: u8,
        item: &u16,
        out: &mut Seq<u8>,
    ) -> Result<(), AllocError> {
        put_u16(*item, out)
    }

    fn next(&self, state: u8, _item: &u16) -> u8 {
        state.wrapping_add(1)
    }
}

/// Items, and what stands behind them.
fn list(read: Result<(Seq<u16>, &[u8]), ReadError<u8>>, answer: &mut Answer) {
    match read {
        Ok((items, rest)) => answer.debug_pair(&items.as_slice(), &rest),
        Err(stop) => answer.debug(&stop),
    }
}

/// Items up to the end.
fn many(bytes: &[u8], answer: &mut Answer) {
    match many_of(answer.alloc(), &Short, 1, bytes) {
        Ok(items) => answer.debug(&items.as_slice()),
        Err(stop) => answer.debug(&stop),
    }
}

/// The text of a block, and what stands behind it.
fn block(bytes: &[u8], answer: &mut Answer) {
    match block_of(answer.alloc(), &Text, 0, bytes) {
        Ok((text, rest)) => answer.debug_pair(&text.as_slice(), &rest),
        Err(stop) => answer.debug(&stop),
    }
}

/// The bytes that writers put one behind the other: two numbers behind their count, one in a block, two by a state, a sized text, -2.
#[tactic(auto, unfolding(jground::specs::jformat::StatefulFormats::fits_from))]
fn written(alloc: Global) -> Result<Seq<u8>, AllocError> {
    let mut out = Seq::new(alloc);
    put_counted(alloc, &Short, &[256, 7], &mut out)?;
    put_block(alloc, &Short, &9, &mut out)?;
    put_by(alloc, &Nth, 0, &[1, 2], &mut out)?;
    put_sized16(b"a", &mut out)?;
    put_i16(-2, &mut out)?;
    Ok(out)
}

/// Those bytes.
fn all_written(answer: &mut Answer) {
    match written(answer.alloc()) {
        Ok(bytes) => answer.hex(bytes.as_slice()),
        Err(_) => answer.lack(),
    }
}

/// What is asked of formats.
pub fn found(kind: &str, words: &str, answer: &mut Answer) {
    match kind {
        "written" => return all_written(answer),
        "words" => return answer.debug(&words_of(3, b"run ", words.as_bytes())),
        _ => {}
    }
    let alloc = answer.alloc();
    let bytes = answer.bytes(words);
    let bytes = bytes.as_slice();
    match kind {
        "counted" => list(counted_of(alloc, &Short, 0, bytes), answer),
        "three" => list(times_by_of(alloc, &Nth, 0, 3, bytes), answer),
        "many" => many(bytes, answer),
        "block" => block(bytes, answer),
        "i16" => answer.debug(&i16_of(0u8, bytes)),
        "i8" => answer.debug(&i8_of(0u8, bytes)),
        _ => answer.refuse(),
    }
}
