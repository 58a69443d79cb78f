ghost use Rattle.std.specs.Prelude.{◌≡◌, ◌++◌, ◌∷◌, [], ℕ, Bool, List, IsTrue, OnOk, ◌&&◌, nat_lt, length};
ghost use Rattle.std.specs.List.{flat_map, list_all};
ghost use Rattle.std.specs.Int.{w8, w16, w32, w64, to_be_bytes, cast_unsigned};
ghost use Rattle.jground.specs.jformat.Format.{number};
ghost use Rattle.jground.specs.jformat.BodyFormats.{sized};
ghost use Rattle.jground.specs.jformat.StatefulFormats.{fits_from, spell_from};

use crate::jbase::Seq;
use std::alloc::{AllocError, Global};

/// Writes bytes as they are.
pub fn put_bytes(text: &[u8], out: &mut Seq<u8>) -> Result<(), AllocError>
    ensures { OnOk result (out.new ≡ out.old ++ text.now) }
{
    out.extend(text)
}

/// Writes a byte.
pub fn put_u8(n: u8, out: &mut Seq<u8>) -> Result<(), AllocError>
    ensures { OnOk result (out.new ≡ out.old ++ n ∷ []) }
{
    out.push(n)
}

/// Writes a number of two bytes, the high byte first.
pub fn put_u16(n: u16, out: &mut Seq<u8>) -> Result<(), AllocError>
    ensures { OnOk result (out.new ≡ out.old ++ to_be_bytes w16 n) }
{
    out.extend(&n.to_be_bytes())
}

/// Writes a number of four bytes, the high byte first.
pub fn put_u32(n: u32, out: &mut Seq<u8>) -> Result<(), AllocError>
    ensures { OnOk result (out.new ≡ out.old ++ to_be_bytes w32 n) }
{
    out.extend(&n.to_be_bytes())
}

/// Writes a number of eight bytes, the high byte first.
pub fn put_u64(n: u64, out: &mut Seq<u8>) -> Result<(), AllocError>
    ensures { OnOk result (out.new ≡ out.old ++ to_be_bytes w64 n) }
{
    out.extend(&n.to_be_bytes())
}

/// Writes a byte in two's complement.
pub fn put_i8(n: i8, out: &mut Seq<u8>) -> Result<(), AllocError>
    ensures { OnOk result (out.new ≡ out.old ++ to_be_bytes w8 (cast_unsigned w8 n)) }
{
    out.extend(&n.to_be_bytes())
}

/// Writes a number of two bytes in two's complement, the high byte first.
pub fn put_i16(n: i16, out: &mut Seq<u8>) -> Result<(), AllocError>
    ensures { OnOk result (out.new ≡ out.old ++ to_be_bytes w16 (cast_unsigned w16 n)) }
{
    out.extend(&n.to_be_bytes())
}

/// Writes a number of four bytes in two's complement, the high byte first.
pub fn put_i32(n: i32, out: &mut Seq<u8>) -> Result<(), AllocError>
    ensures { OnOk result (out.new ≡ out.old ++ to_be_bytes w32 (cast_unsigned w32 n)) }
{
    out.extend(&n.to_be_bytes())
}

/// What writes a value behind the bytes that stand already.
pub trait Writer {
    type Item;

    /// The bytes of a value.
    ghost spells: { Self → Self.Item → List ℕ };

    /// Whether a value has a spelling.
    ghost fits: { Self → Self.Item → Bool };

    fn write(&self, alloc: Global, item: &Self::Item, out: &mut Seq<u8>) -> Result<(), AllocError>
        requires { IsTrue (fits self.now item.now) }
        ensures { OnOk result (out.new ≡ out.old ++ spells self.now item.now) };
}

/// Writes values one behind the other.
pub fn put_each<W: Writer>(
    alloc: Global,
    writer: &W,
    items: &[W::Item],
    out: &mut Seq<u8>,
) -> Result<(), AllocError>
    requires { IsTrue (list_all (W.fits writer.now) items.now) }
    ensures { OnOk result (out.new ≡ out.old ++ flat_map (W.spells writer.now) items.now) }
{
    for item in items {
        writer.write(alloc, item, out)?;
    }
    Ok(())
}

/// Writes values behind their number, which has two bytes.
pub fn put_counted<W: Writer>(
    alloc: Global,
    writer: &W,
    items: &[W::Item],
    out: &mut Seq<u8>,
) -> Result<(), AllocError>
    requires { IsTrue (list_all (W.fits writer.now) items.now && nat_lt (length items.now) 65536) }
    ensures { OnOk result (out.new ≡ out.old ++ (to_be_bytes w16 (length items.now) ++ flat_map (W.spells writer.now) items.now)) }
{
    put_u16(items.len() as u16, out)?;
    put_each(alloc, writer, items, out)
}

/// Writes a value behind the number of its bytes, which has four bytes.
pub fn put_block<W: Writer>(
    alloc: Global,
    writer: &W,
    item: &W::Item,
    out: &mut Seq<u8>,
) -> Result<(), AllocError>
    requires { IsTrue (W.fits writer.now item.now && nat_lt (length (W.spells writer.now item.now)) 4294967296) }
    ensures { OnOk result (out.new ≡ out.old ++ (to_be_bytes w32 (length (W.spells writer.now item.now)) ++ W.spells writer.now item.now)) }
{
    let mut text = Seq::new(alloc);
    writer.write(alloc, item, &mut text)?;
    put_u32(text.as_slice().len() as u32, out)?;
    put_bytes(text.as_slice(), out)
}

/// Writes bytes behind their number, which has two bytes.
pub fn put_sized16(text: &[u8], out: &mut Seq<u8>) -> Result<(), AllocError>
    requires { IsTrue (list_all (λ b. nat_lt b 256) text.now && nat_lt (length text.now) 65536) }
    ensures { OnOk result (out.new ≡ out.old ++ (to_be_bytes w16 (length text.now) ++ text.now)) }
{
    put_u16(text.len() as u16, out)?;
    put_bytes(text, out)
}

/// Writes bytes behind their number, which has four bytes.
pub fn put_sized32(text: &[u8], out: &mut Seq<u8>) -> Result<(), AllocError>
    requires { IsTrue (list_all (λ b. nat_lt b 256) text.now && nat_lt (length text.now) 4294967296) }
    ensures { OnOk result (out.new ≡ out.old ++ (to_be_bytes w32 (length text.now) ++ text.now)) }
{
    put_u32(text.len() as u32, out)?;
    put_bytes(text, out)
}

/// What writes a value by a state that the earlier ones made.
pub trait StateWriter {
    type State: Copy;

    type Item;

    /// The bytes of a value at a state.
    ghost spells: { Self → Self.State → Self.Item → List ℕ };

    /// Whether a value has a spelling at a state.
    ghost fits: { Self → Self.State → Self.Item → Bool };

    /// The state behind a value.
    ghost goes_to: { Self → Self.State → Self.Item → Self.State };

    fn write(
        &self,
        alloc: Global,
        state: Self::State,
        item: &Self::Item,
        out: &mut Seq<u8>,
    ) -> Result<(), AllocError>
        requires { IsTrue (fits self.now state item.now) }
        ensures { OnOk result (out.new ≡ out.old ++ spells self.now state item.now) };

    fn next(&self, state: Self::State, item: &Self::Item) -> Self::State
        requires { IsTrue (fits self.now state item.now) }
        ensures { result ≡ goes_to self.now state item.now };
}

/// Writes values one behind the other, each by the state that the earlier ones made.
pub fn put_by<W: StateWriter>(
    alloc: Global,
    writer: &W,
    first: W::State,
    items: &[W::Item],
    out: &mut Seq<u8>,
) -> Result<(), AllocError>
    requires { IsTrue (fits_from (W.fits writer.now) (W.goes_to writer.now) first items.now) }
    ensures { OnOk result (out.new ≡ out.old ++ spell_from (W.spells writer.now) (W.goes_to writer.now) first items.now) }
{
    let mut state = first;
    for item in items {
        writer.write(alloc, state, item, out)?;
        state = writer.next(state, item);
    }
    Ok(())
}
