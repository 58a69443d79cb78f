ghost use Rattle.std.specs.Prelude.{◌≡◌, ◌≤◌, ◌+◌, IsTrue, OnOk, length, map};
ghost use Rattle.jgen.specs.ClassFileItems as items;
ghost use Rattle.jgen.specs.ClassFileItems.{has_room, have_room, item_of, most, most_of, with_item, with_items};

use crate::adding::{put_class, put_field, put_method, put_string, put_text};
use crate::class_file_item::ClassFileItem;
use jadder::Adder;
use jground::jbase::Seq;
use jground::jformat::{put_u8, put_u16, put_u32};
use std::alloc::{AllocError, Global};

/// A class file under way: its pool, and what stands behind it.
#[rattlefmt::skip]
#[derive(Drop)]
pub struct Draft { pub pool: Adder, pub body: Seq<u8> }

fn put_text_index(alloc: Global, text: &[u8], draft: &mut Draft) -> Result<(), AllocError>
    requires short { length text.now ≤ 0xffff }
    requires room { length draft.old.pool + 1 ≤ 0xffff }
    ensures value { OnOk result (draft.new ≡ with_item (items.Text text.now) draft.old) }
    ensures few { OnOk result (length draft.new.pool ≤ length draft.old.pool + 1) }
{
    let i = put_text(alloc, &mut draft.pool, text)?;
    put_u16(i, &mut draft.body)
}

fn put_class_index(alloc: Global, name: &[u8], draft: &mut Draft) -> Result<(), AllocError>
    requires short { length name.now ≤ 0xffff }
    requires room { length draft.old.pool + 2 ≤ 0xffff }
    ensures value { OnOk result (draft.new ≡ with_item (items.Class name.now) draft.old) }
    ensures few { OnOk result (length draft.new.pool ≤ length draft.old.pool + 2) }
{
    let i = put_class(alloc, &mut draft.pool, name)?;
    put_u16(i, &mut draft.body)
}

fn put_field_index(
    alloc: Global,
    class: &[u8],
    name: &[u8],
    text: &[u8],
    draft: &mut Draft,
) -> Result<(), AllocError>
    requires class { length class.now ≤ 0xffff }
    requires name { length name.now ≤ 0xffff }
    requires text { length text.now ≤ 0xffff }
    requires room { length draft.old.pool + 6 ≤ 0xffff }
    ensures value { OnOk result (draft.new ≡ with_item (items.Field class.now name.now text.now) draft.old) }
    ensures few { OnOk result (length draft.new.pool ≤ length draft.old.pool + 6) }
{
    let i = put_field(alloc, &mut draft.pool, class, name, text)?;
    put_u16(i, &mut draft.body)
}

fn put_method_index(
    alloc: Global,
    class: &[u8],
    name: &[u8],
    text: &[u8],
    draft: &mut Draft,
) -> Result<(), AllocError>
    requires class { length class.now ≤ 0xffff }
    requires name { length name.now ≤ 0xffff }
    requires text { length text.now ≤ 0xffff }
    requires room { length draft.old.pool + 6 ≤ 0xffff }
    ensures value { OnOk result (draft.new ≡ with_item (items.Method class.now name.now text.now) draft.old) }
    ensures few { OnOk result (length draft.new.pool ≤ length draft.old.pool + 6) }
{
    let i = put_method(alloc, &mut draft.pool, class, name, text)?;
    put_u16(i, &mut draft.body)
}

/// Puts a string's index in one byte.
fn put_string_index(alloc: Global, text: &[u8], draft: &mut Draft) -> Result<(), AllocError>
    requires short { length text.now ≤ 0xffff }
    requires room { length draft.old.pool + 2 ≤ 0xff }
    ensures value { OnOk result (draft.new ≡ with_item (items.Str text.now) draft.old) }
    ensures few { OnOk result (length draft.new.pool ≤ length draft.old.pool + 2) }
{
    let i = put_string(alloc, &mut draft.pool, text)?;
    put_u8(i as u8, &mut draft.body)
}

/// Puts an item behind the others.
#[tactic(auto, unfolding(crate::specs::ClassFileItems::with_item))]
fn put_piece(alloc: Global, piece: ClassFileItem<'_>, draft: &mut Draft) -> Result<(), AllocError>
    requires { IsTrue (has_room (length draft.old.pool) (item_of piece)) }
    ensures value { OnOk result (draft.new ≡ with_item (item_of piece.entry) draft.old) }
    ensures few { OnOk result (length draft.new.pool ≤ length draft.old.pool + most (item_of piece.entry)) }
{
    match piece {
        ClassFileItem::U1(n) => put_u8(n, &mut draft.body),
        ClassFileItem::U2(n) => put_u16(n, &mut draft.body),
        ClassFileItem::U4(n) => put_u32(n, &mut draft.body),
        ClassFileItem::Text(text) => put_text_index(alloc, text, draft),
        ClassFileItem::Class(name) => put_class_index(alloc, name, draft),
        ClassFileItem::Field(class, name, text) => put_field_index(alloc, class, name, text, draft),
        ClassFileItem::Method(class, name, text) => put_method_index(
            alloc, class, name, text, draft,
        ),
        ClassFileItem::Str(text) => put_string_index(alloc, text, draft),
    }
}

/// Puts items behind the others.
pub fn put_pieces(
    alloc: Global,
    pieces: &[ClassFileItem<'_>],
    draft: &mut Draft,
) -> Result<(), AllocError>
    requires { IsTrue (have_room (length draft.old.pool) (map item_of pieces.now)) }
    ensures value { OnOk result (draft.new ≡ with_items (map item_of pieces.now) draft.old) }
    ensures few { OnOk result (length draft.new.pool ≤ length draft.old.pool + most_of (map item_of pieces.now)) }
{
    for piece in pieces {
        put_piece(alloc, *piece, draft)?;
    }
    Ok(())
}
