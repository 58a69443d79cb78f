ghost use Rattle.std.specs.Prelude.{◌≡◌, ◌++◌, ◌∷◌, [], IfOk, OnOk, if◌then◌else◌};
ghost use Rattle.std.specs.List.{filter};
ghost use Rattle.jclass.specs.MemberFormat;
ghost use Rattle.jmoveclass.specs.KeptAttributes;

use jclass::{Attribute, is_text};
use jground::jbase::Seq;
use jparts::jpool::Pool;
use std::alloc::{AllocError, Global};

fn name_of(one: &Attribute) -> u16
    ensures { result ≡ MemberFormat.attribute_name one.now }
{
    match one {
        Attribute::ConstantValue { name, .. } => *name,
        Attribute::Code { name, .. } => *name,
        Attribute::Raw { name, .. } => *name,
    }
}

/// Whether a moved class keeps an attribute of its class.
#[tactic(auto, unfolding(crate::specs::KeptAttributes::class_keeps))]
fn class_keeps(pool: &Pool, one: &Attribute) -> bool
    ensures { result ≡ KeptAttributes.class_keeps pool.now one.now }
{
    let text = pool.utf8(name_of(one));
    is_text(text, b"SourceFile")
        || is_text(text, b"InnerClasses")
        || is_text(text, b"Deprecated")
        || is_text(text, b"Synthetic")
}

/// Whether a moved method keeps an attribute of its method that isn't its code.
#[tactic(auto, unfolding(crate::specs::KeptAttributes::method_keeps))]
pub fn method_keeps(pool: &Pool, one: &Attribute) -> bool
    ensures { result ≡ KeptAttributes.method_keeps pool.now one.now }
{
    let text = pool.utf8(name_of(one));
    is_text(text, b"Exceptions") || is_text(text, b"Deprecated") || is_text(text, b"Synthetic")
}

fn put_kept(
    alloc: Global,
    pool: &Pool,
    one: &Attribute,
    kept: &mut Seq<Attribute>,
) -> Result<(), AllocError>
    ensures { OnOk result (kept.new ≡ kept.old ++ filter (KeptAttributes.class_keeps pool.now) (one.now ∷ [])) }
{
    if class_keeps(pool, one) {
        let same = one.copy(alloc)?;
        kept.push(same)?;
    }
    Ok(())
}

/// The attributes of a class that its moved class keeps, in their order.
pub fn kept_of_class(
    alloc: Global,
    pool: &Pool,
    attributes: &[Attribute],
) -> Result<Seq<Attribute>, AllocError>
    ensures { IfOk result (λ kept. kept ≡ filter (KeptAttributes.class_keeps pool.now) attributes.now) }
{
    let mut kept = Seq::new(alloc);
    for one in attributes {
        put_kept(alloc, pool, one, &mut kept)?;
    }
    Ok(kept)
}
