ghost use Rattle.std.specs.Prelude.{◌≡◌};
ghost use Rattle.jtypes.specs.declared.vtype.VType.TheVariants.{Object};
ghost use Rattle.jtypes.specs.Assignability.{array_fits, class_fits, element_fits, fits, is_above_arrays};
ghost use Rattle.jtypes.specs.ProofNames.{is_above_array};

use crate::ancestry::Ancestry;
use crate::vtype::{ArrayType, Element, Name, VType};

/// Whether every array fits the class or interface of this name.
fn is_above_arrays(c: &Name) -> bool
    ensures { result ≡ is_above_arrays c.now }
{
    let name = c.0.as_slice();
    name == b"java/lang/Object".as_slice()
        || name == b"java/lang/Cloneable".as_slice()
        || name == b"java/io/Serializable".as_slice()
}

/// Whether an object of the first name's class fits the second name.
fn class_fits<N: Ancestry>(n: &N, c: &Name, d: &Name) -> bool
    ensures { result ≡ class_fits (N.tree n.now) c.now d.now }
{
    if n.is_interface(d) {
        return true;
    }
    n.extends(c, d)
}

/// Whether every array fits what an array of one dimension and this element holds.
fn is_above_array(x: &Element) -> bool
    ensures { result ≡ is_above_array is_above_arrays x.now }
{
    match x {
        Element::Class(c) => is_above_arrays(c),
        _ => false,
    }
}

/// Whether what an array of one dimension holds fits what another one holds.
fn element_fits<N: Ancestry>(n: &N, x: &Element, y: &Element) -> bool
    ensures { result ≡ element_fits (N.tree n.now) x.now y.now }
{
    match y {
        Element::Boolean => matches!(x, Element::Boolean),
        Element::Char => matches!(x, Element::Char),
        Element::Byte => matches!(x, Element::Byte),
        Element::Short => matches!(x, Element::Short),
        Element::Int => matches!(x, Element::Int),
        Element::Long => matches!(x, Element::Long),
        Element::Class(d) => match x {
            Element::Class(c) => class_fits(n, c, d),
            _ => false,
        },
    }
}

/// Whether an array fits another. With fewer dimensions it doesn't; with more of them what the other holds has to be what every
/// array fits.
fn array_fits<N: Ancestry>(n: &N, a: &ArrayType, b: &ArrayType) -> bool
    ensures { result ≡ array_fits is_above_arrays (N.tree n.now) a.now.depth a.now.element b.now.depth b.now.element }
{
    if a.depth < b.depth {
        return false;
    }
    if a.depth > b.depth {
        return is_above_array(&b.element);
    }
    element_fits(n, &a.element, &b.element)
}

/// Whether a value of a type fits the class or interface of a name.
fn object_fits<N: Ancestry>(n: &N, a: &VType, d: &Name) -> bool
    ensures { result ≡ fits (N.tree n.now) a.now (Object d.now) }
{
    match a {
        VType::Null => true,
        VType::Object(c) => class_fits(n, c, d),
        VType::Array(_) => is_above_arrays(d),
        _ => false,
    }
}

/// Whether a value of the first type may stand where one of the second is wanted (JVMS 4.10.1.2). It takes no memory.
pub fn fits<N: Ancestry>(n: &N, a: &VType, b: &VType) -> bool
    ensures { result ≡ fits (N.tree n.now) a.now b.now }
{
    match b {
        VType::Top => true,
        VType::Int => matches!(a, VType::Int),
        VType::Long => matches!(a, VType::Long),
        VType::Null => matches!(a, VType::Null),
        VType::UninitThis => matches!(a, VType::UninitThis),
        VType::Uninit(p) => match a {
            VType::Uninit(o) => o == p,
            _ => false,
        },
        VType::Object(d) => object_fits(n, a, d),
        VType::Array(y) => match a {
            VType::Null => true,
            VType::Array(x) => array_fits(n, x, y),
            _ => false,
        },
        VType::Ctx => matches!(a, VType::Ctx),
    }
}
