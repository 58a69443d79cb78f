ghost use Rattle.std.specs.Prelude.{◌≡◌, ◌<◌, ◌≤◌, IfOk, length};
ghost use Rattle.jresolution.specs.jlayout.LayoutTables.{AreLayouts};
ghost use Rattle.jsemantics.specs.jmachine.World.{can_be_thrown, world};
ghost use Rattle.jready.specs.ClassShapes.{AreShapes, IsShape};

use crate::tables::next_number;
use jground::jbase::Seq;
use jlib::{LibClass, Thrown};
use jlinking::jlink::LinkedProgram;
use jresolution::jlayout::Layouts;
use jresolution::jprogram::ClassRef;
use jresolution::juses::stands_below;
use std::alloc::{AllocError, Global};

/// What the objects of a user's class hold.
#[derive(Clone, Copy, Debug)]
pub struct Shape {
    /// How many fields they have, those of the classes above their own included.
    pub fields: u32,
    /// They can be thrown, so that they have a message.
    pub message: bool,
}

#[tactic(auto, unfolding(jsemantics::specs::jmachine::World::world))]
fn has_message(p: &LinkedProgram, class: u32) -> bool
    ensures { result ≡ can_be_thrown (world p.now) ((world p.now).named class) }
{
    let throwable = ClassRef::Lib(LibClass::Thrown(Thrown::Throwable));
    stands_below(p.named(), ClassRef::User(class), throwable)
}

#[tactic(auto, using(crate::proofs::ClassShapes::fields_are, crate::proofs::ClassShapes::fields_there))]
fn fields_in(p: &LinkedProgram, layouts: &Layouts, class: u32) -> u32
    requires layouts { AreLayouts p.now layouts.now }
    requires there { class < length p.now.parts }
    ensures { result ≡ length ((world p.now).layout class) }
{
    match layouts.field_count(class) {
        Some(count) => count,
        None => unreachable!(),
    }
}

fn shape_of(p: &LinkedProgram, layouts: &Layouts, class: u32) -> Shape
    requires layouts { AreLayouts p.now layouts.now }
    requires there { class < length p.now.parts }
    ensures { IsShape p.now class result }
{
    Shape {
        fields: fields_in(p, layouts, class),
        message: has_message(p, class),
    }
}

/// What the objects of each user's class hold, by its place.
pub(crate) fn shapes_of(
    alloc: Global,
    p: &LinkedProgram,
    layouts: &Layouts,
) -> Result<Seq<Shape>, AllocError>
    requires { AreLayouts p.now layouts.now }
    ensures { IfOk result (AreShapes p.now) }
{
    let mut shapes = Seq::new(alloc);
    for k in 0..p.parts().len() {
        let class = next_number(k)?;
        shapes.push(shape_of(p, layouts, class))?;
    }
    Ok(shapes)
}
