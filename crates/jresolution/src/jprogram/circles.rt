ghost use Rattle.std.specs.Prelude.{◌≡◌, ◌++◌, false, IfOk, OnOk, length, option_and_then, option_map, replicate};
ghost use Rattle.std.specs.Option.{option_to_list};
ghost use Rattle.jresolution.specs.jprogram.DirectSupers;
ghost use Rattle.jresolution.specs.jprogram.ProgramClasses;
ghost use Rattle.jresolution.specs.jprogram.InterfaceSearch.{waiting_names};
ghost use Rattle.jresolution.specs.jprogram.FoundClasses.{seen};
ghost use Rattle.jresolution.specs.jprogram.SuperChecks;

use crate::jprogram::classes::NamedProgram;
use crate::jprogram::fault::LinkKind;
use crate::jprogram::found_class::FoundClass;
use crate::jprogram::parts::this_name;
use crate::jprogram::searching::put_faces_of;
use jclass::ClassParts;
use jground::jbase::Seq;
use std::alloc::{AllocError, Global};

fn put_above<'a>(waiting: &mut Vec<&'a [u8]>, above: Option<&'a [u8]>) -> Result<(), AllocError>
    ensures { OnOk result
        (waiting_names waiting.new.items ≡ option_to_list (option_map (λ name. name.now) above.entry) ++ waiting_names waiting.old.items) }
{
    match above {
        Some(above) => {
            waiting.push(above)?;
            Ok(())
        }
        None => Ok(()),
    }
}

fn above_of<'a>(class: Option<FoundClass<'a>>) -> Option<&'a [u8]>
    ensures { option_map (λ name. name.now) result ≡ option_and_then ProgramClasses.above (option_map seen class.entry) }
{
    match class {
        Some(class) => class.above(),
        None => None,
    }
}

/// Puts the class above a class and the interfaces that it lists in front of those that are waiting.
fn put_supers<'a>(
    waiting: &mut Vec<&'a [u8]>,
    class: Option<FoundClass<'a>>,
) -> Result<(), AllocError>
    ensures { OnOk result
        (waiting_names waiting.new.items ≡ DirectSupers.supers_of (option_map seen class.entry) ++ waiting_names waiting.old.items) }
{
    put_faces_of(waiting, class)?;
    put_above(waiting, above_of(class))
}

impl NamedProgram {
    fn none_marked(&self, alloc: Global) -> Result<Seq<bool>, AllocError>
        ensures { IfOk result (λ marks. marks ≡ replicate (length self.now.parts) false) }
    {
        let marks = vec![in alloc; false; self.parts().len()]?;
        Ok(Seq::from_vec(marks))
    }

    /// Whether the first name is that of a class or an interface that stands above the class of the second. Each is gone through once.
    fn is_reached<'a>(&'a self, alloc: Global, d: &[u8], c: &[u8]) -> Result<bool, AllocError>
        ensures { IfOk result (λ b. b ≡ ProgramClasses.reaches self.now (length (ProgramClasses.known self.now)) d.now c.now) }
    {
        let mut closed = self.none_marked(alloc)?;
        let mut waiting: Vec<&'a [u8]> = Vec::new(alloc);
        put_supers(&mut waiting, self.find(c))?;
        while let Some(next) = waiting.pop() {
            if d == next {
                return Ok(true);
            }
            if self.is_closed(closed.as_slice(), next) {
                continue;
            }
            self.close(&mut closed, next);
            put_supers(&mut waiting, self.find(next))?;
        }
        Ok(false)
    }

    /// Circular where a class stands among its own superclasses and superinterfaces. That takes a mark a part.
    #[tactic(auto, unfolding(crate::specs::jprogram::SuperChecks::circle_test))]
    pub fn circle_test(
        &self,
        alloc: Global,
        class: &ClassParts,
    ) -> Result<Option<LinkKind>, AllocError>
        ensures { IfOk result (λ o. o ≡ SuperChecks.circle_test self.now class.now) }
    {
        let name = this_name(class);
        if self.is_reached(alloc, name, name)? {
            return Ok(Some(LinkKind::Circular));
        }
        Ok(None)
    }
}
