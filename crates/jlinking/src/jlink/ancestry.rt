ghost use Rattle.jlinking.specs.jlink.ClassOrder.{below_object, chain, interfaces, itself};

use crate::jlink::linked::LinkedProgram;
use jtypes::{Ancestry, Name};

impl Ancestry for LinkedProgram {
    ghost use Rattle.jresolution.specs.jprogram.ProgramClasses.{tree};
    ghost use Rattle.jlinking.specs.jlink.LinkedPrograms.{Links};

    ghost tree = { tree };

    ghost valid = { Links };

    fn is_interface(&self, c: &Name) -> bool {
        self.named().is_interface(c.0.as_slice())
    }

    fn extends(&self, c: &Name, d: &Name) -> bool {
        self.named().extends(c.0.as_slice(), d.0.as_slice())
    }

    ghost reflexive = { λ p c. itself p c };

    ghost transitive = { λ p c d e links first second. chain p c d e links first second };

    ghost below_object = { λ p c d links at. below_object p c d at };

    ghost above_interface = { λ p links. interfaces p links };
}
