ghost use Rattle.std.specs.Prelude.{◌≡◌, IsTrue};
ghost use Rattle.jclass.specs.Class.{class_file};

use crate::class::ClassParts;
use std::marker::Model;

/// A class file (JVMS 4.1): parts that some bytes spell. Contracts see it as its parts.
#[derive(Debug, Drop)]
pub struct ClassFile {
    parts: ClassParts,
}

impl Model for ClassFile {
    ghost use Rattle.std.specs.Prelude.{IsTrue};
    ghost use Rattle.jclass.specs.declared.class.ClassParts.{ClassParts};
    ghost use Rattle.jclass.specs.Class.{class_file};

    ghost Value = { ClassParts };

    ghost view = { λ c. c.parts };

    ghost invariant = { λ c. IsTrue (class_file.fits c.parts) };
}

impl ClassFile {
    /// The class file of parts that meet the demands on a class file.
    pub fn from_parts(parts: ClassParts) -> ClassFile
        requires { IsTrue (class_file.fits parts) }
        ensures { result ≡ parts }
    {
        ClassFile { parts }
    }

    /// The parts, lent.
    pub fn parts(&self) -> &ClassParts
        ensures same { result.now ≡ self.now }
        ensures kept { IsTrue (class_file.fits self.now) }
    {
        &self.parts
    }

    /// The parts. It takes no memory.
    pub fn into_parts(self) -> ClassParts
        ensures same { result ≡ self }
        ensures kept { IsTrue (class_file.fits self) }
    {
        self.parts
    }
}
