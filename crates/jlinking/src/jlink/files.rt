ghost use Rattle.jlinking.specs.jlink.ProgramFiles.{AreFiles};

use crate::jlink::linked::LinkedProgram;

/// Each part of a program is a class file: it was read as one.
pub fn are_files(p: &LinkedProgram)
    ensures { AreFiles p.now }
{
    for part in p.parts() {
        // What the proof needs: each part is a class file.
        let _parts = part.class.parts();
    }
}
