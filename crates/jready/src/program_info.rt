ghost use Rattle.std.specs.Prelude.{◌≡◌, ◌+◌, ◌<◌, length};
ghost use Rattle.jready.specs.MethodNumbers.{AreFirsts, count_at, methods_before};

use jlinking::jlink::LinkedProgram;
use jresolution::jlayout::Layouts;
use jresolution::jprogram::MethodId;
use jresolution::juses::Uses;

/// What is known of a program before its instructions are looked at.
#[derive(Clone, Copy)]
pub(crate) struct ProgramInfo<'a> {
    pub p: &'a LinkedProgram,
    pub uses: &'a Uses,
    /// Where its fields stand.
    pub layouts: &'a Layouts,
    /// Of each class the number of its first method.
    pub methods: &'a [u32],
}

/// The number of a user's method.
pub(crate) fn number_at(p: &LinkedProgram, methods: &[u32], m: MethodId) -> u32
    requires { AreFirsts p.now methods.now }
    ensures { m.class < length p.now.parts → m.method < count_at p.now m.class → result ≡ methods_before p.now m.class + m.method }
{
    let Some(first) = methods.get(m.class as usize) else {
        return 0;
    };
    match first.checked_add(m.method) {
        Some(number) => number,
        None => 0,
    }
}
