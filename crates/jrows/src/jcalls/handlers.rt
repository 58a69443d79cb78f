ghost use Rattle.std.specs.Prelude.{◌≡◌, ℕ, Option};
ghost use Rattle.jresolution.specs.declared.jprogram.member.MethodId.{MethodId};

use jresolution::jprogram::MethodId;

/// Where methods go on that handle something that is thrown.
pub trait Handlers {
    /// Where a method goes on that handles it, if it is thrown at a place of the method.
    ghost goes: { Self → MethodId → ℕ → Option ℕ };

    /// Where a method goes on that handles it, if it is thrown at a place of the method.
    fn find(&self, method: MethodId, place: u32) -> Option<u32>
        ensures { result ≡ goes self.now method place };
}
