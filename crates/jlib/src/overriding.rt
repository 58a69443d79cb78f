ghost use Rattle.std.specs.Prelude.{◌≡◌};
ghost use Rattle.jlib.specs.LibraryMembers;

use crate::calls::LibCall;
use crate::classes::{LibClass, Thrown};

impl LibClass {
    /// Whether it is open and declares a concrete method of this name and descriptor, which users' classes below it may not
    /// declare. Throwable's `getMessage` is the only one.
    pub fn fixes(self, name: &[u8], desc: &[u8]) -> bool
        ensures { result ≡ LibraryMembers.fixes name.now desc.now self }
    {
        match self {
            LibClass::Thrown(Thrown::Throwable) => LibCall::GetMessage.is_called(name, desc),
            _ => false,
        }
    }

    /// Whether it or a class above it fixes the method of this name and descriptor.
    pub fn has_fixed(self, name: &[u8], desc: &[u8]) -> bool
        ensures { result ≡ LibraryMembers.has_fixed name.now desc.now self }
    {
        if self.fixes(name, desc) {
            return true;
        }
        match self.superclass() {
            Some(above) => above.has_fixed(name, desc),
            None => false,
        }
    }
}
