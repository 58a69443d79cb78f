ghost use Rattle.std.specs.Prelude.{◌≡◌, ℕ, Option};
ghost use Rattle.jresolution.specs.declared.jprogram.part.ClassRef.{ClassRef};

use jresolution::jprogram::ClassRef;
use jresolution::juses::TypeRef;

/// What the rule has to know of the place where an instruction stands, classes and types by number.
#[derive(Clone, Copy, Debug)]
pub struct TypingContext {
    /// The place of its class among the parts.
    pub class: u32,
    /// The class that this one extends.
    pub above: Option<ClassRef>,
    /// The method is an `<init>`, and not a static one.
    pub is_init: bool,
    /// The type of what the method returns.
    pub returns: Option<TypeRef>,
    pub max_stack: u16,
    /// The place among the bytes of the code.
    pub at: u16,
    /// A handler covers it.
    pub covered: bool,
}

impl TypingContext {
    /// The class.
    pub fn this(&self) -> ClassRef
        ensures { result ≡ ClassRef.User self.now.class }
    {
        ClassRef::User(self.class)
    }
}

/// The `new` instructions of a method.
pub trait News {
    /// The class of what the `new` at a place makes.
    ghost makes: { Self → ℕ → Option ClassRef };

    /// The class of what the `new` at a place makes; none where no `new` stands.
    fn made_at(&self, at: u16) -> Option<ClassRef>
        ensures { result ≡ makes self.now at };
}
