ghost use Rattle.std.specs.Prelude.{◌≡◌, map};
ghost use Rattle.std.specs.List.{list_any};
ghost use Rattle.jtyping.specs.jrule.TypeSubstitution;
ghost use Rattle.jtyping.specs.jrule.TypeSubstitution.{is_for, swapped};

use jresolution::juses::TypeRef;

/// An object on which no `<init>` was called yet (JVMS 4.10.1.2).
#[derive(Clone, Copy, Debug, PartialEq, Eq)]
pub enum Unready {
    /// `this` of an `<init>`.
    This,
    /// What the `new` at this place made.
    New(u16),
}

impl Unready {
    /// Whether a type stands for it.
    fn is_for(self, t: TypeRef) -> bool
        ensures { result ≡ is_for self t }
    {
        match self {
            Unready::This => matches!(t, TypeRef::UninitThis),
            Unready::New(o) => match t {
                TypeRef::Uninit(at) => at == o,
                _ => false,
            },
        }
    }

    /// Whether one of the types stands for it.
    pub(crate) fn is_among(self, types: &[TypeRef]) -> bool
        ensures { result ≡ list_any (is_for self) types.now }
    {
        for t in types {
            if self.is_for(*t) {
                return true;
            }
        }
        false
    }

    fn swapped(self, new: TypeRef, t: TypeRef) -> TypeRef
        ensures { result ≡ swapped self new t }
    {
        if self.is_for(t) {
            return new;
        }
        t
    }

    /// The types with another one for each that stands for it.
    pub(crate) fn all_swapped(self, new: TypeRef, mut types: Vec<TypeRef>) -> Vec<TypeRef>
        ensures { result.items ≡ map (swapped self new) types.items }
    {
        for i in 0..types.len() {
            types[i] = self.swapped(new, types[i]);
        }
        types
    }
}
