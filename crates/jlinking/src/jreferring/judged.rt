use jresolution::jprogram::LinkKind;

/// What an entry of a pool stands for, seen from the class that has it (JVMS 4.4).
#[derive(Clone, Copy, Debug)]
pub enum Judged {
    /// An int or a string.
    Constant,
    LongConstant,
    Class(ClassUse),
    Member(MemberUse),
    /// Anything else. No instruction may use it.
    Other,
}

/// What a Class entry may be used for.
#[derive(Clone, Copy, Debug)]
pub struct ClassUse {
    /// The class that it names isn't there, or may not be named.
    pub names: Option<LinkKind>,
    /// It may be neither an operand nor a catch type.
    pub barred: bool,
    /// It may not stand in a frame.
    pub barred_item: bool,
    /// It has no objects: an array, an abstract class or an interface.
    pub unmade: bool,
}

/// What the class that a reference names may be used for.
#[derive(Clone, Copy, Debug)]
pub struct OwnerUse {
    /// It isn't there, or may not be named.
    pub names: Option<LinkKind>,
    /// It is an array.
    pub array: bool,
    pub interface: bool,
    /// It is the class from which it is seen, or stands above it.
    pub upward: bool,
}

/// What the descriptor that a reference names may be used for.
#[derive(Clone, Copy, Debug)]
pub struct DescUse {
    /// The first class that it names and that isn't there, or may not be named.
    pub names: Option<LinkKind>,
    /// It has a context where none may stand.
    pub misplaced: bool,
    /// It has one where none may stand even in the one method that returns a context.
    pub misplaced_at_enter: bool,
    /// The slots of the arguments, where it is of a method.
    pub slots: Option<usize>,
}

/// Which kind of entry a reference is.
#[rattlefmt::skip]
#[derive(Clone, Copy, Debug)]
pub enum Sort { Field, Method, InterfaceMethod }

/// What a reference to a field or a method may be used for.
#[derive(Clone, Copy, Debug)]
pub struct MemberUse {
    /// The first class that it names and that isn't there, or may not be named.
    pub names: Option<LinkKind>,
    /// It is of an array, or has a context where none may stand.
    pub barred: bool,
    /// It is an InterfaceMethodref.
    pub of_interface: bool,
    /// It is a Methodref of an interface, or an InterfaceMethodref of a class.
    pub crossed: bool,
    /// Its class is the one from which it is seen, or stands above it.
    pub upward: bool,
    /// It names a constructor.
    pub init: bool,
    /// The slots of the arguments, where it is of a method.
    pub slots: Option<usize>,
    /// The member that it stands for, if there is one.
    pub member: Option<MemberFacts>,
}

/// What a member may be used for.
#[derive(Clone, Copy, Debug)]
pub struct MemberFacts {
    /// The class may use it.
    pub allowed: bool,
    /// It is a final field of another class.
    pub fixed: bool,
    pub is_static: bool,
    pub is_private: bool,
}
