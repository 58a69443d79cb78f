//! The library, on the side that programs are written for and on the side that they are moved to, without memory: `class` and `member`
//! by the names and descriptors of class files; what users may not override.
//!
//! - `LibraryClasses`: a row a class (name, superclass, kind, what it implements, sides), and what the rows say: the open classes, the classes
//!   above one, its height.
//! - `LibraryMembers`: a row a member (class, name, descriptor, kind, sides), the members of a class, what users may not override.
//! - `NamePrefixes`: how the names of all classes begin, so that other names aren't looked for.
//! - `LibraryPlaces`: where a table has a class by its name's length and two of its bytes, no two in one place, so that a name is compared
//!   with one class.
//!
//! Proved: what is found is exactly by these tables; `class_laws`: names are unique, a superclass is no interface, of both sides and of
//! smaller height, so that chains end in Object, and what is implemented is an interface of both sides; `call_laws`: a member is found
//! exactly by its class, name and descriptor; `fixes`, `has_fixed`, `open_classes` are their definitions.
#![tactic(auto)]

mod calls;
mod class_row;
mod classes;
mod laws;
mod lookup;
mod member_row;
mod members;
mod overriding;
mod side;
mod table;

pub use calls::{
    BuilderCall, ControllerCall, LibCall, PermissionInit, PrintedType, RtCall, StringCall,
    ThreadCall, ThrownInit,
};
pub use classes::{LIBRARY_CLASSES, LibClass, PermissionClass, Thrown};
pub use laws::{call_laws, class_laws};
pub use lookup::{class, open_classes};
pub use members::{member, member_in};
pub use side::Side;
