//! A program as a list of classes with their domains, beside the library of its side, and its look-ups by name. Linking stands on it.
//!
//! - `ClassFileParts`: what a class file's parts say by its pool; a text that isn't there is empty.
//! - `ProgramClasses`: a class is found, users' first; what stands above it, its interfaces, directly and through others; what extends and
//!   implements what. Walks end by the number of known classes, circles or not.
//! - `MemberResolution`: resolution of fields and methods (JVMS 5.4.3), access (5.4.4), overriding (5.4.5), selection (5.4.6), `main`.
//! - `NameTable`: the table of users' names.
//! - `FoundClasses`: what a class that was found is.
//! - `InterfaceSearch`: what a search of interfaces goes through, each once.
//! - `OverrideChains`: overriding and selection computed along a chain, by what the code does.
//! - `NameChecks`, `SuperChecks`: the first two phases of linking, names and superclasses, as lists of tests with places.
//! - `UnsupportedTypes`: the class of contexts in a descriptor, and floats and doubles.
//! - `Heights`: heights, which classes of one circle may share, by which a class that is higher than what stands directly above it
//!   doesn't stand above itself; so only classes of circles are searched.
//! - `InterfaceNumbers`: the number of each interface among the interfaces.
//! - `ImplementedInterfaces`, `BitSets`: the table of the interfaces that each class implements, a bit for each interface.
//! - `OrderedPrograms`: programs in which those two phases find nothing.
//! - `DirectSupers`: what stands directly above a class that was found.
//! - `NameSlots`, `MemberDigests`: tables by which a class's name and a member's name and descriptor are found, which no contract above sees, and a
//!   name and a descriptor with their digest.
//! - `ClassTables`: what is kept of each of the program's own classes, so that walks upwards and comparisons of classes look at no names, and a
//!   name with its class, from which such a walk goes on.
//!
//! Proved, for every list of class files, linked or not: each call is its definition: `class_of`, `super_of`, `extends`, `may_name`,
//! `may_use`, `select`, `main_of`; of classes by their numbers `same_class`, `declares`, `extends_at`, `is_interface_at`; and the first
//! fault of each of linking's first two phases, `naming_fault` (names that are kept or taken) and `supers_fault` (classes that are missing,
//! may not stand above, or stand above themselves). `resolve_method`, `resolve_field` and `resolved` are their definitions too, on the
//! condition that no interface stands among its own. `program_laws`: where the first two phases find nothing that condition holds, no class
//! stands above itself, extending is transitive, two classes that extend one another are one, and what an interface extends is an interface
//! or Object. `number_laws`: a class's number names it and is found by its name. `Interfaces` answers `implements` without memory.
//!
//! `ProofNames` are names by which proofs and contracts of inner functions call what the definitions say in place.

mod access;
mod circles;
mod classes;
mod faces;
mod facts;
mod fault;
mod firsts;
mod found_class;
mod heights;
mod implemented;
mod laws;
mod left_out;
mod library;
mod lines;
mod main_method;
mod member;
mod members;
mod names;
mod naming;
mod part;
mod parts;
mod reach;
mod referring;
mod resolving;
mod searching;
mod selecting;
mod sets;
mod slots;
mod supers;

pub use classes::NamedProgram;
pub use fault::{LinkFault, LinkKind};
pub use firsts::{Key, key_of};
pub use implemented::Interfaces;
pub use laws::{number_laws, program_laws};
pub use left_out::{is_context, is_floating};
pub use lines::At;
pub use member::{CallKind, ClassId, Member, MethodId, Selected};
pub use part::{ClassRef, CodePart};
pub use parts::{
    class_text, has_code, is_called, is_init, member_desc, member_name, package_of, reach_of,
    same_package, super_name, text_at, this_name,
};
pub use reach::Reach;
