ghost use Rattle.std.specs.Prelude.{◌≡◌, ◌↔◌, ℕ, List, Option, Ok, [], ◌∷◌, ◌++◌, ◌&&◌, true, false, bit_or, length};
ghost use Rattle.std.specs.List.{Contains, flat_map};
ghost use Rattle.jperm.specs.declared.permission.Permission.{Permission};
ghost use Rattle.jperm.specs.declared.making.PermClass.{PermClass};
ghost use Rattle.jperm.specs.PermissionConstructors.{made};
ghost use Rattle.jperm.specs.Permissions.{equal, implies, covers, united, gives, stands_alone, asks_nothing, is_unresolved};
ghost use Rattle.jperm.specs.PermissionTexts.{parts, text_of};

use crate::text::PARTS;

/// The laws of permissions: equal ones are the same, each but an unresolved one implies itself, and one implies all that an
/// implied one implies.
pub fn permission_laws()
    ensures same { (p q : Permission) → (equal p q ≡ true) ↔ (p ≡ q) }
    ensures itself { (p : Permission) → is_unresolved p ≡ false → implies p p ≡ true }
    ensures chain { (p q r : Permission) → implies p q ≡ true → implies q r ≡ true → implies p r ≡ true }
{}

/// The laws of lists of permissions. A list covers what one member implies, and a list of one covers nothing else. What a list
/// covers, it covers with all that this implies. More members never take a permission away. The actions that two lists give are
/// those of both, and a member that gives none and doesn't imply what is asked for changes nothing.
pub fn covers_laws()
    ensures one { (list : List Permission) (q asked : Permission) → Contains list q → implies q asked ≡ true → covers list asked ≡ true }
    ensures alone { (q asked : Permission) → asks_nothing asked ≡ false → covers (q ∷ []) asked ≡ implies q asked }
    ensures implied { (list : List Permission) (p q : Permission) → covers list p ≡ true → implies p q ≡ true → covers list q ≡ true }
    ensures more { (list more : List Permission) (asked : Permission) → ((q : Permission) → Contains list q → Contains more q)
        → covers list asked ≡ true → covers more asked ≡ true }
    ensures behind { (list more : List Permission) (asked : Permission) → covers list asked ≡ true → covers (list ++ more) asked ≡ true }
    ensures united { (list more : List Permission) (asked : Permission)
        → united (list ++ more) asked ≡ bit_or (united list asked) (united more asked) }
    ensures others { (q asked : Permission) (list : List Permission) → (stands_alone q && implies q asked) ≡ false → gives q asked ≡ 0
        → covers (q ∷ list) asked ≡ covers list asked }
{}

/// The law of made permissions: none of a kind with actions is made without them.
pub fn made_laws()
    ensures actions { (class : PermClass) (name actions : Option (List ℕ)) (directory : List ℕ) (p : Permission)
        → made class name actions directory ≡ Ok p → asks_nothing p ≡ false }
{}

/// The law of a permission's text: its parts in a row.
pub fn text_laws()
    ensures count { (p : Permission) → length (parts p) ≡ PARTS }
    ensures whole { (p : Permission) → flat_map (λ part. part) (parts p) ≡ text_of p }
{}
