ghost use Rattle.std.specs.Prelude.{◌≡◌, ◌↔◌, ℕ, List, Ok, Some, slice_get, true};
ghost use Rattle.pin_core.specs.declared.id.Id.{Id};
ghost use Rattle.ob_name.specs.Listing.{AreDistinct, Rows, find_name, same_name};
ghost use Rattle.ob_name.specs.Names.{ObjectName};
ghost use Rattle.ob_name.specs.Texts.{Names, name_of};

/// What names what is the same in both forms of its definition. The test of two names tells whether they are equal, and
/// where no name stands twice each row is what its name finds.
pub fn law_of_names()
    ensures named { (text : List ℕ) (session : ℕ) (name : ObjectName)
        → (name_of text session ≡ Ok name) ↔ Names text session name }
    ensures same { (name other : ObjectName) → (same_name name other ≡ true) ↔ (name ≡ other) }
    ensures found { (rows : Rows) (at : ℕ) (name : ObjectName) (id : Id) → AreDistinct rows
        → slice_get rows at ≡ Some (name, id) → find_name name rows ≡ Some id }
{}
