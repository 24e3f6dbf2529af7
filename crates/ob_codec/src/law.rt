ghost use Rattle.std.specs.Prelude.{◌≡◌, ℕ, List, Ok};
ghost use Rattle.ob_codec.specs.Sealing.{loaded, sealed};
ghost use Rattle.ob_codec.specs.Spelling.{AreBytes};

use crate::spelled::Spelled;

/// A value that fits, spelled and sealed, loads to the same value; and bytes that load are the sealed spelling of the
/// value that they give, which fits.
pub fn law_of_sealed_texts<T: Spelled>()
    ensures again { (x : T) → T.Fits x → loaded T.read_at (sealed (T.spell x)) ≡ Ok x }
    ensures takes { (bytes : List ℕ) (x : T) → AreBytes bytes → loaded T.read_at bytes ≡ Ok x
        → (bytes ≡ sealed (T.spell x)) × T.Fits x }
{}
