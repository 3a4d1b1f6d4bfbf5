//! What holds of all presets. These functions do nothing, and their contracts are the laws.
ghost use Rattle.std.specs.Prelude.{◌≡◌, ◌<◌, ◌≤◌, ◌+◌, ◌^◌, nat_lt, if◌then◌else◌, ℕ, List, ◌↔◌, Some, None, IsSome, decimal};
ghost use Rattle.std.specs.Option.{ForSome};
ghost use Rattle.intern_presets.specs.Numbers.{number_value};
ghost use Rattle.intern_presets.specs.Table.{table};
ghost use Rattle.intern_presets.specs.Presets.{Rises, generated_text, number_of_presets, preset_text, place_of};

/// The texts of the constants rise in the order of their bytes.
pub fn texts_rise()
    ensures { Rises table }
{}

/// The places are those below the number of presets.
pub fn places_end()
    ensures { (p : ℕ) → IsSome (preset_text p) ↔ (p < number_of_presets) }
{}

/// A text has a place exactly if it is that place's text.
pub fn a_place_is_that_of_its_text()
    ensures { (t : List ℕ) (p : ℕ) → (place_of t ≡ Some p) ↔ (preset_text p ≡ Some t) }
{}

/// No text has two places.
pub fn presets_differ()
    ensures { (p q : ℕ) (t : List ℕ) → preset_text p ≡ Some t → preset_text q ≡ Some t → p ≡ q }
{}

/// An integer's digits write it, and no preset but the integers writes a number.
pub fn only_integers_are_numbers()
    ensures integers { (n : ℕ) → n < 2 ^ 64 → number_value (decimal n) ≡ Some n }
    ensures others { (p : ℕ) → 256 ≤ p → ForSome (preset_text p) (λ t. number_value t ≡ None) }
{}

/// The numbered lists hold the numbers below 256, and no others.
pub fn numbered_lists_end()
    ensures integers { (n : ℕ) → n < 2 ^ 64 →
        place_of (decimal n) ≡ (if nat_lt n 256 then Some n else None) }
    ensures generated { (n : ℕ) → n < 2 ^ 64 →
        place_of (generated_text n) ≡ (if nat_lt n 256 then Some (n + 256) else None) }
{}
