// A new client, and one that used its second number.
ghost use Rattle.std.specs.Prelude.{◌≡◌, ℕ, false, ◌⊎◌, List, [], ◌∷◌};
ghost use Rattle.numbers.specs.Sequence.{Open};
ghost use Rattle.numbers.specs.Tracking.{Tracks};

use crate::client::Numbers;

// On a new client the fifth number is not open.
pub fn fifth_of_new() -> bool
    ensures answer { result ≡ false }
    ensures rule { Open 2 [] 5 → ⊥ }
{
    let numbers = Numbers::new();
    numbers.is_open(5)
}

// After its second number is used, exactly 1, 3, 4 and 5 are open.
pub fn second_used() -> Numbers
    ensures tracks { Tracks 2 result (2 ∷ []) }
    ensures rule { (t : ℕ) → (Open 2 (2 ∷ []) t → (t ≡ 1) ⊎ ((t ≡ 3) ⊎ ((t ≡ 4) ⊎ (t ≡ 5)))) × ((t ≡ 1) ⊎ ((t ≡ 3) ⊎ ((t ≡ 4) ⊎ (t ≡ 5))) → Open 2 (2 ∷ []) t) }
{
    let mut numbers = Numbers::new();
    let _ = numbers.use_up(2);
    numbers
}
