// Keys for sample programs and tests; boards that fly have keys of their own.
#![tactic(auto)]

ghost use Rattle.std.specs.Prelude.{◌≡◌, ℕ, ◌<◌, [], replicate, slice_index_or};

// The key of signer s is 32 bytes s.
pub fn sample_keys() -> [[u8; 32]; 32]
    ensures { (s : ℕ) → s < 32 → slice_index_or result s [] ≡ replicate 32 s }
{
    std::array::from_fn(
        |s|
            requires { s < 32 }
            ensures { result ≡ replicate 32 s }
        { [s as u8; 32] },
    )
}
