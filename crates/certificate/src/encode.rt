// What a certificate is written of, as bytes.
ghost use Rattle.std.specs.Prelude.{◌≡◌, ℕ, List, [], ◌∷◌, length, refl};
ghost use Rattle.certificate.specs.Bytes.{le16, le32};
ghost use Rattle.certificate.specs.Writing.{entry_bytes, Fits8, Fits16, Fits32, EntryFits};

use crate::fields::StrengthFactor;

// A value that takes N bytes of the file.
pub(crate) trait Encode<const N: usize>: Copy {
    ghost encoded: { Self → List ℕ };

    // Its numbers fit the bytes.
    ghost fits: { Self → Type 0 };

    fn encode(self) -> [u8; N]
        ensures bytes { result ≡ encoded self }
        ensures fits { fits self };

    ghost sized: { (x : Self) → length (encoded x) ≡ N };
}

impl Encode<1> for u8 {
    ghost encoded = { λ n. n ∷ [] };

    ghost fits = { Fits8 };

    ghost sized = { λ n. refl };

    fn encode(self) -> [u8; 1] {
        [self]
    }
}

impl Encode<2> for u16 {
    ghost encoded = { le16 };

    ghost fits = { Fits16 };

    ghost sized = { λ n. refl };

    fn encode(self) -> [u8; 2] {
        self.to_le_bytes()
    }
}

impl Encode<4> for u32 {
    ghost encoded = { le32 };

    ghost fits = { Fits32 };

    ghost sized = { λ n. refl };

    fn encode(self) -> [u8; 4] {
        self.to_le_bytes()
    }
}

impl Encode<4> for StrengthFactor {
    ghost encoded = { entry_bytes };

    ghost fits = { EntryFits };

    ghost sized = { λ e. refl };

    fn encode(self) -> [u8; 4] {
        let [a, b] = self.strength.to_le_bytes();
        let [c, d] = self.factor.to_le_bytes();
        [a, b, c, d]
    }
}
