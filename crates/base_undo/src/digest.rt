//! Digests, by which what is the same is found again.

ghost use Rattle.std.specs.Prelude.{◌≡◌};
ghost use Rattle.base_undo.specs.Digests.{stirred};

/// One more word of a digest.
pub fn stir(digest: u64, word: u64) -> u64
    ensures { result ≡ stirred digest word }
{
    let product = (digest ^ word).wrapping_mul(11_400_714_819_323_198_485);
    product ^ (product >> 29)
}
