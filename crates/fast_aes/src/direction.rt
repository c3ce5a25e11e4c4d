// Enciphering and deciphering by tables differ in the matrix and in the S-box.
ghost use Rattle.std.specs.Prelude.{◌≡◌, ℕ, List, ◌<◌, [], slice_index_or};
ghost use Rattle.gf256.specs.Sbox.{Tabled};
ghost use Rattle.block.specs.Bytes.{of_bytes};
ghost use Rattle.fast_aes.specs.Words.{column};

pub(super) trait Direction {
    ghost matrix: { List (List ℕ) };

    ghost boxed: { ℕ → ℕ };

    fn sub(b: u8) -> u8
        ensures { result ≡ boxed b };

    // Each column of the matrix times the S-box at each byte.
    fn table() -> &'static [[u32; 256]; 4]
        ensures { (k : ℕ) → k < 4 → Tabled (λ x. of_bytes (column matrix k (boxed x))) (slice_index_or result.now k []) };

    // Column `k` of the matrix times the S-box at `x`.
    fn at(k: usize, x: u8) -> u32
        requires { k < 4 }
        ensures { result ≡ of_bytes (column matrix k (boxed x)) }
    {
        Self::table()[k][x as usize]
    }

    ghost boxed_lt: { (x : ℕ) → x < 256 → boxed x < 256 };
}
