// Lines and buffers, byte by byte.
ghost use Rattle.std.specs.Prelude.{◌≡◌, ℕ, ◌<◌, ◌≤◌, bit_xor, slice_index};
ghost use Rattle.codec.specs.Word.{distance};

use codec::word::Line;

// XORs a line into a sum.
pub(crate) fn xor_into(sum: &mut Line, line: &Line)
    ensures adds { (k : ℕ) → k < 64 → slice_index sum.new k ≡ bit_xor (slice_index sum.old k) (slice_index line.now k) }
{
    // no `zip` over `iter_mut`: of a loop over what it lends the checker knows nothing afterwards
    for (k, byte) in sum.iter_mut().enumerate() {
        *byte ^= line[k];
    }
}

// How many bytes of two lines differ; mostly none, which one comparison tells.
pub(crate) fn differing(a: &Line, b: &Line) -> usize
    ensures counts { result ≡ distance a.now b.now }
    ensures at_most_64 { result ≤ 64 }
{
    if a == b {
        return 0;
    }
    a.iter().zip(b).filter(|(x, y)| **x != **y).count()
}
