// Copying to lent slices. The definitions of lists, of sums and of the search stand in specs/, laws of them in proofs/; none knows of tasks.

#![tactic(auto)]

ghost use Rattle.std.specs.Prelude.{◌≡◌};
ghost use Rattle.base.specs.Lists.{over};

// src over the front of dst, as far as there is room; the rest of dst stays. For memory of any two lengths: where they are the same, std has
// copy_from_slice.
pub fn copy_over<T: Copy>(dst: &mut [T], src: &[T])
    ensures { dst.new ≡ over src.now dst.old }
{
    let n = src.len().min(dst.len());
    dst[..n].copy_from_slice(&src[..n]);
}
