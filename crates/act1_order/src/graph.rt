ghost use Rattle.std.specs.Prelude.{ℕ, ◌≡◌, ◌<◌, [], All, length, slice_index_or};
ghost use Rattle.act1_order.specs.Order.{AreReads};

use act1_base::Items;

/// The vertices that a vertex reads.
pub fn reads_of(reads: &[Items<u16>], vertex: u16) -> &[u16]
    requires inside { AreReads reads.now }
    requires low { vertex < length reads.now }
    ensures own { result.now ≡ slice_index_or reads.now vertex [] }
    ensures inside { All (λ w. w < length reads.now) result.now }
{
    reads[usize::from(vertex)].as_slice()
}
