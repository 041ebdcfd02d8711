ghost use Rattle.std.specs.Prelude.{◌≡◌, nat_eq, if◌then◌else◌, Some, take};
ghost use Rattle.act1_outside.specs.Tears.{left_by};

/// A call that is to fail, and how many bytes of its content it leaves, if it is a write.
#[derive(Clone, Copy, Debug, PartialEq, Eq)]
pub struct Tear {
    /// The number of the call.
    pub call: u64,
    /// How many bytes it leaves.
    pub left: u64,
}

// How many bytes are left, after a tear.
fn left_after(so_far: Option<u64>, tear: Tear, call: u64) -> Option<u64>
    ensures { result ≡ (if nat_eq tear.call call then Some tear.left else so_far) }
{
    if tear.call == call {
        Some(tear.left)
    } else {
        so_far
    }
}

/// How many bytes a call leaves, by its last tear, or `None` where it has none.
#[tactic(auto, using(crate::proofs::TearLoops::left_more, crate::proofs::TearLoops::left_end))]
pub fn left_by(tears: &[Tear], call: u64) -> Option<u64>
    ensures { result ≡ left_by tears.now call }
{
    let mut left = None;
    for at in 0..tears.len() {
        left = left_after(left, tears[at], call);
    }
    left
}

/// The first bytes, so many or all if there are fewer.
pub fn front(bytes: &[u8], left: u64) -> &[u8]
    ensures { result.now ≡ take left bytes.now }
{
    if left < bytes.len() as u64 {
        &bytes[..left as usize]
    } else {
        bytes
    }
}
