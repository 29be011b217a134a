//! There is one root.
ghost use Rattle.std.specs.Prelude.{◌≡◌, List, Option};
ghost use Rattle.commonware_parallel.specs.Merkle.{IsDetermined, MerkleRoot};

/// The law of roots: where `combine` has one result at most for each two nodes, the leaves have one
/// root at most. It does nothing.
pub fn root_law<T, F: Fn(T, T) -> T>(combine: &F)
    ensures { IsDetermined (F.post combine.now)
        → (leaves : List T) (one other : Option T)
        → MerkleRoot (F.post combine.now) leaves one
        → MerkleRoot (F.post combine.now) leaves other → one ≡ other }
{
    let _ = combine;
}
