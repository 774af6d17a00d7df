// What a reader is made of.
use cluster_size::ClusterSize;
use digest::Digest;
use seal::Seal;

pub mod calls;

// How many boards may lie, one digest and one seal; a reader keeps nothing of what it checked.
#[derive(Drop)]
pub struct Reader<D: Digest, L: Seal> {
    size: ClusterSize,
    digest: D,
    seal: L,
}
