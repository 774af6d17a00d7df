// Shares passed around: every board's share of a version goes to every board.
use crate::cluster::Cluster;
use crate::tools::{one_more, push};
use digest::Digest;
use fault::{Cause, Fault};
use seal::Seal;
use std::alloc::AllocError;

// The length of a share.
const SHARE: usize = 20;

// What became of the shares.
#[derive(Clone, Copy, Default)]
pub struct Passed {
    pub handed_out: u32,
    pub withheld: u32,
    pub taken: u32,
    pub not_due: u32,
    pub refused: u32,
}

impl Passed {
    fn count(&mut self, answer: Result<u8, Fault>) {
        match answer {
            Ok(_) => one_more(&mut self.taken),
            Err(fault) if fault.cause == Cause::NoShareDue => one_more(&mut self.not_due),
            Err(_) => one_more(&mut self.refused),
        }
    }

    // Every board's share of a version, the last board's first.
    fn collect<D: Digest + Copy, L: Seal + Copy>(
        &mut self,
        cluster: &Cluster<D, L>,
        version: u32,
    ) -> Result<Vec<[u8; SHARE]>, AllocError> {
        let mut shares = Vec::new(cluster.heap);
        for seat in cluster.seats.iter().rev() {
            let mut share = [0; SHARE];
            match seat.node.share_out(version, &mut share) {
                Ok(_) => {
                    one_more(&mut self.handed_out);
                    push(&mut shares, share)?;
                }
                Err(_) => one_more(&mut self.withheld),
            }
        }
        Ok(shares)
    }

    // Gives a share to every board.
    fn pass<D: Digest + Copy, L: Seal + Copy>(
        &mut self,
        cluster: &mut Cluster<D, L>,
        share: &[u8],
    ) {
        for seat in cluster.seats.iter_mut() {
            self.count(seat.node.share_in(share));
        }
    }

    fn pass_version<D: Digest + Copy, L: Seal + Copy>(
        &mut self,
        cluster: &mut Cluster<D, L>,
        version: u32,
    ) -> Result<(), AllocError> {
        let shares = self.collect(cluster, version)?;
        for share in shares.iter() {
            self.pass(cluster, share);
        }
        Ok(())
    }

    // Passes every board's share of every version that is kept.
    pub fn all<D: Digest + Copy, L: Seal + Copy>(
        cluster: &mut Cluster<D, L>,
        commits: u32,
    ) -> Result<Passed, AllocError> {
        let mut passed = Passed::default();
        for version in first_kept(commits)..=commits {
            passed.pass_version(cluster, version)?;
        }
        Ok(passed)
    }
}

// The first of the versions that are kept after some commits.
pub fn first_kept(commits: u32) -> u32 {
    commits.saturating_sub(31).max(1)
}
