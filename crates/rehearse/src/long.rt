// A long run of an honest cluster: many commits of many clients, then shares, proofs and a reading of 16 items.
use crate::play::Play;
use crate::script::write;
use crate::shares::{Passed, first_kept};
use crate::station::PROOF;
use crate::tools::one_more;
use anyhow::ensure;
use digest::Digest;
use seal::Seal;
use std::alloc::AllocError;

// The item that a commit writes, counted round.
fn item_of(version: u32) -> u8 {
    (version.saturating_sub(1) % 64) as u8
}

impl<D: Digest + Copy, L: Seal + Copy> Play<'_, D, L> {
    // Commits, of the clients in turn; each value tells how many were before.
    fn commit_all(&mut self, commits: u32) -> anyhow::Result<()> {
        for k in 0..commits {
            let item = (k % 64) as u8;
            let client = (k % 16) as u8;
            let reads = self.read(&[item])?;
            let value = k.to_be_bytes();
            self.send(client, reads.as_slice(), &[write(item, &value)])?;
        }
        Ok(())
    }

    // Asks every board for a proof of all that is kept, and answers how many have it and its length.
    fn proofs(&self) -> (u32, usize) {
        let low = first_kept(self.commits);
        let mut proved = 0;
        let mut length = 0;
        for seat in self.cluster.seats.iter() {
            let mut out = [0; PROOF];
            if let Ok(n) = seat.node.proof(low, self.commits, &mut out) {
                one_more(&mut proved);
                length = n;
            }
        }
        (proved, length)
    }

    // The items of every second kept version, and of the last.
    fn spread(&self) -> Result<Vec<u8>, AllocError> {
        let low = first_kept(self.commits);
        let mut items: Vec<u8> = (low..self.commits)
            .step_by(2)
            .take(15)
            .map(item_of)
            .collect(self.cluster.heap)?;
        items.push(item_of(self.commits))?;
        Ok(items)
    }

    // Asks every board for the 16 items, and answers how many readings were accepted and true.
    fn readings(&self, items: &[u8]) -> anyhow::Result<u32> {
        let mut true_ones = 0;
        for seat in self.cluster.seats.iter() {
            let (shown, told) = self.cluster.ask(seat, items)?;
            if told.is_true(&self.truth, shown.as_slice()) {
                one_more(&mut true_ones);
            }
        }
        Ok(true_ones)
    }

    // Plays the run; an error if the boards differ, or a proof or a reading fails.
    pub fn long_run(&mut self, runs: u32) -> anyhow::Result<()> {
        self.commit_all(runs)?;
        let commits = self.commits;
        let Passed { taken, .. } = Passed::all(&mut self.cluster, commits)?;
        let (proved, length) = self.proofs();
        let accepted = self.readings(self.spread()?.as_slice())?;
        let mark = self.cluster.first()?.node.mark();
        let seats = self.cluster.seats.iter();
        let same = seats.filter(|seat| mark == seat.node.mark()).count();
        let low = first_kept(commits);
        println!(self.rt; "   {commits} commits in turn of 16 clients to 64 items")?;
        println!(self.rt; "   shares of versions {low} to {commits}: {taken} taken in")?;
        println!(self.rt; "   proofs of versions {low} to {commits}: {proved}, of {length} bytes")?;
        println!(self.rt;
            "   readings of 16 items accepted: {accepted}; boards with board 0's mark: {same}"
        )?;
        self.say_mark(mark)?;
        ensure!(
            commits == runs && proved == 4 && accepted == 4 && same == 4,
            "the long run did not come out as it has to"
        );
        Ok(())
    }
}
