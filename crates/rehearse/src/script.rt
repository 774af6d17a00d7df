// The acts of the rehearsal.
use crate::play::Play;
use crate::shares::{Passed, first_kept};
use crate::tools::sure;
use digest::Digest;
use request::item::{ReadItem, WriteItem};
use seal::Seal;

// How many commits of item 9 push the first entries out of the window.
const MANY: u32 = 33;

const RATE: &[u8] = b"rate 10";

pub fn write<'a>(item: u8, value: &'a [u8]) -> WriteItem<'a> {
    WriteItem { item, value }
}

impl<D: Digest + Copy, L: Seal + Copy> Play<'_, D, L> {
    // A client's request, and what became of it.
    fn act(
        &mut self,
        client: u8,
        reads: &[ReadItem],
        writes: &[WriteItem<'_>],
    ) -> anyhow::Result<()> {
        let posted = self.send(client, reads, writes)?;
        self.say_posted(&posted)
    }

    // Two commits that build on one another.
    pub fn first_commits(&mut self) -> anyhow::Result<()> {
        println!(self.rt; "1. Client 0 reads items 5 and 6 and writes both.")?;
        let reads = self.read(&[5, 6])?;
        let writes = [write(5, RATE), write(6, b"mode safe")];
        self.act(0, reads.as_slice(), &writes)?;
        println!(self.rt; "2. Client 1 reads items 5 and 7 and writes item 7.")?;
        let reads = self.read(&[5, 7])?;
        self.act(1, reads.as_slice(), &[write(7, b"beacon on")])
    }

    // Two requests that have to leave nothing behind.
    pub fn traps(&mut self) -> anyhow::Result<()> {
        println!(self.rt;
            "3. Client 2 has item 5 right and item 6 as it was before commit 1, and writes both."
        )?;
        let empty = sure(self.cluster.suite.digest.digest(&[], &[]))?;
        let five = sure(self.cluster.first()?.node.item(5))?;
        let reads = [
            ReadItem::new(5, five.version, five.digest),
            ReadItem::new(6, 0, empty),
        ];
        let writes = [write(5, b"rate 99"), write(6, b"mode free")];
        self.act(2, &reads, &writes)?;
        self.say_versions(5)?;
        println!(self.rt;
            "4. Client 2 has item 5's old digest under a raised version, and writes it."
        )?;
        let reads = [ReadItem::new(5, five.version.saturating_add(1), five.digest)];
        self.act(2, &reads, &[write(5, b"rate 98")])
    }

    // Commits of item 9; each value tells its commit.
    fn beat(&mut self, times: u32) -> anyhow::Result<()> {
        for _ in 0..times {
            let reads = self.read(&[9])?;
            let value = self.commits.saturating_add(1).to_be_bytes();
            self.send(3, reads.as_slice(), &[write(9, &value)])?;
        }
        Ok(())
    }

    // Items written long ago are still fresh.
    pub fn old_and_fresh(&mut self) -> anyhow::Result<()> {
        let first = self.commits.saturating_add(1);
        self.beat(MANY)?;
        let last = self.commits;
        println!(self.rt;
            "5. Client 3 writes item 9 in {MANY} requests: commits {first} to {last}."
        )?;
        println!(self.rt; "   Client 4 reads item 5, old and fresh, and writes it.")?;
        let reads = self.read(&[5])?;
        self.act(4, reads.as_slice(), &[write(5, b"rate 20")])?;
        println!(self.rt; "   Client 5 reads items 6 and 7 and writes both.")?;
        let reads = self.read(&[6, 7])?;
        let writes = [write(6, b"mode full"), write(7, b"beacon off")];
        self.act(5, reads.as_slice(), &writes)
    }

    // Every board's share of every kept version goes to every board.
    pub fn shares(&mut self) -> anyhow::Result<()> {
        let last = self.commits;
        let first = first_kept(last);
        println!(self.rt;
            "7. Shares of versions {first} to {last}, of every board to every board."
        )?;
        let passed = Passed::all(&mut self.cluster, last)?;
        println!(self.rt; "{passed}")?;
        Ok(())
    }
}
