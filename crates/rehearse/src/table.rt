// The closing table, and the verdict on the whole.
use crate::cluster::Seat;
use crate::play::Play;
use crate::station::Told;
use anyhow::ensure;
use board::state::Mark;
use digest::Digest;
use seal::Seal;

impl<D: Digest + Copy, L: Seal + Copy> Play<'_, D, L> {
    // Whether a board has every item as it was committed.
    fn has_all(&self, seat: &Seat<D, L>) -> bool {
        (0..64u8).all(|item| match seat.node.item(item) {
            Ok(told) => {
                let bytes = told.value.as_slice();
                self.truth.held(self.commits, item, told.version, bytes)
            }
            Err(_) => false,
        })
    }

    fn say_row(
        &self,
        board: usize,
        seat: &Seat<D, L>,
        first: Mark,
        told: Told,
    ) -> anyhow::Result<()> {
        let store = seat.node.store();
        let commits = seat.tally.commits;
        let aborts = seat.tally.aborts;
        let refusals = seat.tally.refusals;
        let items = if self.has_all(seat) { "right" } else { "wrong" };
        let mark = if first == seat.node.mark() {
            "same"
        } else {
            "other"
        };
        match seat.node.way() {
            Some(way) => print!(self.rt; "   {board:>5}  {store:<5}  {way:<16}")?,
            None => print!(self.rt; "   {board:>5}  {store:<5}  {:<16}", "honest")?,
        }
        println!(self.rt;
            "  {commits:>7}  {aborts:>6}  {refusals:>8}  {items:<5}  {mark:<5}  {told}"
        )?;
        Ok(())
    }

    pub fn say_table(&self, readings: &[Told]) -> anyhow::Result<()> {
        println!(self.rt; "9. The boards at the end:")?;
        println!(self.rt;
            "   board  store  way               commits  aborts  refusals  items  mark   its reading"
        )?;
        let first = self.cluster.first()?.node.mark();
        for ((board, seat), told) in self.cluster.seats.iter().enumerate().zip(readings) {
            self.say_row(board, seat, first, *told)?;
        }
        self.say_mark(first)
    }

    // The count of commits and the first bytes of the chain.
    pub fn say_mark(&self, mark: Mark) -> anyhow::Result<()> {
        let count = mark.count;
        let [a, b, c, d, ..] = mark.chain;
        println!(self.rt;
            "   board 0's mark: {count} commits, chain {a:02x}{b:02x}{c:02x}{d:02x}.."
        )?;
        Ok(())
    }

    // Whether an honest board is not as board 0, or has not what was committed.
    fn has_strayed(&self) -> anyhow::Result<bool> {
        let first = self.cluster.first()?.node.mark();
        let mut honest = self.cluster.seats.iter().take(self.cluster.honest);
        Ok(honest.any(|seat| !self.has_all(seat) || first != seat.node.mark()))
    }

    // Says how it went; an error if a session, an honest board or the reader failed.
    pub fn conclude(&self) -> anyhow::Result<()> {
        let score = self.score;
        let decided = score.decided;
        let waiting = score.waiting;
        println!(self.rt; "   {decided} sessions decided, {waiting} left waiting.")?;
        ensure!(
            score.misled == 0,
            "a session decided otherwise than the honest boards"
        );
        ensure!(
            score.apart == 0 && !self.has_strayed()?,
            "an honest board differs from another"
        );
        ensure!(score.fooled == 0, "a false reading was accepted");
        println!(self.rt; "   No session decided otherwise than the honest boards.")?;
        println!(self.rt; "   No honest board differed from another.")?;
        println!(self.rt; "   No false reading was accepted.")?;
        Ok(())
    }
}
