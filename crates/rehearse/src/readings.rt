// The readings of the rehearsal: what every board tells, and three that are false in themselves.
use crate::account::Why;
use crate::play::Play;
use crate::station::{PROOF, Told, Versions};
use crate::tools::{one_more, push};
use crate::truth::Written;
use digest::Digest;
use seal::Seal;
use store::value::Value;

// The items that are read from every board.
pub const ITEMS: [u8; 3] = [5, 6, 7];

impl<D: Digest + Copy, L: Seal + Copy> Play<'_, D, L> {
    // Asks every board in turn, and counts the false readings that were accepted.
    fn hear_all(&self) -> anyhow::Result<(Vec<Told>, u32)> {
        let mut all = Vec::new(self.cluster.heap);
        let mut fooled = 0;
        for (board, seat) in self.cluster.seats.iter().enumerate() {
            let (shown, told) = self.cluster.ask(seat, &ITEMS)?;
            if told.is_false(&self.truth, shown.as_slice()) {
                one_more(&mut fooled);
            }
            println!(self.rt; "   board {board}: {told}")?;
            push(&mut all, told)?;
        }
        Ok((all, fooled))
    }

    pub fn ask_all(&mut self) -> anyhow::Result<Vec<Told>> {
        println!(self.rt;
            "8. A reader asks each board for items 5, 6 and 7 and for a proof of them."
        )?;
        let (all, fooled) = self.hear_all()?;
        self.score.fooled = self.score.fooled.saturating_add(fooled);
        Ok(all)
    }

    // Checks a made-up reading with board 0's proof of some versions.
    fn try_reading(&mut self, shown: &[Written], versions: Versions) -> anyhow::Result<()> {
        let told = self
            .cluster
            .check_with(self.cluster.first()?, shown, versions)?;
        if told.is_false(&self.truth, shown) {
            one_more(&mut self.score.fooled);
        }
        println!(self.rt; "   {told}")?;
        Ok(())
    }

    // Item 9 as it was one commit before it was last written, beside item 5 as it is.
    pub fn mixed(&mut self) -> anyhow::Result<()> {
        println!(self.rt; "   Item 5 as it is, with item 9 as it was one commit before its last:")?;
        let mut shown = self.cluster.read(&[5])?;
        if let Some(last) = self.truth.left(u32::MAX, 9) {
            if let Some(before) = self.truth.left(last.version.saturating_sub(1), 9) {
                push(&mut shown, before)?;
            }
        }
        self.try_reading(shown.as_slice(), Versions::of(shown.as_slice()))
    }

    // A value that was changed on the way to the reader.
    pub fn altered(&mut self) -> anyhow::Result<()> {
        println!(self.rt; "   Items 5, 6 and 7 of board 0, item 5's value changed on the way:")?;
        let mut shown = self.cluster.read(&ITEMS)?;
        if let (Some(five), Some(value)) = (shown.first_mut(), Value::new(b"rate 21")) {
            five.value = value;
        }
        self.try_reading(shown.as_slice(), Versions::of(shown.as_slice()))
    }

    // A proof that does not reach as far as the reading.
    pub fn short_proof(&mut self) -> anyhow::Result<()> {
        println!(self.rt;
            "   Items 5, 6 and 7 of board 0, with a proof of the lowest version only:"
        )?;
        let shown = self.cluster.read(&ITEMS)?;
        let Versions { low, .. } = Versions::of(shown.as_slice());
        self.try_reading(shown.as_slice(), Versions { low, high: low })
    }

    // A version that every honest board has evicted.
    pub fn evicted(&self) -> anyhow::Result<()> {
        println!(self.rt; "   A proof of version 1 is asked of board 0:")?;
        let mut out = [0; PROOF];
        match self.cluster.first()?.node.proof(1, 1, &mut out) {
            Ok(n) => println!(self.rt; "   a proof of {n} bytes")?,
            Err(fault) => {
                let why = Why(fault);
                println!(self.rt; "   refused: {why}")?
            }
        }
        Ok(())
    }
}
