// Tests of proofs: every refusal of the reader and the writer at its first, a middle and its last place, and every length of the largest proof.
#![tactic(auto)]

#[cfg(test)]
mod tests {
    use entry::parts::{Entry, ItemDigest, Pair, SealedEntry};
    use fault::{Cause, Fault, Layer};
    use proof::read::read_proof;
    use proof::write::write_proof;
    use std::test::Fail;

    // The refusal for a cause; only the writer's room is of the frame's layer.
    fn fault(cause: Cause, place: u32) -> Fault {
        let layer = if cause == Cause::NoRoom {
            Layer::Frame
        } else {
            Layer::Proof
        };
        cause.at(layer, place)
    }

    fn refused(bytes: &[u8], cause: Cause, place: u32) -> bool {
        read_proof(bytes, 5).err() == Some(fault(cause, place))
    }

    // An entry of the items from a first one on, with the pairs of the signers from a first one on.
    fn sealed(version: u32, item: u8, writes: u8, signer: u8, tags: u8) -> Option<SealedEntry> {
        let mut body = Entry::new(version)?;
        for item in item..item.saturating_add(writes) {
            body.push(ItemDigest::new(item, [7; 32])).ok()?;
        }
        let mut all = SealedEntry::new(body);
        for signer in signer..signer.saturating_add(tags) {
            all.push(Pair::new(signer, [9; 16])).ok()?;
        }
        Some(all)
    }

    // Versions 1 to 32, each of eight writes and six pairs.
    fn full() -> Option<[SealedEntry; 32]> {
        let mut all = [sealed(1, 0, 8, 0, 6)?; 32];
        for (entry, version) in all.iter_mut().zip(1..) {
            *entry = sealed(version, 0, 8, 0, 6)?;
        }
        Some(all)
    }

    // Writes the largest proof.
    fn put_largest(out: &mut [u8]) -> bool {
        let Some(all) = full() else {
            return false;
        };
        write_proof(1, 32, &all, 5, out) == Ok(11813)
    }

    fn largest() -> [u8; 11813] {
        let mut out = [0; 11813];
        put_largest(&mut out);
        out
    }

    #[test]
    fn the_largest_proof_is_read_as_written(rt: HostRuntime) -> Result<(), Fail> {
        let bytes = largest();
        let read = read_proof(&bytes, 5)?;
        assert!(rt; read.low() == 1 && read.high() == 32 && read.len() == 32);
        let last = read.entry(31).ok_or("no entry")?;
        assert!(rt; last.version == 32 && last.place == 11444);
        assert!(rt; last.items().count() == 8 && last.pairs().count() == 6);
        let item = last.item(7).ok_or("no write")?;
        assert!(rt; item.item == 7 && item.digest.len() == 32);
        let pair = last.pair(5).ok_or("no pair")?;
        assert!(rt; pair.signer == 5 && pair.tag.len() == 16 && pair.place == 11797);
        assert!(rt; read.entry(32).is_none() && last.item(8).is_none() && last.pair(6).is_none());
        Ok(())
    }

    // Whether every shorter front of the bytes is refused at its length.
    fn no_front_is_a_proof(bytes: &[u8]) -> bool {
        // The range is one of lengths, and a place has 32 bits, so the length is bounded first.
        if bytes.len() > 20000 {
            return false;
        }
        (0..bytes.len()).all(|n| refused(&bytes[..n], Cause::Malformed, n as u32))
    }

    #[test]
    fn a_proof_of_every_other_length_is_refused(rt: HostRuntime) {
        let bytes = largest();
        assert!(rt; no_front_is_a_proof(&bytes));
        let mut longer = [0; 11814];
        assert!(rt; put_largest(&mut longer));
        assert!(rt; refused(&longer, Cause::Malformed, 11813));
    }

    // The largest proof with one byte changed.
    fn changed(at: usize, byte: u8, cause: Cause, place: u32) -> bool {
        let mut bytes = largest();
        if at < 11813 {
            bytes[at] = byte;
        }
        refused(&bytes, cause, place)
    }

    #[test]
    fn a_range_that_no_proof_has_is_refused(rt: HostRuntime) {
        assert!(rt; changed(0, 5, Cause::Malformed, 0));
        assert!(rt; changed(2, 0, Cause::Malformed, 1));
        assert!(rt; changed(2, 33, Cause::Malformed, 3));
        assert!(rt; changed(4, 33, Cause::Malformed, 3));
        assert!(rt; changed(3, 1, Cause::Malformed, 3));
        assert!(rt; changed(4, 0, Cause::Malformed, 5));
        assert!(rt; changed(4, 31, Cause::Malformed, 11444));
    }

    // Faults in the entry that begins at a place: version, count, item, signer.
    fn entry_refused(at: usize, version: u8) -> bool {
        if at > 11444 {
            return false;
        }
        let place = at as u32;
        changed(at + 1, version, Cause::Malformed, place)
            && changed(at + 2, 0, Cause::Malformed, place + 2)
            && changed(at + 2, 9, Cause::Malformed, place + 2)
            && changed(at + 3, 64, Cause::Malformed, place + 3)
            && changed(at + 234, 64, Cause::Malformed, place + 234)
    }

    // Records that do not rise, and signers that are no boards, in the entry that begins at a place.
    fn order_refused(at: usize) -> bool {
        if at > 11444 {
            return false;
        }
        let place = at as u32;
        changed(at + 36, 0, Cause::NotRising, place + 36)
            && changed(at + 234, 6, Cause::NotRising, place + 234)
            && changed(at + 284, 0, Cause::NotRising, place + 284)
            && changed(at + 352, 4, Cause::NotRising, place + 352)
            && changed(at + 267, 16, Cause::NotMember, place + 267)
            && changed(at + 352, 255, Cause::NotMember, place + 352)
    }

    #[test]
    fn a_fault_of_the_first_a_middle_and_the_last_entry_is_refused(rt: HostRuntime) {
        assert!(rt; entry_refused(5, 0) && entry_refused(5909, 18) && entry_refused(11444, 33));
        assert!(rt; order_refused(5) && order_refused(5909) && order_refused(11444));
    }

    fn not_written(
        entries: &[SealedEntry],
        low: u32,
        high: u32,
        room: usize,
        cause: Cause,
        place: u32,
    ) -> bool {
        let mut out = [7; 11813];
        if room > 11813 {
            return false;
        }
        let written = write_proof(low, high, entries, 5, &mut out[0..room]);
        written == Err(fault(cause, place)) && out[0] == 7 && out[11812] == 7
    }

    #[test]
    fn a_range_that_no_proof_has_is_not_written(rt: HostRuntime) -> Result<(), Fail> {
        let all = full().ok_or("no entries")?;
        assert!(rt; not_written(&all, 0, 32, 11813, Cause::Malformed, 1));
        assert!(rt; not_written(&all, 65536, 65567, 11813, Cause::Malformed, 1));
        assert!(rt; not_written(&all, 65505, 65536, 11813, Cause::Malformed, 3));
        assert!(rt; not_written(&all, 1, 33, 11813, Cause::Malformed, 3));
        assert!(rt; not_written(&all, 1, 31, 11813, Cause::Malformed, 3));
        assert!(rt; not_written(&all, 2, 1, 11813, Cause::Malformed, 3));
        assert!(rt; not_written(&all[0..31], 1, 32, 11813, Cause::Malformed, 3));
        assert!(rt; not_written(&all, 2, 33, 11813, Cause::Malformed, 5));
        assert!(rt; not_written(&all, 1, 32, 11812, Cause::NoRoom, 0));
        assert!(rt; not_written(&all, 1, 32, 0, Cause::NoRoom, 0));
        Ok(())
    }

    // Puts one other entry among the full ones, which is then refused.
    fn not_among(i: usize, other: Option<SealedEntry>, cause: Cause, behind: u32) -> bool {
        if i > 31 || behind > 369 {
            return false;
        }
        let (Some(mut all), Some(entry)) = (full(), other) else {
            return false;
        };
        all[i] = entry;
        not_written(&all, 1, 32, 0, cause, 5 + 369 * i as u32 + behind)
    }

    // An entry whose second write has the first one's item; or only its second pair has the first one's signer.
    fn unrisen(version: u32, same_item: bool) -> Option<SealedEntry> {
        let mut body = Entry::new(version)?;
        body.push(ItemDigest::new(3, [7; 32])).ok()?;
        body.push(ItemDigest::new(if same_item { 3 } else { 4 }, [7; 32]))
            .ok()?;
        let mut all = SealedEntry::new(body);
        all.push(Pair::new(0, [9; 16])).ok()?;
        all.push(Pair::new(0, [9; 16])).ok()?;
        Some(all)
    }

    // Every fault of an entry at an index.
    fn entry_not_written(i: usize) -> bool {
        if i > 31 {
            return false;
        }
        let v = i as u32 + 1;
        not_among(i, sealed(v + 1, 0, 8, 0, 6), Cause::Malformed, 0)
            && not_among(i, sealed(v, 0, 0, 0, 6), Cause::Malformed, 2)
            && not_among(i, sealed(v, 64, 8, 0, 6), Cause::Malformed, 3)
            && not_among(i, sealed(v, 57, 8, 0, 6), Cause::Malformed, 234)
            && not_among(i, sealed(v, 0, 8, 0, 5), Cause::Malformed, 352)
            && not_among(i, sealed(v, 0, 8, 11, 6), Cause::NotMember, 352)
            && not_among(i, sealed(v, 0, 8, 16, 6), Cause::NotMember, 267)
            && not_among(i, unrisen(v, true), Cause::NotRising, 36)
            && not_among(i, unrisen(v, false), Cause::NotRising, 86)
    }

    #[test]
    fn a_fault_of_the_first_a_middle_and_the_last_entry_is_not_written(rt: HostRuntime) {
        assert!(rt; entry_not_written(0) && entry_not_written(15) && entry_not_written(31));
    }

    #[test]
    fn one_entry_of_two_writes_takes_one_hundred_and_eight_bytes(
        rt: HostRuntime,
    ) -> Result<(), Fail> {
        let entry = sealed(9, 5, 2, 0, 2).ok_or("no entry")?;
        let all = [entry];
        let mut out = [1; 112];
        let n = write_proof(9, 9, &all, 1, &mut out)?;
        assert!(rt; n == 108 && out[107] == 9 && out[108] == 1);
        let read = read_proof(&out[0..108], 1)?;
        assert!(rt; read.low() == 9 && read.high() == 9 && read.len() == 1);
        Ok(())
    }

    #[test]
    fn a_proof_of_no_entries_takes_five_bytes(rt: HostRuntime) -> Result<(), Fail> {
        let mut out = [1; 6];
        let n = write_proof(1, 0, &[], 5, &mut out)?;
        assert!(rt; n == 5 && out[0] == 4 && out[1] == 0 && out[2] == 1);
        assert!(rt; out[3] == 0 && out[4] == 0 && out[5] == 1);
        assert!(rt; read_proof(&out[0..5], 5)?.len() == 0);
        Ok(())
    }
}
