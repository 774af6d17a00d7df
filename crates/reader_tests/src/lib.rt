// Tests of the reader's check: readings that are accepted, and one for each refusal.
#![tactic(auto)]

#[cfg(test)]
mod tests {
    use cluster_size::ClusterSize;
    use digest::{Digest, Fnv};
    use entry::parts::{Entry, ItemDigest, Pair, SealedEntry};
    use fault::{Cause, Fault, Layer};
    use label::Label;
    use proof::write::write_proof;
    use reader::state::Reader;
    use reading::draft::write_reading;
    use reading::part::ReadingDraft;
    use sample_keys::sample_keys;
    use seal::Seal;
    use seal::sip::SipSeal;
    use std::test::Fail;

    // Signer s has a key of bytes s.
    fn seal() -> SipSeal {
        SipSeal::new(sample_keys())
    }

    // The pair of a board over an entry's body.
    fn pair(signer: u8, body: &[u8]) -> Result<Pair, Fault> {
        let label = Label::Entry.bytes();
        let tag = seal().make(signer, &label, body)?;
        Ok(Pair::new(signer, tag))
    }

    // What stands for an entry that cannot be made.
    fn no_entry() -> Fault {
        Cause::Malformed.at(Layer::Board, 0)
    }

    // The entry of a commit of one write, with the tags of boards 0 and 2.
    fn sealed(version: u32, item: u8, value: &[u8]) -> Result<SealedEntry, Fault> {
        let made = Fnv.digest(&[], value)?;
        let mut entry = Entry::new(version).ok_or(no_entry())?;
        entry
            .push(ItemDigest::new(item, made))
            .map_err(|_| no_entry())?;
        let mut body = [0; 36];
        entry.write_body(&mut body).ok_or(no_entry())?;
        let mut all = SealedEntry::new(entry);
        for signer in [0, 2] {
            all.push(pair(signer, &body)?).map_err(|_| no_entry())?;
        }
        Ok(all)
    }

    // Of four boards one may lie.
    fn check_frames(reading: &[u8], proof: &[u8]) -> Result<u32, Fault> {
        let reader = Reader::new(ClusterSize::new(1)?, Fnv, seal());
        reader.check(reading, proof)
    }

    // Writes both frames and checks them.
    fn judged(
        items: &[ReadingDraft],
        low: u32,
        high: u32,
        entries: &[SealedEntry],
    ) -> Result<u32, Fault> {
        let mut reading = [0; 64];
        let n = write_reading(items, &mut reading)?;
        let mut proof = [0; 256];
        let m = write_proof(low, high, entries, 1, &mut proof)?;
        check_frames(&reading[0..n.min(64)], &proof[0..m.min(256)])
    }

    fn read<'a>(item: u8, version: u32, value: &'a [u8]) -> ReadingDraft<'a> {
        ReadingDraft {
            item,
            version,
            value,
        }
    }

    fn is(answer: Result<u32, Fault>, cause: Cause, layer: Layer, place: u32) -> bool {
        answer == Err(cause.at(layer, place))
    }

    // Commit 1 wrote item 5, commit 2 item 6; both were read since. One byte of a frame is changed.
    fn changed(in_proof: bool, at: usize, by: u8) -> Result<u32, Fault> {
        let mut reading = [0; 13];
        write_reading(&[read(5, 1, &[7]), read(6, 2, &[8, 9])], &mut reading)?;
        let mut proof = [0; 145];
        let entries = [sealed(1, 5, &[7])?, sealed(2, 6, &[8, 9])?];
        write_proof(1, 2, &entries, 1, &mut proof)?;
        if in_proof && at < 145 {
            proof[at] ^= by;
        }
        if !in_proof && at < 13 {
            reading[at] ^= by;
        }
        check_frames(&reading, &proof)
    }

    #[test]
    fn what_the_commits_left_is_accepted(rt: HostRuntime) -> Result<(), Fail> {
        assert!(rt; changed(false, 0, 0)? == 2);
        let items = [read(4, 0, &[]), read(5, 1, &[7])];
        assert!(rt; judged(&items, 1, 1, &[sealed(1, 5, &[7])?])? == 1);
        let untouched = [read(4, 0, &[])];
        assert!(rt; judged(&untouched, 1, 0, &[])? == 0);
        let later = [read(6, 7, &[])];
        assert!(rt; judged(&later, 7, 7, &[sealed(7, 6, &[])?])? == 7);
        Ok(())
    }

    #[test]
    fn a_faulty_reading_is_refused_first(rt: HostRuntime) {
        assert!(rt; is(changed(false, 0, 1), Cause::Malformed, Layer::Frame, 0));
        assert!(rt; is(changed(false, 7, 3), Cause::NotRising, Layer::Frame, 7));
    }

    #[test]
    fn a_faulty_proof_is_refused(rt: HostRuntime) {
        assert!(rt; is(changed(true, 0, 1), Cause::Malformed, Layer::Proof, 0));
        assert!(rt; is(changed(true, 58, 2), Cause::NotRising, Layer::Proof, 58));
        assert!(rt; is(changed(true, 58, 6), Cause::NotMember, Layer::Proof, 58));
    }

    #[test]
    fn a_proof_of_another_range_is_refused(rt: HostRuntime) -> Result<(), Fail> {
        let items = [read(5, 1, &[7]), read(6, 2, &[8])];
        let first = sealed(1, 5, &[7])?;
        let second = sealed(2, 6, &[8])?;
        let third = sealed(3, 7, &[9])?;
        assert!(rt;
            is(
                judged(&items, 2, 2, &[second]),
                Cause::WrongRange,
                Layer::Reader,
                1,
            )
        );
        assert!(rt;
            is(
                judged(&items, 1, 3, &[first, second, third]),
                Cause::WrongRange,
                Layer::Reader,
                1,
            )
        );
        assert!(rt;
            is(
                judged(&items, 1, 1, &[first]),
                Cause::WrongRange,
                Layer::Reader,
                1,
            )
        );
        assert!(rt;
            is(
                judged(&items, 1, 0, &[]),
                Cause::WrongRange,
                Layer::Reader,
                1,
            )
        );
        Ok(())
    }

    #[test]
    fn a_wrong_tag_is_refused_at_its_place(rt: HostRuntime) {
        assert!(rt; is(changed(true, 42, 1), Cause::WrongTag, Layer::Seal, 42));
        assert!(rt; is(changed(true, 74, 1), Cause::WrongTag, Layer::Seal, 59));
        assert!(rt; is(changed(true, 129, 1), Cause::WrongTag, Layer::Seal, 129));
        assert!(rt; is(changed(true, 9, 1), Cause::WrongTag, Layer::Seal, 42));
    }

    #[test]
    fn a_value_that_its_entry_lacks_is_unmatched(rt: HostRuntime) -> Result<(), Fail> {
        assert!(rt; is(changed(false, 6, 1), Cause::Unmatched, Layer::Reader, 2));
        assert!(rt; is(changed(false, 11, 1), Cause::Unmatched, Layer::Reader, 7));
        // Commit 1's value under version 2, which wrote another item.
        let raised = [read(4, 0, &[]), read(5, 2, &[7])];
        let entries = [sealed(1, 5, &[7])?, sealed(2, 6, &[7])?];
        assert!(rt;
            is(
                judged(&raised, 1, 2, &entries),
                Cause::Unmatched,
                Layer::Reader,
                6,
            )
        );
        Ok(())
    }

    #[test]
    fn a_value_at_version_0_is_unmatched(rt: HostRuntime) -> Result<(), Fail> {
        let items = [read(4, 0, &[3]), read(5, 1, &[7])];
        assert!(rt;
            is(
                judged(&items, 1, 1, &[sealed(1, 5, &[7])?]),
                Cause::Unmatched,
                Layer::Reader,
                2,
            )
        );
        Ok(())
    }

    #[test]
    fn an_item_that_was_written_again_is_stale(rt: HostRuntime) -> Result<(), Fail> {
        let items = [read(5, 1, &[7]), read(6, 3, &[8])];
        let entries = [
            sealed(1, 5, &[7])?,
            sealed(2, 5, &[1])?,
            sealed(3, 6, &[8])?,
        ];
        assert!(rt;
            is(
                judged(&items, 1, 3, &entries),
                Cause::Stale,
                Layer::Reader,
                2,
            )
        );
        let unread = [read(5, 0, &[]), read(6, 3, &[8])];
        assert!(rt;
            is(
                judged(&unread, 1, 3, &entries),
                Cause::Stale,
                Layer::Reader,
                2,
            )
        );
        let last = [read(5, 2, &[1]), read(6, 0, &[])];
        let two = [sealed(1, 6, &[8])?, sealed(2, 5, &[1])?];
        assert!(rt; is(judged(&last, 1, 2, &two), Cause::Stale, Layer::Reader, 7));
        Ok(())
    }
}
