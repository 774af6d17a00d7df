// Tests of frames: every refusal of readers and writers at its first, a middle and its last place, and every length of a largest frame.
#![tactic(auto)]

#[cfg(test)]
mod tests {
    use fault::{Cause, Fault, Layer};
    use request::draft::{Draft, write_request};
    use request::item::{ReadItem, WriteItem};
    use request::read_request;
    use share::{ShareDraft, read_share, write_share};
    use std::test::Fail;

    fn share_refused(bytes: &[u8], cause: Cause, place: u32) -> bool {
        read_share(bytes, 1).err() == Some(cause.at(Layer::Frame, place))
    }

    fn request_refused(bytes: &[u8], cause: Cause, place: u32) -> bool {
        read_request(bytes).err() == Some(cause.at(Layer::Frame, place))
    }

    // Whether every shorter front of a frame is refused at its length, and the frame with a byte behind it at that byte.
    fn no_other_length_passes<F: Fn(&[u8], Cause, u32) -> bool>(
        frame: &[u8],
        longer: &[u8],
        refused: F,
    ) -> bool
        requires { F.IsAlwaysCallable refused }
    {
        // The range is one of lengths, and a place has 32 bits, so the length is bounded first.
        if frame.len() > 1000 {
            return false;
        }
        (0..frame.len()).all(|n| refused(&frame[..n], Cause::Malformed, n as u32))
            && refused(longer, Cause::Malformed, frame.len() as u32)
    }

    // Whether a writer that gets this much of a buffer of sevens is refused, and the buffer's ends are left.
    fn not_written<F: FnOnce(&mut [u8]) -> Result<usize, Fault>>(
        out: &mut [u8],
        room: usize,
        write: F,
        cause: Cause,
        place: u32,
    ) -> bool
        requires { F.IsAlwaysCallable write }
    {
        let Some(part) = out.get_mut(..room) else {
            return false;
        };
        let written = write(part);
        written == Err(cause.at(Layer::Frame, place))
            && out.first() == Some(&7)
            && out.last() == Some(&7)
    }

    // The frame with one byte changed.
    fn with<const N: usize>(mut frame: [u8; N], at: usize, byte: u8) -> [u8; N] {
        if at < N {
            frame[at] = byte;
        }
        frame
    }

    // A share of board 3 over entry 258.
    fn put_share(out: &mut [u8]) {
        let draft = ShareDraft {
            signer: 3,
            version: 258,
            tag: [9; 16],
        };
        let _ = write_share(draft, 1, out);
    }

    fn share() -> [u8; 20] {
        let mut out = [0; 20];
        put_share(&mut out);
        out
    }

    // The share with one byte changed.
    fn share_with(at: usize, byte: u8, cause: Cause, place: u32) -> bool {
        share_refused(&with(share(), at, byte), cause, place)
    }

    #[test]
    fn a_share_is_read_as_written(rt: HostRuntime) -> Result<(), Fail> {
        let bytes = share();
        let read = read_share(&bytes, 1)?;
        assert!(rt; read.signer == 3 && read.version == 258);
        assert!(rt; read.tag.len() == 16 && read.tag[0] == 9 && read.tag[15] == 9);
        assert!(rt; bytes[0] == 2 && bytes[1] == 3 && bytes[2] == 1 && bytes[3] == 2);
        Ok(())
    }

    #[test]
    fn a_share_of_every_other_length_is_refused(rt: HostRuntime) {
        let mut longer = [0; 21];
        put_share(&mut longer);
        assert!(rt; no_other_length_passes(&share(), &longer, share_refused));
    }

    #[test]
    fn a_share_out_of_range_is_refused(rt: HostRuntime) {
        assert!(rt; share_with(0, 1, Cause::Malformed, 0));
        assert!(rt; share_with(1, 4, Cause::NotMember, 1));
        assert!(rt; share_with(1, 255, Cause::NotMember, 1));
        let mut bytes = share();
        bytes[1] = 4;
        bytes[2] = 0;
        bytes[3] = 0;
        assert!(rt; share_refused(&bytes, Cause::Malformed, 2));
    }

    fn share_not_written(signer: u8, version: u32, room: usize, cause: Cause, place: u32) -> bool {
        let draft = ShareDraft {
            signer,
            version,
            tag: [9; 16],
        };
        not_written(
            &mut [7; 20],
            room,
            |out| write_share(draft, 1, out),
            cause,
            place,
        )
    }

    #[test]
    fn a_share_is_not_written(rt: HostRuntime) {
        assert!(rt; share_not_written(3, 0, 20, Cause::Malformed, 2));
        assert!(rt; share_not_written(3, 65536, 20, Cause::Malformed, 2));
        assert!(rt; share_not_written(4, 1, 20, Cause::NotMember, 1));
        assert!(rt; share_not_written(4, 0, 0, Cause::Malformed, 2));
        assert!(rt; share_not_written(3, 1, 19, Cause::NoRoom, 0));
        assert!(rt; share_not_written(3, 1, 0, Cause::NoRoom, 0));
    }

    fn all_reads() -> [ReadItem; 16] {
        std::array::from_fn(|i| ReadItem::new(i as u8, 1, [7; 32]))
    }

    // Writes to the items 0 to 7 under one value, of which one is changed.
    fn one_write_changed<'a>(
        value: &'a [u8],
        at: usize,
        item: u8,
        other: &'a [u8],
    ) -> [WriteItem<'a>; 8] {
        let mut writes: [WriteItem<'a>; 8] = std::array::from_fn(|i| WriteItem {
            item: i as u8,
            value,
        });
        if at < 8 {
            writes[at] = WriteItem { item, value: other };
        }
        writes
    }

    // Writes a request under a tag of bytes 5.
    fn put_request(
        client: u8,
        sequence: u32,
        reads: &[ReadItem],
        writes: &[WriteItem],
        out: &mut [u8],
    ) -> Result<usize, Fault> {
        write_request(
            Draft {
                client,
                sequence,
                reads,
                writes,
                tag: [5; 16],
            },
            out,
        )
    }

    // Writes the largest request: sixteen reads, eight writes of 32 bytes each.
    fn put_largest(
        reads: &[ReadItem],
        client: u8,
        sequence: u32,
        out: &mut [u8],
    ) -> Result<usize, Fault> {
        let value = [9; 32];
        let writes = one_write_changed(&value, 0, 0, &value);
        put_request(client, sequence, reads, &writes, out)
    }

    fn largest() -> [u8; 854] {
        let mut out = [0; 854];
        let _ = put_largest(&all_reads(), 3, 2, &mut out);
        out
    }

    // The largest request with one byte changed.
    fn request_with(at: usize, byte: u8, cause: Cause, place: u32) -> bool {
        request_refused(&with(largest(), at, byte), cause, place)
    }

    #[test]
    fn the_largest_request_is_read_as_written(rt: HostRuntime) -> Result<(), Fail> {
        let bytes = largest();
        let read = read_request(&bytes)?;
        assert!(rt; read.plan.top.client == 3 && read.plan.top.sequence == 2);
        assert!(rt; read.plan.top.reads == 16 && read.plan.top.writes == 8);
        assert!(rt; read.plan.tag_at == 838 && read.covered().len() == 838 && read.tag.len() == 16);
        let last = read.read(15).ok_or("no read")?;
        assert!(rt;
            last.item == 15 && last.version == 1 && last.place == 531 && last.digest.len() == 32
        );
        let write = read.write(7).ok_or("no write")?;
        assert!(rt; write.item == 7 && write.place == 804 && write.value.len() == 32);
        assert!(rt; read.read(16).is_none() && read.write(8).is_none());
        Ok(())
    }

    #[test]
    fn a_request_of_every_other_length_is_refused(rt: HostRuntime) {
        let mut longer = [0; 855];
        let _ = put_largest(&all_reads(), 3, 2, &mut longer);
        assert!(rt; no_other_length_passes(&largest(), &longer, request_refused));
    }

    #[test]
    fn a_request_with_a_field_out_of_range_is_refused(rt: HostRuntime) {
        assert!(rt; request_with(0, 2, Cause::Malformed, 0));
        assert!(rt; request_with(1, 16, Cause::Malformed, 1));
        assert!(rt; request_with(4, 17, Cause::Malformed, 4));
        assert!(rt; request_with(5, 0, Cause::Malformed, 5));
        assert!(rt; request_with(5, 9, Cause::Malformed, 5));
        assert!(rt; request_with(6, 64, Cause::Malformed, 6));
        assert!(rt; request_with(286, 64, Cause::Malformed, 286));
        assert!(rt; request_with(531, 64, Cause::Malformed, 531));
        assert!(rt; request_with(566, 64, Cause::Malformed, 566));
        assert!(rt; request_with(702, 64, Cause::Malformed, 702));
        assert!(rt; request_with(804, 64, Cause::Malformed, 804));
        assert!(rt; request_with(567, 33, Cause::Malformed, 567));
        assert!(rt; request_with(703, 33, Cause::Malformed, 703));
        assert!(rt; request_with(805, 33, Cause::Malformed, 805));
        assert!(rt; request_with(805, 31, Cause::Malformed, 853));
    }

    #[test]
    fn a_request_that_does_not_rise_is_refused(rt: HostRuntime) {
        assert!(rt; request_with(41, 0, Cause::NotRising, 41));
        assert!(rt; request_with(286, 7, Cause::NotRising, 286));
        assert!(rt; request_with(531, 14, Cause::NotRising, 531));
        assert!(rt; request_with(600, 0, Cause::NotRising, 600));
        assert!(rt; request_with(702, 3, Cause::NotRising, 702));
        assert!(rt; request_with(804, 6, Cause::NotRising, 804));
    }

    // Gives the reads of the largest request every item but one.
    fn leave_out(item: u8, bytes: &mut [u8]) {
        let others = (0..=16u8).filter(|other| *other != item);
        for (byte, other) in bytes.iter_mut().skip(6).step_by(35).zip(others) {
            *byte = other;
        }
    }

    // The largest request, whose reads leave out one item that it writes.
    fn unread(item: u8) -> bool {
        let mut bytes = largest();
        leave_out(item, &mut bytes);
        request_refused(&bytes, Cause::Unread, 566 + 34 * item as u32)
    }

    #[test]
    fn a_request_that_writes_what_it_did_not_read_is_refused(rt: HostRuntime) {
        assert!(rt; unread(0));
        assert!(rt; unread(3));
        assert!(rt; unread(7));
        assert!(rt; request_with(804, 16, Cause::Unread, 804));
    }

    fn request_not_written(
        reads: &[ReadItem],
        client: u8,
        sequence: u32,
        room: usize,
        cause: Cause,
        place: u32,
    ) -> bool {
        let write = |out: &mut [u8]| put_largest(reads, client, sequence, out);
        not_written(&mut [7; 854], room, write, cause, place)
    }

    #[test]
    fn a_request_is_not_written(rt: HostRuntime) {
        let reads = all_reads();
        assert!(rt; request_not_written(&reads, 16, 2, 854, Cause::Malformed, 1));
        assert!(rt; request_not_written(&reads, 3, 65536, 854, Cause::Malformed, 2));
        assert!(rt; request_not_written(&reads, 3, 2, 853, Cause::NoRoom, 0));
        assert!(rt; request_not_written(&reads, 3, 2, 0, Cause::NoRoom, 0));
        assert!(rt; request_not_written(&reads[1..16], 3, 2, 854, Cause::Unread, 531));
        assert!(rt; request_not_written(&reads[0..4], 3, 2, 854, Cause::Unread, 282));
        assert!(rt; request_not_written(&reads[0..7], 3, 2, 854, Cause::Unread, 489));
        let mut wide = reads;
        wide[8] = ReadItem::new(8, 65536, [7; 32]);
        assert!(rt; request_not_written(&wide, 3, 2, 854, Cause::Malformed, 287));
        wide[8] = ReadItem::new(7, 1, [7; 32]);
        assert!(rt; request_not_written(&wide, 3, 2, 854, Cause::NotRising, 286));
        wide[8] = ReadItem::new(64, 1, [7; 32]);
        assert!(rt; request_not_written(&wide, 3, 2, 0, Cause::Malformed, 286));
    }

    // Whether the largest request is refused where one of its reads is another.
    fn read_not_written(at: usize, item: u8, version: u32, cause: Cause, place: u32) -> bool {
        let mut reads = all_reads();
        if at < 16 {
            reads[at] = ReadItem::new(item, version, [7; 32]);
        }
        request_not_written(&reads, 3, 2, 854, cause, place)
    }

    #[test]
    fn a_wrong_read_is_not_written(rt: HostRuntime) {
        assert!(rt; read_not_written(0, 64, 1, Cause::Malformed, 6));
        assert!(rt; read_not_written(8, 64, 1, Cause::Malformed, 286));
        assert!(rt; read_not_written(15, 64, 1, Cause::Malformed, 531));
        assert!(rt; read_not_written(0, 0, 65536, Cause::Malformed, 7));
        assert!(rt; read_not_written(8, 8, 65536, Cause::Malformed, 287));
        assert!(rt; read_not_written(15, 15, 65536, Cause::Malformed, 532));
        assert!(rt; read_not_written(1, 0, 1, Cause::NotRising, 41));
        assert!(rt; read_not_written(8, 7, 1, Cause::NotRising, 286));
        assert!(rt; read_not_written(15, 14, 1, Cause::NotRising, 531));
    }

    // Whether the largest request is refused where one of its writes has another item, or n bytes.
    fn write_not_written(at: usize, item: u8, n: usize, cause: Cause, place: u32) -> bool {
        let long = [9; 40];
        if n > 40 {
            return false;
        }
        let writes = one_write_changed(&long[0..32], at, item, &long[0..n]);
        let write = |out: &mut [u8]| put_request(3, 2, &all_reads(), &writes, out);
        not_written(&mut [7; 854], 854, write, cause, place)
    }

    #[test]
    fn a_wrong_write_is_not_written(rt: HostRuntime) {
        assert!(rt; write_not_written(0, 64, 32, Cause::Malformed, 566));
        assert!(rt; write_not_written(4, 64, 32, Cause::Malformed, 702));
        assert!(rt; write_not_written(7, 64, 32, Cause::Malformed, 804));
        assert!(rt; write_not_written(0, 0, 33, Cause::Malformed, 567));
        assert!(rt; write_not_written(4, 4, 33, Cause::Malformed, 703));
        assert!(rt; write_not_written(7, 7, 40, Cause::Malformed, 805));
        assert!(rt; write_not_written(1, 0, 32, Cause::NotRising, 600));
        assert!(rt; write_not_written(4, 3, 32, Cause::NotRising, 702));
        assert!(rt; write_not_written(7, 6, 32, Cause::NotRising, 804));
        assert!(rt; write_not_written(7, 16, 32, Cause::Unread, 804));
    }

    // Whether a request of so many reads and writes is refused as malformed at a place.
    fn counts_not_written(reads: usize, writes: usize, place: u32) -> bool {
        let value = [9; 32];
        let all_reads = [ReadItem::new(64, 65536, [7; 32]); 17];
        let all_writes = [WriteItem {
            item: 64,
            value: &value,
        }; 9];
        if reads > 17 || writes > 9 {
            return false;
        }
        let (reads, writes) = (&all_reads[0..reads], &all_writes[0..writes]);
        let write = |out: &mut [u8]| put_request(3, 2, reads, writes, out);
        not_written(&mut [7; 854], 854, write, Cause::Malformed, place)
    }

    #[test]
    fn too_many_or_too_few_records_are_not_written(rt: HostRuntime) {
        assert!(rt; counts_not_written(17, 9, 4));
        assert!(rt; counts_not_written(16, 9, 5));
        assert!(rt; counts_not_written(16, 0, 5));
        assert!(rt; counts_not_written(0, 0, 5));
    }

    #[test]
    fn one_read_and_one_write_of_a_byte_take_sixty_bytes(rt: HostRuntime) -> Result<(), Fail> {
        let mut out = [1; 64];
        let value = [4];
        let reads = [ReadItem::new(5, 0, [7; 32])];
        let writes = [WriteItem {
            item: 5,
            value: &value,
        }];
        let n = put_request(0, 1, &reads, &writes, &mut out)?;
        assert!(rt; n == 60 && out[59] == 5 && out[60] == 1);
        Ok(())
    }
}
