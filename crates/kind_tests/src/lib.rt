// Tests of frames by their kind: each kind is read by its reader, and every other first byte is refused there.
#![tactic(auto)]

#[cfg(test)]
mod tests {
    use fault::{Cause, Layer};
    use frame::{Frame, read_frame};
    use reading::draft::write_reading;
    use reading::part::ReadingDraft;
    use request::draft::{Draft, write_request};
    use request::item::{ReadItem, WriteItem};
    use share::{ShareDraft, write_share};
    use std::test::Fail;

    fn request() -> [u8; 60] {
        let value = [4];
        let reads = [ReadItem::new(5, 0, [7; 32])];
        let writes = [WriteItem {
            item: 5,
            value: &value,
        }];
        let mut out = [0; 60];
        let _ = write_request(
            Draft {
                client: 3,
                sequence: 1,
                reads: &reads,
                writes: &writes,
                tag: [6; 16],
            },
            &mut out,
        );
        out
    }

    fn share() -> [u8; 20] {
        let mut out = [0; 20];
        let _ = write_share(
            ShareDraft {
                signer: 6,
                version: 258,
                tag: [9; 16],
            },
            2,
            &mut out,
        );
        out
    }

    fn reading() -> [u8; 9] {
        let value = [8; 3];
        let items = [ReadingDraft {
            item: 7,
            version: 2,
            value: &value,
        }];
        let mut out = [0; 9];
        let _ = write_reading(&items, &mut out);
        out
    }

    fn refused(bytes: &[u8], f: u8, cause: Cause, layer: Layer, place: u32) -> bool {
        read_frame(bytes, f).err() == Some(cause.at(layer, place))
    }

    #[test]
    fn each_kind_is_read(rt: HostRuntime) {
        assert!(rt; matches!(read_frame(&request(), 2), Ok(Frame::Request(_))));
        assert!(rt; matches!(read_frame(&share(), 2), Ok(Frame::Share(_))));
        assert!(rt; matches!(read_frame(&[4, 0, 1, 0, 0], 2), Ok(Frame::Proof(_))));
        assert!(rt; matches!(read_frame(&reading(), 2), Ok(Frame::Reading(_))));
    }

    #[test]
    fn a_decoded_frame_borrows_from_its_bytes(rt: HostRuntime) -> Result<(), Fail> {
        let bytes = request();
        let Frame::Request(one) = read_frame(&bytes, 2)? else {
            return Err(Fail::new("no request"));
        };
        assert!(rt; one.reads.len() == 35 && one.reads[0] == 5);
        assert!(rt; one.writes.len() == 3 && one.writes[2] == 4);
        assert!(rt; one.tag.len() == 16 && one.tag[0] == 6);
        Ok(())
    }

    // The reading under another first byte: refused there, or by the reader of its new kind.
    fn only_its_kind(kind: u8) -> bool {
        let mut bytes = reading();
        bytes[0] = kind;
        match kind {
            1 | 2 => refused(&bytes, 2, Cause::Malformed, Layer::Frame, 9),
            4 => refused(&bytes, 2, Cause::Malformed, Layer::Proof, 3),
            5 => true,
            _ => refused(&bytes, 2, Cause::Malformed, Layer::Frame, 0),
        }
    }

    #[test]
    fn no_other_first_byte_is_a_kind(rt: HostRuntime) {
        assert!(rt; refused(&[], 2, Cause::Malformed, Layer::Frame, 0));
        assert!(rt; (0..=255).all(only_its_kind));
    }

    #[test]
    fn members_are_counted_from_f(rt: HostRuntime) {
        assert!(rt; matches!(read_frame(&share(), 2), Ok(Frame::Share(_))));
        assert!(rt; refused(&share(), 1, Cause::NotMember, Layer::Frame, 1));
    }
}
