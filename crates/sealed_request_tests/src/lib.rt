// Tests of sealed requests: the tag passes with both seals, the bytes are the writer's under that tag, and a refusal leaves the buffer.
#![tactic(auto)]

#[cfg(test)]
mod tests {
    use fault::{Cause, Fault, Layer};
    use request::draft::{Draft, write_request};
    use request::item::{ReadItem, WriteItem};
    use request::read_request;
    use sample_keys::sample_keys;
    use seal::Seal;
    use seal::mac::HmacSeal;
    use seal::sip::SipSeal;
    use sealed_request::{Unsealed, seal_request};
    use std::process::Abort;
    use std::test::Fail;

    // Seals a request: one read of item 5, and one write to an item.
    fn put_sealed<L: Seal>(seal: &L, client: u8, item: u8, out: &mut [u8]) -> Result<usize, Fault> {
        let value = [4];
        let reads = [ReadItem::new(5, 0, [7; 32])];
        let writes = [WriteItem {
            item,
            value: &value,
        }];
        seal_request(
            seal,
            Unsealed {
                client,
                sequence: 258,
                reads: &reads,
                writes: &writes,
            },
            out,
        )
    }

    // Writes the same request under a tag.
    fn put_under(tag: [u8; 16], out: &mut [u8]) -> Result<usize, Fault> {
        let value = [4];
        let reads = [ReadItem::new(5, 0, [7; 32])];
        let writes = [WriteItem {
            item: 5,
            value: &value,
        }];
        write_request(
            Draft {
                client: 3,
                sequence: 258,
                reads: &reads,
                writes: &writes,
                tag,
            },
            out,
        )
    }

    // The tag stands behind the writes, passes for the client over label and frame, and for nobody and nothing else.
    fn tag_passes<L: Seal>(rt: &impl Abort, seal: &L) -> Result<(), Fail> {
        let mut out = [1; 64];
        let n = put_sealed(seal, 3, 5, &mut out)?;
        assert!(rt; n == 60 && out[60] == 1 && out[63] == 1);
        let read = read_request(&out[0..60])?;
        assert!(rt; seal.check(19, b"RQST", read.covered(), read.tag)?);
        assert!(rt; !seal.check(3, b"RQST", read.covered(), read.tag)?);
        assert!(rt; !seal.check(20, b"RQST", read.covered(), read.tag)?);
        assert!(rt; !seal.check(19, b"ENTR", read.covered(), read.tag)?);
        assert!(rt; !seal.check(19, b"RQST", &out[0..43], read.tag)?);
        assert!(rt; !seal.check(19, b"RQST", &out[1..44], read.tag)?);
        Ok(())
    }

    // The bytes are those of the writer that is handed this tag.
    fn bytes_are_the_writers<L: Seal>(rt: &impl Abort, seal: &L) -> Result<(), Fail> {
        let mut out = [1; 64];
        let mut same = [1; 64];
        let n = put_sealed(seal, 3, 5, &mut out)?;
        let tag = seal.make(19, b"RQST", &out[0..44])?;
        let m = put_under(tag, &mut same)?;
        assert!(rt; n == m && out == same);
        Ok(())
    }

    // Whether the request is refused with this fault, and the buffer left.
    fn refused<L: Seal>(
        seal: &L,
        client: u8,
        item: u8,
        room: usize,
        cause: Cause,
        place: u32,
    ) -> bool {
        let mut out = [7; 64];
        if room > 64 {
            return false;
        }
        let written = put_sealed(seal, client, item, &mut out[0..room]);
        written == Err(cause.at(Layer::Frame, place)) && out == [7; 64]
    }

    fn refusals<L: Seal>(rt: &impl Abort, seal: &L) {
        assert!(rt; refused(seal, 16, 5, 64, Cause::Malformed, 1));
        assert!(rt; refused(seal, 255, 5, 0, Cause::Malformed, 1));
        assert!(rt; refused(seal, 3, 64, 64, Cause::Malformed, 41));
        assert!(rt; refused(seal, 3, 6, 0, Cause::Unread, 41));
        assert!(rt; refused(seal, 3, 5, 59, Cause::NoRoom, 0));
        assert!(rt; refused(seal, 3, 5, 0, Cause::NoRoom, 0));
    }

    fn sealed_by<L: Seal>(rt: &impl Abort, seal: &L) -> Result<(), Fail> {
        tag_passes(rt, seal)?;
        bytes_are_the_writers(rt, seal)?;
        refusals(rt, seal);
        Ok(())
    }

    #[test]
    fn a_tag_by_siphash(rt: HostRuntime) -> Result<(), Fail> {
        sealed_by(&rt, &SipSeal::new(sample_keys()))
    }

    #[test]
    fn a_tag_by_hmac(rt: HostRuntime) -> Result<(), Fail> {
        sealed_by(&rt, &HmacSeal::new(sample_keys()))
    }
}
