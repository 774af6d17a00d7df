// The seals by example: known tags, what passes, and what is refused where.
#![tactic(auto)]

#[cfg(test)]
mod tests {
    use fault::{Cause, Fault, Layer};
    use sample_keys::sample_keys;
    use seal::mac::HmacSeal;
    use seal::sip::SipSeal;
    use seal::{Seal, client_signer};
    use std::process::Abort;
    use std::test::Fail;

    fn malformed(place: u32) -> Fault {
        Cause::Malformed.at(Layer::Frame, place)
    }

    // The tag is made from any cut, passes, and is the only one that does.
    fn one_tag<S: Seal>(rt: &impl Abort, seal: &S, expected: &[u8; 16]) -> Result<(), Fail> {
        let text = b"ENTR\x00\x01\x02\x03\x04\x05\x06\x07\x08\x09\x0a\x0b";
        for cut in 0..=text.len() {
            let (front, rest) = text.split_at(cut);
            assert!(rt; seal.make(19, front, rest)? == *expected);
        }
        assert!(rt; seal.check(19, &text[0..4], &text[4..16], expected)?);
        assert!(rt; !seal.check(18, &text[0..4], &text[4..16], expected)?);
        assert!(rt; !seal.check(19, &text[0..4], &text[5..16], expected)?);
        assert!(rt; !seal.check(19, &text[0..4], &text[4..16], &expected[0..15])?);
        Ok(())
    }

    // No tag that differs in one bit passes.
    fn each_bit<S: Seal>(rt: &impl Abort, seal: &S) -> Result<(), Fail> {
        let right = seal.make(0, b"CHN1", b"")?;
        for bit in 0..128u32 {
            let wrong = u128::from_be_bytes(right) ^ (1 << bit);
            assert!(rt; !seal.check(0, b"CHN1", b"", &wrong.to_be_bytes())?);
        }
        assert!(rt; seal.check(0, b"CHN1", b"", &right)?);
        Ok(())
    }

    fn refusals<S: Seal>(rt: &impl Abort, seal: &S) {
        let long = [7u8; 65536];
        assert!(rt; seal.make(31, &long[0..4], &long[4..65535]).is_ok());
        assert_eq!(rt;
            seal.make(31, &long[0..4], &long[4..65536]),
            Err(malformed(65535))
        );
        assert_eq!(rt;
            seal.make(32, &long[0..4], &long[4..65536]),
            Err(malformed(0))
        );
        assert_eq!(rt; seal.check(255, b"", b"", b""), Err(malformed(0)));
        assert_eq!(rt; seal.verify(31, &long, b"", b"", 9), Err(malformed(65535)));
    }

    fn verified<S: Seal>(rt: &impl Abort, seal: &S) -> Result<(), Fail> {
        let right = seal.make(16, b"RQST", b"abc")?;
        let wrong = Cause::WrongTag.at(Layer::Seal, 77);
        assert_eq!(rt; seal.verify(16, b"RQST", b"abc", &right, 77), Ok(()));
        assert_eq!(rt; seal.verify(17, b"RQST", b"abc", &right, 77), Err(wrong));
        assert_eq!(rt; seal.verify(16, b"RQST", b"abd", &right, 77), Err(wrong));
        Ok(())
    }

    fn all_of<S: Seal>(rt: &impl Abort, seal: &S, expected: &[u8; 16]) -> Result<(), Fail> {
        one_tag(rt, seal, expected)?;
        each_bit(rt, seal)?;
        refusals(rt, seal);
        verified(rt, seal)
    }

    #[test]
    fn sip(rt: HostRuntime) -> Result<(), Fail> {
        let expected = *b"\xeb\x8a\xf0\x8d\x45\x69\x95\x9c\x00\x00\x00\x00\x00\x00\x00\x00";
        all_of(&rt, &SipSeal::new(sample_keys()), &expected)
    }

    #[test]
    fn hmac(rt: HostRuntime) -> Result<(), Fail> {
        let expected = *b"\xf9\xe0\xe8\x34\xed\x9c\xb4\x73\xb6\xec\x2e\x2c\xbe\x99\x03\x35";
        all_of(&rt, &HmacSeal::new(sample_keys()), &expected)
    }

    #[test]
    fn clients(rt: HostRuntime) {
        assert_eq!(rt; client_signer(0), 16);
        assert_eq!(rt; client_signer(15), 31);
        assert_eq!(rt; client_signer(250), 255);
    }
}
