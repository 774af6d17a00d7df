// The line library by example: what a new board says to lines of every kind, good and damaged.
#![tactic(auto)]

#[cfg(test)]
mod tests {
    use board::size::Place;
    use board::state::Board;
    use board_line::serve::Answerer;
    use digest::Fnv;
    use lines::serve::Serving;
    use sample_keys::sample_keys;
    use seal::sip::SipSeal;
    use std::alloc::{AllocError, Global};
    use std::process::Abort;
    use std::test::Fail;
    use store::Store;
    use store::table::Table;

    const REFUSED: &[u8] = b"ff01460000\n";

    // Client 0, number 1, reads item 5 at version 0 and writes the byte 2a to it.
    const REQUEST: &[u8] =
        b"010000010101050000cbf29ce48422232500000000000000000000000000000000000000000000000005012a8fa3e8c1f5ce79160000000000000000\n";

    // The shares of boards 1 and 0 for that commit.
    const SHARE_1: &[u8] = b"0201000180e9015b3e0365d90000000000000000\n";

    const SHARE_0: &[u8] = b"020000018e63d5a76678eeec0000000000000000\n";

    fn put_answer(out: &mut Vec<u8>, digits: &[u8]) -> Result<(), AllocError> {
        out.extend_from_slice(digits)?;
        out.push(b'\n')?;
        Ok(())
    }

    // What a new board 0 for f = 1 writes for an input.
    fn served(heap: Global, input: &[u8]) -> Result<Vec<u8>, Fail> {
        let place = Place::new(1, 0)?;
        let board: Board<Table, Fnv, SipSeal> = Board::new(
            place,
            (),
            Fnv,
            SipSeal::new(sample_keys()),
        );
        let mut serving = Serving::new(Answerer::new(board));
        let mut out = Vec::new(heap);
        for b in input {
            if serving.take(*b).is_some() {
                put_answer(&mut out, serving.answerer().digits())?;
            }
        }
        if serving.finish().is_some() {
            put_answer(&mut out, serving.answerer().digits())?;
        }
        Ok(out)
    }

    // What the last of some lines is answered.
    fn last_says(
        rt: &(impl Abort + AllocGlobal),
        what: &str,
        lines: &[&[u8]],
        answer: &[u8],
    ) -> Result<(), Fail> {
        let mut input = Vec::new(rt.alloc());
        for line in lines {
            input.extend_from_slice(line)?;
        }
        let out = served(rt.alloc(), input.as_slice())?;
        assert!(rt; out.as_slice().ends_with(answer), "{what}");
        Ok(())
    }

    fn says(
        rt: &(impl Abort + AllocGlobal),
        what: &str,
        input: &[u8],
        answer: &[u8],
    ) -> Result<(), Fail> {
        let out = served(rt.alloc(), input)?;
        assert!(rt; out.as_slice() == answer, "{what}");
        Ok(())
    }

    #[test]
    fn lines_that_ask_for_no_call(rt: HostRuntime) -> Result<(), Fail> {
        says(&rt, "empty", b"\n", REFUSED)?;
        says(&rt, "odd", b"070\n", REFUSED)?;
        says(&rt, "no digit", b"0g\n", REFUSED)?;
        says(&rt, "NUL", b"0\x00\n", REFUSED)?;
        says(&rt, "CR", b"07\r\n", REFUSED)?;
        says(&rt, "no text", b"\xff\xfe\n", REFUSED)?;
        says(&rt, "07 of another length", b"0700\n", REFUSED)?;
        says(&rt, "06 of another length", b"06\n", REFUSED)?;
        says(&rt, "03 of another length", b"03000000\n", REFUSED)?;
        says(&rt, "08 of another length", b"0800\n", REFUSED)?;
        says(
            &rt,
            "other kinds",
            b"04\n05\n09\n00\n",
            b"ff01460000\nff01460000\nff01460000\nff01460000\n",
        )
    }

    #[test]
    fn lines_and_their_ends(rt: HostRuntime) -> Result<(), Fail> {
        says(&rt, "no input", b"", b"")?;
        says(
            &rt,
            "behind a last LF there is no line",
            b"0300000000\n",
            b"000400010000\n",
        )?;
        says(
            &rt,
            "a last line without LF",
            b"0300000000",
            b"000400010000\n",
        )?;
        says(
            &rt,
            "an empty line is a line",
            b"\n0300000000",
            b"ff01460000\n000400010000\n",
        )?;
        says(
            &rt,
            "upper case",
            b"0640\n06FF",
            b"ff01460001\nff01460001\n",
        )
    }

    #[test]
    fn calls_on_a_new_board(rt: HostRuntime) -> Result<(), Fail> {
        says(&rt, "lowest above highest", b"0300010000", b"ff01460003\n")?;
        says(
            &rt,
            "highest above the last commit",
            b"0300000001",
            b"ff0c420000\n",
        )?;
        says(&rt, "version 0", b"080000", b"ff01460001\n")?;
        says(
            &rt,
            "version above the last commit",
            b"08ffff",
            b"ff0c420000\n",
        )?;
        says(&rt, "a request of one byte", b"01", b"ff01460001\n")?;
        says(&rt, "client 16", b"0110", b"ff01460001\n")?;
        says(&rt, "a share of two bytes", b"02ff\n", b"ff01460002\n")?;
        says(&rt, "a share of version 0", b"02010000", b"ff01460002\n")?;
        says(&rt, "a share of no commit", SHARE_1, b"ff0c420000\n")
    }

    #[test]
    fn a_request_its_shares_and_their_proof(rt: HostRuntime) -> Result<(), Fail> {
        last_says(
            &rt,
            "commit 1, number 5 opened",
            &[REQUEST],
            b"000100010005\n",
        )?;
        last_says(
            &rt,
            "its number is used up",
            &[REQUEST, REQUEST],
            b"ff0a420002\n",
        )?;
        last_says(&rt, "one share", &[REQUEST, SHARE_1], b"0001\n")?;
        last_says(
            &rt,
            "board 1 sent one",
            &[REQUEST, SHARE_1, SHARE_1],
            b"ff0e420000\n",
        )?;
        last_says(&rt, "two shares", &[REQUEST, SHARE_1, SHARE_0], b"0002\n")?;
        last_says(
            &rt,
            "share out",
            &[REQUEST, b"080001"],
            b"00020000018e63d5a76678eeec0000000000000000\n",
        )?;
        last_says(
            &rt,
            "one is too few",
            &[REQUEST, SHARE_1, b"0300010001"],
            b"ff0f420001\n",
        )?;
        last_says(
            &rt,
            "the proof, a lowest 0 counting as 1",
            &[REQUEST, SHARE_1, SHARE_0, b"0300000001"],
            b"00040001000100010105af63a74c8601927d000000000000000100000000000000000000000000000000008e63d5a76678eeec00000000000000000180e9015b3e0365d90000000000000000\n",
        )
    }

    // Each digit of a request, made another: refused, and nothing committed.
    #[test]
    fn damaged_requests(rt: HostRuntime) -> Result<(), Fail> {
        let mark = served(rt.alloc(), b"07")?;
        for i in 2..120 {
            let mut input = REQUEST.to_vec(rt.alloc())?;
            let digit = input[i];
            input[i] = if digit == b'0' { b'1' } else { b'0' };
            input.extend_from_slice(b"07")?;
            let out = served(rt.alloc(), input.as_slice())?;
            assert!(rt; out.as_slice().starts_with(b"ff"));
            assert!(rt; out.as_slice().ends_with(mark.as_slice()));
        }
        Ok(())
    }

    fn long_line(heap: Global, digits: usize) -> Result<Vec<u8>, AllocError> {
        let mut line = Vec::new(heap);
        line.push(b'0')?;
        line.push(b'9')?;
        for _ in 2..digits {
            line.push(b'0')?;
        }
        line.extend_from_slice(b"\n07")?;
        Ok(line)
    }

    #[test]
    fn long_lines_are_refused_and_the_next_is_the_next(rt: HostRuntime) -> Result<(), Fail> {
        let zeros = served(rt.alloc(), b"07")?;
        let mut expected = REFUSED.to_vec(rt.alloc())?;
        expected.extend_from_slice(zeros.as_slice())?;
        for digits in [1708, 1709, 1710, 100000] {
            let line = long_line(rt.alloc(), digits)?;
            says(&rt, "a long line", line.as_slice(), expected.as_slice())?;
        }
        Ok(())
    }
}
