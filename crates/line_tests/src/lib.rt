// The line library by example: what a bank with no commits says to lines of every kind, good and damaged.
#![tactic(auto)]

#[cfg(test)]
mod tests {
    use bank::state::Bank;
    use digest::Fnv;
    use line::reply::NotServed;
    use line::serve::Answerer;
    use lines::answer_line::AnswerLine;
    use lines::serve::Serving;
    use std::alloc::{AllocError, Global};
    use std::process::Abort;
    use std::test::Fail;
    use store::Store;
    use store::table::Table;

    const REFUSED: &[u8] = b"ff01460000\n";

    fn put_answer(
        out: &mut Vec<u8>,
        answer: Result<AnswerLine<136>, NotServed>,
    ) -> Result<(), AllocError> {
        match answer {
            Ok(line) => {
                out.extend_from_slice(line.as_slice())?;
                out.push(b'\n')?;
                Ok(())
            }
            Err(NotServed) => out.extend_from_slice(b"not served\n"),
        }
    }

    // What is written for an input.
    fn served(heap: Global, input: &[u8]) -> Result<Vec<u8>, AllocError> {
        let bank: Bank<Table, Fnv> = Bank::new((), Fnv);
        let mut serving = Serving::new(Answerer::new(bank));
        let mut out = Vec::new(heap);
        for b in input {
            if let Some(answer) = serving.take(*b) {
                put_answer(&mut out, answer)?;
            }
        }
        if let Some(answer) = serving.finish() {
            put_answer(&mut out, answer)?;
        }
        Ok(out)
    }

    fn says(
        rt: &(impl Abort + AllocGlobal),
        what: &str,
        input: &[u8],
        answer: &[u8],
    ) -> Result<(), Fail> {
        let out = served(rt.alloc(), input)?;
        assert!(rt; out.as_slice() == answer, "{what}");
        Ok(())
    }

    #[test]
    fn lines_that_ask_for_no_call(rt: HostRuntime) -> Result<(), Fail> {
        says(&rt, "empty", b"\n", REFUSED)?;
        says(&rt, "odd", b"070\n", REFUSED)?;
        says(&rt, "no digit", b"0g\n", REFUSED)?;
        says(&rt, "NUL", b"0\x00\n", REFUSED)?;
        says(&rt, "CR", b"07\r\n", REFUSED)?;
        says(&rt, "no text", b"\xff\xfe\n", REFUSED)?;
        says(&rt, "07 of another length", b"0700\n", REFUSED)?;
        says(&rt, "06 of another length", b"06\n", REFUSED)?;
        says(&rt, "03 of another length", b"03000000\n", REFUSED)?;
        says(&rt, "08 of another length", b"0800\n", REFUSED)?;
        says(
            &rt,
            "other kinds",
            b"04\n05\n09\n00\n",
            b"ff01460000\nff01460000\nff01460000\nff01460000\n",
        )
    }

    #[test]
    fn lines_and_their_ends(rt: HostRuntime) -> Result<(), Fail> {
        says(&rt, "no input", b"", b"")?;
        says(
            &rt,
            "behind a last LF there is no line",
            b"0300000000\n",
            b"000400010000\n",
        )?;
        says(
            &rt,
            "a last line without LF",
            b"0300000000",
            b"000400010000\n",
        )?;
        says(
            &rt,
            "an empty line is a line",
            b"\n0300000000",
            b"ff01460000\n000400010000\n",
        )?;
        says(
            &rt,
            "upper case",
            b"0640\n06FF",
            b"ff01460001\nff01460001\n",
        )
    }

    #[test]
    fn calls_on_a_bank_with_no_commits(rt: HostRuntime) -> Result<(), Fail> {
        says(&rt, "lowest above highest", b"0300010000", b"ff01460003\n")?;
        says(
            &rt,
            "highest above the last commit",
            b"0300000001",
            b"ff0c420000\n",
        )?;
        says(&rt, "version 0", b"080000", b"ff01460001\n")?;
        says(
            &rt,
            "version above the last commit",
            b"08ffff",
            b"ff0c420000\n",
        )?;
        says(&rt, "a request", b"01", b"not served\n")?;
        says(&rt, "a share", b"02ff\n", b"not served\n")
    }

    fn long_line(heap: Global, digits: usize) -> Result<Vec<u8>, AllocError> {
        let mut line = Vec::new(heap);
        line.push(b'0')?;
        line.push(b'9')?;
        for _ in 2..digits {
            line.push(b'0')?;
        }
        line.extend_from_slice(b"\n07")?;
        Ok(line)
    }

    #[test]
    fn long_lines_are_refused_and_the_next_is_the_next(rt: HostRuntime) -> Result<(), Fail> {
        let zeros = served(rt.alloc(), b"07")?;
        let mut expected = REFUSED.to_vec(rt.alloc())?;
        expected.extend_from_slice(zeros.as_slice())?;
        for digits in [1708, 1709, 1710, 100000] {
            let line = long_line(rt.alloc(), digits)?;
            says(&rt, "a long line", line.as_slice(), expected.as_slice())?;
        }
        Ok(())
    }
}
