// Tests of runs: calls on new boards with different stores, their marks, and readings judged with a board's own proof.
#![tactic(auto)]

#[cfg(test)]
mod tests {
    use board::size::Place;
    use board::state::{Board, Mark};
    use cluster_size::ClusterSize;
    use decision::Decision;
    use digest::{Digest, Fnv};
    use fault::{Cause, Fault};
    use log_store::records::LogRecord;
    use log_store::{Log, LogMemory};
    use promises::calls::{Answer, Call, Start};
    use promises::marks::{deliver_both, runs_agree, same_marks};
    use promises::readings::{judge, run_and_judge};
    use promises::runs::run_new;
    use reader::state::Reader;
    use reading::draft::write_reading;
    use reading::part::ReadingDraft;
    use request::item::{ReadItem, WriteItem};
    use sample_keys::sample_keys;
    use seal::sip::SipSeal;
    use sealed_request::{Unsealed, seal_request};
    use std::process::Abort;
    use std::test::Fail;
    use store::Store;
    use store::item::Item;
    use store::record::Record;
    use store::table::Table;

    fn start(number: u8) -> Result<Start<(), Fnv, SipSeal>, Fault> {
        Ok(Start {
            place: Place::new(1, number)?,
            memory: (),
            digest: Fnv,
            seal: SipSeal::new(sample_keys()),
        })
    }

    // A log over memory that held something else.
    fn log_start(number: u8) -> Result<Start<LogMemory<65>, Fnv, SipSeal>, Fail> {
        let Some(item) = Item::new(3) else {
            return Err(Fail::new("3 is an item"));
        };
        let mut row = Record::blank();
        row.version = 9;
        Ok(Start {
            place: Place::new(1, number)?,
            memory: LogMemory::new([LogRecord { item, row }; 65])?,
            digest: Fnv,
            seal: SipSeal::new(sample_keys()),
        })
    }

    // A request of client 0: it read an item at a version with a value, and writes another value to it. 60 bytes.
    fn request(
        number: u32,
        item: u8,
        version: u32,
        old: &[u8],
        new: u8,
    ) -> Result<[u8; 60], Fault> {
        let mut out = [0; 60];
        let reads = [ReadItem::new(item, version, Fnv.digest(&[], old)?)];
        let value = [new];
        let writes = [WriteItem {
            item,
            value: &value,
        }];
        seal_request(
            &SipSeal::new(sample_keys()),
            Unsealed {
                client: 0,
                sequence: number,
                reads: &reads,
                writes: &writes,
            },
            &mut out,
        )?;
        Ok(out)
    }

    const NOTHING: Answer = Answer::Marked(Mark {
        count: 0,
        chain: [0; 32],
    });

    fn is_commit(answer: Answer, version: u32) -> bool {
        match answer {
            Answer::Delivered(Ok(d)) => d.decision == Decision::Commit { version },
            _ => false,
        }
    }

    fn is_abort(answer: Answer) -> bool {
        match answer {
            Answer::Delivered(Ok(d)) => d.decision == Decision::Abort,
            _ => false,
        }
    }

    fn is_refused(answer: Answer) -> bool {
        match answer {
            Answer::Delivered(r) => r.is_err(),
            Answer::Asked(r) => r.is_err(),
            Answer::Marked(_) => false,
            Answer::SharedOut(r) => r.is_err(),
            Answer::SharedIn(r) => r.is_err(),
            Answer::Proved(r) => r.is_err(),
        }
    }

    // A request that commits, one that is stale, and four calls that only look.
    fn mixed<'a>(first: &'a [u8], stale: &'a [u8]) -> [Call<'a>; 6] {
        [
            Call::Deliver(first),
            Call::Deliver(stale),
            Call::Item(64),
            Call::ShareOut {
                version: 1,
                room: 19,
            },
            Call::Mark,
            Call::Proof {
                low: 0,
                high: 0,
                room: 5,
            },
        ]
    }

    fn answered_in_turn<'a>(rt: &impl Abort, first: &'a [u8], stale: &'a [u8]) -> Result<(), Fail> {
        let calls = mixed(first, stale);
        let mut answers = [NOTHING; 7];
        let mut room = [3; 32];
        let (_, made) = run_new::<Table, Fnv, SipSeal>(start(0)?, &calls, &mut answers, &mut room);
        assert!(rt; made == 6);
        assert!(rt; is_commit(answers[0], 1) && is_abort(answers[1]));
        assert!(rt; is_refused(answers[2]) && is_refused(answers[3]));
        assert!(rt; !is_refused(answers[4]) && !is_refused(answers[5]));
        assert!(rt; room[0] == 4 && room[2] == 1 && room[4] == 0 && room[5] == 3);
        Ok(())
    }

    #[test]
    fn every_call_of_a_run_is_answered(rt: HostRuntime) -> Result<(), Fail> {
        let first = request(1, 5, 0, &[], 7)?;
        let stale = request(2, 5, 0, &[], 8)?;
        answered_in_turn(&rt, &first, &stale)
    }

    // Two requests of which the second read what the first wrote, and other calls between them.
    fn two<'a>(first: &'a [u8], second: &'a [u8], between: Call<'a>) -> [Call<'a>; 3] {
        [Call::Deliver(first), between, Call::Deliver(second)]
    }

    // Runs on a table and on a log, asked for different things between the requests.
    fn agree<'a>(first: &'a [u8], second: &'a [u8], other: &'a [u8]) -> Result<bool, Fail> {
        let calls = two(first, second, Call::Mark);
        let others = two(first, other, Call::Item(5));
        let mut answers = [NOTHING; 3];
        let mut replies = [NOTHING; 3];
        let mut room = [0; 32];
        let mut space = [0; 0];
        let (_, _, same) = runs_agree::<Table, Log<65>, Fnv, SipSeal, SipSeal>(
            start(0)?,
            &calls,
            &mut answers,
            &mut room,
            log_start(3)?,
            &others,
            &mut replies,
            &mut space,
        );
        Ok(same)
    }

    #[test]
    fn marks_are_equal_where_the_commits_are(rt: HostRuntime) -> Result<(), Fail> {
        let first = request(1, 5, 0, &[], 7)?;
        let second = request(2, 5, 1, &[7], 8)?;
        let other = request(2, 5, 1, &[7], 9)?;
        assert!(rt; agree(&first, &second, &second)?);
        assert!(rt; !agree(&first, &second, &other)?);
        assert!(rt; !agree(&first, &second, &first)?);
        Ok(())
    }

    // A board's share of a version, after both requests.
    fn share_of<'a>(
        number: u8,
        version: u32,
        first: &'a [u8],
        second: &'a [u8],
    ) -> Result<[u8; 20], Fail> {
        let calls = two(first, second, Call::Mark);
        let mut answers = [NOTHING; 3];
        let mut out = [0; 20];
        let (mut board, _) = run_new::<Table, Fnv, SipSeal>(
            start(number)?,
            &calls,
            &mut answers,
            &mut out,
        );
        board.share_out(version, &mut out)?;
        Ok(out)
    }

    // Both requests, and two shares of each version.
    fn sealed<'a>(
        first: &'a [u8],
        second: &'a [u8],
        one: &'a [[u8; 20]; 2],
        other: &'a [[u8; 20]; 2],
    ) -> [Call<'a>; 6] {
        [
            Call::Deliver(first),
            Call::Deliver(second),
            Call::ShareIn(&one[0]),
            Call::ShareIn(&one[1]),
            Call::ShareIn(&other[0]),
            Call::ShareIn(&other[1]),
        ]
    }

    // A reading of item 5, 6 bytes, judged with the proof of a board that made these calls.
    fn judged(
        rt: &impl Abort,
        calls: &[Call<'_>],
        version: u32,
        value: u8,
    ) -> Result<Result<u32, Fault>, Fail> {
        let bytes = [value];
        let mut reading = [0; 7];
        let read = ReadingDraft {
            item: 5,
            version,
            value: &bytes,
        };
        write_reading(&[read], &mut reading)?;
        let reader = Reader::new(ClusterSize::new(1)?, Fnv, SipSeal::new(sample_keys()));
        let mut answers = [NOTHING; 6];
        let mut room = [0; 0];
        let mut proof = [0; 100];
        let (_, made, answer) = run_and_judge::<Table, Fnv, SipSeal, SipSeal>(
            start(0)?,
            calls,
            &mut answers,
            &mut room,
            &reader,
            &reading,
            &mut proof,
        );
        assert!(rt; made == 6 && !is_refused(answers[5]));
        assert!(rt; judge(&reader, &reading, &proof[0..0]).is_err());
        Ok(answer)
    }

    fn is(answer: Result<u32, Fault>, cause: Cause) -> bool {
        match answer {
            Ok(_) => false,
            Err(fault) => fault.cause == cause,
        }
    }

    fn readings_are_judged<'a>(
        rt: &impl Abort,
        first: &'a [u8],
        second: &'a [u8],
        one: &'a [[u8; 20]; 2],
        other: &'a [[u8; 20]; 2],
    ) -> Result<(), Fail> {
        let calls = sealed(first, second, one, other);
        assert!(rt; judged(rt, &calls, 2, 8)?? == 2);
        assert!(rt; judged(rt, &calls, 1, 7)?? == 1);
        assert!(rt; is(judged(rt, &calls, 2, 7)?, Cause::Unmatched));
        assert!(rt; is(judged(rt, &calls, 3, 8)?, Cause::NotCommitted));
        Ok(())
    }

    #[test]
    fn a_reading_is_judged_with_the_boards_own_proof(rt: HostRuntime) -> Result<(), Fail> {
        let first = request(1, 5, 0, &[], 7)?;
        let second = request(2, 5, 1, &[7], 8)?;
        let one = [
            share_of(0, 1, &first, &second)?,
            share_of(2, 1, &first, &second)?,
        ];
        let other = [
            share_of(3, 2, &first, &second)?,
            share_of(1, 2, &first, &second)?,
        ];
        readings_are_judged(&rt, &first, &second, &one, &other)
    }

    #[test]
    fn two_boards_answer_a_frame_alike(rt: HostRuntime) -> Result<(), Fail> {
        let first = request(1, 5, 0, &[], 7)?;
        let table = start(1)?;
        let log = log_start(2)?;
        let mut one: Board<Table, Fnv, SipSeal> = Board::new(
            table.place,
            table.memory,
            table.digest,
            table.seal,
        );
        let mut other: Board<Log<65>, Fnv, SipSeal> = Board::new(
            log.place, log.memory, log.digest, log.seal,
        );
        let (mine, theirs) = deliver_both(&mut one, &mut other, &first);
        assert!(rt; mine?.decision == Decision::Commit { version: 1 });
        assert!(rt; theirs?.decision == Decision::Commit { version: 1 });
        let (mine, theirs) = deliver_both(&mut one, &mut other, &first);
        assert!(rt; mine.is_err() && theirs.is_err());
        assert!(rt; same_marks(&one, &other) && one.mark().count == 1);
        Ok(())
    }

    // What these calls stand for is proved; here they are made.
    #[test]
    fn worked_cases_and_instances_stand(rt: HostRuntime) {
        assert!(rt; worked::cases_stand());
        assert!(rt; reader::worked::accepted_and_refused());
    }
}
