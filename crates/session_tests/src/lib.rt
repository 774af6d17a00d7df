// Sessions of four boards, of which one may lie.
#![tactic(auto)]

#[cfg(test)]
mod tests {
    use cluster_size::ClusterSize;
    use decision::Decision;
    use fault::{Cause, Fault, Layer, Verdict};
    use session::replies::Reply;
    use session::state::Session;
    use std::test::Fail;

    fn says(board: u8, verdict: Verdict, version: u32) -> Reply {
        Reply {
            board,
            verdict,
            version,
        }
    }

    // Whether a session refused for a cause, under the number and the letter that answers carry.
    fn is_refused(answer: Result<Option<Decision>, Fault>, cause: Cause, number: u8) -> bool {
        let Err(f) = answer else {
            return false;
        };
        f == cause.at(Layer::Session, 0)
            && u8::from(f.cause) == number
            && u8::from(f.layer) == b'C'
            && f.place == 0
    }

    // Whether a session decided to commit at a version, under the byte that answers carry.
    fn is_commit(answer: Result<Option<Decision>, Fault>, version: u32) -> bool {
        let Ok(Some(decision)) = answer else {
            return false;
        };
        decision == Decision::Commit { version } && u8::from(decision.verdict()) == 1
    }

    #[test]
    fn two_boards_that_agree_decide(rt: HostRuntime) -> Result<(), Fail> {
        let mut session = Session::new(ClusterSize::new(1)?);
        assert!(rt; session.reply(says(0, Verdict::Commit, 7)) == Ok(None));
        assert!(rt;
            is_refused(
                session.reply(says(0, Verdict::Commit, 7)),
                Cause::Settled,
                16
            )
        );
        assert!(rt; session.reply(says(2, Verdict::Commit, 8)) == Ok(None));
        assert!(rt; session.reply(says(1, Verdict::Abort, 0)) == Ok(None));
        assert!(rt; is_commit(session.reply(says(3, Verdict::Commit, 7)), 7));
        assert!(rt; is_commit(Ok(session.outcome()), 7));
        assert!(rt;
            is_refused(
                session.reply(says(1, Verdict::Commit, 7)),
                Cause::Settled,
                16
            )
        );
        Ok(())
    }

    #[test]
    fn checks_come_in_order(rt: HostRuntime) -> Result<(), Fail> {
        let mut session = Session::new(ClusterSize::new(1)?);
        assert!(rt;
            is_refused(
                session.reply(says(4, Verdict::Commit, 0)),
                Cause::Malformed,
                1
            )
        );
        assert!(rt;
            is_refused(
                session.reply(says(0, Verdict::Abort, 1)),
                Cause::Malformed,
                1
            )
        );
        assert!(rt;
            is_refused(
                session.reply(says(4, Verdict::Commit, 1)),
                Cause::NotMember,
                5
            )
        );
        assert!(rt;
            is_refused(
                session.reply(says(255, Verdict::Abort, 0)),
                Cause::NotMember,
                5
            )
        );
        assert!(rt; session.reply(says(3, Verdict::Abort, 0)) == Ok(None));
        Ok(())
    }

    #[test]
    fn sizes_are_one_to_five(rt: HostRuntime) {
        assert!(rt; ClusterSize::new(5).is_ok());
        assert!(rt; ClusterSize::new(0).is_err());
        assert!(rt; ClusterSize::new(6).is_err());
    }
}
