// The input, line by line: requests are replayed, and reports judged.
use crate::said::{Line, read};
use crate::show::{show_boards, show_replay, show_report};
use crate::tally::Tally;
use audit::state::Audit;
use board::state::Mark;
use decision::Decision;
use digest::Digest;
use lines::call::LONGEST_FRAME;
use lines::gather::Gather;
use seal::Seal;
use std::io::Read;
use store::Store;
use store::table::Table;

fn replay_request<D: Digest, L: Seal>(
    audit: &mut Audit<Table, D, L>,
    tally: &mut Tally,
    frame: &[u8],
) {
    match audit.deliver(frame) {
        Ok(delivery) => match delivery.decision {
            Decision::Commit { .. } => tally.commits.add(),
            Decision::Abort => tally.aborts.add(),
        },
        Err(_) => tally.refused.add(),
    }
}

fn judge_report<D: Digest, L: Seal>(
    rt: &HostRuntime,
    audit: &mut Audit<Table, D, L>,
    tally: &mut Tally,
    board: u8,
    mark: Mark,
) -> anyhow::Result<()> {
    match audit.report(board, mark) {
        Some(judged) => {
            tally.note_reporter(board);
            show_report(rt, audit.reports(), board, mark, judged, audit.mark())
        }
        None => {
            tally.strange.add();
            let line = tally.lines;
            println!(rt;
                "line {line}: no report of board {board} can be judged, boards are 0 to 15"
            )?;
            Ok(())
        }
    }
}

fn take_line<D: Digest, L: Seal>(
    rt: &HostRuntime,
    audit: &mut Audit<Table, D, L>,
    tally: &mut Tally,
    line: &[u8],
) -> anyhow::Result<()> {
    let mut room = [0; LONGEST_FRAME];
    tally.lines.add();
    match read(line, &mut room) {
        Some(Line::Passed) => Ok(()),
        Some(Line::Request(frame)) => {
            replay_request(audit, tally, frame);
            Ok(())
        }
        Some(Line::Report(board, mark)) => judge_report(rt, audit, tally, board, mark),
        None => {
            tally.strange.add();
            let at = tally.lines;
            println!(rt; "line {at}: not understood")?;
            Ok(())
        }
    }
}

// Nothing below the programs reads or writes, so each program has a loop of its own.
// Takes the next bytes of the input; false where there are no more.
fn take_chunk<D: Digest, L: Seal>(
    rt: &HostRuntime,
    audit: &mut Audit<Table, D, L>,
    tally: &mut Tally,
    gather: &mut Gather,
) -> anyhow::Result<bool> {
    let mut chunk = [0; 4096];
    let n = rt.stdin().read(&mut chunk)?;
    for b in &chunk[..n] {
        if *b == b'\n' {
            take_line(rt, audit, tally, gather.as_slice())?;
            gather.clear();
        } else {
            gather.push(*b);
        }
    }
    Ok(n > 0)
}

// All of the input, and then what it came to.
pub(crate) fn replay<D: Digest, L: Seal>(
    rt: &HostRuntime,
    audit: &mut Audit<Table, D, L>,
) -> anyhow::Result<()> {
    let mut tally = Tally::new();
    let mut gather = Gather::new();
    for _ in 0..u64::MAX {
        if !take_chunk(rt, audit, &mut tally, &mut gather)? {
            break;
        }
    }
    if !gather.is_empty() {
        take_line(rt, audit, &mut tally, gather.as_slice())?;
    }
    show_boards(rt, audit, &tally)?;
    show_replay(rt, &tally)
}
