// What is printed of marks and of boards.
use crate::tally::Tally;
use audit::answers::{Departure, Judgement};
use audit::state::Audit;
use board::state::Mark;
use digest::Digest;
use seal::Seal;
use std::fmt;
use store::table::Table;

// Bytes as digits of lower case.
#[derive(Clone, Copy)]
struct Hex<'a>(&'a [u8]);

impl fmt::Display for Hex<'_> {
    fn fmt<W: fmt::Write>(&self, f: &mut fmt::Formatter<W>) -> fmt::Result {
        for b in self.0 {
            write!(f, "{b:02x}")?;
        }
        Ok(())
    }
}

fn print_mark(rt: &HostRuntime, mark: Mark) -> anyhow::Result<()> {
    let count = mark.count;
    let chain = Hex(&mark.chain);
    print!(rt; "count {count} chain {chain}")?;
    Ok(())
}

// One line to a report.
pub(crate) fn show_report(
    rt: &HostRuntime,
    number: u32,
    board: u8,
    mark: Mark,
    judged: Judgement,
    replay: Mark,
) -> anyhow::Result<()> {
    print!(rt; "report {number}: board {board} ")?;
    print_mark(rt, mark)?;
    match judged {
        Judgement::Right => print!(rt; " is right")?,
        Judgement::Wrong => {
            print!(rt; " is wrong, the replay has ")?;
            print_mark(rt, replay)?;
        }
    }
    println!(rt; "")?;
    Ok(())
}

fn show_departure(rt: &HostRuntime, board: u8, departure: Option<Departure>) -> anyhow::Result<()> {
    match departure {
        None => println!(rt; "board {board}: always right")?,
        Some(Departure { right: None, wrong }) => {
            println!(rt; "board {board}: wrong from its first report, {wrong}")?
        }
        Some(
            Departure {
                right: Some(right),
                wrong,
            },
        ) => println!(rt;
            "board {board}: departed between its report {right} (right) and its report {wrong} (wrong)"
        )?,
    }
    Ok(())
}

// One line to each board that reported.
pub(crate) fn show_boards<D: Digest, L: Seal>(
    rt: &HostRuntime,
    audit: &Audit<Table, D, L>,
    tally: &Tally,
) -> anyhow::Result<()> {
    for (i, reported) in tally.reported.iter().enumerate() {
        if *reported {
            let board = i as u8;
            show_departure(rt, board, audit.departure(board))?;
        }
    }
    Ok(())
}

// What the replay came to.
pub(crate) fn show_replay(rt: &HostRuntime, tally: &Tally) -> anyhow::Result<()> {
    let commits = tally.commits;
    let aborts = tally.aborts;
    let refused = tally.refused;
    let strange = tally.strange;
    let requests = commits.plus(aborts).plus(refused);
    println!(rt;
        "replay: {requests} requests, {commits} commits, {aborts} aborts, {refused} refused"
    )?;
    println!(rt; "{strange} lines not understood")?;
    Ok(())
}
