// The line program: a board's bank on standard input and output, one line of hexadecimal digits to a call.
#![tactic(auto)]

use bank::state::Bank;
use digest::Fnv;
use line::reply::NotServed;
use line::serve::Answerer;
use lines::answer_line::AnswerLine;
use lines::serve::Serving;
use std::io::{Read, Write};
use store::Store;
use store::table::Table;

fn write_answer(
    out: &mut impl Write,
    answer: Result<AnswerLine<136>, NotServed>,
) -> anyhow::Result<()> {
    let line = answer?;
    out.write_all(line.as_slice())?;
    out.write_all(b"\n")?;
    Ok(())
}

// Nothing below the programs reads or writes, so each program has a loop of its own.
// Feeds the next bytes of the input to the bank and writes the answers; false where there are no more.
fn serve_chunk(
    serving: &mut Serving<Answerer<Table, Fnv>>,
    input: &mut impl Read,
    output: &mut impl Write,
) -> anyhow::Result<bool> {
    let mut chunk = [0; 4096];
    let n = input.read(&mut chunk)?;
    for b in &chunk[..n] {
        if let Some(answer) = serving.take(*b) {
            write_answer(output, answer)?;
        }
    }
    Ok(n > 0)
}

fn run(rt: &HostRuntime) -> anyhow::Result<()> {
    let bank: Bank<Table, Fnv> = Bank::new((), Fnv);
    let mut serving = Serving::new(Answerer::new(bank));
    let mut input = rt.stdin();
    let mut output = rt.stdout();
    for _ in 0..u64::MAX {
        if !serve_chunk(&mut serving, &mut input, &mut output)? {
            break;
        }
    }
    match serving.finish() {
        Some(answer) => write_answer(&mut output, answer),
        None => Ok(()),
    }
}

fn main(rt: HostRuntime) -> anyhow::Result<()> {
    run(&rt)
}
