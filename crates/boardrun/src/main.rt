// The line program: a board on standard input and output, one line of hexadecimal digits to a call.
#![tactic(auto)]

use board_line::serve::Answerer;
use digest::Fnv;
use lines::serve::Serving;
use seal::sip::SipSeal;
use std::io::{Read, Write};
use store::table::Table;

mod start;

use start::start;

fn write_answer(out: &mut impl Write, digits: &[u8]) -> anyhow::Result<()> {
    out.write_all(digits)?;
    out.write_all(b"\n")?;
    Ok(())
}

// Nothing below the programs reads or writes, so each program has a loop of its own.
// Feeds the next bytes of the input to the board and writes the answers; false where there are no more.
fn serve_chunk(
    serving: &mut Serving<Answerer<Table, Fnv, SipSeal>>,
    input: &mut impl Read,
    output: &mut impl Write,
) -> anyhow::Result<bool> {
    let mut chunk = [0; 4096];
    let n = input.read(&mut chunk)?;
    for b in &chunk[..n] {
        if serving.take(*b).is_some() {
            write_answer(output, serving.answerer().digits())?;
        }
    }
    Ok(n > 0)
}

fn run(rt: &HostRuntime) -> anyhow::Result<()> {
    let mut serving = start();
    let mut input = rt.stdin();
    let mut output = rt.stdout();
    for _ in 0..u64::MAX {
        if !serve_chunk(&mut serving, &mut input, &mut output)? {
            break;
        }
    }
    if serving.finish().is_some() {
        write_answer(&mut output, serving.answerer().digits())?;
    }
    Ok(())
}

fn main(rt: HostRuntime) -> anyhow::Result<()> {
    run(&rt)
}
