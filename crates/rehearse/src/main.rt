// The rehearsal: a cluster of 3f + 1 boards, some of them wrong, with clients, sessions and a reader.
// rehearse [F [DIGEST [SEAL [WAY...]]]], or `rehearse all` for every way in turn, or `rehearse ways` for their list.
#![tactic(auto)]

mod account;
mod cluster;
mod damaged;
mod long;
mod node;
mod outcomes;
mod patch;
mod play;
mod readings;
mod script;
mod shares;
mod stage;
mod station;
mod table;
mod tools;
mod truth;
mod ways;
mod words;
mod wrong;

use stage::{Piece, start};
use std::env;
use ways::WAYS;
use words::{DigestName, SealName, Wish};

// The digests and seals that the ways are played with, in turn.
const PAIRS: [(DigestName, SealName); 4] = [
    (DigestName::Sha256, SealName::Hmac),
    (DigestName::Fnv, SealName::Hmac),
    (DigestName::Sha256, SealName::Sip),
    (DigestName::Fnv, SealName::Sip),
];

fn list_ways(rt: &HostRuntime) -> anyhow::Result<()> {
    for way in &WAYS {
        let does = way.does();
        println!(rt; "{way:<16}  it {does}")?;
    }
    Ok(())
}

// Every way in turn, and then the long runs.
fn play_all(rt: &HostRuntime) -> anyhow::Result<()> {
    for (way, pair) in WAYS.iter().zip(PAIRS.iter().cycle()) {
        let wish = Wish::of_four(rt.alloc(), *pair, &[*way])?;
        start(rt, &wish, Piece::Acts)?;
        println!(rt; "")?;
    }
    start(
        rt,
        &Wish::of_four(rt.alloc(), PAIRS[0], &[])?,
        Piece::Run(40),
    )?;
    println!(rt; "")?;
    start(
        rt,
        &Wish::of_four(rt.alloc(), PAIRS[3], &[])?,
        Piece::Run(300),
    )
}

fn run(rt: &HostRuntime) -> anyhow::Result<()> {
    let words: Vec<String> = env::args(rt)?.skip(1).collect(rt.alloc())?;
    match words.as_slice() {
        [word] if word.as_str() == "all" => play_all(rt),
        [word] if word.as_str() == "ways" => list_ways(rt),
        some => start(rt, &Wish::read(rt.alloc(), some)?, Piece::Acts),
    }
}

fn main(rt: HostRuntime) -> anyhow::Result<()> {
    run(&rt)
}
