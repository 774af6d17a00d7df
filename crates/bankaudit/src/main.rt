// The technician's program: requests in bus order and the marks that boards reported come in, and out comes who is right.
// A line is a call as the board's program takes it, or `mark`, a board's number and what that board printed for 07.
// Two words may choose the digest (fnv, sha256) and the seal (sip, hmac).
#![tactic(auto)]

use anyhow::anyhow;
use audit::state::Audit;
use board::size::Place;
use digest::{Digest, Fnv, Sha256};
use sample_keys::sample_keys;
use seal::Seal;
use seal::mac::HmacSeal;
use seal::sip::SipSeal;
use store::Store;
use store::table::Table;

mod choice;
mod replay;
mod said;
mod show;
mod tally;

use choice::{DigestChoice, SealChoice, choices};
use replay::replay;

// Board 0 of four; marks depend on neither.
fn place() -> anyhow::Result<Place> {
    match Place::new(1, 0) {
        Ok(checked) => Ok(checked),
        Err(_) => Err(anyhow!("there is no such place among the boards")),
    }
}

fn run_with<D: Digest + Drop, L: Seal + Drop>(
    rt: &HostRuntime,
    digest: D,
    seal: L,
) -> anyhow::Result<()> {
    let mut audit: Audit<Table, D, L> = Audit::new(place()?, (), digest, seal);
    replay(rt, &mut audit)
}

fn run_with_digest<D: Digest + Drop>(
    rt: &HostRuntime,
    digest: D,
    seal: SealChoice,
) -> anyhow::Result<()> {
    match seal {
        SealChoice::Sip => run_with(rt, digest, SipSeal::new(sample_keys())),
        SealChoice::Hmac => run_with(rt, digest, HmacSeal::new(sample_keys())),
    }
}

fn run(rt: &HostRuntime) -> anyhow::Result<()> {
    let (digest, seal) = choices(rt)?;
    match digest {
        DigestChoice::Fnv => run_with_digest(rt, Fnv, seal),
        DigestChoice::Sha256 => run_with_digest(rt, Sha256, seal),
    }
}

fn main(rt: HostRuntime) -> anyhow::Result<()> {
    run(&rt)
}
