// The stage: a cluster is set up as wished, and the piece is played on it.
use crate::node::Suite;
use crate::play::Play;
use crate::ways::Way;
use crate::words::{DigestName, SealName, Wish};
use digest::{Digest, Fnv, Sha256};
use sample_keys::sample_keys;
use seal::Seal;
use seal::mac::HmacSeal;
use seal::sip::SipSeal;

impl<D: Digest + Copy, L: Seal + Copy> Play<'_, D, L> {
    // The acts in order.
    fn acts(&mut self) -> anyhow::Result<()> {
        self.first_commits()?;
        self.traps()?;
        self.old_and_fresh()?;
        self.changed_or_not_open()?;
        self.used_twice()?;
        self.shares()?;
        let told = self.ask_all()?;
        self.mixed()?;
        self.altered()?;
        self.short_proof()?;
        self.evicted()?;
        self.say_table(told.as_slice())?;
        self.conclude()
    }
}

// What is played: the acts, or a run of so many commits.
#[derive(Clone, Copy)]
pub enum Piece {
    Acts,
    Run(u32),
}

fn perform<D: Digest + Copy, L: Seal + Copy>(
    rt: &HostRuntime,
    wish: &Wish,
    piece: Piece,
    suite: Suite<D, L>,
) -> anyhow::Result<()> {
    let mut play = Play::new(rt, wish, suite)?;
    // A value and no closure: no closure takes a play of every digest and seal.
    match piece {
        Piece::Acts => play.acts(),
        Piece::Run(commits) => play.long_run(commits),
    }
}

fn perform_with<D: Digest + Copy>(
    rt: &HostRuntime,
    wish: &Wish,
    piece: Piece,
    digest: D,
) -> anyhow::Result<()> {
    match wish.seal {
        SealName::Sip => {
            let seal = SipSeal::new(sample_keys());
            perform(rt, wish, piece, Suite { digest, seal })
        }
        SealName::Hmac => {
            let seal = HmacSeal::new(sample_keys());
            perform(rt, wish, piece, Suite { digest, seal })
        }
    }
}

// Says who takes part, and plays the piece.
pub fn start(rt: &HostRuntime, wish: &Wish, piece: Piece) -> anyhow::Result<()> {
    let Wish {
        f,
        digest,
        seal,
        ..
    } = wish;
    let n = wish.boards();
    println!(rt; "{n} boards, f = {f}, digest {digest}, seal {seal}")?;
    say_wrong(rt, n, wish.ways.as_slice())?;
    match digest {
        DigestName::Fnv => perform_with(rt, wish, piece, Fnv),
        DigestName::Sha256 => perform_with(rt, wish, piece, Sha256),
    }
}

fn say_wrong(rt: &HostRuntime, n: u8, ways: &[Way]) -> anyhow::Result<()> {
    for (board, way) in (0..n).rev().zip(ways) {
        let does = way.does();
        println!(rt; "board {board} is wrong: {way}, it {does}")?;
    }
    if ways.is_empty() {
        println!(rt; "all boards are honest")?;
    }
    Ok(())
}
