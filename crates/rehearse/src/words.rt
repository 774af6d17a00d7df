// The words of the command line.
use crate::ways::Way;
use anyhow::{anyhow, ensure};
use std::alloc::{AllocError, Global};
use std::fmt;
use std::str::FromStr;

// How many boards may be wrong.
#[derive(Clone, Copy)]
struct Faults(u8);

#[derive(Clone, Copy)]
pub enum DigestName {
    Fnv,
    Sha256,
}

#[derive(Clone, Copy)]
pub enum SealName {
    Sip,
    Hmac,
}

impl FromStr for Faults {
    type Err = anyhow::Error;

    fn from_str(word: &str) -> anyhow::Result<Faults> {
        match word.as_bytes() {
            [digit @ b'1'..=b'5'] => Ok(Faults(*digit - b'0')),
            _ => Err(anyhow!("the first word is `all`, or how many boards may be wrong: 1 to 5")),
        }
    }
}

impl fmt::Display for DigestName {
    fn fmt<W: fmt::Write>(&self, f: &mut fmt::Formatter<W>) -> fmt::Result {
        f.pad(match self {
            DigestName::Fnv => "fnv",
            DigestName::Sha256 => "sha256",
        })
    }
}

impl FromStr for DigestName {
    type Err = anyhow::Error;

    fn from_str(word: &str) -> anyhow::Result<DigestName> {
        match word {
            "sha256" => Ok(DigestName::Sha256),
            "fnv" => Ok(DigestName::Fnv),
            _ => Err(anyhow!("the second word is the digest: fnv or sha256")),
        }
    }
}

impl fmt::Display for SealName {
    fn fmt<W: fmt::Write>(&self, f: &mut fmt::Formatter<W>) -> fmt::Result {
        f.pad(match self {
            SealName::Sip => "sip",
            SealName::Hmac => "hmac",
        })
    }
}

impl FromStr for SealName {
    type Err = anyhow::Error;

    fn from_str(word: &str) -> anyhow::Result<SealName> {
        match word {
            "hmac" => Ok(SealName::Hmac),
            "sip" => Ok(SealName::Sip),
            _ => Err(anyhow!("the third word is the seal: sip or hmac")),
        }
    }
}

// What is to be played.
#[derive(Drop)]
pub struct Wish {
    pub f: u8,
    pub digest: DigestName,
    pub seal: SealName,
    pub ways: Vec<Way>,
}

impl Wish {
    // With f = 1.
    pub fn of_four(
        heap: Global,
        (digest, seal): (DigestName, SealName),
        ways: &[Way],
    ) -> Result<Wish, AllocError> {
        Ok(Wish {
            f: 1,
            digest,
            seal,
            ways: ways.to_vec(heap)?,
        })
    }

    // Reads F, DIGEST, SEAL and the ways; what is left out is 1, sha256, hmac and no wrong board.
    pub fn read(heap: Global, words: &[String]) -> anyhow::Result<Wish> {
        let Faults(f) = word_or(words.first(), Faults(1))?;
        let digest = word_or(words.get(1), DigestName::Sha256)?;
        let seal = word_or(words.get(2), SealName::Hmac)?;
        let ways: Vec<Way> = words
            .iter()
            .skip(3)
            .map(|word| word.as_str().parse::<Way>())
            .try_collect(heap)?;
        ensure!(
            ways.len() <= usize::from(f),
            "at most F boards may be wrong"
        );
        Ok(Wish {
            f,
            digest,
            seal,
            ways,
        })
    }

    // How many boards there are.
    pub fn boards(&self) -> u8 {
        self.f.saturating_mul(3).saturating_add(1)
    }
}

// What a word says, or what stands for it where it is left out.
fn word_or<T: FromStr<Err = anyhow::Error> + Drop>(
    word: Option<&String>,
    otherwise: T,
) -> anyhow::Result<T> {
    match word {
        Some(text) => text.as_str().parse::<T>(),
        None => Ok(otherwise),
    }
}
