// The digest and the seal that two words may choose.
use anyhow::anyhow;
use std::env;
use std::str::FromStr;

// A word that chooses neither of two.
#[derive(Clone, Copy)]
pub(crate) struct Unknown;

#[derive(Clone, Copy)]
pub(crate) enum DigestChoice {
    Fnv,
    Sha256,
}

impl FromStr for DigestChoice {
    type Err = Unknown;

    fn from_str(word: &str) -> Result<DigestChoice, Unknown> {
        match word {
            "fnv" => Ok(DigestChoice::Fnv),
            "sha256" => Ok(DigestChoice::Sha256),
            _ => Err(Unknown),
        }
    }
}

#[derive(Clone, Copy)]
pub(crate) enum SealChoice {
    Sip,
    Hmac,
}

impl FromStr for SealChoice {
    type Err = Unknown;

    fn from_str(word: &str) -> Result<SealChoice, Unknown> {
        match word {
            "sip" => Ok(SealChoice::Sip),
            "hmac" => Ok(SealChoice::Hmac),
            _ => Err(Unknown),
        }
    }
}

fn chosen<T: FromStr<Err = Unknown>>(word: &str) -> anyhow::Result<T> {
    match word.parse() {
        Ok(choice) => Ok(choice),
        Err(_) => Err(anyhow!("usage: bankaudit [fnv|sha256 sip|hmac]")),
    }
}

// The digest and the seal of the program's words, FNV-1a and SipHash where there are none.
pub(crate) fn choices(rt: &HostRuntime) -> anyhow::Result<(DigestChoice, SealChoice)> {
    let mut words = env::args(rt)?;
    let _program = words.next();
    let Some(digest) = words.next() else {
        return Ok((DigestChoice::Fnv, SealChoice::Sip));
    };
    let seal = words.next();
    let seal = seal.as_ref().map_or("", |word| word.as_str());
    Ok((chosen(digest.as_str())?, chosen(seal)?))
}
