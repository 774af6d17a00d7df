// Runs the published algorithms on outside vectors and prints one line for each family.
// The expected values come from the standards and the authors, sha256sum, openssl, Python and Rust; it ends with status 1 if one differs.
#![tactic(auto)]

mod data;
mod fnv_vectors;
mod hmac_vectors;
mod sha_vectors;
mod sip_vectors;

use anyhow::ensure;
use data::Tally;
use std::fs;

// The families' lines, and whether one of them had a value that differs.
#[derive(Drop)]
struct Report<'a> {
    rt: &'a HostRuntime,
    differs: bool,
}

impl Report<'_> {
    fn line(&mut self, name: &str, tally: Tally) -> anyhow::Result<()> {
        println!(self.rt; "{name} {tally}")?;
        self.differs |= !tally.is_full();
        Ok(())
    }

    fn sha256(&mut self) -> anyhow::Result<()> {
        let heap = self.rt.alloc();
        let nist = fs::read_to_string(self.rt, "sha256_nist.txt")?;
        let lengths = fs::read_to_string(self.rt, "sha256_lengths.txt")?;
        self.line("sha256 nist", sha_vectors::nist(heap, nist.as_str())?)?;
        self.line(
            "sha256 lengths",
            sha_vectors::lengths(heap, lengths.as_str())?,
        )?;
        self.line("sha256 refused", sha_vectors::refused(heap)?)
    }

    fn hmac(&mut self) -> anyhow::Result<()> {
        let heap = self.rt.alloc();
        let rfc4231 = fs::read_to_string(self.rt, "hmac_rfc4231.txt")?;
        let lengths = fs::read_to_string(self.rt, "hmac_lengths.txt")?;
        self.line(
            "hmac-sha256 rfc4231",
            hmac_vectors::rfc4231(heap, rfc4231.as_str())?,
        )?;
        self.line(
            "hmac-sha256 lengths",
            hmac_vectors::lengths(heap, lengths.as_str())?,
        )?;
        self.line("hmac-sha256 refused", hmac_vectors::refused(heap)?)
    }

    fn siphash(&mut self) -> anyhow::Result<()> {
        let authors = fs::read_to_string(self.rt, "siphash.txt")?;
        let tally = sip_vectors::authors(self.rt.alloc(), authors.as_str())?;
        self.line("siphash-2-4 authors", tally)
    }

    fn fnv(&mut self) -> anyhow::Result<()> {
        let heap = self.rt.alloc();
        let authors = fs::read_to_string(self.rt, "fnv1a.txt")?;
        self.line(
            "fnv-1a authors",
            fnv_vectors::authors(heap, authors.as_str())?,
        )?;
        self.line("fnv-1a refused", fnv_vectors::refused(heap)?)
    }
}

fn run(rt: &HostRuntime) -> anyhow::Result<()> {
    let mut report = Report { rt, differs: false };
    report.sha256()?;
    report.hmac()?;
    report.siphash()?;
    report.fnv()?;
    ensure!(!report.differs, "a value differs");
    Ok(())
}

fn main(rt: HostRuntime) -> anyhow::Result<()> {
    run(&rt)
}
