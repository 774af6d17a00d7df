// How a wrong board takes a request, and what it keeps of it.
use super::judging::Opinion;
use super::{REFUSED, Row, Wrong};
use crate::patch::{is_sealed, put, seal_anew, version_bytes};
use crate::ways::Way;
use decision::Decision;
use digest::Digest;
use fault::Fault;
use history::Delivery;
use request::{Request, read_request};
use seal::Seal;
use store::record::Record;
use store::value::Value;

// The longest request.
const LONGEST: usize = 854;

impl<D: Digest + Copy, L: Seal + Copy> Wrong<D, L> {
    // Puts the version and digest held in place of those that were read.
    fn refresh_reads(&self, request: Request<'_>, frame: &mut [u8]) {
        for read in request.reads() {
            if let Ok(held) = self.inner.item(read.item) {
                let at = read.place as usize;
                put(frame, at.saturating_add(1), &version_bytes(held.version));
                put(frame, at.saturating_add(3), &held.digest);
            }
        }
    }

    // Puts a version that no commit has in place of the first that was read.
    fn spoil_read(request: Request<'_>, frame: &mut [u8]) {
        if let Some(read) = request.read(0) {
            let at = read.place as usize;
            put(frame, at.saturating_add(1), &[255, 255]);
        }
    }

    // Hands the board inside a request that it will judge as this board does.
    fn deliver_as(&mut self, frame: &[u8], request: Request<'_>) -> Result<Delivery, Fault> {
        let n = frame.len();
        let mut other = [0; LONGEST];
        if n > LONGEST || !is_sealed(&self.suite.seal, request) {
            return self.inner.deliver(frame);
        }
        put(&mut other, 0, frame);
        match self.opinion(request) {
            Opinion::Its => {}
            Opinion::Fails => Self::spoil_read(request, &mut other),
            Opinion::Passes => self.refresh_reads(request, &mut other),
        }
        seal_anew(&self.suite.seal, request, &mut other)?;
        self.inner.deliver(&other[0..n])
    }

    // Remembers what a commit wrote.
    fn keep_rows(&mut self, request: Request<'_>) {
        for write in request.writes() {
            if let Ok(record) = self.inner.item(write.item) {
                let item = write.item;
                let _ = self.rows.push(Row { item, record });
            }
        }
    }

    // The row that a write makes under a version.
    fn row_of(&self, version: u32, request: Request<'_>, item: u8) -> Option<Row> {
        let write = request.writes().find(|write| write.item == item)?;
        let record = Record {
            version,
            value: Value::new(write.value)?,
            digest: self.suite.digest.digest(&[], write.value).ok()?,
        };
        Some(Row { item, record })
    }

    // Keeps the writes of an aborted request up to the first read that fails.
    fn leave_behind(&mut self, request: Request<'_>) {
        let version = self.inner.mark().count.saturating_add(1);
        for read in request.reads() {
            let Ok(held) = self.item(read.item) else {
                return;
            };
            if held.version != read.version || held.digest.as_slice() != read.digest {
                return;
            }
            if let Some(row) = self.row_of(version, request, read.item) {
                let _ = self.rows.push(row);
            }
        }
    }

    pub fn deliver(&mut self, frame: &[u8]) -> Result<Delivery, Fault> {
        if let Way::RefusesAll = self.way {
            return Err(REFUSED);
        }
        let request = read_request(frame)?;
        let answer = self.deliver_as(frame, request)?;
        match (self.way, answer.decision) {
            (Way::OwnCopy | Way::AnyEntry, Decision::Commit { .. }) => self.keep_rows(request),
            (Way::InstallsEarly, Decision::Abort) => self.leave_behind(request),
            _ => {}
        }
        Ok(answer)
    }
}
