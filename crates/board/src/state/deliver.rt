// Deliver: a request is checked, judged, and then committed or aborted.
ghost use Rattle.std.specs.Prelude.{◌≡◌, ℕ, ◌+◌, ◌<◌, ◌≤◌, List, [], ◌∷◌, ◌++◌, length, Decides, OnOk, ◌≢◌};
ghost use Rattle.std.specs.List.{AllByRecursion};
ghost use Rattle.octets.specs.Numbers.{limit};
ghost use Rattle.digest.specs.Meaning.{bytes_by};
ghost use Rattle.entry.specs.Bodies.{entry_body};
ghost use Rattle.numbers.specs.Clients.{TracksAll};
ghost use Rattle.request.specs.Requests.{held};
ghost use Rattle.history.specs.Answers.{Answered};
ghost use Rattle.history.specs.Entries.{chain_string, entry_of};
ghost use Rattle.history.specs.Events.{Event, delivered, effects};
ghost use Rattle.history.specs.Tables.{Under};
ghost use Rattle.board.specs.Standing.{Represents};
ghost use Rattle.board.specs.WriteSets.{WriteSets};
ghost use Rattle.board.specs.Delivering.{Agrees, Committed, Installed, KeptOnRefusal, Shaped, checks, read_said, row_of};

use super::Board;
use super::shares::put_body;
use decision::Decision;
use digest::Digest;
use entry::parts::{Entry, ItemDigest};
use fault::{Cause, Fault, Layer};
use history::Delivery;
use label::Label;
use octets::LIMIT;
use request::{Read, Request, read_request};
use seal::{Seal, client_signer};
use store::Store;
use store::item::Item;
use store::record::Record;
use store::value::Value;

// The digest of a string that is not too long to have one.
fn digested<D: Digest>(digest: &D, head: &[u8], rest: &[u8]) -> [u8; 32]
    requires { length head.now + length rest.now ≤ 65535 }
    ensures { result ≡ bytes_by D.Digest.of (head.now ++ rest.now) }
{
    digest.digest(head, rest).unwrap()
}

// Whether a read has the version and the digest held; at version 0 the digest is the empty value's.
fn agrees<S: Store, D: Digest>(store: &S, digest: &D, read: Read<'_>) -> bool
    ensures { Decides result (Agrees (bytes_by D.Digest.of) (S.Store.holds store.now) (read_said read.entry)) }
{
    let Some(item) = Item::new(read.item) else {
        return false;
    };
    let row = store.look_up(item);
    if read.version != row.version {
        return false;
    }
    if row.version == 0 {
        let none = digested(digest, &[], &[]);
        return read.digest == none.as_slice();
    }
    read.digest == row.digest.as_slice()
}

// The entry of a commit: each item written, with the digest of its value.
fn make_entry<D: Digest>(digest: &D, version: u32, request: Request<'_>) -> Entry
    requires { (Shaped request) × (version ≤ limit 2) }
    ensures { entry_body result ≡ entry_of (bytes_by D.Digest.of) version (held request.entry).writes }
{
    let mut built = Entry::new(version).unwrap();
    for write in request.writes() {
        let made = digested(digest, &[], write.value);
        // A request has no more writes than an entry has room for.
        let _ = built.push(ItemDigest::new(write.item, made));
    }
    built
}

// The chain after an entry: the digest of the old chain and the entry's body, under their label.
fn next_chain<D: Digest>(digest: &D, chain: &[u8; 32], entry: &Entry) -> [u8; 32]
    ensures { result ≡ bytes_by D.Digest.of (chain_string (bytes_by D.Digest.of) chain.now (entry_body entry.now)) }
{
    let label = Label::Chain.bytes();
    let mut head = [0; 36];
    head[0..4].copy_from_slice(&label);
    head[4..36].copy_from_slice(chain);
    let mut body = [0; 267];
    let n = put_body(*entry, &mut body);
    digested(digest, &head, &body[0..n])
}

// Installs every write under the commit's version.
fn install_all<S: Store, D: Digest>(store: &mut S, digest: &D, version: u32, request: Request<'_>)
    requires { (Shaped request) × (1 ≤ version) }
    ensures { Installed (bytes_by D.Digest.of) version (held request.entry).writes (S.Store.holds store.old) (S.Store.holds store.new) }
{
    for write in request.writes() {
        let made = digested(digest, &[], write.value);
        install_one(store, version, write.item, write.value, made);
    }
}

// Installs one write; a number that is no item, or a value that is too long, installs nothing.
fn install_one<S: Store>(store: &mut S, version: u32, number: u8, bytes: &[u8], digest: [u8; 32])
    ensures sets { number < 64 → length bytes.now ≤ 32 → S.Store.holds store.new number ≡ row_of version bytes.now digest }
    ensures others { (k : ℕ) → (k ≢ number) → S.Store.holds store.new k ≡ S.Store.holds store.old k }
{
    if let Some(item) = Item::new(number) {
        if let Some(value) = Value::new(bytes) {
            store.install(
                item,
                Record {
                    version,
                    value,
                    digest,
                },
            );
        }
    }
}

impl<S: Store, D: Digest, L: Seal> Board<S, D, L> {
    // Refuses a request whose tag is wrong, whose number is not open, or for which there is no version left.
    fn check(&self, request: Request<'_>) -> Result<(), Fault>
        requires { Shaped request }
        ensures room { OnOk result (self.now.count < limit 2) }
        ensures refuses { (used : ℕ → List ℕ) → TracksAll 2 self.now.clients used → Under (checks (L.Seal.tag self.now.seal) (used request.entry.plan.top.client) self.now.count request.entry.frame.now (held request.entry)) (λ _. Unit {0}) result }
    {
        let top = request.plan.top;
        let at = request.plan.tag_at;
        let label = Label::Request.bytes();
        let signer = client_signer(top.client);
        let signed = &request.frame[0..at];
        self.seal
            .verify(signer, &label, signed, request.tag, at as u32)?;
        if !self.clients.is_open(top.client, top.sequence) {
            return Err(Cause::NotOpen.at(Layer::Board, 2));
        }
        if self.count >= LIMIT {
            return Err(Cause::BankFull.at(Layer::Board, 0));
        }
        Ok(())
    }

    // Whether every read agrees with what the store holds.
    fn judge(&self, request: Request<'_>) -> bool
        requires { Shaped request }
        ensures { Decides result (AllByRecursion (Agrees (bytes_by D.Digest.of) (S.Store.holds self.now.store)) (held request.entry).reads) }
    {
        for read in request.reads() {
            if !agrees(&self.store, &self.digest, read) {
                return false;
            }
        }
        true
    }

    // Commits a request and answers its version.
    fn commit(&mut self, request: Request<'_>) -> u32
        requires { (Shaped request) × (self.old.count < limit 2) }
        ensures version { result ≡ self.old.count + 1 }
        ensures commits { Committed (bytes_by D.Digest.of) S.Store.holds self.old self.new (held request.entry).writes }
    {
        let version = self.count + 1;
        let entry = make_entry(&self.digest, version, request);
        let chain = next_chain(&self.digest, &self.chain, &entry);
        install_all(&mut self.store, &self.digest, version, request);
        self.window.keep(entry);
        self.chain = chain;
        self.count = version;
        version
    }

    // Every read is judged before a write is installed; a refusal leaves the board as it was.
    pub fn deliver(&mut self, frame: &[u8]) -> Result<Delivery, Fault>
        ensures history { (tag : ℕ → List ℕ → List ℕ) (f own : ℕ) (h : List Event) → Represents S.Store.holds (bytes_by D.Digest.of) L.Seal.tag tag f own self.old h → Answered (bytes_by D.Digest.of) tag f own (effects h) (delivered frame.now result) × Represents S.Store.holds (bytes_by D.Digest.of) L.Seal.tag tag f own self.new (h ++ delivered frame.now result ∷ []) }
        ensures sets { (h : List Event) → WriteSets h → WriteSets (h ++ delivered frame.now result ∷ []) }
        ensures refused { KeptOnRefusal self.old self.new result }
    {
        let request = read_request(frame)?;
        self.check(request)?;
        let pass = self.judge(request);
        let top = request.plan.top;
        // On a copy, so that a refusal leaves the board as it was, part for part.
        let mut clients = self.clients;
        let Ok(opened) = clients.use_up(top.client, top.sequence) else {
            return Err(Cause::NotOpen.at(Layer::Board, 2));
        };
        self.clients = clients;
        if !pass {
            return Ok(Delivery {
                decision: Decision::Abort,
                opened,
            });
        }
        let version = self.commit(request);
        Ok(Delivery {
            decision: Decision::Commit { version },
            opened,
        })
    }
}
