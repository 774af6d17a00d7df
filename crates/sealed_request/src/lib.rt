// Requests that are sealed while they are written: the tag is made with the client's key.
#![tactic(auto)]

ghost use Rattle.std.specs.Prelude.{◌≡◌, length, IfOk};
ghost use Rattle.request.specs.Bodies.{RequestWrites, write_request};
ghost use Rattle.request.specs.Sizes.{RequestSize};
ghost use Rattle.sealed_request.specs.Sealed.{TagPasses, sealed_body};

use fault::Fault;
use label::Label;
use request::draft::{Draft, write_request};
use request::item::{ReadItem, WriteItem};
use seal::{Seal, client_signer};

// A request that is to be sealed and written: a draft without its tag. As a part of a draft it would put every field of each draft one level deeper.
#[derive(Clone, Copy)]
pub struct Unsealed<'r, 'w, 'v> {
    pub client: u8,
    pub sequence: u32,
    pub reads: &'r [ReadItem],
    pub writes: &'w [WriteItem<'v>],
}

// The longest request, in bytes, and how many of them are its tag.
const LONGEST: usize = 854;

const TAG: usize = 16;

// Writes a request under its client's tag to the front of a buffer, and answers its length.
pub fn seal_request<L: Seal>(seal: &L, plain: Unsealed, out: &mut [u8]) -> Result<usize, Fault>
    ensures answer { result ≡ write_request 2 (sealed_body (L.Seal.tag seal.now) plain.entry) (length out.old) }
    ensures size { IfOk result (RequestSize 2 (sealed_body (L.Seal.tag seal.now) plain.entry)) }
    ensures promised { RequestWrites 2 (sealed_body (L.Seal.tag seal.now) plain.entry) out.old out.new result }
    ensures passing { IfOk result (λ n. TagPasses (L.Seal.tag seal.now) out.new n) }
{
    // A refusal must leave the buffer, so what the tag covers is written aside.
    let mut aside = [0; LONGEST];
    let mut draft = Draft {
        client: plain.client,
        sequence: plain.sequence,
        reads: plain.reads,
        writes: plain.writes,
        tag: [0; TAG],
    };
    let n = write_request(draft, &mut aside)?;
    let signer = client_signer(plain.client);
    let label = Label::Request.bytes();
    let tag = seal.make(signer, &label, &aside[0..n - TAG])?;
    draft.tag = tag;
    write_request(draft, out)
}
