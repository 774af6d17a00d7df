// Shares: a board's tag over the entry of a version, read in place and written into a caller's buffer.
#![tactic(auto)]

ghost use Rattle.std.specs.Prelude.{◌≡◌, length, IfOk};
ghost use Rattle.record.specs.Formats.{written};
ghost use Rattle.record.specs.Writing.{filled};
ghost use Rattle.share.specs.Shares.{ShareReads, ShareWrites, drafted, held, read_share, seen, share_fields, write_share};

use fault::{Cause, Fault, Layer};
use octets::{LIMIT, number_at, part, put_number};
use record::kind::Kind;
use record::malformed;

// A share as it stands in its frame.
#[derive(Clone, Copy)]
pub struct Share<'a> {
    pub signer: u8,
    pub version: u32,
    pub tag: &'a [u8],
}

// A share that is to be written.
#[derive(Clone, Copy)]
pub struct ShareDraft {
    pub signer: u8,
    pub version: u32,
    pub tag: [u8; 16],
}

// The fields of a share from the front, then its signer.
fn scan<'a>(bytes: &'a [u8], f: u8) -> Result<Share<'a>, Fault>
    ensures answer { seen result ≡ read_share 2 f bytes.now }
    ensures tag { IfOk result (λ s. length s.tag.now ≡ 16) }
{
    let n = bytes.len();
    if n < 1 {
        return Err(malformed(0));
    }
    if bytes[0] != Kind::Share as u8 {
        return Err(malformed(0));
    }
    if n < 4 {
        return Err(malformed(n as u32));
    }
    let version = number_at(bytes, 2);
    if version == 0 {
        return Err(malformed(2));
    }
    if n < 20 {
        return Err(malformed(n as u32));
    }
    if n > 20 {
        return Err(malformed(20));
    }
    let signer = bytes[1];
    if u32::from(signer) >= 3 * u32::from(f) + 1 {
        return Err(Cause::NotMember.at(Layer::Frame, 1));
    }
    Ok(Share {
        signer,
        version,
        tag: part(bytes, 4, 16),
    })
}

// Reads a share in place, among 3 f + 1 boards.
pub fn read_share<'a>(bytes: &'a [u8], f: u8) -> Result<Share<'a>, Fault>
    ensures answer { seen result ≡ read_share 2 f bytes.now }
    ensures promised { ShareReads 2 f bytes.now (seen result) }
    ensures tag { IfOk result (λ s. length s.tag.now ≡ 16) }
{
    scan(bytes, f)
}

// Judges a share, and puts it to the front of a buffer.
fn put(draft: ShareDraft, f: u8, out: &mut [u8]) -> Result<usize, Fault>
    ensures answer { result ≡ write_share 2 f (drafted draft) (length out.old) }
    ensures tag { length draft.tag ≡ 16 }
    ensures bytes { out.new ≡ filled result (written (share_fields 2 (drafted draft))) out.old }
{
    if draft.version == 0 || draft.version > LIMIT {
        return Err(malformed(2));
    }
    if u32::from(draft.signer) >= 3 * u32::from(f) + 1 {
        return Err(Cause::NotMember.at(Layer::Frame, 1));
    }
    if out.len() < 20 {
        return Err(Cause::NoRoom.at(Layer::Frame, 0));
    }
    out[0] = Kind::Share as u8;
    out[1] = draft.signer;
    put_number(draft.version, &mut out[2..4]);
    out[4..20].copy_from_slice(&draft.tag);
    Ok(20)
}

// Writes a share to the front of a buffer, and answers its length.
pub fn write_share(draft: ShareDraft, f: u8, out: &mut [u8]) -> Result<usize, Fault>
    ensures answer { result ≡ write_share 2 f (drafted draft) (length out.old) }
    ensures promised { ShareWrites 2 f (drafted draft) out.old out.new result }
{
    put(draft, f, out)
}
