// A request's records, and bytes of a frame changed where they stand.
use fault::Fault;
use label::Label;
use request::Request;
use seal::{Seal, client_signer};

// Puts bytes at an offset; where they do not fit, nothing is changed.
pub fn put(frame: &mut [u8], at: usize, bytes: &[u8]) {
    let n = bytes.len();
    if at <= frame.len() && n <= frame.len() - at {
        frame[at..at + n].copy_from_slice(bytes);
    }
}

// A version as it stands in a frame.
pub fn version_bytes(version: u32) -> [u8; 2] {
    let [_, _, high, low] = version.to_be_bytes();
    [high, low]
}

// Makes a client's tag over a request and puts it behind the writes.
pub fn seal_anew<L: Seal>(seal: &L, request: Request<'_>, frame: &mut [u8]) -> Result<(), Fault> {
    let at = request.plan.tag_at;
    if at > frame.len() {
        return Ok(());
    }
    let signer = client_signer(request.plan.top.client);
    let tag = seal.make(signer, &Label::Request.bytes(), &frame[0..at])?;
    put(frame, at, &tag);
    Ok(())
}

// Whether a request has its client's tag.
pub fn is_sealed<L: Seal>(seal: &L, request: Request<'_>) -> bool {
    let signer = client_signer(request.plan.top.client);
    let label = Label::Request.bytes();
    seal.check(signer, &label, request.covered(), request.tag)
        .unwrap_or(false)
}
