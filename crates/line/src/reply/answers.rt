// How an answer line is made.
ghost use Rattle.std.specs.Prelude.{◌≡◌, ◌≤◌, length, take, Ok};
ghost use Rattle.digest.specs.Meaning.{written};
ghost use Rattle.bank.specs.Answers.{proof_answer};
ghost use Rattle.line.specs.Replies.{answer_bytes, line_answer, proof_reply, reply};
ghost use Rattle.line.specs.Shown.{Front, answered};

use super::NotServed;
use crate::call::{Call, line_call};
use bank::state::Bank;
use digest::Digest;
use lines::answer_line::AnswerLine;
use lines::replies::{item_reply, mark_reply, no_call_bytes, refusal_bytes};
use octets::put_at;
use store::Store;

// The longest answer is an item's: 00, version, length, 32 bytes of value, digest.
const LONGEST_ANSWER: usize = 68;

fn put_proof(proof: &[u8; 5], out: &mut [u8; LONGEST_ANSWER]) -> usize
    ensures bound { result ≤ 68 }
    ensures front { take result out.new ≡ answer_bytes (Ok proof.now) }
{
    let at = put_at(&[0], 0, out);
    put_at(proof, at, out)
}

fn reply_proof<S: Store, D: Digest>(
    bank: &Bank<S, D>,
    low: u32,
    high: u32,
    out: &mut [u8; LONGEST_ANSWER],
) -> usize
    ensures bound { result ≤ 68 }
    ensures front { take result out.new ≡ proof_reply (proof_answer low high 5) }
{
    let mut proof = [0; 5];
    match bank.proof(low, high, &mut proof) {
        Ok(_) => put_proof(&proof, out),
        Err(fault) => put_at(&refusal_bytes(fault), 0, out),
    }
}

// The bytes of the bank's answer to a call, refused where the kind is not served.
fn put_reply<S: Store, D: Digest>(
    bank: &Bank<S, D>,
    call: Call,
    out: &mut [u8; LONGEST_ANSWER],
) -> Result<usize, NotServed>
    ensures { Front result out.new (reply (λ m. written (D.Digest.of m)) (S.Store.holds bank.now.store) bank.now.count bank.now.chain call) }
{
    match call {
        Call::Deliver | Call::ShareIn => Err(NotServed),
        Call::Proof(low, high) => Ok(reply_proof(bank, low, high, out)),
        Call::Item(number) => match bank.item(number) {
            Ok(row) => Ok(put_at(item_reply(row).as_slice(), 0, out)),
            Err(fault) => Ok(put_at(&refusal_bytes(fault), 0, out)),
        },
        Call::Mark => {
            let mark = bank.mark();
            Ok(put_at(&mark_reply(mark.count, &mark.chain), 0, out))
        }
        Call::ShareOut(version) => Ok(put_at(&refusal_bytes(bank.share_out(version)), 0, out)),
    }
}

// The answer line of a line, whole.
pub fn answer<S: Store, D: Digest>(
    bank: &Bank<S, D>,
    line: &[u8],
) -> Result<AnswerLine<136>, NotServed>
    ensures { answered result ≡ line_answer (λ m. written (D.Digest.of m)) (S.Store.holds bank.now.store) bank.now.count bank.now.chain line.now }
{
    let mut bytes = [0; LONGEST_ANSWER];
    let n = match line_call(line) {
        Some(call) => put_reply(bank, call, &mut bytes)?,
        None => put_at(&no_call_bytes(), 0, &mut bytes),
    };
    let mut digits = AnswerLine::new();
    digits.show(&bytes[..n]);
    Ok(digits)
}
