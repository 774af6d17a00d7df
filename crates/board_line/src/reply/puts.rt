// How the bytes of each answer are put down.
ghost use Rattle.std.specs.Prelude.{◌≡◌, ℕ, ◌≤◌, length, take, drop, IfOk};
ghost use Rattle.lines.specs.Replies.{item_bytes, reply};
ghost use Rattle.answer.specs.Answers.{said};
ghost use Rattle.board_line.specs.Replies.{count_bytes, delivery_bytes};

use super::LONGEST_ANSWER;
use fault::Fault;
use history::Delivery;
use lines::replies::{item_reply, refusal_bytes, wire};
use octets::put_at;
use store::record::Record;

pub(crate) fn put_delivery(answer: Result<Delivery, Fault>, out: &mut [u8; LONGEST_ANSWER]) -> usize
    ensures bound { result ≤ 11814 }
    ensures front { take result out.new ≡ reply delivery_bytes answer }
{
    match answer {
        Ok(d) => {
            let at = put_at(&[0, u8::from(d.decision.verdict())], 0, out);
            let at = put_at(&wire(d.decision.version().unwrap_or(0)), at, out);
            put_at(&wire(d.opened.unwrap_or(0)), at, out)
        }
        Err(refusal) => put_at(&refusal_bytes(refusal), 0, out),
    }
}

pub(crate) fn put_count(answer: Result<u8, Fault>, out: &mut [u8; LONGEST_ANSWER]) -> usize
    ensures bound { result ≤ 11814 }
    ensures front { take result out.new ≡ reply count_bytes answer }
{
    match answer {
        Ok(n) => put_at(&[0, n], 0, out),
        Err(fault) => put_at(&refusal_bytes(fault), 0, out),
    }
}

pub(crate) fn put_item(answer: Result<Record, Fault>, out: &mut [u8; LONGEST_ANSWER]) -> usize
    ensures bound { result ≤ 11814 }
    ensures front { take result out.new ≡ reply item_bytes (said answer) }
{
    match answer {
        Ok(row) => put_at(item_reply(row).as_slice(), 0, out),
        Err(fault) => put_at(&refusal_bytes(fault), 0, out),
    }
}

// What a call wrote behind the first byte; the first byte says that it did.
pub(crate) fn put_written(answer: Result<usize, Fault>, out: &mut [u8; LONGEST_ANSWER]) -> usize
    requires { IfOk answer (λ n. n ≤ 11813) }
    ensures bound { result ≤ 11814 }
    ensures front { take result out.new ≡ reply (λ n. take n (drop 1 out.old)) answer }
{
    match answer {
        Ok(n) => {
            out[0] = 0;
            n + 1
        }
        Err(fault) => put_at(&refusal_bytes(fault), 0, out),
    }
}
