// What the benchmark calls from C: the proved algorithms on byte strings in one part.
#![tactic(auto)]

ghost use Rattle.std.specs.Prelude.{◌≡◌};
ghost use Rattle.bench_lib.specs.Answers.{Wrote};
ghost use Rattle.hmac.specs.Hmac.{HMAC};
ghost use Rattle.sha256.specs.Hash.{SHA256};
ghost use Rattle.sha256.specs.Padding.{bytes_of};
ghost use Rattle.siphash.specs.SipHash.{sip_hash24};

#[unsafe(no_mangle)]
pub extern "C" fn proved_siphash(key: &[u8; 16], message: &[u8]) -> u64
    ensures { result ≡ sip_hash24 key.now message.now }
{
    siphash::siphash(key, &message[0..0], message)
}

#[unsafe(no_mangle)]
pub extern "C" fn proved_sha256(message: &[u8], out: &mut [u8; 32]) -> bool
    ensures { Wrote message.now (bytes_of (SHA256 message.now)) out.old out.new result }
{
    match sha256::hash(&message[0..0], message) {
        Some(words) => {
            *out = sha256::bytes(words);
            true
        }
        None => false,
    }
}

#[unsafe(no_mangle)]
pub extern "C" fn proved_hmac(key: &[u8; 32], message: &[u8], out: &mut [u8; 32]) -> bool
    ensures { Wrote message.now (HMAC key.now message.now) out.old out.new result }
{
    match hmac::hmac(key, &message[0..0], message) {
        Some(code) => {
            *out = code;
            true
        }
        None => false,
    }
}
