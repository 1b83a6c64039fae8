//! Protocol headers: a fixed text with which a stream begins (AMQP 0-9-1 4.2.2; AMQP 1.0 2.2).

ghost use Rattle.std.specs.Prelude.{◌≡◌, ℕ};
ghost use Rattle.wire_base.specs.Headers.{agreed_with};

/// How many bytes agree with the header, from the front on.
#[tactic(auto, using(crate::proofs::Headers::agrees_more, crate::proofs::Headers::agrees_no_more, crate::proofs::Headers::agrees_all))]
pub fn agreed_len(bytes: &[u8], header: &[u8]) -> usize
    ensures { result ≡ agreed_with header.now bytes.now }
{
    let most = bytes.len().min(header.len());
    for i in 0..most {
        if bytes[i] != header[i] {
            return i;
        }
    }
    most
}
