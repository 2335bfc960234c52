ghost use Rattle.std.specs.Prelude.{◌≡◌, ℕ, ◌<◌, ◌≤◌, true, false, length, take, []};
ghost use Rattle.outside.specs.Faults.{Rose};
ghost use Rattle.outside.specs.Sink.{appended};

use crate::sink::{Given, Sink};

/// Writes all of `text`, piece after piece, until a call fails. It says whether all was written.
///
/// Where it was not, the count of faults rose, and a proper front of the text was written. For the empty
/// text the sink is not called.
#[tactic(auto, using(crate::proofs::Appended::written_on, crate::proofs::Appended::appended_nothing))]
pub fn send<K: Sink>(out: &mut K, text: &[u8]) -> bool
    ensures all { result ≡ true → K.written out.new ≡ appended (K.written out.old) text.now }
    ensures part { result ≡ false → (n : ℕ) × (n < length text.now) × (K.written out.new ≡ appended (K.written out.old) (take n text.now)) }
    ensures cause { result ≡ false → Rose (K.faults out.old) (K.faults out.new) }
    ensures later { K.faults out.old ≤ K.faults out.new }
    ensures empty { text.now ≡ [] → out.new ≡ out.old }
{
    let mut at = 0;
    'pieces: while at < text.len() {
        match out.give(&text[at..]) {
            Given::Bytes(count) => at += count,
            Given::Failed => return false,
        }
    }
    true
}
