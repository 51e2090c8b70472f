ghost use Rattle.std.specs.Prelude.{◌≡◌, ℕ, ◌+◌, ◌<◌, ◌≤◌, List, [], length, take, Option, None, IfOk, IfErr, IfSome, OnOk, OnErr, Ok, Some};
ghost use Rattle.edge_face.specs.Contents.{appended, preceded, Rose};

use thiserror::Error;

/// A call of a device failed, and the device's count of faults rose.
#[derive(Clone, Copy, Debug, PartialEq, Eq, Error)]
#[error("the device failed")]
pub struct Failed;

/// A device that bytes are taken from.
///
/// Its meanings are the bytes still to come, where it tells them, and the count of its faults, which never falls.
pub trait Source {
    ghost left: { Self → Option (List ℕ) };

    ghost faults: { Self → ℕ };

    /// What else the device has, which a take leaves as it was: the contents and the faults of its other side.
    ghost beside: { Self → Option (List ℕ) × ℕ } = { λ _. (None, 0) };

    /// Takes bytes into the front of `into`, and answers how many. No byte is the end of the input, unless `into` is empty.
    fn take(&mut self, into: &mut [u8]) -> Result<usize, Failed>
        ensures within { IfOk result (λ n. n ≤ length into.old) }
        ensures taken { IfOk result (λ n. left self.old ≡ preceded (take n into.new) (left self.new)) }
        ensures end { result ≡ Ok 0 → 0 < length into.old → IfSome (left self.new) (λ rest. rest ≡ []) }
        ensures failed { OnErr result (left self.new ≡ left self.old) }
        ensures counted { faults self.old ≤ faults self.new }
        ensures caused { OnErr result (Rose (faults self.old) (faults self.new)) }
        ensures beside { beside self.new ≡ beside self.old };
}

/// A device that bytes are put to.
///
/// Its meanings are all bytes put so far, where it tells them, and the count of its faults, which never falls.
pub trait Sink {
    ghost given: { Self → Option (List ℕ) };

    ghost faults: { Self → ℕ };

    /// What else the device has, which a put leaves as it was: the contents and the faults of its other side.
    ghost beside: { Self → Option (List ℕ) × ℕ } = { λ _. (None, 0) };

    /// Puts some of the first bytes of `piece`, and answers how many: at least one where there is one.
    fn put(&mut self, piece: &[u8]) -> Result<usize, Failed>
        ensures within { IfOk result (λ n. n ≤ length piece.now) }
        ensures some { IfOk result (λ n. 0 < length piece.now → 0 < n) }
        ensures put { IfOk result (λ n. given self.new ≡ appended (given self.old) (take n piece.now)) }
        ensures failed { OnErr result (given self.new ≡ given self.old) }
        ensures counted { faults self.old ≤ faults self.new }
        ensures caused { OnErr result (Rose (faults self.old) (faults self.new)) }
        ensures beside { beside self.new ≡ beside self.old };
}

/// A sink failed after it had taken the first `gone` bytes.
#[derive(Clone, Copy, Debug, PartialEq, Eq, Error)]
#[error("the sink failed after {gone} bytes")]
pub struct PutFailed {
    pub gone: u64,
}

/// Puts all bytes, piece by piece. It takes no memory.
pub fn put_all<K: Sink>(sink: &mut K, bytes: &[u8]) -> Result<(), PutFailed>
    ensures ok { OnOk result (K.given sink.new ≡ appended (K.given sink.old) bytes.now) }
    ensures gone { IfErr result (λ e. e.gone < length bytes.now) }
    ensures failed { IfErr result (λ e. K.given sink.new ≡ appended (K.given sink.old) (take e.gone bytes.now)) }
    ensures counted { K.faults sink.old ≤ K.faults sink.new }
    ensures caused { OnErr result (Rose (K.faults sink.old) (K.faults sink.new)) }
    ensures beside { K.beside sink.new ≡ K.beside sink.old }
{
    let mut gone = 0;
    while gone < bytes.len() {
        match sink.put(&bytes[gone..]) {
            Ok(n) => gone += n,
            Err(Failed) => return Err(PutFailed { gone: gone as u64 }),
        }
    }
    Ok(())
}
