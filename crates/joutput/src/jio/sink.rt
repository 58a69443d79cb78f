ghost use Rattle.std.specs.Prelude.{◌≡◌, ◌<◌, ◌≤◌, List, Option, ℕ, IfOk, IfErr, OnErr, OnOk, length, take};
ghost use Rattle.jground.specs.jbase.FaultCauses.{HasCause, appended};
ghost use Rattle.joutput.specs.jio.PartialOutput.{IsCutAt};

/// Why a sink took no byte.
#[derive(Clone, Copy, Debug, PartialEq, Eq)]
pub enum SinkError {
    /// The bytes can't be put.
    Failed,
}

/// Where bytes go, each behind those that went there before.
pub trait Sink {
    /// The bytes, where they are told.
    ghost out: { Self → Option (List ℕ) };
    /// How many puts failed: a `u64` that stands still at its last value.
    ghost faults: { Self → ℕ };

    /// Appends a front of the piece, and answers its length: at least one byte, where the piece has one. It fails only
    /// where a fault was counted in this call; then it appended nothing.
    fn put(&mut self, piece: &[u8]) -> Result<usize, SinkError>
        ensures within { IfOk result (λ n. n ≤ length piece.now) }
        ensures some { IfOk result (λ n. 0 < length piece.now → 0 < n) }
        ensures empty { length piece.now ≡ 0 → result ≡ Ok 0 }
        ensures ok { IfOk result (λ n. out self.new ≡ appended (out self.old) (take n piece.now)) }
        ensures err { OnErr result (out self.new ≡ out self.old) }
        ensures cause { HasCause (faults self.old) (faults self.new) result };
}

/// A fault of the sink, and how many bytes went out before it.
#[derive(Clone, Copy, Debug, PartialEq, Eq)]
pub struct PutFault {
    /// The number of bytes.
    pub written: usize,
}

/// Appends the whole piece. At a fault exactly the piece's first `written` bytes were appended. It takes no memory.
pub fn put_all<K: Sink>(out: &mut K, piece: &[u8]) -> Result<(), PutFault>
    ensures ok { OnOk result (K.out out.new ≡ appended (K.out out.old) piece.now) }
    ensures err { IfErr result (λ e. IsCutAt (K.out out.old) (K.out out.new) piece.now e.written) }
    ensures cause { HasCause (K.faults out.old) (K.faults out.new) result }
{
    let mut written = 0;
    while written < piece.len() {
        let (_, rest) = piece.split_at(written);
        match out.put(rest) {
            Ok(count) => written += count,
            Err(_) => return Err(PutFault { written }),
        }
    }
    Ok(())
}
