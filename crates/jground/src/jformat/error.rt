ghost use Rattle.std.specs.Prelude.{◌≡◌};
ghost use Rattle.jground.specs.jformat.FaultOffsets;

use crate::jbase::FaultOrMemory;

/// What is wrong with bytes, and where: `left` is the number of bytes from the place of the fault to the end.
#[rattlefmt::skip]
#[derive(Clone, Copy, Debug, PartialEq, Eq)]
pub struct Fault<K> { pub left: usize, pub kind: K }

/// What is wrong with bytes, and where: `at` is the offset of the place of the fault.
#[rattlefmt::skip]
#[derive(Clone, Copy, Debug, PartialEq, Eq)]
pub struct At<K> { pub at: u32, pub kind: K }

/// Why a reader gave no value.
pub type ReadError<K> = FaultOrMemory<Fault<K>>;

/// Why a reader gave no value of all these bytes, with the place of its fault as an offset. An offset of more than 32 bits is
/// want of memory.
pub fn stop_at<K: Copy>(bytes: &[u8], stop: ReadError<K>) -> FaultOrMemory<At<K>>
    ensures { result ≡ FaultOffsets.stop_at bytes.now stop }
{
    match stop {
        FaultOrMemory::Memory => FaultOrMemory::Memory,
        FaultOrMemory::Fault(found) => {
            let at = bytes.len().saturating_sub(found.left);
            if at > u32::MAX as usize {
                return FaultOrMemory::Memory;
            }
            FaultOrMemory::Fault(At {
                at: at as u32,
                kind: found.kind,
            })
        }
    }
}
