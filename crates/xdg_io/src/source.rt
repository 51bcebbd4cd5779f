//! Where bytes are read from.

ghost use Rattle.std.specs.Prelude.{◌≡◌, ◌≢◌, Option, ◌<◌, ◌≤◌, ◌+◌, ◌-◌, ℕ, List, length, take, IfOk, IfErr, OnOk, OnErr, MatchResult};
ghost use Rattle.xdg_io.specs.Left.{Takes, TakesAll, TakesCount, TakesUpTo, EndsAt, GivesPiece};
ghost use Rattle.xdg_io.specs.Rose.{Rose};

use crate::{Failed, ReadStop};
use std::alloc::Global;

/// Gives bytes in their order, some at each call.
pub trait Source {
    /// The bytes that are left, where they are told.
    ghost left: { Self → Option (List ℕ) };

    /// How often the source has failed. It stops at the greatest number of its type.
    ghost faults: { Self → ℕ };

    /// Puts the next bytes at the front of a buffer that is not empty, and answers how many. It
    /// answers 0 at the end alone. After a failure nothing is taken.
    fn read(&mut self, buffer: &mut [u8]) -> Result<usize, Failed>
        requires { 0 < length buffer.old }
        ensures within { IfOk result (λ count. count ≤ length buffer.new) }
        ensures taken { IfOk result (λ count. Takes (left self.old) (left self.new) (take count buffer.new)) }
        ensures end { IfOk result (λ count. EndsAt (left self.old) count) }
        ensures kept { OnErr result (left self.new ≡ left self.old) }
        ensures cause { OnErr result (Rose (faults self.old) (faults self.new)) }
        ensures lasting { faults self.old ≤ faults self.new }
        ensures quiet { OnOk result (faults self.new ≡ faults self.old) };
}

/// How many bytes are asked for at once.
const PIECE: usize = 4096;

/// Reads a source to its end, which comes before more than `limit` bytes. Else it stops after one
/// byte more than that. Memory and time grow with the bytes that are read.
#[tactic(auto, using(crate::proofs::Read::read_steps))]
pub fn read_all<S: Source>(alloc: Global, source: &mut S, limit: u64) -> Result<Vec<u8>, ReadStop>
    requires { limit < 18446744073709551615 }
    ensures within { IfOk result (λ bytes. length bytes.items ≤ limit) }
    ensures all { IfOk result (λ bytes. TakesAll (S.left source.old) (S.left source.new) bytes.items) }
    ensures reached { IfErr result (λ stop. (reached : ℕ) → stop ≡ ReadStop.TooLong reached →
        (reached ≡ limit + 1) × TakesCount (S.left source.old) (S.left source.new) (limit + 1)) }
    ensures fault { IfErr result (λ stop. stop ≡ ReadStop.ReadFault →
        Rose (S.faults source.old) (S.faults source.new) × TakesUpTo (S.left source.old) (S.left source.new) limit) }
    ensures memory { IfErr result (λ stop. stop ≡ ReadStop.OutOfMemory →
        TakesUpTo (S.left source.old) (S.left source.new) limit) }
    ensures lasting { S.faults source.old ≤ S.faults source.new }
    ensures quiet { MatchResult result (λ _. S.faults source.new ≡ S.faults source.old) (λ stop.
        stop ≢ ReadStop.ReadFault → S.faults source.new ≡ S.faults source.old) }
{
    let mut bytes = Vec::new(alloc);
    let mut buffer = [0; PIECE];
    loop {
        let most = limit + 1 - bytes.len() as u64;
        let room = most.min(PIECE as u64) as usize;
        let count = read_piece(source, &mut buffer[..room], limit, &mut bytes)?;
        if count == 0 {
            return Ok(bytes);
        }
    }
}

/// Reads one piece and puts it behind the bytes. Answers how many it had, which is 0 at the end.
fn read_piece<S: Source>(
    source: &mut S,
    piece: &mut [u8],
    limit: u64,
    bytes: &mut Vec<u8>,
) -> Result<usize, ReadStop>
    requires limit { limit < 18446744073709551615 }
    requires room { 0 < length piece.old }
    requires fits { length bytes.old.items + length piece.old ≤ limit + 1 }
    ensures piece { IfOk result (GivesPiece (S.left source.old) (S.left source.new) bytes.old.items bytes.new.items) }
    ensures within { IfOk result (λ count. length bytes.new.items ≤ limit) }
    ensures reached { IfErr result (λ stop. (reached : ℕ) → stop ≡ ReadStop.TooLong reached →
        (reached ≡ limit + 1) × TakesCount (S.left source.old) (S.left source.new) (limit + 1 - length bytes.old.items)) }
    ensures fault { IfErr result (λ stop. stop ≡ ReadStop.ReadFault →
        Rose (S.faults source.old) (S.faults source.new) × (S.left source.new ≡ S.left source.old)) }
    ensures memory { IfErr result (λ stop. stop ≡ ReadStop.OutOfMemory →
        TakesUpTo (S.left source.old) (S.left source.new) (limit - length bytes.old.items)) }
    ensures lasting { S.faults source.old ≤ S.faults source.new }
    ensures quiet { MatchResult result (λ _. S.faults source.new ≡ S.faults source.old) (λ stop.
        stop ≢ ReadStop.ReadFault → S.faults source.new ≡ S.faults source.old) }
{
    let count = source.read(piece)?;
    let reached = bytes.len() as u64 + count as u64;
    if reached > limit {
        return Err(ReadStop::TooLong { reached });
    }
    bytes.extend_from_slice(&piece[..count])?;
    Ok(count)
}
