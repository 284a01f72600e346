ghost use Rattle.rhythm_ports.specs.Causes.{HasCause, Rose};
ghost use Rattle.rhythm_ports.specs.Ends.{ReadsBefore};
ghost use Rattle.std.specs.Io.{ReadsAtMost};
ghost use Rattle.std.specs.Io.KnownBytes.{Consumes, IsAtEnd, ReadConsumes};
ghost use Rattle.std.specs.Prelude.{◌≡◌, ◌≤◌, ℕ, List, Option, length, IfErr, IfOk, OnOk};

use crate::failed::Failed;
use crate::read_end::{PIECE, ReadEnd, room_for};
use std::alloc::Global;

/// A place to read from.
pub trait Source {
    /// The rest of the bytes, where it is told.
    ghost rest: { Self → Option (List ℕ) };

    /// How often a call failed, up to the last value of a `u64`.
    ghost faults: { Self → ℕ };

    /// Moves the first bytes of the rest to the front of the buffer, and answers how many. 0 for a
    /// buffer that is not empty is the end of input.
    fn read(&mut self, buf: &mut [u8]) -> Result<usize, Failed>
        ensures bound { ReadsAtMost result buf.new }

        // `Ok` moved so many of the first bytes, and none only at the end or where there is no
        // room. After a failure the rest is as it was.
        ensures bytes { ReadConsumes (rest self.old) (rest self.new) result buf.new }

        // The count of faults never falls, and a call fails only where it rose.
        ensures cause { HasCause (faults self.old) (faults self.new) result };
}

/// All bytes to the end of input, up to `limit` of them.
pub fn read_all<S: Source>(alloc: Global, src: &mut S, limit: u64) -> Result<Vec<u8>, ReadEnd>
    // An `Ok` has the whole rest, within the limit.
    ensures all { IfOk result (λ v. Consumes (S.rest src.old) (S.rest src.new) v.items) }
    ensures end { OnOk result (IsAtEnd (S.rest src.new)) }
    ensures within { IfOk result (λ v. length v.items ≤ limit) }

    // An error has read a first part of the rest, of one byte more than the limit exactly where it
    // is `TooLong`.
    ensures part { IfErr result (λ e. ReadsBefore e limit (S.rest src.old) (S.rest src.new)) }
    ensures fault { result ≡ Err ReadEnd.Fault → Rose (S.faults src.old) (S.faults src.new) }
    ensures later { S.faults src.old ≤ S.faults src.new }
{
    let mut bytes = Vec::new(alloc);
    let mut piece = [0u8; PIECE];
    'pieces: while bytes.len() as u64 <= limit {
        let room = room_for(bytes.len(), limit);
        bytes.reserve(room)?;
        match src.read(&mut piece[..room]) {
            Ok(0) => return Ok(bytes),
            Ok(count) => bytes.extend_from_slice(&piece[..count]).unwrap(),
            Err(Failed) => return Err(ReadEnd::Fault),
        }
    }
    Err(ReadEnd::TooLong {
        read: bytes.len() as u64,
    })
}

#[cfg(test)]
mod tests {
    use super::*;
    use crate::{MemSource, SureSource};
    use std::alloc::AllocError;
    use std::test::Fail;

    const DIGITS: &[u8] = b"12345";

    /// Whether the source gives the bytes, or this end.
    fn gives<S: Source>(
        alloc: Global,
        source: &mut S,
        limit: u64,
        want: Result<&[u8], ReadEnd>,
    ) -> bool {
        match (read_all(alloc, source, limit), want) {
            (Ok(bytes), Ok(want)) => bytes.as_slice() == want,
            (Err(end), Err(want)) => end == want,
            _ => false,
        }
    }

    fn digits(alloc: Global, most: usize) -> Result<SureSource, AllocError> {
        Ok(SureSource::new(DIGITS.to_vec(alloc)?, most))
    }

    #[test]
    fn reads_up_to_the_limit(rt: HostRuntime) -> Result<(), Fail> {
        let alloc = rt.alloc();
        for most in [1, 2, 3, 5, 6] {
            for (limit, want) in [
                (u64::MAX, Ok(DIGITS)),
                (5, Ok(DIGITS)),
                (4, Err(ReadEnd::TooLong { read: 5 })),
                (0, Err(ReadEnd::TooLong { read: 1 })),
            ] {
                let mut source = digits(alloc, most)?;
                assert!(rt; gives(alloc, &mut source, limit, want), "{limit} by {most}");
            }
        }
        let long = vec![in alloc; b'0'; 10_000]?;
        let mut source = SureSource::new(long.clone()?, 9_000);
        assert!(rt; gives(alloc, &mut source, 10_000, Ok(long.as_slice())));
        Ok(())
    }

    /// Each call in turn fails, and the next ones read on from there.
    #[test]
    fn reads_on_after_a_failure(rt: HostRuntime) -> Result<(), Fail> {
        let alloc = rt.alloc();
        for (failing, rest) in [(0, "12345"), (1, "345"), (2, "5"), (3, "")] {
            let mut source = MemSource::new(DIGITS.to_vec(alloc)?, 2, [failing].to_vec(alloc)?);
            assert!(rt;
                gives(alloc, &mut source, 5, Err(ReadEnd::Fault)),
                "at {failing}"
            );
            assert!(rt;
                gives(alloc, &mut source, 5, Ok(rest.as_bytes())),
                "at {failing}"
            );
        }
        Ok(())
    }
}
