// Input as the programs take it: read into a lent buffer, whatever pieces it arrives in.
#![tactic(auto)]

ghost use Rattle.std.specs.Prelude.{◌≢◌, ◌<◌, ◌≤◌, ℕ, length, take, IfOk, IfErr, OnErr};
ghost use Rattle.std.specs.Io.{ReadsAtMost};
ghost use Rattle.std.specs.Io.KnownBytes.{Consumes, IsAtEnd, ReadConsumes};
ghost use Rattle.std.specs.IoError.{error_kind};

use std::io::{Error, ErrorKind, Read, Result};

// Reads until the buffer is full or the input ends, and answers how many bytes it put at the front. After a failure, what was read before
// it stands there too. What stands behind these bytes is left open: a reader may use all the room that it is lent.
pub fn read_full<R: Read>(reader: &mut R, buf: &mut [u8]) -> Result<usize>
    ensures within { IfOk result (λ n. n ≤ length buf.new) }
    ensures bytes { IfOk result (λ n.
        Consumes (R.remaining reader.old) (R.remaining reader.new) (take n buf.new)) }
    ensures end { IfOk result (λ n. n < length buf.new → IsAtEnd (R.remaining reader.new)) }
    ensures err { OnErr result ((n : ℕ) × (n ≤ length buf.new)
        × Consumes (R.remaining reader.old) (R.remaining reader.new) (take n buf.new)) }
    ensures retried { IfErr result (λ e. error_kind e ≢ ErrorKind.Interrupted) }
{
    let mut filled = 0;
    // std's `read_exact` tells nothing of what it read before an `Err`, and is an `Err` at a short input.
    while filled < buf.len() {
        let count = read_once(reader, &mut buf[filled..])?;
        // A short read is no end: a pipe gives what it has.
        if count == 0 {
            break;
        }
        filled += count;
    }
    Ok(filled)
}

// One read, tried again where a signal interrupts it. As std's own loops, it gives up after 2^64 tries.
fn read_once<R: Read>(reader: &mut R, buf: &mut [u8]) -> Result<usize>
    ensures within { ReadsAtMost result buf.new }
    ensures bytes { ReadConsumes (R.remaining reader.old) (R.remaining reader.new) result buf.new }
    ensures retried { IfErr result (λ e. error_kind e ≢ ErrorKind.Interrupted) }
{
    for _ in 0..u64::MAX {
        match reader.read(buf) {
            Err(e) if e.kind() == ErrorKind::Interrupted => {}
            outcome => return outcome,
        }
    }
    Err(Error::from(ErrorKind::TimedOut))
}

#[cfg(test)]
mod tests {
    use super::*;

    // Gives the bytes below `end`, one at each second read. The reads between are interrupted, and those past the end fail if `broken`.
    #[derive(Drop)]
    struct Dripper {
        next: u8,
        end: u8,
        interrupts: bool,
        broken: bool,
    }

    fn drip(end: u8, broken: bool) -> Dripper {
        Dripper {
            next: 0,
            end,
            interrupts: true,
            broken,
        }
    }

    impl Read for Dripper {
        fn read(&mut self, buf: &mut [u8]) -> Result<usize> {
            let interrupts = self.interrupts;
            self.interrupts = !interrupts;
            if interrupts {
                return Err(Error::from(ErrorKind::Interrupted));
            }
            if buf.is_empty() {
                return Ok(0);
            }
            if self.next >= self.end {
                return if self.broken {
                    Err(Error::from(ErrorKind::BrokenPipe))
                } else {
                    Ok(0)
                };
            }
            buf[0] = self.next;
            self.next += 1;
            Ok(1)
        }
    }

    #[test]
    fn joins_pieces(rt: HostRuntime) {
        let mut buf = [9u8; 6];
        assert_eq!(rt; read_full(&mut drip(4, false), &mut buf).ok(), Some(4));
        assert_eq!(rt; buf, [0, 1, 2, 3, 9, 9]);
    }

    #[test]
    fn stops_when_full(rt: HostRuntime) {
        let mut buf = [9u8; 3];
        let mut input = drip(4, false);
        assert_eq!(rt; read_full(&mut input, &mut buf).ok(), Some(3));
        assert_eq!(rt; buf, [0, 1, 2]);
        assert_eq!(rt; read_full(&mut input, &mut buf).ok(), Some(1));
        assert_eq!(rt; buf, [3, 1, 2]);
        assert_eq!(rt; read_full(&mut input, &mut buf).ok(), Some(0));
    }

    #[test]
    fn a_failed_read_is_no_end(rt: HostRuntime) {
        let mut buf = [9u8; 6];
        let outcome = read_full(&mut drip(4, true), &mut buf);
        assert_eq!(rt;
            outcome.err().map(|e| e.kind()),
            Some(ErrorKind::BrokenPipe)
        );
        assert_eq!(rt; buf, [0, 1, 2, 3, 9, 9]);
    }
}
