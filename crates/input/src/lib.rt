// Reads a file or standard input into a buffer of the caller's.
#![tactic(auto)]

ghost use Rattle.std.specs.Prelude.{◌<◌, length, take, IfOk};
ghost use Rattle.std.specs.Io.{ReadsAtMost};
ghost use Rattle.std.specs.Io.KnownBytes.{Consumes, IsAtEnd};

use std::io;
use std::io::Read;

// Reads until the buffer is full or the input ends, and answers how many bytes stand at the buffer's start then. Where a read fails, what the
// buffer holds and how much of the input is gone is open.
pub fn read_full<R: Read>(from: &mut R, buf: &mut [u8]) -> io::Result<usize>
    ensures bound { ReadsAtMost result buf.new }
    ensures bytes { IfOk result (λ n. Consumes (R.remaining from.old) (R.remaining from.new) (take n buf.new)) }
    ensures end { IfOk result (λ n. n < length buf.new → IsAtEnd (R.remaining from.new)) }
{
    let mut done = 0;
    while done < buf.len() {
        let n = from.read(&mut buf[done..])?;
        if n == 0 {
            break;
        }
        done += n;
    }
    Ok(done)
}

#[cfg(test)]
mod tests {
    use super::*;
    use std::io::ErrorKind;
    use std::test::Fail;

    // A reader of a few bytes that gives one at a time, the last of them 0, and then ends or fails.
    #[derive(Drop)]
    struct Pieces {
        left: u8,
        fails: bool,
    }

    impl Read for Pieces {
        fn read(&mut self, buf: &mut [u8]) -> io::Result<usize> {
            if buf.is_empty() {
                return Ok(0);
            }
            if self.left > 0 {
                self.left -= 1;
                buf[0] = self.left;
                return Ok(1);
            }
            if self.fails {
                return Err(io::Error::from(ErrorKind::TimedOut));
            }
            Ok(0)
        }
    }

    #[test]
    fn reads_pieces_to_the_end(rt: HostRuntime) -> Result<(), Fail> {
        let mut buf = [9u8; 5];
        let mut from = Pieces {
            left: 3,
            fails: false,
        };
        assert_eq!(rt; read_full(&mut from, &mut buf)?, 3);
        assert_eq!(rt; buf, [2, 1, 0, 9, 9]);
        assert_eq!(rt; read_full(&mut from, &mut buf)?, 0);
        Ok(())
    }

    #[test]
    fn stops_where_the_buffer_is_full(rt: HostRuntime) -> Result<(), Fail> {
        let mut buf = [9u8; 2];
        let mut from = Pieces {
            left: 3,
            fails: true,
        };
        assert_eq!(rt; read_full(&mut from, &mut buf)?, 2);
        assert_eq!(rt; buf, [2, 1]);
        assert_eq!(rt; from.left, 1);
        Ok(())
    }

    #[test]
    fn hands_a_failed_read_on(rt: HostRuntime) {
        let mut buf = [9u8; 5];
        let mut from = Pieces {
            left: 3,
            fails: true,
        };
        let failed = read_full(&mut from, &mut buf);
        assert!(rt; matches!(failed, Err(e) if e.kind() == ErrorKind::TimedOut));
    }
}
