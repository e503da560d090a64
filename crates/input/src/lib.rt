// What the programs share: an input, read as far as a buffer holds, what is done with it, and what is written of it.
#![tactic(auto)]

ghost use Rattle.std.specs.Prelude.{◌<◌, ◌≤◌, length, take, IfOk};
ghost use Rattle.std.specs.Io.KnownBytes.{Consumes, IsAtEnd};

use std::env::{Env, FillError};
use std::io;
use std::io::Read;

// Reads until the buffer is full or the input ends, and gives how many bytes it put at the front of the buffer.
pub fn read_full<R: Read>(input: &mut R, buffer: &mut [u8]) -> io::Result<usize>
    ensures within { IfOk result (λ n. n ≤ length buffer.new) }
    ensures bytes { IfOk result (λ n. Consumes (R.remaining input.old) (R.remaining input.new) (take n buffer.new)) }
    ensures whole { IfOk result (λ n. n < length buffer.new → IsAtEnd (R.remaining input.new)) }
{
    let mut done = 0;
    // A `for` is no plainer: a read gives as many bytes as it likes, and the end comes at any turn.
    while done < buffer.len() {
        let n = input.read(&mut buffer[done..])?;
        if n == 0 {
            break;
        }
        done += n;
    }
    Ok(done)
}

// How many arguments the program was given. The first is its own name.
pub fn argument_count(rt: &impl Env) -> usize {
    for i in 0..usize::MAX {
        if matches!(rt.arg(i, &mut []), Err(FillError::NotPresent)) {
            return i;
        }
    }
    usize::MAX
}

// A program that reads its standard input and takes no arguments; whoever gives one, as `-h`, is told what it takes. A buffer of one byte more than the longest
// input has shows the work a longer one, which is then refused and not cut.
pub fn run<F: FnOnce(&[u8]) -> io::Result<()>>(
    rt: &HostRuntime,
    usage: &str,
    buffer: &mut [u8],
    work: F,
) -> io::Result<()>
    requires { F.IsAlwaysCallable work }
{
    if argument_count(rt) > 1 {
        return eprintln!(rt; "usage: {usage}");
    }
    let read = read_full(&mut rt.stdin(), buffer)?;
    work(&buffer[..read])
}

// Writes to standard output; where that fails, standard error has what could not be written.
pub fn say(rt: &HostRuntime, what: &str, text: &[u8]) -> io::Result<()> {
    if rt.write_all(text).is_err() {
        eprintln!(rt; "{what} could not be written to standard output")?;
    }
    Ok(())
}

#[cfg(test)]
mod tests {
    use super::*;
    use std::test::Fail;

    #[derive(Drop)]
    struct Broken;

    impl Read for Broken {
        fn read(&mut self, _buffer: &mut [u8]) -> io::Result<usize> {
            Err(io::Error::from(io::ErrorKind::BrokenPipe))
        }
    }

    #[test]
    fn reads_on_after_a_short_read(rt: HostRuntime) -> Result<(), Fail> {
        let mut buffer = [0u8; 5];
        let mut input = (&b"ab"[..]).chain(&b"cdef"[..]);
        let read = read_full(&mut input, &mut buffer)?;
        assert_eq!(rt; read, 5);
        assert_eq!(rt; buffer, *b"abcde");
        Ok(())
    }

    #[test]
    fn stops_at_the_end(rt: HostRuntime) -> Result<(), Fail> {
        let mut buffer = [7u8; 4];
        let read = read_full(&mut &b"ab"[..], &mut buffer)?;
        assert_eq!(rt; read, 2);
        assert_eq!(rt; buffer, [97, 98, 7, 7]);
        Ok(())
    }

    #[test]
    fn fails_where_a_later_read_fails(rt: HostRuntime) -> Result<(), Fail> {
        let mut buffer = [0u8; 4];
        let result = read_full(&mut (&b"ab"[..]).chain(Broken), &mut buffer);
        assert!(rt; result.is_err());
        Ok(())
    }
}
