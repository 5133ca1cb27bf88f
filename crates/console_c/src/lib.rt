// The command `thompsonf` for C. C hands over how many arguments there are and those that the command looks at; it
// passes nothing for a handle of a standard stream, which takes no bytes.
#![tactic(auto)]

ghost use Rattle.std.specs.Io.{WritesAtMost};

use std::env::{Env, FillError};
use std::io::Stdin;

// The arguments of a command line: how many there are, and the bytes of argument 0, which is left out, to 4. The
// command looks at no other.
#[derive(Drop)]
struct Arguments<'a> {
    count: usize,
    texts: [&'a [u8]; 5],
}

// Puts bytes at the front of a buffer, where they fit.
fn put(bytes: &[u8], out: &mut [u8]) -> Result<usize, FillError>
    ensures bound { WritesAtMost result out.new }
{
    if bytes.len() > out.len() {
        return Err(FillError::TooLong);
    }
    Ok(copying::copy_bytes(bytes, out))
}

impl Env for Arguments<'_> {
    fn arg(&self, i: usize, buf: &mut [u8]) -> Result<usize, FillError> {
        if i >= self.count {
            return Err(FillError::NotPresent);
        }
        match self.texts.get(i) {
            Some(text) => put(text, buf),
            None => Ok(0),
        }
    }

    fn var(&self, _name: &str, _buf: &mut [u8]) -> Result<usize, FillError> {
        Err(FillError::NotPresent)
    }

    fn var_at(&self, _i: usize, _buf: &mut [u8]) -> Result<usize, FillError> {
        Err(FillError::NotPresent)
    }
}

// It reads standard input where the command does, and answers the status.
#[unsafe(no_mangle)]
pub extern "C" fn thompsonf_status(
    input: Stdin,
    count: usize,
    first: &[u8],
    second: &[u8],
    third: &[u8],
    fourth: &[u8],
) -> u8 {
    let mut input = input;
    let arguments = Arguments {
        count,
        texts: [&[], first, second, third, fourth],
    };
    console::thompsonf_status(&mut input, &arguments)
}
