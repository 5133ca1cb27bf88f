// Text on standard error.

// The numbers of standard output and standard error; the function of the kit that writes takes a number.
pub const STDOUT: i32 = 1;

pub const STDERR: i32 = 2;

// Says what went wrong.
pub fn tell(remark: &[u8]) {
    io::write_all(STDERR, remark);
}
