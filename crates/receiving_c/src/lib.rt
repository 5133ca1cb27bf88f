// The receipt program for C. C passes nothing for a handle of a standard stream, which takes no bytes.
#![tactic(auto)]

use std::io::Stdin;

// It reads standard input, and answers the status.
#[unsafe(no_mangle)]
pub extern "C" fn receipt_status(input: Stdin) -> u8 {
    let mut input = input;
    receiving::receipt_status(&mut input)
}
