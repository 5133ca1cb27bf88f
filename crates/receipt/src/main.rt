// The receipt program: for standard input, one word a line, a header and one line each to standard output. The crate
// `receiving` has the rest, and a status that a program in C over the static library `receiving_c` ends with.
#![tactic(auto)]

fn main(rt: HostRuntime) {
    let mut input = rt.stdin();
    receiving::run(&mut input, 1);
}
