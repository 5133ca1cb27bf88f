// The command `thompsonf`. The crate `console` has the rest, and a status that a program in C over the static library
// `console_c` ends with.
#![tactic(auto)]

fn main(rt: HostRuntime) {
    let mut input = rt.stdin();
    console::run(&mut input, &rt);
}
