// The relay walk as a program: events on standard input, lines on standard output, a table that starts at 1.
// Crate `walk_steps` is all of it.
#![tactic(auto)]

fn main(rt: HostRuntime) {
    let mut input = rt.stdin();
    let mut output = rt.stdout();
    walk_steps::run(&mut input, &mut output)
}
