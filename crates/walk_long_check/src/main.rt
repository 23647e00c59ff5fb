// The relay walk on a long stored input, which `relay_walk` is not run on: more events and more text than its buffers
// hold, so that records lie across reads, and what was not consumed moves to the front again and again.
#![tactic(auto)]

fn main(rt: HostRuntime) {
    let mut input = rt.stdin();
    let mut output = rt.stdout();
    walk_steps::run(&mut input, &mut output)
}
