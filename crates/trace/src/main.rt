// The trace program: frames from standard input, a line for each on standard output.
#![tactic(auto)]

fn main(rt: HostRuntime) {
    let mut source = rt.stdin();
    trace_run::run(trace_run::Form::Lines, &mut source);
}
