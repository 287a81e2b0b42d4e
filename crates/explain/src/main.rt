// The trace program in words: frames from standard input, told frame by frame on standard output.
#![tactic(auto)]

fn main(rt: HostRuntime) {
    let mut source = rt.stdin();
    trace_run::run(trace_run::Form::Words, &mut source);
}
