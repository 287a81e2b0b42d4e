// The trace program with the octets sent, on the worked conferences and a trace drawn by dice (tests/conferences).
#![tactic(auto)]

fn main(rt: HostRuntime) {
    let mut source = rt.stdin();
    trace_run::run(trace_run::Form::Sent, &mut source);
}
