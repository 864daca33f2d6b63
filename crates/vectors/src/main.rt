// The numbers to check by, and every refusal at least once: each is run through the proved code, and has a line
// that says what was done and what came out. Each subject but the frame log is a crate of its own, and is proved apart.
// A write that fails is passed over: what is printed is compared with what is kept, and a gap shows there.
#![tactic(auto)]

mod log;

fn main(rt: HostRuntime) {
    frame_vectors::run(&rt);
    message_vectors::run(&rt);
    notice_vectors::run(&rt);
    table_vectors::run(&rt);
    sfi_vectors::run(&rt);
    log::run(&rt);
}
