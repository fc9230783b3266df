// Cleans an archive: its bytes come on standard input, the cleaned archive goes to standard output. A refusal writes nothing there, and one line to
// standard error; an input that cannot be read to its end is told so there too, and nothing is cleaned of it.
#![tactic(auto)]

use columns::refusal::Refusal;
use messages::STANDARD_ERROR;
use messages::failures::tell_failure;
use messages::input::read_whole;

// Cleans bytes, and writes what they are cleaned to.
fn clean(rt: &impl Print, bytes: &[u8]) {
    let mut out = messages::output_room();
    let r = run_clean::clean(bytes, &mut out);
    match r {
        Err(x) => messages::tell_refusal(STANDARD_ERROR, x),
        Ok(n) => {
            let m = messages::within(n, &out);
            match rt.write_all(&out[..m]) {
                Ok(()) => {}
                Err(e) => tell_failure(STANDARD_ERROR, b"standard output", Some(e)),
            }
        }
    }
}

// An archive of more than 655,360 bytes is refused with 41.
fn main(rt: HostRuntime) {
    let mut input = messages::input_room();
    let r = read_whole(&mut rt.stdin(), &mut input);
    if r.failure.is_some() {
        tell_failure(STANDARD_ERROR, b"standard input cannot be read", r.failure);
        return;
    }
    let n = r.count;
    if 655360 < n {
        messages::tell_refusal(STANDARD_ERROR, Refusal::SliceShort);
        return;
    }
    clean(&rt, &input[..n]);
}
