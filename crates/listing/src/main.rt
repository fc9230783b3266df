// Document 01's listing program: an archive of at most 65,536 bytes on standard input, its listing or the one line `refused N` on standard output. An
// input that cannot be read to its end is told so on standard error, and nothing is printed of it.
#![tactic(auto)]

ghost use Rattle.std.specs.Prelude.{◌≤◌, length};
ghost use Rattle.listing.specs.Printed.{Printed};

use messages::STANDARD_ERROR;
use messages::failures::tell_failure;
use messages::input::read_whole;
use run_text::lines::put_refused;

// All that is printed of an archive.
fn print(bytes: &[u8], out: &mut [u8]) -> usize
    requires { 437792 ≤ length out.old }
    ensures { Printed bytes.now out.new result }
{
    let r = run_print::listing(bytes, out);
    match r {
        Err(x) => put_refused(out, 0, x),
        Ok(n) => n,
    }
}

fn list(rt: &impl Print, bytes: &[u8]) {
    let mut out = messages::text_room();
    let n = print(bytes, &mut out);
    match rt.write_all(&out[..n]) {
        Ok(()) => {}
        Err(e) => tell_failure(STANDARD_ERROR, b"standard output", Some(e)),
    }
}

// One byte more is read than is listed, by which a longer input is told.
fn main(rt: HostRuntime) {
    let mut input = [0u8; 65537];
    let r = read_whole(&mut rt.stdin(), &mut input);
    if r.failure.is_some() {
        tell_failure(STANDARD_ERROR, b"standard input cannot be read", r.failure);
        return;
    }
    let n = r.count;
    list(&rt, &input[..n]);
}
