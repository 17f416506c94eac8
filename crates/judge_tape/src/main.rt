// The verdict of the tape on standard input, in one line: verdict, place, code, and the number of list entries filled with zeros. It is
// read by `judge_reading`: a block at a time, to its end.
// Where it cannot be read there is no verdict: nothing goes to standard output, and standard error says why. Where the line cannot be
// written, standard error says so: the exit status is 0 whatever happens, and a verdict that is lost must not look like one that nobody
// asked for.
#![tactic(auto)]

use judge_reading::judge_file;
use slices::part;
use text_print::fail;
use verdict::Finding;
use verdict_line::{LONGEST, line};

fn main(rt: HostRuntime) {
    match judge_file(&mut rt.reader()) {
        Ok(found) => tell(&rt, found),
        Err(e) => fail(&rt, "judge_tape: standard input", &e),
    }
}

fn tell(rt: &(impl Print + Eprint), found: Finding) {
    let mut out = [0u8; LONGEST];
    let n = line(found, &mut out);
    if let Err(e) = rt.write_all(part(&out, 0, n)) {
        fail(rt, "judge_tape: the line could not be written", &e);
    }
}
