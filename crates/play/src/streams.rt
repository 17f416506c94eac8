// The standard streams, tried with no bytes before anything else: a closed one would lend its number to the tape's file.
use std::io::Read;
use text_print::fail;

pub fn are_open(rt: &(impl Input + Print + Eprint), errors: &impl Print) -> bool {
    let mut none = [0u8; 0];
    if let Err(e) = rt.reader().read(&mut none) {
        fail(rt, "standard input", &e);
        return false;
    }
    if let Err(e) = rt.write_some(&none) {
        fail(rt, "standard output", &e);
        return false;
    }
    if errors.write_some(&none).is_err() {
        let _ = rt.write_all(b"ERROR no standard error\n");
        return false;
    }
    true
}
