// A reply, printed.
use slices::part;
use std::io;
use t0_begin::Reply;
use t0_state::Refusal;

pub fn reply(
    rt: &impl Print,
    said: Result<Reply, Refusal>,
    out: &[u8],
    answer: &[u8],
) -> io::Result<()> {
    match said {
        Ok(Reply::Go { send, wait }) => {
            sent(rt, part(out, 0, send))?;
            println!(rt; "WAIT {wait}")
        }
        Ok(Reply::Answer(n)) => {
            print!(rt; "ANSWER ")?;
            text_print::bytes(rt, part(answer, 0, n))?;
            println!(rt)
        }
        Err(why) => println!(rt; "REFUSED {why}"),
    }
}

fn sent(rt: &impl Print, bytes: &[u8]) -> io::Result<()> {
    if bytes.is_empty() {
        return Ok(());
    }
    print!(rt; "SEND ")?;
    text_print::bytes(rt, bytes)?;
    println!(rt)
}
