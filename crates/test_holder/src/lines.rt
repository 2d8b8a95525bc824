// Replies as lines of text.
use chart::reply::NUMBERS;
use std::io;

fn write_number(rt: &impl Print, n: u16) -> io::Result<()> {
    print!(rt; "{n}")
}

pub(crate) fn write_numbers(rt: &impl Print, list: &[u16]) -> io::Result<()> {
    for (i, n) in list.iter().enumerate() {
        if 0 < i {
            print!(rt; " ")?;
        }
        write_number(rt, *n)?;
    }
    Ok(())
}

// A line for each reply. Equal replies in a row share one line with their count.
pub(crate) fn write_replies(rt: &impl Print, replies: &[u16]) -> io::Result<()> {
    let (replies, _) = replies.as_chunks::<NUMBERS>();
    for run in replies.chunk_by(|one, next| one == next) {
        write_numbers(rt, &run[0])?;
        let times = run.len();
        if 1 < times {
            print!(rt; ", {times} times")?;
        }
        println!(rt)?;
    }
    Ok(())
}

// A line with a count behind its name.
pub(crate) fn write_count(rt: &impl Print, name: &str, count: usize) -> io::Result<()> {
    println!(rt; "{name}{count}")
}
