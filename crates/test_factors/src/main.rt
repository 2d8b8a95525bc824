// Finds the factors of a table of words over 0 and 1, says which are Christoffel words, and writes a line for each word.
#![tactic(auto)]

ghost use Rattle.std.specs.Prelude.{◌<◌, length};

use std::io;

// The letters of one copy, the repeats if there are several, and whether it is a Christoffel word.
fn write_factor(rt: &impl Print, copy: &[u8], times: u32, christoffel: bool) -> io::Result<()> {
    if times == 1 {
        print!(rt; " ")?;
        rt.write_all(copy)?;
    } else {
        print!(rt; " (")?;
        rt.write_all(copy)?;
        print!(rt; ")^{times}")?;
    }
    print!(rt; "{}", if christoffel { "+" } else { "-" })
}

// All factors of a word, in order.
fn write_factors(rt: &impl Print, word: &[u8]) -> io::Result<()>
    requires { length word.now < 4294967296 }
{
    let mut at = 0;
    while let Some(factor) = words::factor_at(word, at, b'1') {
        let end = at + factor.length as usize;
        write_factor(rt, &word[at..end], factor.times, factor.christoffel)?;
        let size = factor.times * factor.length;
        at += size as usize;
    }
    Ok(())
}

// A word and its factors, on a line of its own.
fn write_word(rt: &impl Print, word: &[u8]) -> io::Result<()>
    requires { length word.now < 4294967296 }
{
    rt.write_all(word)?;
    print!(rt; ":")?;
    write_factors(rt, word)?;
    println!(rt)
}

fn main(rt: HostRuntime) -> io::Result<()> {
    println!(rt; "word: its factors, + a Christoffel word, - none")?;
    write_word(&rt, b"1011010100010")?;
    write_word(&rt, b"101101001")?;
    write_word(&rt, b"01011011")?;
    write_word(&rt, b"001101")?;
    write_word(&rt, b"0011")?;
    write_word(&rt, b"0")?;
    write_word(&rt, b"1")?;
    write_word(&rt, b"")?;
    write_word(&rt, b"0101")?;
    write_word(&rt, b"111000")
}
