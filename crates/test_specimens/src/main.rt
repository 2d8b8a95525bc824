// Runs every specimen through the test, makes loose queries and comparisons with some of them, and writes a line for each.
#![tactic(auto)]

ghost use Rattle.std.specs.Prelude.{◌≡◌, ◌≤◌, length, take};

use chart::reply::{CROSSING, EQUAL, FIRST_WITHIN, NO_COMMON, NUMBERS, SECOND_WITHIN};
use chart::{Fields, LONGEST, MOST_NUMBERS, Point, Position, Refusal};
use std::io;

fn write_number(rt: &impl Print, n: u16) -> io::Result<()> {
    print!(rt; " {n}")
}

fn write_cell(rt: &impl Print, cell: Point) -> io::Result<()> {
    let Point { col, row } = cell;
    print!(rt; " ({col}, {row})")
}

// The edges of a list.
fn write_edges(rt: &impl Print, list: &[i16]) -> io::Result<()> {
    let (edges, _) = list.as_chunks::<2>();
    for [dx, dy] in edges {
        print!(rt; " ({dx}, {dy})")?;
    }
    Ok(())
}

// A test's reply: number, place, piece, length and cell.
fn write_fields(rt: &impl Print, fields: Fields) -> io::Result<()> {
    write_number(rt, fields.number)?;
    write_number(rt, fields.place)?;
    write_number(rt, fields.piece)?;
    write_number(rt, fields.length)?;
    write_cell(
        rt,
        Point {
            col: fields.col,
            row: fields.row,
        },
    )
}

// Tests an outline and writes its line.
fn write_test(rt: &impl Print, name: &str, start: Point, letters: &[u8]) -> io::Result<()> {
    let mut edges = [0i16; MOST_NUMBERS];
    let verdict = outline::test(start, letters, &mut edges);
    print!(rt; "{name}:")?;
    write_fields(rt, Fields::from(verdict))?;
    if let Ok(taken) = verdict {
        print!(rt; " edges")?;
        write_edges(rt, &edges[..2 * usize::from(taken.edges)])?;
    }
    println!(rt)
}

// Reads digits as letters and returns how many there are.
fn read_letters(digits: &[u8], letters: &mut [u8]) -> usize
    ensures within { result ≤ length letters.new }
    ensures prefix { result ≡ length (take result letters.new) }
{
    for (letter, digit) in letters.iter_mut().zip(digits) {
        *letter = *digit % 16;
    }
    digits.len().min(letters.len())
}

// A specimen whose letters are written as digits, at most 16 of them.
fn write_specimen(
    rt: &impl Print,
    name: &str,
    col: u16,
    row: u16,
    digits: &[u8],
) -> io::Result<()> {
    let mut letters = [0u8; 16];
    let n = read_letters(digits, &mut letters);
    write_test(rt, name, Point { col, row }, &letters[..n])
}

// The longest list of letters that passes refusal 1, one letter more, and far more.
fn write_longest(rt: &impl Print) -> io::Result<()> {
    let start = Point { col: 0, row: 0 };
    write_test(rt, "612 letters 1", start, &[1u8; LONGEST])?;
    write_test(rt, "613 letters 1", start, &[1u8; LONGEST + 1])?;
    write_test(rt, "2,048 letters 1", start, &[1u8; 2048])?;
    write_test(rt, "2,049 letters 1", start, &[1u8; 2049])
}

// An outline of 604 letters with the most edges that any outline has.
fn write_most_edges(rt: &impl Print) -> io::Result<()> {
    let digits =
        b"1101111111011111101111101111011101101110110101101101011010101101001010101001010100101001001010010001001000100001000100001000001000000100000001000000001003000000030000003000003000030003003000300303003003030030303003033030303033030303303033033030330333033033303333033303333033333033333303333333033333333033233333332333333233333233332333233233323323233233232332323233232232323232232323223232232232322322232232223222232223222232222232222223222222232222222232212222222122222212222212222122212212221221212212212122121212212112121212112121211212112112121121112112111211112111211112111112111111211111112111111112";
    let mut letters = [0u8; LONGEST];
    let n = read_letters(digits, &mut letters);
    write_test(rt, "604 letters", Point { col: 0, row: 81 }, &letters[..n])
}

// The answer of a loose query, or the number of its refusal.
fn write_position(rt: &impl Print, position: Result<Position, Refusal>) -> io::Result<()> {
    match position {
        Ok(Position::Inside) => print!(rt; " inside"),
        Ok(Position::Outside) => print!(rt; " outside"),
        Err(why) => write_number(rt, Fields::from(why).number),
    }
}

// Makes a loose query and writes its line.
fn write_query(
    rt: &impl Print,
    name: &str,
    anchor: Point,
    edges: &[i16],
    cell: Point,
) -> io::Result<()> {
    let position = polygon::loose_query(anchor, edges, cell);
    print!(rt; "{name}, cell")?;
    write_cell(rt, cell)?;
    print!(rt; ":")?;
    write_position(rt, position)?;
    println!(rt)
}

fn ask_h2(rt: &impl Print, col: u16, row: u16) -> io::Result<()> {
    let edges = [2i16, 0, -2, 0];
    let anchor = Point { col: 0, row: 0 };
    write_query(rt, "H2", anchor, &edges, Point { col, row })
}

fn ask_h3(rt: &impl Print, col: u16, row: u16) -> io::Result<()> {
    let edges = [1i16, 1, 1, -1, -1, -1, -1, 1];
    let anchor = Point { col: 0, row: 1 };
    write_query(rt, "H3", anchor, &edges, Point { col, row })
}

// The word of a comparison, or the number of its refusal and which list is refused.
fn write_nesting(rt: &impl Print, reply: &[u16; NUMBERS]) -> io::Result<()> {
    match reply[1] {
        EQUAL => print!(rt; " equal"),
        FIRST_WITHIN => print!(rt; " first within second"),
        SECOND_WITHIN => print!(rt; " second within first"),
        NO_COMMON => print!(rt; " no common cell"),
        CROSSING => print!(rt; " crossing"),
        _ => {
            write_number(rt, reply[0])?;
            write_number(rt, reply[2])
        }
    }
}

// Compares two lists of edges, and writes the word and the list that is returned.
fn write_comparison<'a>(
    rt: &impl Print,
    name: &str,
    anchor: Point,
    edges: &'a [i16],
    other: Point,
    others: &'a [i16],
) -> io::Result<()> {
    let mut reply = [0u16; NUMBERS];
    let inner = comparison::compare(anchor, edges, other, others, &mut reply);
    print!(rt; "{name}:")?;
    write_nesting(rt, &reply)?;
    print!(rt; ", edges")?;
    write_edges(rt, inner)?;
    println!(rt)
}

// H2 from a cell compared with H3, both ways round.
fn compare_h2(rt: &impl Print, name: &str, back: &str, col: u16, row: u16) -> io::Result<()> {
    let edges = [2i16, 0, -2, 0];
    let anchor = Point { col, row };
    let others = [1i16, 1, 1, -1, -1, -1, -1, 1];
    let other = Point { col: 0, row: 1 };
    write_comparison(rt, name, anchor, &edges, other, &others)?;
    write_comparison(rt, back, other, &others, anchor, &edges)
}

// H3 with itself.
fn compare_h3(rt: &impl Print) -> io::Result<()> {
    let edges = [1i16, 1, 1, -1, -1, -1, -1, 1];
    let anchor = Point { col: 0, row: 1 };
    write_comparison(rt, "H3 and H3", anchor, &edges, anchor, &edges)
}

// Specimens drawn backward. The place in the reply then counts from the other end.
fn write_backward(rt: &impl Print) -> io::Result<()> {
    write_specimen(rt, "H3 backward", 0, 1, b"030101212323")?;
    write_specimen(rt, "H4 backward", 1, 1, b"301012123230")?;
    write_specimen(rt, "H6 backward", 0, 0, b"000122112333")?;
    write_specimen(rt, "H7 backward", 0, 0, b"000112321233")
}

fn write_tests(rt: &impl Print) -> io::Result<()> {
    write_specimen(rt, "H1", 0, 0, b"1032")?;
    write_specimen(rt, "H2", 0, 0, b"10003222")?;
    write_specimen(rt, "H3", 0, 1, b"101030323212")?;
    write_specimen(rt, "H4", 1, 1, b"210103032321")?;
    write_specimen(rt, "H5", 0, 0, b"11030322")?;
    write_specimen(rt, "H6", 0, 0, b"111033003222")?;
    write_specimen(rt, "H7", 0, 0, b"110301033222")?;
    write_specimen(rt, "H8", 0, 0, b"1023")?;
    write_specimen(rt, "H9", 0, 0, b"0123")?;
    write_specimen(rt, "H10", 0, 0, b"103")?;
    write_specimen(rt, "H11", 255, 0, b"1032")?;
    write_specimen(rt, "H12", 0, 1, b"1033")?;
    write_specimen(rt, "start (256, 0), 7777", 256, 0, b"7777")?;
    write_longest(rt)?;
    write_most_edges(rt)?;
    write_backward(rt)
}

// H2 and H3: cells inside, cells outside, and H2 far across the chart.
fn write_queries(rt: &impl Print) -> io::Result<()> {
    ask_h2(rt, 0, 0)?;
    ask_h2(rt, 1, 0)?;
    ask_h2(rt, 2, 0)?;
    ask_h2(rt, 3, 0)?;
    ask_h2(rt, 254, 0)?;
    ask_h2(rt, 1, 1)?;
    ask_h2(rt, 255, 0)?;
    ask_h3(rt, 0, 1)?;
    ask_h3(rt, 1, 0)?;
    ask_h3(rt, 1, 1)?;
    ask_h3(rt, 1, 2)?;
    ask_h3(rt, 2, 1)?;
    ask_h3(rt, 0, 0)?;
    ask_h3(rt, 2, 0)?;
    ask_h3(rt, 0, 2)?;
    ask_h3(rt, 2, 2)?;
    ask_h3(rt, 3, 1)
}

// Each word of a comparison, and a refusal: H2 from (253, 0) has a corner cell off the chart.
fn write_comparisons(rt: &impl Print) -> io::Result<()> {
    compare_h3(rt)?;
    compare_h2(rt, "H2 from (0, 1) and H3", "H3 and H2 from (0, 1)", 0, 1)?;
    compare_h2(rt, "H2 and H3", "H3 and H2", 0, 0)?;
    compare_h2(rt, "H2 from (3, 1) and H3", "H3 and H2 from (3, 1)", 3, 1)?;
    compare_h2(
        rt,
        "H2 from (253, 0) and H3",
        "H3 and H2 from (253, 0)",
        253,
        0,
    )
}

fn main(rt: HostRuntime) -> io::Result<()> {
    println!(rt; "name: number place piece length cell, and the edges of a taken outline")?;
    write_tests(&rt)?;
    write_queries(&rt)?;
    write_comparisons(&rt)
}
