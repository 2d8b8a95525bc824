// Makes a fixed list of calls on a pile, and writes each reply as a line of seven numbers. A column and a row stay two numbers: each call
// is a line of numbers here.
#![tactic(auto)]

use chart::{Fields, Point};
use pile_calls::{Pile, Piled, fresh};
use pile_replies::of_reply;
use std::io;

fn line(rt: &impl Print, fields: Fields) -> io::Result<()> {
    let Fields {
        number,
        word,
        place,
        piece,
        length,
        col,
        row,
    } = fields;
    println!(rt; "{number} {word} {place} {piece} {length} {col} {row}")
}

fn printed(rt: &impl Print, piled: Piled) -> io::Result<Pile> {
    line(rt, of_reply(piled.reply))?;
    Ok(piled.pile)
}

// One cell.
fn cell(rt: &impl Print, pile: Pile, layer: u8, col: u16, row: u16) -> io::Result<Pile> {
    let letters = [1u8, 0, 3, 2];
    printed(rt, pile.set(layer, Point { col, row }, &letters[..]))
}

// The five cells of a plus, from the left corner of its middle row.
fn plus(rt: &impl Print, pile: Pile, layer: u8, col: u16, row: u16) -> io::Result<Pile> {
    let letters = [1u8, 0, 1, 0, 3, 0, 3, 2, 3, 2, 1, 2];
    printed(rt, pile.set(layer, Point { col, row }, &letters[..]))
}

// An outline with a dent.
fn dented(rt: &impl Print, pile: Pile, layer: u8) -> io::Result<Pile> {
    let letters = [1u8, 1, 1, 0, 3, 3, 0, 0, 3, 2, 2, 2];
    printed(rt, pile.set(layer, Point { col: 0, row: 0 }, &letters[..]))
}

fn empty(rt: &impl Print, pile: Pile, layer: u8) -> io::Result<Pile> {
    printed(rt, pile.set_empty(layer))
}

fn check(rt: &impl Print, pile: Pile) -> io::Result<Pile> {
    printed(rt, pile.check())
}

fn query(rt: &impl Print, pile: Pile, layer: u8, col: u16, row: u16) -> io::Result<Pile> {
    let answer = pile.query(layer, Point { col, row });
    line(rt, of_reply(answer))?;
    Ok(pile)
}

// A fresh pile: it is unchecked, and a check passes. 22 comes before 12, and 12 before 11.
fn empty_pile(rt: &impl Print, p: Pile) -> io::Result<Pile> {
    let p = query(rt, p, 0, 0, 0)?;
    let p = query(rt, p, 16, 0, 0)?;
    let p = query(rt, p, 0, 255, 0)?;
    let p = check(rt, p)?;
    let p = query(rt, p, 15, 254, 254)?;
    let p = query(rt, p, 0, 255, 0)?;
    let p = query(rt, p, 16, 255, 0)?;
    let p = cell(rt, p, 16, 0, 0)?;
    empty(rt, p, 255)
}

// A refused set leaves a passed pile passed. A taken outline and a set to empty leave it unchecked.
fn layers(rt: &impl Print, p: Pile) -> io::Result<Pile> {
    let p = dented(rt, p, 3)?;
    let p = query(rt, p, 3, 0, 0)?;
    let p = plus(rt, p, 3, 4, 5)?;
    let p = query(rt, p, 3, 5, 5)?;
    let p = check(rt, p)?;
    let p = query(rt, p, 3, 5, 5)?;
    let p = query(rt, p, 3, 4, 4)?;
    let p = query(rt, p, 2, 5, 5)?;
    let p = empty(rt, p, 3)?;
    let p = query(rt, p, 3, 5, 5)?;
    let p = check(rt, p)?;
    query(rt, p, 3, 5, 5)
}

// Cells (0, 1), (1, 2), (2, 0) of a column, as layer and row: (1, 1) is missing, and no two of the layers alone show it.
fn three_cells(rt: &impl Print, p: Pile) -> io::Result<Pile> {
    let p = cell(rt, p, 0, 9, 1)?;
    let p = cell(rt, p, 1, 9, 2)?;
    let p = cell(rt, p, 2, 9, 0)?;
    let p = check(rt, p)?;
    let p = query(rt, p, 0, 9, 1)?;
    let p = empty(rt, p, 1)?;
    let p = check(rt, p)?;
    let p = cell(rt, p, 1, 9, 1)?;
    let p = check(rt, p)?;
    let p = query(rt, p, 1, 9, 1)?;
    let p = empty(rt, p, 0)?;
    let p = empty(rt, p, 1)?;
    empty(rt, p, 2)
}

// Sections in several parts: an empty layer between, with a cell of the hull or without one; a dented column before a dented row.
fn parts(rt: &impl Print, p: Pile) -> io::Result<Pile> {
    let p = cell(rt, p, 0, 7, 0)?;
    let p = cell(rt, p, 2, 7, 1)?;
    let p = check(rt, p)?;
    let p = cell(rt, p, 2, 7, 2)?;
    let p = check(rt, p)?;
    let p = cell(rt, p, 2, 9, 0)?;
    let p = check(rt, p)?;
    let p = cell(rt, p, 15, 7, 0)?;
    let p = check(rt, p)?;
    let p = cell(rt, p, 1, 8, 0)?;
    check(rt, p)
}

fn main(rt: HostRuntime) -> io::Result<()> {
    println!(rt; "number word place piece length col row")?;
    let p = empty_pile(&rt, fresh())?;
    let p = layers(&rt, p)?;
    let p = three_cells(&rt, p)?;
    parts(&rt, p)?;
    Ok(())
}
