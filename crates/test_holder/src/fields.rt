// The fields of a line of text, which single spaces part, and the numbers in them.

// What a field that is not a number is read as. Numbers have at most 32 bits. An option would be no plainer: the letters of a word are no
// number and are taken all the same, and elsewhere the bounds refuse it.
pub(crate) const NO_NUMBER: u64 = 0x1_0000_0000;

// The field at an index, empty if the line has no such field.
pub(crate) fn field(line: &[u8], index: usize) -> &[u8] {
    match line.split(|byte| *byte == b' ').nth(index) {
        Some(field) => field,
        None => &line[..0],
    }
}

// What a digit stands for, 255 if the byte is not a digit.
pub(crate) fn digit(byte: u8) -> u8 {
    match byte {
        b'0'..=b'9' => byte - b'0',
        b'a'..=b'f' => byte - b'a' + 10,
        _ => 255,
    }
}

// A number with one more digit.
fn extended(number: u64, digit: u8, hex: bool) -> u64 {
    if NO_NUMBER <= number || 15 < digit {
        return NO_NUMBER;
    }
    if hex {
        return number * 16 + u64::from(digit);
    }
    if 9 < digit {
        return NO_NUMBER;
    }
    number * 10 + u64::from(digit)
}

// The number that a field holds, in hexadecimal or in decimal. The library's reading would also take a sign and capitals.
pub(crate) fn number(field: &[u8], hex: bool) -> u64 {
    if field.is_empty() {
        return NO_NUMBER;
    }
    field
        .iter()
        .fold(0, |number, byte| extended(number, digit(*byte), hex))
}
