// Writes the checksums of the published examples: the digits 1 to 9, then RFC 3720, B.4 (zeros, ones, ascending, descending), a read
// command of the same document, and whether bytes with their checksum after them pass, as they are and with a bit changed.
#![tactic(auto)]

use std::io;

fn print(rt: &impl Print, bytes: &[u8]) -> io::Result<()> {
    println!(rt; "{:08x}", checksum::of(bytes))
}

fn judge(rt: &impl Print, bytes: &[u8]) -> io::Result<()> {
    if checksum::intact(bytes) {
        println!(rt; "intact")
    } else {
        println!(rt; "damaged")
    }
}

fn main(rt: HostRuntime) -> io::Result<()> {
    print(&rt, b"")?;
    print(&rt, b"123456789")?;
    let zeros = [0u8; 32];
    print(&rt, &zeros)?;
    print(&rt, &[255; 32])?;
    print(
        &rt,
        b"\x00\x01\x02\x03\x04\x05\x06\x07\x08\t\n\x0B\x0C\r\x0E\x0F\x10\x11\x12\x13\x14\x15\x16\x17\x18\x19\x1A\x1B\x1C\x1D\x1E\x1F",
    )?;
    print(
        &rt,
        b"\x1F\x1E\x1D\x1C\x1B\x1A\x19\x18\x17\x16\x15\x14\x13\x12\x11\x10\x0F\x0E\r\x0C\x0B\n\t\x08\x07\x06\x05\x04\x03\x02\x01\x00",
    )?;
    let mut command = [0u8; 48];
    command[0] = 0x01;
    command[1] = 0xC0;
    command[16] = 0x14;
    command[22] = 0x04;
    command[27] = 0x14;
    command[31] = 0x18;
    command[32] = 0x28;
    command[40] = 0x02;
    print(&rt, &command)?;
    judge(&rt, b"123456789\x83\x92\x06\xE3")?;
    judge(&rt, b"123456788\x83\x92\x06\xE3")?;
    judge(&rt, b"123456789\x83\x92\x06\xE2")?;
    judge(&rt, &zeros[..4])?;
    judge(&rt, &zeros[..3])
}
