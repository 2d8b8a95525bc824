// A frame carries a body of bytes over a line: a mark, the body's count, the body, and the checksum of all that (contract 14).
#![tactic(auto)]

ghost use Rattle.std.specs.Prelude.{◌≡◌, ◌++◌, ◌+◌, ◌≤◌, length, take, drop};
ghost use Rattle.chart.specs.Fields.{numbers_of};
ghost use Rattle.checksum.specs.Stored.{stored};
ghost use Rattle.frames.specs.Frame.{most_body, header_bytes, head_of, is_frame, framed_fields, frame_after};
ghost use Rattle.frames.specs.Frame.{unframed_fields, body_after};

use chart::reply::{NUMBERS, placed, put};
use chart::{Fields, Refusal};

// The longest body.
pub const BODY: usize = 1024;

// A frame begins with a mark of two bytes.
const FIRST: u8 = 0x52;

const SECOND: u8 = 0x51;

// The bytes before the body: the mark, and the count, low byte first.
const HEADER: usize = 4;

// The bytes of a frame besides its body.
pub const FRAME: usize = HEADER + 4;

// Writes what stands before the checksum: the mark, the count and the body.
fn begin(body: &[u8], frame: &mut [u8])
    requires { (length body.now ≤ most_body) × (header_bytes + length body.now ≤ length frame.old) }
    ensures { frame.new ≡ (head_of (length body.now) ++ body.now) ++ drop (header_bytes + length body.now) frame.old }
{
    let [low, high] = (body.len() as u16).to_le_bytes();
    let end = HEADER + body.len();
    frame[..HEADER].copy_from_slice(&[FIRST, SECOND, low, high]);
    frame[HEADER..end].copy_from_slice(body);
}

// Writes the checksum of the first bytes behind them.
fn seal(end: usize, frame: &mut [u8])
    requires { (end ≤ header_bytes + most_body) × (end + 4 ≤ length frame.old) }
    ensures { frame.new ≡ stored (take end frame.old) ++ drop (end + 4) frame.old }
{
    let sum = checksum::of(&frame[..end]);
    frame[end..end + 4].copy_from_slice(&sum.to_le_bytes());
}

// Writes the frame of a body to the front of the buffer: 28, 18, or the count of its bytes.
fn framed(body: &[u8], frame: &mut [u8]) -> Fields
    ensures reply { result ≡ framed_fields body.now (length frame.old) }
    ensures frame { frame.new ≡ frame_after body.now frame.old }
{
    let n = body.len();
    if BODY < n {
        return Fields::from(Refusal::Frame);
    }
    if frame.len() < n + FRAME {
        return Fields::from(Refusal::LetterBuffer);
    }
    begin(body, frame);
    seal(n + HEADER, frame);
    placed(0, (n + FRAME) as u16)
}

// Whether the bytes are a frame.
#[tactic(auto, using(crate::proofs::Frames::not_second, crate::proofs::Frames::not_counted))]
fn is_frame(frame: &[u8]) -> bool
    ensures { result ≡ is_frame frame.now }
{
    let m = frame.len();
    if m < FRAME {
        return false;
    }
    if BODY + FRAME < m {
        return false;
    }
    if frame[0] != FIRST {
        return false;
    }
    if frame[1] != SECOND {
        return false;
    }
    let n = usize::from(u16::from_le_bytes([frame[2], frame[3]]));
    if n != m - FRAME {
        return false;
    }
    checksum::intact(frame)
}

// Writes the body of a frame to the front of the buffer: 28, 18, or the count of its bytes.
fn unframed(frame: &[u8], body: &mut [u8]) -> Fields
    ensures reply { result ≡ unframed_fields frame.now (length body.old) }
    ensures body { body.new ≡ body_after frame.now body.old }
{
    if !is_frame(frame) {
        return Fields::from(Refusal::Frame);
    }
    let n = frame.len() - FRAME;
    if body.len() < n {
        return Fields::from(Refusal::LetterBuffer);
    }
    let end = n + HEADER;
    body[..n].copy_from_slice(&frame[HEADER..end]);
    placed(0, n as u16)
}

// The call that writes a frame, with its reply.
pub fn frame(body: &[u8], frame: &mut [u8], reply: &mut [u16; NUMBERS])
    ensures reply { reply.new ≡ numbers_of (framed_fields body.now (length frame.old)) }
    ensures frame { frame.new ≡ frame_after body.now frame.old }
{
    let fields = framed(body, frame);
    put(fields, reply);
}

// The call that reads a frame, with its reply.
pub fn unframe(frame: &[u8], body: &mut [u8], reply: &mut [u16; NUMBERS])
    ensures reply { reply.new ≡ numbers_of (unframed_fields frame.now (length body.old)) }
    ensures body { body.new ≡ body_after frame.now body.old }
{
    let fields = unframed(frame, body);
    put(fields, reply);
}
