ghost use Rattle.std.specs.Prelude.{◌≡◌, ◌+◌, ◌<◌, length};
ghost use Rattle.ttm_base.specs.Cutting as words;

use ttm_base::Op;
use ttm_base::limits::PAGE_BYTES;

/// The size of a page in bytes.
pub const PAGE: u64 = PAGE_BYTES as u64;

/// Returns the number of bytes from byte `at` of an operation up to the next page border.
fn to_border(off: u32, at: u32) -> u32
    ensures value { result ≡ words.to_border (off + at) }
    ensures some { 0 < result }
{
    (PAGE - (off as u64 + at as u64) % PAGE) as u32
}

/// Returns how many bytes of an operation one packet can take from byte `at` on.
pub fn until_border(op: &Op, at: u32) -> u32
    ensures value { result ≡ words.until_border op.now at }
    ensures some { 0 < result }
{
    match op {
        Op::Fill { off, .. } | Op::Probe { off, .. } => to_border(*off, at),
        Op::Copy { doff, soff, .. } | Op::Xor { doff, soff, .. } => {
            to_border(*doff, at).min(to_border(*soff, at))
        }
    }
}

/// Returns the length of an operation in bytes.
pub fn op_len(op: &Op) -> u32
    ensures { result ≡ words.op_len op.now }
{
    match op {
        Op::Fill { len, .. } | Op::Copy { len, .. } => *len,
        Op::Xor { len, .. } | Op::Probe { len, .. } => *len,
    }
}

/// Returns the number of packets into which an operation is cut.
pub fn packet_count(op: &Op) -> u32
    ensures { result ≡ length (words.pieces_of op.now) }
{
    let len = op_len(op);
    let mut at = 0;
    let mut count = 0;
    while at < len {
        at += until_border(op, at).min(len - at);
        count += 1;
    }
    count
}
