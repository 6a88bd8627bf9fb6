// The number codec: groups of seven bits, the lowest first, one group a byte.
#![tactic(auto)]

ghost use Rattle.std.specs.Prelude.{◌≡◌, ◌+◌, ◌^◌, ◌≤◌, ◌<◌, IfOk, length};
ghost use Rattle.codec.specs.Groups.{decode, decode_groups, encode};
ghost use Rattle.codec.specs.CodeBytes.{Below, pasted};

// A number that stands at the front of a list of bytes, and how many bytes it takes.
#[derive(Clone, Copy, Debug, PartialEq, Eq)]
pub struct Number {
    pub value: u64,
    pub used: usize,
}

// Why no number stands there.
#[derive(Clone, Copy, Debug, PartialEq, Eq)]
pub enum Fault {
    // The bytes end before the number does.
    Ended,
    // More than seven groups, or not the shortest form.
    Long,
}

// The number whose next group is the first of these bytes: `more` groups may follow it, and as the last it is at least `least`.
fn groups(file: &[u8], more: usize, least: u8) -> Result<Number, Fault>
    requires { more ≤ 6 }
    ensures is { result ≡ decode_groups more least file.now }
    ensures below { IfOk result (Below more) }
{
    let Some((&b, rest)) = file.split_first() else {
        return Err(Fault::Ended);
    };
    if b < 128 {
        if b < least {
            return Err(Fault::Long);
        }
        return Ok(Number {
            value: u64::from(b),
            used: 1,
        });
    }
    if more == 0 {
        return Err(Fault::Long);
    }
    let next = groups(rest, more - 1, 1)?;
    Ok(Number {
        value: (u64::from(b) - 128) + 128 * next.value,
        used: next.used + 1,
    })
}

// The number at the front of these bytes.
pub fn number_in(file: &[u8]) -> Result<Number, Fault>
    ensures is { result ≡ decode file.now }
    ensures below { IfOk result (Below 6) }
{
    groups(file, 6, 0)
}

// How many bytes v takes.
#[tactic(auto, using(crate::proofs::PutLaws::size_is))]
pub fn size(v: u64) -> usize
    requires { v < 2 ^ 49 }
    ensures is { result ≡ length (encode v) }
    ensures some { 1 ≤ result }
{
    v.max(1).ilog(128) as usize + 1
}

// Writes v from `at` on, and gives the place after it. A place and no slice: what is written is said of the whole buffer, with which the caller goes on.
pub fn put(buf: &mut [u8], at: usize, v: u64) -> usize
    requires { (v < 2 ^ 49) × (at + length (encode v) ≤ length buf.old) }
    ensures next { result ≡ at + length (encode v) }
    ensures leaves { buf.new ≡ pasted buf.old at (encode v) }
{
    let more = size(v) - 1;
    let mut w = v;
    for byte in &mut buf[at..at + more] {
        *byte = (128 + w % 128) as u8;
        w /= 128;
    }
    buf[at + more] = w as u8;
    at + more + 1
}
