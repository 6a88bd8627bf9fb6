// Reads a ward file from standard input, and damaged copies of it, and prints what the reader and the writer say.
#![tactic(auto)]

ghost use Rattle.ward.specs.Answers.{read_ward, reading_of};
ghost use Rattle.ward_run.specs.Standing.{Standing};

use refusals::Refusal;
use std::io::{Read, Write};
use std::{fmt, io};
use ward::Ward;

// A longer file is read up to here.
const INPUT_MOST: u64 = 4096;

// How often each question refused, yes as 0, and the sum of the places.
#[derive(Clone, Copy, Default)]
pub struct Tally {
    pub counts: [u64; 8],
    pub places: u64,
}

impl Tally {
    // Counts an answer: what refused, or none.
    fn add(&mut self, refused: Option<Refusal>) {
        let (question, place) = match refused {
            Some(refusal) => (refusal.question(), refusal.place()),
            None => (0, 0),
        };
        let q = (question % 8) as usize;
        self.counts[q] = self.counts[q].wrapping_add(1);
        self.places = self.places.wrapping_add(place as u64);
    }

    fn read(&mut self, file: &[u8]) {
        self.add(ward::read(file).err());
    }
}

impl fmt::Display for Tally {
    fn fmt<W: fmt::Write>(&self, f: &mut fmt::Formatter<W>) -> fmt::Result {
        for count in &self.counts {
            write!(f, " {count}")?;
        }
        write!(f, " places {}", self.places)
    }
}

// The file as it is.
fn whole(file: &[u8]) -> Tally {
    let mut tally = Tally::default();
    tally.read(file);
    tally
}

// The file cut after each of its bytes. By place: all before it is read, where an iterator gives one byte.
fn cuts(file: &[u8]) -> Tally {
    let mut tally = Tally::default();
    for end in 0..file.len() {
        tally.read(&file[..end]);
    }
    tally
}

// Each byte of the file replaced by the given one. The whole file is read with each, so no iterator holds the byte.
fn replaced(file: &mut [u8], byte: u8) -> Tally {
    let mut tally = Tally::default();
    for i in 0..file.len() {
        let old = file[i];
        file[i] = byte;
        tally.read(file);
        file[i] = old;
    }
    tally
}

// The ward of a file, or one of no numbers where it is refused.
fn ward_of(file: &[u8]) -> Ward
    ensures { Standing (reading_of (read_ward file.now)) result }
{
    ward::read(file).unwrap_or_default()
}

// What refuses the ward in the first k places of the buffer.
fn write_part(file: &[u8], buf: &mut [u8], k: usize) -> Option<Refusal> {
    if k > buf.len() {
        return None;
    }
    ward::write(ward_of(file), &mut buf[..k]).err()
}

// The same with marked bytes in the buffer: the answer, and how many are still marked.
fn written(file: &[u8], k: usize) -> Tally {
    let mut buf = [170u8; 4200];
    let mut tally = Tally::default();
    tally.add(write_part(file, &mut buf, k));
    tally.places = buf.iter().filter(|byte| **byte == 170).count() as u64;
    tally
}

// How many bytes of the ward, written out, equal the file's.
fn same(ward: Ward, file: &[u8]) -> usize {
    let mut buf = [0u8; 4200];
    // A refusal leaves the buffer as it is, and its zeros are compared.
    let _ = ward::write(ward, &mut buf);
    buf.iter().zip(file.iter()).filter(|(a, b)| a == b).count()
}

fn show_count<W: Write>(out: &mut W, file: &[u8]) -> io::Result<()> {
    let ward = ward_of(file);
    writeln!(
        out,
        "numbers {} same bytes {}",
        ward.count,
        same(ward, file)
    )
}

const DAMAGE: [u8; 5] = [0, 3, 127, 128, 255];

// Each byte of the file replaced by each of a few.
fn show_damaged<W: Write>(out: &mut W, file: &mut [u8]) -> io::Result<()> {
    for byte in &DAMAGE {
        writeln!(out, "{byte} for each byte{}", replaced(file, *byte))?;
    }
    Ok(())
}

// The file whole, cut, and written out again.
fn show_whole<W: Write>(out: &mut W, file: &[u8]) -> io::Result<()> {
    show_count(out, file)?;
    writeln!(out, "whole{}", whole(file))?;
    writeln!(out, "cut{}", cuts(file))?;
    let n = file.len();
    writeln!(out, "room{}", written(file, n))?;
    if n > 0 {
        writeln!(out, "no room{}", written(file, n - 1))?;
    }
    Ok(())
}

fn show_all<W: Write>(out: &mut W, input: &mut Vec<u8>) -> io::Result<()> {
    let n = input.len();
    if (n as u64) < INPUT_MOST {
        // A byte after the last number.
        input.push(0)?;
        writeln!(out, "one more byte{}", whole(input))?;
        input.truncate(n);
    }
    show_whole(out, input)?;
    show_damaged(out, input)
}

fn main(rt: HostRuntime) -> io::Result<()> {
    let mut input = Vec::new(rt.alloc());
    rt.reader().take(INPUT_MOST).read_to_end(&mut input)?;
    show_all(&mut io::writer(&rt), &mut input)
}
