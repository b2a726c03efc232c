// Runs the recorded answers, and says in one line what came of them. Its buffers are arrays, as the library takes no heap; a record
// that is longer counts as broken.
#![tactic(auto)]

ghost use Rattle.std.specs.Prelude.{◌≤◌, length, IfSome};
ghost use Rattle.replay_record.specs.Parts.{Single};

use replay_record::Counts;
use std::fs::File;
use std::io;
use std::io::{Print, Read};

// What came of a file whose records are all whole.
struct Replayed {
    records: u32,
    counts: Counts,
}

// So many records are whole, and the one behind them is broken.
#[derive(Drop)]
struct Broken {
    records: u32,
}

// A number of four bytes. A read that fails is the file's end, here and below.
fn word(file: &mut File) -> Option<u32> {
    let mut four = [0u8; 4];
    file.read_exact(&mut four).ok()?;
    Some(u32::from_le_bytes(four))
}

// A record comes to the buffer's start; its length, where it has come whole. `usize` has no From of the 32 bits that a file has.
fn fetch(file: &mut File, buf: &mut [u8]) -> Option<usize>
    ensures { IfSome result (λ n. n ≤ length buf.new) }
{
    let n = word(file)? as usize;
    if buf.len() < n {
        return None;
    }
    file.read_exact(&mut buf[..n]).ok()?;
    Some(n)
}

fn replay_next(file: &mut File) -> Option<Counts>
    ensures { Single result }
{
    let mut buf = [0u8; 65536];
    let n = fetch(file, &mut buf)?;
    replay_record::run(&buf[..n])
}

// Has all been read?
fn at_end(file: &mut File) -> bool {
    let mut one = [0u8; 1];
    file.read_exact(&mut one).is_err()
}

fn replay(file: &mut File) -> Result<Replayed, Broken> {
    let records = word(file).ok_or(Broken { records: 0 })?;
    let mut counts = Counts {
        compared: 0,
        different: 0,
    };
    for i in 0..records {
        let one = replay_next(file).ok_or(Broken { records: i })?;
        counts.compared += one.compared;
        counts.different += one.different;
    }
    if !at_end(file) {
        return Err(Broken { records });
    }
    Ok(Replayed { records, counts })
}

// Each line is printed in one place, so it stands there and in no Display. Its first word comes before the file is read: where nothing can be
// printed, nothing is run.
fn main(rt: HostRuntime) -> io::Result<()> {
    let path = "answers.bin";
    let mut file = match File::open(&rt, path) {
        Ok(file) => file,
        Err(error) => return eprintln!(rt; "{path}: {error}"),
    };
    print!(rt; "replay: ")?;
    match replay(&mut file) {
        Ok(Replayed { records, counts }) => {
            let Counts {
                compared,
                different,
            } = counts;
            println!(rt; "{records} records, {compared} compared, {different} different")
        }
        Err(Broken { records }) => println!(rt; "{records} records, then a broken one"),
    }
}
