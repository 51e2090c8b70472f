//! Reads each line of the input as an instant, and writes the number and the printed instant, or `none`.
use std::io;
use std::io::{BufRead, BufReader, BufWriter, Write};
use time_text::{print_instant, printed_str, read_instant};

pub fn run(rt: &(impl Input + Print + AllocGlobal)) -> io::Result<()> {
    let mut out = BufWriter::new(rt.alloc(), io::writer(rt))?;
    for line in BufReader::new(rt.alloc(), rt.reader())?.lines(rt.alloc()) {
        match read_instant(line?.as_str()) {
            Ok(instant) => {
                let printed = print_instant(instant);
                writeln!(out, "{instant} {}", printed_str(&printed))?;
            }
            Err(_) => writeln!(out, "none")?,
        }
    }
    out.flush()
}
