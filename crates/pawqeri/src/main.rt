// Reads a job on standard input, and prints its report or one line that refuses it.
#![tactic(auto)]

use reader::fault::LONGEST_JOB;
use refusal::Fault;
use std::io::{Read, Write};
use std::process::ExitCode;

// One byte more than the longest job: enough to tell that a job is too long.
const READ_AT_MOST: u64 = LONGEST_JOB as u64 + 1;

// The size of the table buffer and of the report buffer.
const BUFFER: usize = 65536;

fn main(rt: HostRuntime) -> anyhow::Result<ExitCode> {
    let heap = rt.alloc();
    let mut input = Vec::new(heap);
    rt.stdin().take(READ_AT_MOST).read_to_end(&mut input)?;
    let mut table = vec![in heap; 0u8; BUFFER]?;
    let mut report = vec![in heap; 0u8; BUFFER]?;
    match job::job(
        input.as_slice(),
        table.as_mut_slice(),
        report.as_mut_slice(),
    ) {
        Ok(length) => {
            report.truncate(length);
            rt.stdout().write_all(report.as_slice())?;
            Ok(ExitCode::SUCCESS)
        }
        Err(fault) => {
            println!(rt; "{}", fault.refusal())?;
            Ok(ExitCode::FAILURE)
        }
    }
}
