// Asks the job call, and looks at both buffers afterwards.
use job::job;
use refusal::{Fault, Refusal};
use std::process::Abort;
use std::test::Fail;

// The kinds of a record.
pub const F: u8 = 0x46;

pub const V: u8 = 0x56;

pub const P: u8 = 0x50;

pub const A: u8 = 0x61;

pub const B: u8 = 0x62;

pub const C: u8 = 0x63;

pub const D: u8 = 0x64;

pub const Q: u8 = 0x51;

pub const Z: u8 = 0x5A;

pub const Y: u8 = 0x59;

// What stands in a buffer before a call.
pub const BEFORE: u8 = 0xAA;

// Each byte is as said; the input is that of the job, for the message.
pub(crate) fn check_filled(
    rt: &impl Abort,
    bytes: &[u8],
    byte: u8,
    input: &[u8],
) -> Result<(), Fail> {
    for b in bytes {
        assert_eq!(rt; *b, byte, "of {input:?}");
    }
    Ok(())
}

// The job's report is the text, past it the report buffer is untouched, and the table buffer is clear.
pub(crate) fn check_report(rt: &impl Abort, input: &[u8], text: &[u8]) -> Result<(), Fail> {
    let mut table = [BEFORE; 100];
    let mut report = [BEFORE; 64];
    match job(input, &mut table, &mut report) {
        Ok(length) => assert_eq!(rt; length, text.len()),
        Err(fault) => return Err(Fail::new(fault.refusal())),
    }
    check_filled(rt, &table, 0, input)?;
    match report.strip_prefix(text) {
        Some(rest) => check_filled(rt, rest, BEFORE, input),
        None => Err(Fail::new("another report")),
    }
}

// The job is refused, the report buffer is untouched, and the table buffer is clear.
pub(crate) fn check_refused(rt: &impl Abort, input: &[u8], want: Refusal) -> Result<(), Fail> {
    let mut table = [BEFORE; 100];
    let mut report = [BEFORE; 64];
    match job(input, &mut table, &mut report) {
        Ok(_) => return Err(Fail::new(format_args!("a report and not: {want}, of {input:?}"))),
        Err(fault) => assert_eq!(rt; fault.refusal(), want, "of {input:?}"),
    }
    check_filled(rt, &table, 0, input)?;
    check_filled(rt, &report, BEFORE, input)
}
