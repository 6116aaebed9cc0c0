// Where a job stands once it is read, and records judged by numbers.
use crate::asking::*;
use reader::numbers::Progress;
use reader::read::read;
use reader::record::{Flaw, Group, Record, Term};
use refusal::Fault;
use std::test::Fail;

#[test]
fn a_sheet_keeps_the_group_and_the_key_of_the_last_record(rt: HostRuntime) -> Result<(), Fail> {
    match read(&[F, 3, Q, 1, 0, Z, 1, 2, 1]) {
        Ok(sheet) => {
            assert!(rt; sheet.progress.group == Group::First);
            assert_eq!(rt; sheet.progress.key, 258);
            Ok(())
        }
        Err(fault) => Err(Fail::new(fault.refusal())),
    }
}

// The order of the field, a coefficient, and whether it is in range.
static COEFFICIENTS: [(u16, u8, bool); 8] = [
    (0, 1, false),
    (1, 1, false),
    (11, 0, false),
    (11, 10, true),
    (11, 11, false),
    (256, 255, true),
    (300, 255, true),
    (300, 0, false),
];

#[test]
fn a_coefficient_is_judged_over_any_order(rt: HostRuntime) -> Result<(), Fail> {
    for (order, coefficient, good) in &COEFFICIENTS {
        let progress = Progress {
            group: Group::Question,
            key: 0,
            order: *order,
            asked: (9, 9),
        };
        let record = Record::First(Term {
            cell: 7,
            coefficient: *coefficient,
        });
        match progress.judge(&record) {
            Ok(next) => {
                assert!(rt; *good, "{coefficient} over {order}");
                assert!(rt; next.group == Group::First);
                assert_eq!(rt; (next.key, next.order, next.asked), (7, *order, (9, 9)));
            }
            Err(flaw) => {
                assert!(rt; !*good, "{coefficient} over {order}");
                assert_eq!(rt; flaw, Flaw::OutOfRange);
            }
        }
    }
    Ok(())
}
