use super::Lists;
use minidump::{CodeFamily, CodeNames, CodeNamesError};

const TWICE: Lists = &[
    (CodeFamily::Mac, &[(1, "a"), (2, "b")]),
    (CodeFamily::Mac, &[(2, "a"), (1, "b")]),
    (CodeFamily::Linux, &[(2, "a"), (1, "b")]),
];

const EQUAL: Lists = &[
    (CodeFamily::Linux, &[]),
    (CodeFamily::Mac, &[(1, "a"), (1, "b")]),
    (CodeFamily::Linux, &[]),
];

const DESCENDING: Lists = &[(CodeFamily::NtStatus, &[(0xc000_0005, "a"), (5, "b")])];

const ASCENDING: Lists = &[
    (CodeFamily::NtStatus, &[(0, "a"), (0xffff_ffff, "b")]),
    (CodeFamily::WinError, &[(0, "a")]),
];

#[rattlefmt::skip]
const ERRORS: &[(Lists, Option<CodeNamesError>)] = &[
    (TWICE, Some(CodeNamesError::Repeated(CodeFamily::Mac))),
    (EQUAL, Some(CodeNamesError::NotAscending(CodeFamily::Mac))),
    (DESCENDING, Some(CodeNamesError::NotAscending(CodeFamily::NtStatus))),
    (ASCENDING, None),
];

fn has_error(row: &(Lists, Option<CodeNamesError>)) -> bool {
    CodeNames::new(row.0).err() == row.1
}

#[test]
fn the_error_is_that_of_the_first_malformed_list(rt: HostRuntime) {
    assert!(rt; ERRORS.iter().all(has_error));
}
