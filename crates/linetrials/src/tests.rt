//! Trials of `check_line` on whole files.
use crate::files::*;
use linereport::{ReportRefusal, check_line};
use linewriter::PAGE_SIZE;
use std::alloc::{AllocError, Global};
use std::process::Abort;
use std::test::Fail;

// The report on a file.
fn report_on(heap: Global, file: &[u8]) -> Result<Vec<u8>, Fail> {
    let mut out = vec![in heap; 0; PAGE_SIZE]?;
    let len = check_line(file, out.as_mut_slice())?;
    out.truncate(len);
    Ok(out)
}

// The report on a file is this text.
fn tells(rt: &(impl Abort + AllocGlobal), file: &[u8], report: &str) -> Result<(), Fail> {
    let told = report_on(rt.alloc(), file)?;
    assert_eq!(rt; told.as_slice(), report.as_bytes());
    Ok(())
}

// The report on a file ends with this text.
fn sums_up(rt: &(impl Abort + AllocGlobal), file: &[u8], last: &str) -> Result<(), Fail> {
    let told = report_on(rt.alloc(), file)?;
    assert!(rt; told.as_slice().ends_with(last.as_bytes()));
    Ok(())
}

// The report on the example with one byte, at a place, put in place of another is the text beside it.
fn tells_each(rt: &(impl Abort + AllocGlobal), table: &[(usize, u8, &str)]) -> Result<(), Fail> {
    for (place, byte, report) in table {
        let mut file = EXAMPLE;
        assert!(rt; *place < file.len());
        file[*place] = *byte;
        tells(rt, &file, report)?;
    }
    Ok(())
}

#[test]
fn the_example(rt: HostRuntime) -> Result<(), Fail> {
    tells(&rt, &EXAMPLE, EXAMPLE_REPORT)
}

#[test]
fn every_kind(rt: HostRuntime) -> Result<(), Fail> {
    for file in KINDS {
        tells(&rt, file, KIND_REPORT)?;
    }
    Ok(())
}

// A file that ends too early is told at the field that it cuts.
#[test]
fn cut_at_every_byte(rt: HostRuntime) -> Result<(), Fail> {
    for len in 0..EXAMPLE.len() {
        let place = FIELDS
            .iter()
            .filter(|field| **field <= len)
            .max()
            .unwrap_or(&0);
        let line = format!(in rt.alloc(); "file refused 51 at {place}\n")?;
        tells(&rt, &EXAMPLE[0..len], line.as_str())?;
    }
    Ok(())
}

#[test]
fn faults_of_fields(rt: HostRuntime) -> Result<(), Fail> {
    tells_each(
        &rt,
        &[
            (0, 0, "file refused 52 at 0\n"),
            (0, 2, "file refused 52 at 0\n"),
            (1, 0, "file refused 53 at 1\n"),
            (1, 4, "file refused 53 at 1\n"),
            (1, 16, "file refused 53 at 1\n"),
            (1, 20, "file refused 53 at 1\n"),
            (1, 33, "file refused 53 at 1\n"),
            (23, 2, "file refused 53 at 23\n"),
            (23, 255, "file refused 53 at 23\n"),
            (24, 4, "file refused 52 at 24\n"),
            (25, 1, "file refused 54 at 36\n"),
            (42, 1, "file refused 52 at 42\n"),
            (43, 201, "file refused 52 at 42\n"),
            (43, 3, "file refused 54 at 86\n"),
            (43, 0, "file refused 54 at 44\n"),
            (43, 5, "file refused 51 at 100\n"),
            (90, 10, "file refused 51 at 91\n"),
            (90, 8, "file refused 54 at 99\n"),
        ],
    )
}

// The first fault in the file's order is told, whatever stands behind it; a fault of the file comes before one of the key.
#[test]
fn the_first_fault(rt: HostRuntime) -> Result<(), Fail> {
    let mut file = EXAMPLE;
    file[1] = 4;
    file[23] = 9;
    file[42] = 255;
    tells(&rt, &file, "file refused 53 at 1\n")?;
    file[1] = 1;
    tells(&rt, &file, "file refused 53 at 23\n")?;
    file[23] = 0;
    file[2] = 0;
    tells(&rt, &file, "file refused 52 at 42\n")?;
    file[42] = 0;
    tells(&rt, &file, "key refused 1\n")
}

#[test]
fn keys_that_are_refused(rt: HostRuntime) -> Result<(), Fail> {
    tells_each(
        &rt,
        &[
            (2, 2, "key refused 1\n"),
            (2, 64, "key refused 1\n"),
            (3, 128, "key refused 2\n"),
            (10, 2, "key refused 3\n"),
            (18, 1, "key refused 4\n"),
            (1, 2, "key refused 4\n"),
            (10, 1, "key refused 6\n"),
            (2, 44, "key refused 41\n"),
        ],
    )?;
    let mut wide = PARITY_MAC_C;
    wide[2] = 63;
    tells(&rt, &wide, "key refused 7\n")
}

// With the allowance 0 nothing is mended.
#[test]
fn nothing_allowed(rt: HostRuntime) -> Result<(), Fail> {
    let report =
        "slot 1 opened 1\nslot 2 refused 26\nslot 2 refused 26\nslot 3 refused 25\nopened 1 mended 0 refused 3\n";
    tells_each(&rt, &[(23, 0, report)])
}

// The door's number is bound to a frame.
#[test]
fn another_door(rt: HostRuntime) -> Result<(), Fail> {
    let report =
        "slot 1 refused 28\nslot 2 refused 27\nslot 2 refused 27\nslot 3 refused 25\nopened 0 mended 0 refused 4\n";
    tells_each(&rt, &[(22, 1, report)])
}

#[test]
fn frames_of_no_bytes_and_of_255(rt: HostRuntime) -> Result<(), Fail> {
    let mut file = EXAMPLE[0..42].to_vec(rt.alloc())?;
    file.extend_from_slice(&[0, 2, 0, 0, 0, 1, 0, 255, 255, 255, 255, 255])?;
    file.extend_from_slice(&[0; 255])?;
    tells(
        &rt,
        file.as_slice(),
        "slot 1 refused 22\nslot 4294967295 refused 22\nopened 0 mended 0 refused 2\n",
    )
}

// A file with the example's key, so many words of zeros, and so many frames of no bytes, for slot 1 each.
fn of_size(heap: Global, words: u16, frames: u16) -> Result<Vec<u8>, AllocError> {
    let mut file = EXAMPLE[0..24].to_vec(heap)?;
    file.extend_from_slice(&words.to_be_bytes())?;
    file.extend_from_slice([0; 8].repeat(heap, usize::from(words))?.as_slice())?;
    file.extend_from_slice(&frames.to_be_bytes())?;
    file.extend_from_slice(
        [0, 0, 0, 1, 0]
            .repeat(heap, usize::from(frames))?
            .as_slice(),
    )?;
    Ok(file)
}

#[test]
fn limits(rt: HostRuntime) -> Result<(), Fail> {
    tells(&rt, &[], "file refused 51 at 0\n")?;
    for (words, frames, report) in [
        (0, 0, "opened 0 mended 0 refused 0\n"),
        (1024, 0, "opened 0 mended 0 refused 0\n"),
        (1025, 0, "file refused 52 at 24\n"),
        (0, 201, "file refused 52 at 26\n"),
        (1024, 201, "file refused 52 at 8218\n"),
    ] {
        let file = of_size(rt.alloc(), words, frames)?;
        tells(&rt, file.as_slice(), report)?;
    }
    for words in [0, 1024] {
        let file = of_size(rt.alloc(), words, 200)?;
        sums_up(
            &rt,
            file.as_slice(),
            "slot 1 refused 22\nopened 0 mended 0 refused 200\n",
        )?;
    }
    Ok(())
}

// A buffer that just holds the report takes it.
#[test]
fn just_enough_room(rt: HostRuntime) {
    let mut out = [0xa5u8; 101];
    assert_eq!(rt; check_line(&EXAMPLE, &mut out), Ok(101));
    assert_eq!(rt; &out[0..101], EXAMPLE_REPORT.as_bytes());
}

// Bytes behind the report stay.
#[test]
fn more_room(rt: HostRuntime) {
    let mut out = [0xa5u8; 103];
    assert_eq!(rt; check_line(&EXAMPLE, &mut out), Ok(101));
    assert_eq!(rt; &out[0..101], EXAMPLE_REPORT.as_bytes());
    assert_eq!(rt; &out[101..103], [0xa5, 0xa5].as_slice());
}

// One byte too few is refused, and leaves the buffer as it was.
#[test]
fn one_byte_too_few(rt: HostRuntime) {
    let mut out = [0xa5u8; 100];
    assert_eq!(rt; check_line(&EXAMPLE, &mut out), Err(ReportRefusal::NoRoom));
    assert_eq!(rt; &out[0..100], [0xa5u8; 100].as_slice());
    assert_eq!(rt; ReportRefusal::NoRoom.number(), 55);
}
