// Counts of detectors, added up over the lines of a file or of a log, and the log without them.
use sig_types::text::cut_at;
use std::alloc::{AllocError, Global};

/// The fronts and the rears of each detector.
pub(crate) type Sums = [(u32, u32); 64];

fn number(digits: &[u8]) -> u32 {
    let mut n = 0u32;
    for digit in digits {
        n = n
            .wrapping_mul(10)
            .wrapping_add(u32::from(digit.wrapping_sub(b'0')));
    }
    n
}

// Adds the counts of a second, DETECTOR:FRONTS:REARS with blanks between.
fn add_counts(counts: &[u8], sums: &mut Sums) {
    for entry in counts.split(|b| *b == b' ') {
        if let Some((detector, rest)) = cut_at(b':', entry)
            && let Some((fronts, rears)) = cut_at(b':', rest)
        {
            let place = number(detector).wrapping_sub(1) as usize;
            if place < 64 {
                let (fronts_so_far, rears_so_far) = sums[place];
                sums[place] = (
                    fronts_so_far.wrapping_add(number(fronts)),
                    rears_so_far.wrapping_add(number(rears)),
                );
            }
        }
    }
}

/// The sums of a detector file.
pub(crate) fn file_sums(bytes: &[u8]) -> Sums {
    let mut sums = [(0, 0); 64];
    for line in bytes.split(|b| *b == b'\n') {
        add_counts(line, &mut sums);
    }
    sums
}

/// The sums of a log, and the number of its lines.
pub(crate) fn log_sums(bytes: &[u8]) -> (Sums, usize) {
    let mut sums = [(0, 0); 64];
    let mut lines = 0usize;
    for line in bytes.split(|b| *b == b'\n') {
        if !line.is_empty() {
            lines = lines.wrapping_add(1);
        }
        if let Some(counts) = line.split(|b| *b == b'|').nth(3) {
            add_counts(counts, &mut sums);
        }
    }
    (sums, lines)
}

/// The counts of the first record of a log.
pub(crate) fn first_sums(bytes: &[u8]) -> Sums {
    let mut sums = [(0, 0); 64];
    if let Some(line) = bytes.split(|b| *b == b'\n').nth(1)
        && let Some(counts) = line.split(|b| *b == b'|').nth(3)
    {
        add_counts(counts, &mut sums);
    }
    sums
}

/// A log without its third bars and the counts behind them.
pub(crate) fn without_counts(alloc: Global, log: &[u8]) -> Result<Vec<u8>, AllocError> {
    let mut kept = Vec::new(alloc);
    let mut bars = 0u32;
    for byte in log {
        match *byte {
            b'|' => bars = bars.wrapping_add(1),
            b'\n' => bars = 0,
            _ => {}
        }
        if bars != 3 {
            kept.push(*byte)?;
        }
    }
    Ok(kept)
}
