//! The bytes of files that runs begin with, or leave. They are the example of docs/formats/FILES.md.
use grid_base::NoMemory;
use std::alloc::Global;

/// A file in short.
#[derive(Clone, Copy, Debug)]
pub(crate) enum Short {
    // Its bytes.
    Bytes(&'static [u8]),
    // The version of its format, its generation, and its bytes from the first record's gate on, where it has no page.
    Records(u16, u64, &'static [u8]),
    // The same with one page, the third being what stands where in this page and in the head.
    Paged(u16, u64, &'static [(usize, &'static [u8])], &'static [u8]),
}

// The first gate, and the head of a first generation but for its zeros.
static FRONT: [u8; 18] = [
    0xa5, 0x52, 0x4f, 0x53, 0x45, 0x52, 0x45, 0x4c, 0x00, 0x02, 0x00, 0x00, 0x00, 0x00, 0x00, 0x00,
    0x00, 0x01,
];

// An open gate, and behind it change 0, `point 3 0`, with no step.
static POINT: [u8; 38] = [
    0xa5, 0x00, 0x00, 0x00, 0x00, 0x00, 0x00, 0x00, 0x1d, 0x00, 0x00, 0x00, 0x00, 0x00, 0x00, 0x00,
    0x00, 0x00, 0x00, 0x00, 0x09, 0x70, 0x6f, 0x69, 0x6e, 0x74, 0x20, 0x33, 0x20, 0x30, 0x00, 0x00,
    0x00, 0x00, 0x00, 0x00, 0x00, 0x00,
];

/// A file of this generation, with records of these numbers, each behind an open gate, and these bytes behind them.
pub(crate) fn file_of(
    alloc: Global,
    generation: u8,
    numbers: &[u8],
    behind: &[u8],
) -> Result<Vec<u8>, NoMemory> {
    let mut file = Vec::from_slice(alloc, &FRONT)?;
    file[17] = generation;
    file.resize(4_096, 0)?;
    for number in numbers {
        let mut record = POINT;
        record[16] = *number;
        file.extend_from_slice(&record)?;
    }
    file.extend_from_slice(behind)?;
    Ok(file)
}

/// The file that is so in short.
pub(crate) fn file_in_full(alloc: Global, short: Short) -> Result<Vec<u8>, NoMemory> {
    match short {
        Short::Bytes(bytes) => Ok(Vec::from_slice(alloc, bytes)?),
        Short::Records(version, generation, behind) => {
            let file = file_of(alloc, 1, b"", b"")?;
            numbered(file, version, generation, behind)
        }
        Short::Paged(version, generation, page, behind) => {
            let mut file = file_of(alloc, 1, b"", b"")?;
            file.resize(8_192, 0)?;
            change(&mut file, 8_192, page);
            numbered(file, version, generation, behind)
        }
    }
}

// The file with this version and generation in its head, and with these bytes behind it.
fn numbered(
    file: Vec<u8>,
    version: u16,
    generation: u64,
    behind: &[u8],
) -> Result<Vec<u8>, NoMemory> {
    let mut file = file;
    let version = version.to_be_bytes();
    let generation = generation.to_be_bytes();
    change(&mut file, 8_192, &[(8, &version), (10, &generation)]);
    file.extend_from_slice(behind)?;
    Ok(file)
}

/// Cuts a file off, and puts bytes at these places of it.
pub(crate) fn change(file: &mut Vec<u8>, cut: usize, puts: &[(usize, &[u8])]) {
    file.truncate(cut);
    for (at, bytes) in puts {
        for (place, byte) in file.iter_mut().skip(*at).zip(bytes.iter()) {
            *place = *byte;
        }
    }
}
