//! Reads the pages of a file in large pieces. The payload grows by the pages that were found good, so a number
//! that a file claims takes no memory before the file is known to be that long.
ghost use Rattle.std.specs.Prelude.{◌≡◌, ◌≢◌, ◌+◌, ◌*◌, ◌<◌, ◌≤◌, ◌^◌, ℕ, List, false, length, take, drop, min};
ghost use Rattle.std.specs.Prelude.{Err, IfOk, OnOk, IsErrOf, MatchResult};
ghost use Rattle.outside_world.specs.Counts.{Rose};
ghost use Rattle.outside_world.specs.GoesOn.{GoesOn};
ghost use Rattle.page_codec.specs.Pages.{page_of};
ghost use Rattle.record_codec.specs.Heads.{IsHeader};
ghost use Rattle.realm_pages.specs.Generations.{page_count};
ghost use Rattle.realm_pages.specs.Files.{page_at, HoldsFirst};
ghost use Rattle.realm_pages.specs.Damages.{part_size, IsPageFault, HasPageFault};
ghost use Rattle.realm_pages.specs.ReadingPages.{IsPieceOf, PieceRead, PagesRead};
ghost use Rattle.realm_pages.specs.declared.damage.Damage.{Damage};

use crate::damage::Damage;
use crate::error::PagesError;
use outside_world::{FileName, Outside};
use page_codec::{PageError, check_page};
use record_codec::Header;
use std::alloc::Global;

// How many bytes a page has.
const PAGE_SIZE: usize = 4_096;

// How many bytes of the payload it holds.
const PAGE_ROOM: u64 = 4_054;

// How many pages are read at once: 1 MiB.
const PIECE: u64 = 256;

/// The payload of a file with this head.
pub(crate) fn read_pages<W: Outside>(
    alloc: Global,
    world: &mut W,
    file: FileName,
    head: &Header,
) -> Result<Vec<u8>, PagesError>
    requires head { IsHeader head.now }
    requires intact { W.failed world.old ≡ false }
    ensures told { W.tells world.new
        → PagesRead (W.view world.old) (W.view world.new) file head.now result }
    ensures disk_fault { IsErrOf result PagesError.Disk
        → Rose (W.disk_faults world.old) (W.disk_faults world.new) }
    ensures intact { ¬ (IsErrOf result PagesError.Disk) → W.failed world.new ≡ false }
    ensures goes_on { GoesOn ⟦<W as Outside>⟧ world.old world.new }
{
    let mut payload = Vec::new(alloc);
    let mut pages = 0;
    while pages < head.pages {
        let count = PIECE.min(head.pages - pages);
        let piece = read_piece(alloc, world, file, pages, count)?;
        take_pages(file, head.length, pages, count, &piece, &mut payload)?;
        pages += count;
    }
    Ok(payload)
}

// The bytes of so many pages of a file behind others, or fewer where the file ends before.
fn read_piece<W: Outside>(
    alloc: Global,
    world: &mut W,
    file: FileName,
    before: u64,
    count: u64,
) -> Result<Vec<u8>, PagesError>
    requires place { 4096 * (before + 1) < 2 ^ 64 }
    requires few { count ≤ 256 }
    requires intact { W.failed world.old ≡ false }
    ensures told { W.tells world.new
        → PieceRead (W.view world.old) (W.view world.new) file before count result }
    ensures disk_fault { IsErrOf result PagesError.Disk
        → Rose (W.disk_faults world.old) (W.disk_faults world.new) }
    ensures intact { ¬ (IsErrOf result PagesError.Disk) → W.failed world.new ≡ false }
    ensures no_damage { (damage : Damage) → result ≢ Err (PagesError.Damaged damage) }
    ensures goes_on { GoesOn ⟦<W as Outside>⟧ world.old world.new }
{
    let mut piece = Vec::new(alloc);
    piece.resize(PAGE_SIZE * count as usize, 0)?;
    let read = world.read_at(file, 4096 * (before + 1), &mut piece)?;
    piece.truncate(read);
    Ok(piece)
}

// Adds to the payload what so many pages behind others hold.
fn take_pages(
    file: FileName,
    size: u64,
    before: u64,
    count: u64,
    piece: &[u8],
    payload: &mut Vec<u8>,
) -> Result<(), PagesError>
    requires count { before + count ≤ page_count size }
    requires few { count ≤ 256 }
    requires so_far { length payload.old.items ≡ min (4054 * before) size }
    ensures so_far { OnOk result (length payload.new.items ≡ min (4054 * (before + count)) size) }
    ensures taken { OnOk result ((whole : List ℕ) → IsPieceOf whole before count piece.now
        → HoldsFirst whole size before payload.old.items
        → HoldsFirst whole size (before + count) payload.new.items) }
    ensures fault { (damage : Damage) → result ≡ Err (PagesError.Damaged damage)
        → (whole : List ℕ) → IsPieceOf whole before count piece.now
        → HoldsFirst whole size before payload.old.items
        → HasPageFault file whole size (before + count) damage }
    ensures no_disk { result ≢ Err PagesError.Disk }
{
    for page in 0..count {
        take_page(
            file,
            size,
            before + page,
            page_in(piece, page as usize),
            payload,
        )?;
    }
    Ok(())
}

// The bytes of one page of a piece, or fewer where the piece ends before.
fn page_in(piece: &[u8], page: usize) -> &[u8]
    requires { 4096 * (page + 1) < 2 ^ 63 }
    ensures page { result.now ≡ take 4096 (drop (4096 * page) piece.now) }
    ensures short { length result.now ≤ 4096 }
{
    let rest = &piece[(PAGE_SIZE * page).min(piece.len())..];
    &rest[..PAGE_SIZE.min(rest.len())]
}

// Adds to the payload what the page behind so many holds.
fn take_page(
    file: FileName,
    size: u64,
    before: u64,
    page: &[u8],
    payload: &mut Vec<u8>,
) -> Result<(), PagesError>
    requires more { before < page_count size }
    requires short { length page.now ≤ 4096 }
    requires so_far { length payload.old.items ≡ min (4054 * before) size }
    ensures so_far { OnOk result (length payload.new.items ≡ min (4054 * (before + 1)) size) }
    ensures taken { OnOk result ((whole : List ℕ) → page.now ≡ page_at (before + 1) whole
        → HoldsFirst whole size before payload.old.items
        → HoldsFirst whole size (before + 1) payload.new.items) }
    ensures fault { (damage : Damage) → result ≡ Err (PagesError.Damaged damage)
        → IsPageFault file size before page.now damage }
    ensures no_disk { result ≢ Err PagesError.Disk }
{
    let part = part_in(file, size, before, page)?;
    payload.extend_from_slice(part)?;
    Ok(())
}

// What the page behind so many holds of a payload of this size.
fn part_in(file: FileName, size: u64, before: u64, page: &[u8]) -> Result<&[u8], Damage>
    requires more { before < page_count size }
    requires short { length page.now ≤ 4096 }
    ensures { MatchResult result
        (λ part. (length part.now ≡ part_size size before) × (page.now ≡ page_of (before + 1) part.now))
        (IsPageFault file size before page.now) }
{
    let number = before + 1;
    let Some(whole) = page.as_array::<PAGE_SIZE>() else {
        return Err(Damage::BadPage { file, page: number });
    };
    match check_page(number, whole) {
        Err(PageError::Digest { kept, found }) => Err(Damage::Digest {
            file,
            page: number,
            kept,
            found,
        }),
        Err(PageError::BadPage) => Err(Damage::BadPage { file, page: number }),
        Ok(used) => {
            if used as u64 != PAGE_ROOM.min(size - PAGE_ROOM * before) {
                return Err(Damage::BadPage { file, page: number });
            }
            Ok(&page[10..10 + used])
        }
    }
}
