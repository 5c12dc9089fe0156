//! Which of two files is the newest, by their heads.
ghost use Rattle.std.specs.Prelude.{◌≡◌, ◌↔◌, ℕ, List, false, take, IsTrue, IfOk, IfSome};
ghost use Rattle.std.specs.Option.{ForSome};
ghost use Rattle.std.specs.Prelude.{IsErrOf, MatchResult};
ghost use Rattle.record_codec.specs.Heads.{IsHeader};
ghost use Rattle.outside_world.specs.Counts.{Rose};
ghost use Rattle.outside_world.specs.GoesOn.{GoesOn};
ghost use Rattle.outside_world.specs.declared.world.FileName.{FileName};
ghost use Rattle.outside_world.specs.declared.world.FileName.TheVariants.{A, B};
ghost use Rattle.realm_pages.specs.Files.{Counts};
ghost use Rattle.realm_pages.specs.Choosing.{IsHeadOf, LacksHeadOf, HeadRead, IsChoice, Chosen};
ghost use Rattle.realm_pages.specs.Damages.{AreTwins};

use crate::damage::Damage;
use crate::error::PagesError;
use outside_world::{FileName, Outside};
use realm_journal::OPEN;
use record_codec::{Header, decode_header};

/// The newest file and its head, by the heads of both files; none where neither counts.
pub(crate) fn choose<W: Outside>(world: &mut W) -> Result<Option<(FileName, Header)>, PagesError>
    requires intact { W.failed world.old ≡ false }
    ensures told { W.tells world.new → Chosen (W.view world.old) (W.view world.new) result }
    ensures is_header { IfOk result (λ o. IfSome o (λ c. IsHeader c.1)) }
    ensures disk_fault { IsErrOf result PagesError.Disk
        → Rose (W.disk_faults world.old) (W.disk_faults world.new) }
    ensures intact { ¬ (IsErrOf result PagesError.Disk) → W.failed world.new ≡ false }
    ensures goes_on { GoesOn ⟦<W as Outside>⟧ world.old world.new }
{
    let a = read_head(world, FileName::A)?;
    let b = read_head(world, FileName::B)?;
    Ok(newer(a, b)?)
}

// The newer of two files with these heads; none counts where there is no head.
fn newer(a: Option<Header>, b: Option<Header>) -> Result<Option<(FileName, Header)>, Damage>
    requires a_header { ForSome a IsHeader }
    requires b_header { ForSome b IsHeader }
    ensures choice { (files : FileName → List ℕ) → IsHeadOf (files A) a → IsHeadOf (files B) b
        → MatchResult result (IsChoice files) (AreTwins files) }
    ensures is_header { IfOk result (λ o. IfSome o (λ c. IsHeader c.1)) }
{
    match (a, b) {
        (None, None) => Ok(None),
        (Some(a), None) => Ok(Some((FileName::A, a))),
        (None, Some(b)) => Ok(Some((FileName::B, b))),
        (Some(a), Some(b)) => {
            if a.generation == b.generation {
                return Err(Damage::Twins {
                    generation: a.generation,
                });
            }
            if a.generation > b.generation {
                return Ok(Some((FileName::A, a)));
            }
            Ok(Some((FileName::B, b)))
        }
    }
}

// The head of a file; none where it doesn't count.
fn read_head<W: Outside>(world: &mut W, file: FileName) -> Result<Option<Header>, PagesError>
    requires intact { W.failed world.old ≡ false }
    ensures told { W.tells world.new → HeadRead (W.view world.old) (W.view world.new) file result }
    ensures is_header { IfOk result (λ o. IfSome o IsHeader) }
    ensures disk_fault { IsErrOf result PagesError.Disk
        → Rose (W.disk_faults world.old) (W.disk_faults world.new) }
    ensures intact { ¬ (IsErrOf result PagesError.Disk) → W.failed world.new ≡ false }
    ensures goes_on { GoesOn ⟦<W as Outside>⟧ world.old world.new }
{
    let mut front = [0; 4096];
    let read = world.read_at(file, 0, &mut front)?;
    Ok(head_in(file, &front[..read])?)
}

// The head of a file that begins with these bytes, of which there are fewer than 4,096 only where it ends.
fn head_in(file: FileName, front: &[u8]) -> Result<Option<Header>, Damage>
    ensures head { (whole : List ℕ) → front.now ≡ take 4096 whole
        → MatchResult result (IsHeadOf whole) (LacksHeadOf file whole) }
    ensures is_header { IfOk result (λ o. IfSome o IsHeader) }
{
    if !counts(front) {
        return Ok(None);
    }
    match decode_header(&front[1..]) {
        Some(head) => Ok(Some(head)),
        None => Err(Damage::BadPage { file, page: 0 }),
    }
}

// Whether the first gate is open, and something stands behind it.
fn counts(front: &[u8]) -> bool
    ensures { IsTrue result ↔ Counts front.now }
{
    front.len() >= 2 && front[0] == OPEN
}
