//! A generation that is ready to be put on a file.
ghost use Rattle.std.specs.Prelude.{◌≡◌, ◌*◌, ◌<◌, ◌+◌, ◌^◌, ◌++◌, length, IfOk, OnOk};
ghost use Rattle.record_codec.specs.Heads.{IsGeneration, IsHeader, header_text};
ghost use Rattle.page_codec.specs.Pages.{Fills};
ghost use Rattle.realm_pages.specs.Generations.{page_count, part_behind, pages_of};
ghost use Rattle.realm_pages.specs.Generations.{Generation, header_of, generation_text};

use grid_base::NoMemory;
use page_codec::encode_page;
use realm_journal::{Block, begin_block};
use record_codec::{Header, encode_header};
use std::alloc::Global;
use std::marker::Model;

// The version of the format that each generation is written in.
const VERSION: u64 = 2;

// How many bytes of the payload a page holds.
const PAGE_ROOM: usize = 4_054;

/// The bytes of a generation: putting it on a file takes no memory. Contracts see its version, its number and its
/// payload.
#[derive(Drop)]
pub struct PreparedPages {
    head: Header,
    block: Block,
}

impl Model for PreparedPages {
    ghost use Rattle.realm_pages.specs.Generations.{Generation};
    ghost use Rattle.realm_pages.specs.PreparedFields.{generation_of, IsOfGeneration};

    ghost Value = { Generation };

    ghost view = { generation_of };

    ghost invariant = { IsOfGeneration };
}

/// Makes a generation with this payload ready to be put on a file, by version 2 of the format. This takes the memory
/// that it needs.
pub fn prepare_pages(
    alloc: Global,
    generation: u64,
    payload: &[u8],
) -> Result<PreparedPages, NoMemory>
    requires { IsGeneration generation }
    ensures { IfOk result (λ p. p ≡ record { version = 2; number = generation; payload = payload.now }) }
{
    let head = head_for(generation, payload);
    let block = block_for(alloc, &head, payload)?;
    Ok(PreparedPages { head, block })
}

// The head of a file that holds the generation with this payload.
fn head_for(generation: u64, payload: &[u8]) -> Header
    requires { IsGeneration generation }
    ensures head { result ≡ header_of (record { version = 2; number = generation; payload = payload.now }) }
    ensures is_header { IsHeader result }
{
    Header {
        version: VERSION,
        generation,
        pages: pages_for(payload.len()) as u64,
        length: payload.len() as u64,
    }
}

// The head, and the pages of a payload behind it.
fn block_for(alloc: Global, head: &Header, payload: &[u8]) -> Result<Block, NoMemory>
    requires { IsHeader head.now }
    ensures { IfOk result (λ block. block
        ≡ header_text head.now ++ pages_of (page_count (length payload.now)) payload.now) }
{
    let mut begun = begin_block(alloc, room_for(payload.len()))?;
    begun.extend_from_slice(&encode_header(head))?;
    push_pages(&mut begun, payload)?;
    Block::close(begun)
}

// At least as many bytes as the head and the pages of such a payload have.
fn room_for(length: usize) -> usize {
    pages_for(length).saturating_add(1).saturating_mul(4_096)
}

// The fewest pages that hold so many bytes.
#[tactic(auto, unfolding(crate::specs::Generations::page_count))]
fn pages_for(length: usize) -> usize
    ensures { result ≡ page_count length }
{
    length.div_ceil(PAGE_ROOM)
}

// Adds the pages of a payload.
fn push_pages(text: &mut Vec<u8>, payload: &[u8]) -> Result<(), NoMemory>
    ensures { OnOk result (text.new.items
        ≡ text.old.items ++ pages_of (page_count (length payload.now)) payload.now) }
{
    for page in 0..pages_for(payload.len()) {
        let part = part_for(payload, page);
        text.extend_from_slice(&encode_page(page as u64 + 1, part))?;
    }
    Ok(())
}

// What stands of a payload in the page behind so many pages.
fn part_for(payload: &[u8], pages: usize) -> &[u8]
    requires { pages < page_count (length payload.now) }
    ensures part { result.now ≡ part_behind pages payload.now }
    ensures fills { Fills result.now }
{
    let rest = &payload[pages * PAGE_ROOM..];
    &rest[..PAGE_ROOM.min(rest.len())]
}

impl PreparedPages {
    /// The text between its gates.
    pub(crate) fn block(&self) -> &Block
        ensures text { result.now ≡ generation_text self.now }
        ensures has_head { IsHeader (header_of self.now) }
    {
        &self.block
    }
}
