//! Replies of several values: how many there are, and then each as `show` lists it.
ghost use Rattle.std.specs.Prelude.{◌≡◌, ◌++◌, IfOk, OnOk, All, string_bytes};
ghost use Rattle.std.specs.List.{flat_map};
ghost use Rattle.rose_operators.specs.Results.{IsAscending};
ghost use Rattle.rose_query.specs.Replies.{value_reply, pair_lines, group_lines};
ghost use Rattle.rose_query.specs.Replies.{pairs_reply};
ghost use Rattle.rose_query.specs.ToldSets.{ListsAll, ListsGroups};

use crate::printing::push_value;
use grid_base::{NoMemory, Reply};
use rose_sets::{Group, Pair};
use rose_values::Geometry;
use std::alloc::{AllocError, Global};

/// The reply to `decompose`. What it lists ascends.
pub(crate) fn list_parts(alloc: Global, parts: &[Geometry]) -> Result<Reply, NoMemory>
    ensures { IfOk result (ListsAll parts.now) }
{
    let count = parts.len();
    let mut text = format!(in alloc; "set {count}\n")?;
    push_parts(&mut text, parts)?;
    Ok(Reply::new(text.into_bytes()))
}

/// The reply to `overlay`.
pub(crate) fn list_pairs(alloc: Global, pairs: &[Pair]) -> Result<Reply, NoMemory>
    ensures { IfOk result (λ reply. reply ≡ pairs_reply pairs.now) }
{
    let count = pairs.len();
    let mut text = format!(in alloc; "set {count}\n")?;
    push_pairs(&mut text, pairs)?;
    Ok(Reply::new(text.into_bytes()))
}

/// The reply to `fusion`. What it lists ascends.
pub(crate) fn list_groups(alloc: Global, groups: &[Group]) -> Result<Reply, NoMemory>
    ensures { IfOk result (ListsGroups groups.now) }
{
    let count = groups.len();
    let mut text = format!(in alloc; "set {count}\n")?;
    push_groups(&mut text, groups)?;
    Ok(Reply::new(text.into_bytes()))
}

fn push_parts(text: &mut String, parts: &[Geometry]) -> Result<(), AllocError>
    ensures text { OnOk result (string_bytes text.new
        ≡ string_bytes text.old ++ flat_map value_reply parts.now) }
    ensures ascending { OnOk result (All IsAscending parts.now) }
{
    for part in parts {
        push_value(text, part)?;
    }
    Ok(())
}

fn push_pairs(text: &mut String, pairs: &[Pair]) -> Result<(), AllocError>
    ensures { OnOk result (string_bytes text.new ≡ string_bytes text.old ++ flat_map pair_lines pairs.now) }
{
    for pair in pairs {
        push_pair(text, pair)?;
    }
    Ok(())
}

fn push_pair(text: &mut String, pair: &Pair) -> Result<(), AllocError>
    ensures { OnOk result (string_bytes text.new ≡ string_bytes text.old ++ pair_lines pair.now) }
{
    let (i, j) = (pair.i, pair.j);
    write!(text, "pair {i} {j}\n")?;
    push_value(text, &pair.g)
}

fn push_groups(text: &mut String, groups: &[Group]) -> Result<(), AllocError>
    ensures text { OnOk result (string_bytes text.new
        ≡ string_bytes text.old ++ flat_map group_lines groups.now) }
    ensures ascending { OnOk result (All (λ group. IsAscending group.g) groups.now) }
{
    for group in groups {
        push_group(text, group)?;
    }
    Ok(())
}

fn push_group(text: &mut String, group: &Group) -> Result<(), AllocError>
    ensures text { OnOk result (string_bytes text.new ≡ string_bytes text.old ++ group_lines group.now) }
    ensures ascending { OnOk result (IsAscending group.now.g) }
{
    let key = group.key;
    write!(text, "key {key}\n")?;
    push_value(text, &group.g)
}
