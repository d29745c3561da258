// The rules of the layout and of this project's profile.
ghost use Rattle.std.specs.Prelude.{◌≡◌, ◌||◌, ℕ, [], ◌++◌, find, List, IfOk, Some, None};
ghost use Rattle.std.specs.List.{list_any};
ghost use Rattle.base.specs.Addresses.{has_address, IsSetOf};
ghost use Rattle.asm80_source_def.specs.Walk.{Walk, WalkRow};
ghost use Rattle.asm80_source_def.specs.Items.{item_rows as rows_that_fill, starts_in};
ghost use Rattle.asm80_source_def.specs.Layout.{layout_fault};
ghost use Rattle.asm80_values.specs.Items.{AreItems, cells_of_item, overlap_from, stands_outside, breaks, refused_item, profile_fault};

use crate::Form;
use crate::item::{Item, address_of_cell};
use asm80_source_def::AsmRule;
use base::AddressSet;
use std::alloc::{AllocError, Global};

// Whether a cell of an item is in a set.
fn overlaps(filled: &AddressSet, item: &Item) -> bool
    ensures { result ≡ list_any (has_address filled.now) (cells_of_item item.now) }
{
    for k in 0..item.size {
        if filled.contains(address_of_cell(item.at, k)) {
            return true;
        }
    }
    false
}

// Adds the cells of an item to a set.
fn fill(filled: &mut AddressSet, item: &Item)
    ensures { (addresses : List ℕ) → IsSetOf filled.old addresses → IsSetOf filled.new (cells_of_item item.now ++ addresses) }
{
    for k in 0..item.size {
        filled.insert(address_of_cell(item.at, k));
    }
}

// Rule S6: the first item with a cell that belongs to an earlier one too.
fn first_overlap(alloc: Global, items: &[Item]) -> Result<Option<(u32, AsmRule)>, AllocError>
    ensures { IfOk result (λ fault. fault ≡ refused_item AsmRule.S6 (overlap_from [] items.now)) }
{
    let mut filled = AddressSet::new(alloc)?;
    for item in items {
        if overlaps(&filled, item) {
            return Ok(Some((item.line, AsmRule::S6)));
        }
        fill(&mut filled, item);
    }
    Ok(None)
}

// Rule S7: whether a cell of an item is below 100H, or not below the top less 2.
fn stands_outside(item: &Item, top: u16) -> bool
    ensures { result ≡ stands_outside top item.now }
{
    let limit = usize::from(top.saturating_sub(2));
    item.size > 0 && (item.at < 0x100 || item.size > limit.saturating_sub(usize::from(item.at)))
}

// Whether an item breaks a rule.
fn breaks(item: &Item, rule: AsmRule, top: u16) -> bool
    ensures { result ≡ breaks top rule item.now }
{
    if matches!(rule, AsmRule::S7) {
        return stands_outside(item, top);
    }
    match &item.form {
        Form::Nothing => false,
        Form::Instruction(instruction) => match rule {
            AsmRule::S1 => instruction.is_foreign,
            AsmRule::S2 => instruction.misses,
            AsmRule::S4 => instruction.computes,
            AsmRule::S5 => instruction.loads_code,
            _ => false,
        },
        Form::Data(data) => matches!(rule, AsmRule::S4) && data.computes,
    }
}

// The first item that breaks a rule.
fn first_breach(items: &[Item], rule: AsmRule, top: u16) -> Option<(u32, AsmRule)>
    ensures { result ≡ refused_item rule (find (breaks top rule) items.now) }
{
    for item in items {
        if breaks(item, rule, top) {
            return Some((item.line, rule));
        }
    }
    None
}

// The first breach of the rules S7, S1, S2, S4, S5, in this order.
fn profile_fault(items: &[Item], top: u16) -> Option<(u32, AsmRule)>
    ensures { result ≡ profile_fault top items.now }
{
    first_breach(items, AsmRule::S7, top)
        .or(first_breach(items, AsmRule::S1, top))
        .or(first_breach(items, AsmRule::S2, top))
        .or(first_breach(items, AsmRule::S4, top))
        .or(first_breach(items, AsmRule::S5, top))
}

/// The first breach of the rules S3, S6, S7, S1, S2, S4, S5, in this order, by the items of the source, the addresses at which
/// instructions start, and the top of the program area.
pub fn layout_fault(
    alloc: Global,
    items: &[Item],
    starts: &AddressSet,
    top: u16,
) -> Result<Option<(u32, AsmRule)>, AllocError>
    ensures { (rs : List WalkRow) (end : Walk) → AreItems rs end items.now (rows_that_fill rs) → IsSetOf starts.now (starts_in rs) → IfOk result (λ fault. fault ≡ layout_fault rs end top) }
{
    if !starts.contains(0x100) {
        return Ok(Some((0, AsmRule::S3)));
    }
    let overlap = first_overlap(alloc, items)?;
    Ok(overlap.or(profile_fault(items, top)))
}
