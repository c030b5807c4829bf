// The places of a routine's labels.

ghost use Rattle.std.specs.Prelude.{◌≡◌, ◌+◌, ◌≤◌, ℕ, List, OnOk, IfOk, if◌then◌else◌};
ghost use Rattle.vap_ast.specs.Sizes as sizes;
ghost use Rattle.vap_ast.specs.Tree.{item_of, items_of, stmt_of};
ghost use Rattle.vap_compile.specs.Labels.{Notes, one_place, place_at};
ghost use Rattle.vap_compile.specs.Layout.{items_steps, label_place, place_in_item, place_in_items, place_in_stmt};

use std::alloc::{AllocError, Global};
use std::collections::BTreeMap;
use vap_ast::{Item, Name, Stmt, expr_size, item_size, items_size};

/// The labels of a routine with their places, and the place of its return.
#[derive(Drop)]
pub struct Labels {
    places: BTreeMap<Name, u16>,
    end: u16,
}

impl Labels {
    /// The labels of a routine that begins at a place.
    pub fn of(alloc: Global, place: usize, body: &[Item]) -> Result<Labels, AllocError>
        requires { place + sizes.items_size (items_of body.now) ≤ 65535 }
        ensures { IfOk result (λ labels. (label : List ℕ) →
            place_at labels label ≡ label_place place (items_of body.now) label) }
    {
        let end = place + items_size(body);
        let mut places = BTreeMap::new(alloc);
        note_items(alloc, &mut places, place, end, body)?;
        Ok(Labels {
            places,
            end: end as u16,
        })
    }

    /// The place of a label; that of the return for `prog_ende`, and for a label that the routine doesn't have.
    #[tactic(auto, using(crate::proofs::LabelTable::by_bytes))]
    pub fn place(&self, label: &Name) -> u16
        ensures { result ≡ place_at self.now label.now }
    {
        if label.bytes() == b"prog_ende".as_slice() {
            self.end
        } else {
            self.places.get(label).copied().unwrap_or(self.end)
        }
    }
}

// Whether a statement is among the items.
fn has_step(items: &[Item]) -> bool
    ensures { result ≡ items_steps (items_of items.now) }
{
    for item in items {
        if let Item::Step { .. } = item {
            return true;
        }
    }
    false
}

// The place of what comes behind an item: the next one where a statement is left, and else what comes behind all.
fn place_behind(rest: &[Item], next: usize, after: usize) -> usize
    ensures { result ≡ (if items_steps (items_of rest.now) then next else after) }
{
    if has_step(rest) { next } else { after }
}

// Notes the place of a label, unless it has one.
#[tactic(auto, using(crate::proofs::LabelTable::noted, crate::proofs::LabelTable::kept))]
fn note_place(
    alloc: Global,
    places: &mut BTreeMap<Name, u16>,
    name: &Name,
    place: usize,
) -> Result<(), AllocError>
    requires { place ≤ 65535 }
    ensures { OnOk result (Notes places.old.entries places.new.entries (one_place name.now place)) }
{
    if places.contains_key(name) {
        return Ok(());
    }
    let Ok(name) = name.copy(alloc) else {
        return Err(AllocError);
    };
    let Ok(_) = places.insert(name, place as u16) else {
        return Err(AllocError);
    };
    Ok(())
}

/// Notes the places of the labels of items that begin at a place; `after` is the place of what comes behind them.
#[cycle(labels)]
fn note_items(
    alloc: Global,
    places: &mut BTreeMap<Name, u16>,
    place: usize,
    after: usize,
    items: &[Item],
) -> Result<(), AllocError>
    requires { (place + sizes.items_size (items_of items.now) ≤ 65535) × (after ≤ 65535) }
    ensures { OnOk result (Notes places.old.entries places.new.entries
        (λ label. place_in_items label place after (items_of items.now))) }
{
    let mut start = place;
    for (index, item) in items.iter().enumerate() {
        let next = start + item_size(item);
        let following = place_behind(&items[index + 1..], next, after);
        note_item(alloc, places, start, following, item)?;
        start = next;
    }
    Ok(())
}

#[cycle(labels)]
fn note_item(
    alloc: Global,
    places: &mut BTreeMap<Name, u16>,
    place: usize,
    after: usize,
    item: &Item,
) -> Result<(), AllocError>
    requires { (place + sizes.item_size (item_of item.now) ≤ 65535) × (after ≤ 65535) }
    ensures { OnOk result (Notes places.old.entries places.new.entries
        (λ label. place_in_item label place after (item_of item.now))) }
{
    match item {
        Item::Label { name, .. } => note_place(alloc, places, name, after),
        Item::Step { what, .. } => note_stmt(alloc, places, place, after, what),
    }
}

#[cycle(labels)]
fn note_stmt(
    alloc: Global,
    places: &mut BTreeMap<Name, u16>,
    place: usize,
    after: usize,
    what: &Stmt,
) -> Result<(), AllocError>
    requires { (place + sizes.stmt_size (stmt_of what.now) ≤ 65535) × (after ≤ 65535) }
    ensures { OnOk result (Notes places.old.entries places.new.entries
        (λ label. place_in_stmt label place after (stmt_of what.now))) }
{
    if let Stmt::If { test, yes, no } = what {
        let at_first = place + expr_size(test) + 2;
        let at_second = at_first + items_size(&yes.0) + 1;
        note_items(alloc, places, at_first, after, &yes.0)?;
        note_items(alloc, places, at_second, after, &no.0)?;
    }
    Ok(())
}
