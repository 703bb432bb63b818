//! How the records of a capture after its device and its grain are written.

ghost use Rattle.std.specs.Prelude.{◌≡◌, ◌++◌, ◌<◌, ◌^◌, All, IfOk, OnOk, length};
ghost use Rattle.std.specs.List.{AllByRecursion, flat_map};
ghost use Rattle.exact_text.specs.Spellings.{Grows};
ghost use Rattle.capture_file.specs.Items.{end_text, item, item_body, item_tag};

use crate::writing::{push_request, put32};
use crate::{Item, tags};
use exact_text::push_record;
use io_caps::NoMemory;
use std::alloc::Global;

/// The tag of a record.
fn item_tag(item: &Item<'_>) -> u8
    ensures { result ≡ item_tag item.now }
{
    match item {
        Item::Packet { .. } => tags::PACKET,
        Item::Piece { .. } => tags::PIECE,
        Item::Ask { .. } => tags::ASK,
        Item::Work { .. } => tags::WORK,
    }
}

/// The body of a record.
#[tactic(auto, using(exact_text::proofs::FormLaws::joined), unfolding(crate::specs::Items::item_body))]
fn item_body(alloc: Global, value: &Item<'_>) -> Result<Vec<u8>, NoMemory>
    requires { item.Fits value.now }
    ensures { IfOk result (λ body. body.items ≡ (item_body (item_tag value.now)).text value.now) }
{
    let mut body = Vec::new(alloc);
    match value {
        Item::Packet {
            input: number,
            bytes,
        }
        | Item::Piece {
            client: number,
            bytes,
        } => {
            body.push(*number)?;
            body.extend_from_slice(bytes.as_slice())?;
        }
        Item::Ask { client, request } => {
            body.push(*client)?;
            push_request(&mut body, request)?;
        }
        Item::Work { claims } => put32(&mut body, *claims)?,
    }
    Ok(body)
}

#[tactic(auto, using(exact_text::proofs::Growth::growth))]
fn push_item(alloc: Global, out: &mut Vec<u8>, value: &Item<'_>) -> Result<(), NoMemory>
    requires { item.Fits value.now }
    ensures ok { OnOk result (out.new.items ≡ out.old.items ++ item.text value.now) }
    ensures grows { Grows out.old.items out.new.items }
{
    let body = item_body(alloc, value)?;
    push_record(out, item_tag(value), &body)?;
    Ok(())
}

#[tactic(auto, using(exact_text::proofs::Growth::growth))]
fn push_items(alloc: Global, out: &mut Vec<u8>, items: &[Item<'_>]) -> Result<(), NoMemory>
    requires { AllByRecursion item.Fits items.now }
    ensures ok { OnOk result (out.new.items ≡ out.old.items ++ flat_map item.text items.now) }
    ensures grows { Grows out.old.items out.new.items }
{
    for one in items {
        push_item(alloc, out, one)?;
    }
    Ok(())
}

/// Writes records of a capture and the last record after what is there. If memory runs out, what
/// was there stays, and more may follow it.
#[tactic(auto, using(exact_text::proofs::Growth::growth))]
pub fn write_items(alloc: Global, items: &[Item<'_>], out: &mut Vec<u8>) -> Result<(), NoMemory>
    requires { All item.Fits items.now }
    ensures ok { OnOk result (out.new.items
        ≡ out.old.items ++ (flat_map item.text items.now ++ end_text)) }
    ensures grows { Grows out.old.items out.new.items }
{
    push_items(alloc, out, items)?;
    push_record(out, tags::END, &[])?;
    Ok(())
}
