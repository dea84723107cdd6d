//! All lexical items of a text (X.680 12).
ghost use Rattle.std.specs.Prelude.{◌≡◌, ◌≤◌, ◌<◌, length, take, All, IfOk, IfErr, IfSome};
ghost use Rattle.asn1_notation_tokens.specs.Lexical.{HasForm, IsItemOf};

use crate::faults::{LexicalError, LexicalFault};
use crate::items::{Item, ItemKind, Items};
use crate::scanning::scan_item;
use crate::spaces::scan_space;
use std::alloc::Global;

/// The lexical items of a text, without white-space and comments. Time is linear in the length of the text.
///
/// # Errors
///
/// The first item that is wrong, or the first comment that does not end, by the index of its first octet, and
/// `OutOfMemory`.
pub fn read_items(alloc: Global, text: &[u8]) -> Result<Items, LexicalError>
    ensures text { IfOk result (λ r. r.text_length ≡ length text.now) }
    ensures items { IfOk result (λ r. All (IsItemOf text.now) r.list.items) }
    ensures error { IfErr result (λ e. e.offset < length text.now) }
{
    let mut list = Vec::new(alloc);
    let mut offset = 0;
    while offset < text.len() {
        let (kind, length) = match scan_next(&text[offset..]) {
            Ok(scanned) => scanned,
            Err(fault) => return Err(LexicalError { offset, fault }),
        };
        let end = offset + length;
        if let Some(kind) = kind {
            let item = Item {
                kind,
                start: offset,
                end,
            };
            if list.push(item).is_err() {
                let fault = LexicalFault::OutOfMemory;
                return Err(LexicalError { offset, fault });
            }
        }
        offset = end;
    }
    Ok(Items {
        list,
        text_length: text.len(),
    })
}

/// What a text begins with: the kind of an item, or none for white-space or a comment; and its length.
fn scan_next(rest: &[u8]) -> Result<(Option<ItemKind>, usize), LexicalFault>
    ensures within { IfOk result (λ r. (1 ≤ r.1) × (r.1 ≤ length rest.now)) }
    ensures form { IfOk result (λ r. IfSome r.0 (λ k. HasForm k (take r.1 rest.now))) }
{
    if let Some(length) = scan_space(rest)? {
        return Ok((None, length));
    }
    let (kind, length) = scan_item(rest)?;
    Ok((Some(kind), length))
}
