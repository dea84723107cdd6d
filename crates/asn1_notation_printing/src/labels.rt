//! Names in the notation: those beside the table, or made up from indices where these are none.
use asn1_notation_tokens::{ItemKind, Items, LexicalFault, read_items};
use asn1_schema_tags::Chosen;
use asn1_table_names::{Names, Part};
use asn1_table_types::Types;
use std::alloc::{AllocError, Global};

/// Whether a text is one lexical item of a kind (X.680 12).
pub fn is_item(alloc: Global, text: &str, kind: ItemKind) -> Result<bool, AllocError> {
    match read_items(alloc, text.as_bytes()) {
        Ok(items) => Ok(is_whole(&items, kind)),
        Err(error) => match error.fault {
            LexicalFault::OutOfMemory => Err(AllocError),
            _ => Ok(false),
        },
    }
}

/// Whether a text has one lexical item of a kind, and nothing else.
fn is_whole(items: &Items, kind: ItemKind) -> bool {
    match (items.get(0), items.get(1)) {
        (Some(item), None) => {
            item.kind == kind && item.start == 0 && item.end == items.text_length
        }
        _ => false,
    }
}

/// A table and the names beside it.
#[derive(Clone, Copy)]
pub struct Labels<'a> {
    pub alloc: Global,
    pub types: &'a Types,
    pub names: &'a Names,
}

impl<'a> Labels<'a> {
    /// The identifier of a component of the SEQUENCE or SET at an index (X.680 12.3).
    pub fn write_part(self, text: &mut String, place: usize, part: Part) -> Result<(), AllocError> {
        if let Some(name) = self.names.part_name(self.types, place, part) {
            if self.names.find_part(self.types, place, name) == Some(part)
                && is_item(self.alloc, name, ItemKind::Identifier)?
            {
                return text.push_str(name);
            }
        }
        match part {
            Part::Root(index) => write!(text, "component-{index}"),
            Part::Addition(index) => write!(text, "addition-{index}"),
            Part::Grouped {
                addition,
                component,
            } => write!(text, "addition-{addition}-{component}"),
        }
    }

    /// The identifier of an alternative of the CHOICE at an index.
    pub fn write_alternative(
        self,
        text: &mut String,
        place: usize,
        chosen: Chosen,
    ) -> Result<(), AllocError> {
        if let Some(name) = self.names.alternative_name(place, chosen) {
            if self.names.find_alternative(place, name) == Some(chosen)
                && is_item(self.alloc, name, ItemKind::Identifier)?
            {
                return text.push_str(name);
            }
        }
        let index = chosen.place;
        if chosen.added {
            return write!(text, "addition-{index}");
        }
        write!(text, "alternative-{index}")
    }

    /// The identifier of the item with a number of the ENUMERATED at an index.
    pub fn write_item(
        self,
        text: &mut String,
        place: usize,
        item: isize,
    ) -> Result<(), AllocError> {
        if let Some(name) = self.names.item_name(self.types, place, item) {
            if self.names.find_item(self.types, place, name) == Some(item)
                && is_item(self.alloc, name, ItemKind::Identifier)?
            {
                return text.push_str(name);
            }
        }
        let digits = item.unsigned_abs();
        if item < 0 {
            return write!(text, "item-minus-{digits}");
        }
        write!(text, "item-{digits}")
    }
}
