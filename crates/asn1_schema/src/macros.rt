//! One-line macros for the constants of a type's tables, and for encoding and decoding an alternative.

/// A tag of a class (X.680 8.1): `tagged!(Context, 3)` is `[3]`.
#[macro_export]
macro_rules! tagged {
    ($class:ident, $number:literal) => {
        $crate::Tag {
            class: $crate::Class::$class,
            value: $number,
        }
    };
}

/// A field of a table: its index, its name, its presence (`Required`, `Optional` or `Default`) and its tag. Not for an
/// untagged CHOICE, which has several tags.
#[macro_export]
macro_rules! field {
    ($index:literal, $name:literal, $presence:ident, $tag:expr) => {
        $crate::Field {
            index: $index,
            tag: $tag,
            tag_tree: $crate::TagTree::Leaf($tag),
            presence: $crate::FieldPresence::$presence,
            name: $name,
        }
    };
}

/// An entry of a choice's table of tags: the tag of an alternative, and its index.
#[macro_export]
macro_rules! place {
    ($tag:expr, $place:literal) => {
        $crate::TagPlace {
            tag: $tag,
            place: $place,
        }
    };
}

/// Encodes the value of an alternative with its tag, and returns the tag, as `write_chosen` does.
#[macro_export]
macro_rules! write_alternative {
    ($encoder:ident, $value:ident, $tag:expr) => {{
        $value.encode_with_tag($encoder, $tag)?;
        Ok($tag)
    }};
}

/// Decodes the value of an alternative with its tag, and returns the alternative, as `from_chosen` does.
#[macro_export]
macro_rules! read_alternative {
    ($alloc:ident, $decoder:ident, $type:ty, $alternative:path, $tag:expr) => {{
        let value = <$type>::decode_with_tag($alloc, $decoder, $tag)?;
        Ok($alternative(value))
    }};
}
