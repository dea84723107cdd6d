//! Tags and their classes (X.680 clause 8).
ghost use Rattle.std.specs.Prelude.{◌≡◌, ◌≤◌, ◌↔◌, IsTrue, Some};
ghost use Rattle.std.specs.declared.cmp.Ordering.TheVariants.{Less, Equal, Greater};
ghost use Rattle.asn1_model.specs.Lawful.{tag_less, tag_same};
ghost use Rattle.asn1_schema_tags.specs.Tags.{class_number, tag_of};
ghost use Rattle.asn1_schema_tags.specs.Texts.{class_text, tag_text};

use std::cmp::Ordering;
use std::fmt;

/// The class of a tag (X.680 8.1), in the order in which tags are compared (X.680 8.6).
#[derive(Clone, Copy, Debug, PartialEq, Eq, PartialOrd, Ord, Hash)]
pub enum Class {
    /// Types that X.680 itself defines.
    Universal,
    /// Types of one application.
    Application,
    /// Types distinguished only within their context.
    Context,
    /// Types of one enterprise.
    Private,
}

impl Class {
    /// The class with this number, 0 to 3 in the order of the classes.
    pub fn from_u8(value: u8) -> Self
        requires { value ≤ 3 }
        ensures { class_number result ≡ value }
    {
        match value {
            0 => Class::Universal,
            1 => Class::Application,
            2 => Class::Context,
            _ => Class::Private,
        }
    }

    /// Whether this is the universal class.
    pub fn is_universal(&self) -> bool
        ensures { IsTrue result ↔ (class_number self.now ≡ 0) }
    {
        matches!(self, Class::Universal)
    }
}

impl fmt::Display for Class {
    ghost output = { λ c. Some (class_text c) };

    fn fmt<W: fmt::Write>(&self, f: &mut fmt::Formatter<W>) -> fmt::Result {
        match self {
            Class::Universal => write!(f, "UNIVERSAL"),
            Class::Application => write!(f, "APPLICATION"),
            Class::Context => write!(f, "CONTEXT"),
            Class::Private => write!(f, "PRIVATE"),
        }
    }
}

/// A tag: its class, and its number in that class (X.680 clause 8). Tags are ordered by class and then by number
/// (X.680 8.6).
#[derive(Clone, Copy, Debug, PartialEq, Eq, PartialOrd, Ord, Hash)]
pub struct Tag {
    /// The class.
    pub class: Class,
    /// The number in that class.
    pub value: u32,
}

impl Tag {
    pub const EOC: Tag = Tag {
        class: Class::Universal,
        value: 0,
    };

    pub const BOOL: Tag = Tag {
        class: Class::Universal,
        value: 1,
    };

    pub const INTEGER: Tag = Tag {
        class: Class::Universal,
        value: 2,
    };

    pub const BIT_STRING: Tag = Tag {
        class: Class::Universal,
        value: 3,
    };

    pub const OCTET_STRING: Tag = Tag {
        class: Class::Universal,
        value: 4,
    };

    pub const NULL: Tag = Tag {
        class: Class::Universal,
        value: 5,
    };

    pub const OBJECT_IDENTIFIER: Tag = Tag {
        class: Class::Universal,
        value: 6,
    };

    pub const OBJECT_DESCRIPTOR: Tag = Tag {
        class: Class::Universal,
        value: 7,
    };

    pub const EXTERNAL: Tag = Tag {
        class: Class::Universal,
        value: 8,
    };

    pub const REAL: Tag = Tag {
        class: Class::Universal,
        value: 9,
    };

    pub const ENUMERATED: Tag = Tag {
        class: Class::Universal,
        value: 10,
    };

    pub const EMBEDDED_PDV: Tag = Tag {
        class: Class::Universal,
        value: 11,
    };

    pub const UTF8_STRING: Tag = Tag {
        class: Class::Universal,
        value: 12,
    };

    pub const RELATIVE_OID: Tag = Tag {
        class: Class::Universal,
        value: 13,
    };

    pub const TIME: Tag = Tag {
        class: Class::Universal,
        value: 14,
    };

    pub const SEQUENCE: Tag = Tag {
        class: Class::Universal,
        value: 16,
    };

    pub const SET: Tag = Tag {
        class: Class::Universal,
        value: 17,
    };

    pub const NUMERIC_STRING: Tag = Tag {
        class: Class::Universal,
        value: 18,
    };

    pub const PRINTABLE_STRING: Tag = Tag {
        class: Class::Universal,
        value: 19,
    };

    pub const TELETEX_STRING: Tag = Tag {
        class: Class::Universal,
        value: 20,
    };

    pub const VIDEOTEX_STRING: Tag = Tag {
        class: Class::Universal,
        value: 21,
    };

    pub const IA5_STRING: Tag = Tag {
        class: Class::Universal,
        value: 22,
    };

    pub const UTC_TIME: Tag = Tag {
        class: Class::Universal,
        value: 23,
    };

    pub const GENERALIZED_TIME: Tag = Tag {
        class: Class::Universal,
        value: 24,
    };

    pub const GRAPHIC_STRING: Tag = Tag {
        class: Class::Universal,
        value: 25,
    };

    pub const VISIBLE_STRING: Tag = Tag {
        class: Class::Universal,
        value: 26,
    };

    pub const GENERAL_STRING: Tag = Tag {
        class: Class::Universal,
        value: 27,
    };

    pub const UNIVERSAL_STRING: Tag = Tag {
        class: Class::Universal,
        value: 28,
    };

    pub const CHARACTER_STRING: Tag = Tag {
        class: Class::Universal,
        value: 29,
    };

    pub const BMP_STRING: Tag = Tag {
        class: Class::Universal,
        value: 30,
    };

    pub const DATE: Tag = Tag {
        class: Class::Universal,
        value: 31,
    };

    pub const TIME_OF_DAY: Tag = Tag {
        class: Class::Universal,
        value: 32,
    };

    pub const DATE_TIME: Tag = Tag {
        class: Class::Universal,
        value: 33,
    };

    pub const DURATION: Tag = Tag {
        class: Class::Universal,
        value: 34,
    };
    /// Takes the place of a tag for an untagged CHOICE, which has none of its own.
    pub const CHOICE: Tag = Tag {
        class: Class::Universal,
        value: 0,
    };

    /// The tag of this class and number.
    pub fn new(class: Class, value: u32) -> Self
        ensures class { result.class ≡ class }
        ensures value { result.value ≡ value }
    {
        Tag { class, value }
    }

    /// The application tag of this number.
    pub fn new_application(value: u32) -> Self
        ensures { tag_of result ≡ record { class = 1; number = value } }
    {
        Tag::new(Class::Application, value)
    }

    /// The context-specific tag of this number.
    pub fn new_context(value: u32) -> Self
        ensures { tag_of result ≡ record { class = 2; number = value } }
    {
        Tag::new(Class::Context, value)
    }

    /// The private tag of this number.
    pub fn new_private(value: u32) -> Self
        ensures { tag_of result ≡ record { class = 3; number = value } }
    {
        Tag::new(Class::Private, value)
    }

    /// The tag of the same class with this number.
    pub fn set_value(self, value: u32) -> Self
        ensures class { result.class ≡ self.class }
        ensures value { result.value ≡ value }
    {
        Tag {
            class: self.class,
            value,
        }
    }

    /// Whether this is `Tag::CHOICE`, which takes the place of a tag for an untagged CHOICE.
    pub fn is_choice(&self) -> bool
        ensures { IsTrue result ↔ (self.now ≡ Self.CHOICE) }
    {
        self.const_eq(&Tag::CHOICE)
    }

    /// Compares the tags by class and then by number (X.680 8.6).
    pub fn const_cmp(&self, other: &Tag) -> Ordering
        ensures less { (result ≡ Less) ↔ IsTrue (tag_less (tag_of self.now) (tag_of other.now)) }
        ensures equal { (result ≡ Equal) ↔ (self.now ≡ other.now) }
        ensures greater { (result ≡ Greater) ↔ IsTrue (tag_less (tag_of other.now) (tag_of self.now)) }
    {
        self.cmp(other)
    }

    /// Whether the tags are the same.
    pub fn const_eq(self, rhs: &Self) -> bool
        ensures same { IsTrue result ↔ (self ≡ rhs.now) }
        ensures value { result ≡ tag_same (tag_of self) (tag_of rhs.now) }
    {
        self == *rhs
    }

    /// Whether this tag is less than the other.
    pub fn const_less_than(self, rhs: Self) -> bool
        ensures { result ≡ tag_less (tag_of self) (tag_of rhs) }
    {
        self < rhs
    }
}

impl fmt::Display for Tag {
    ghost output = { λ t. Some (tag_text t) };

    fn fmt<W: fmt::Write>(&self, f: &mut fmt::Formatter<W>) -> fmt::Result {
        match self.class {
            Class::Context => write!(f, "[{}]", self.value),
            class => write!(f, "[{class} {}]", self.value),
        }
    }
}
