//! Tags in a row: whether one occurs twice, whether they ascend, and whether two rows are the same.
#![tactic(auto, using(crate::proofs::Orders::walks, std::proofs::lemmas::Grind::common_steps))]

ghost use Rattle.std.specs.Prelude.{◌≡◌, not, [], map, option_map};
ghost use Rattle.std.specs.List.{list_all};
ghost use Rattle.asn1_model.specs.Lawful.{are_distinct, tag_same};
ghost use Rattle.asn1_schema_tags.specs.Tags.{tag_of};
ghost use Rattle.asn1_table_types.specs.Orders.{is_behind, follows, least_with, same_row, smaller_of};
ghost use Rattle.asn1_table_nodes.specs.Meaning.{least_of};

use asn1_schema_tags::Tag;

/// Whether no tag occurs twice. It takes as many comparisons as there are pairs of tags.
pub fn are_distinct_tags(tags: &[Tag]) -> bool
    ensures { result ≡ are_distinct tag_same (map tag_of tags.now) }
{
    for (index, tag) in tags.iter().enumerate() {
        if !differs_from_all(*tag, &tags[index + 1..]) {
            return false;
        }
    }
    true
}

/// Whether a tag is none of some others.
fn differs_from_all(tag: Tag, others: &[Tag]) -> bool
    ensures { result ≡ list_all (λ y. not (tag_same (tag_of tag) y)) (map tag_of others.now) }
{
    for other in others {
        if tag.const_eq(other) {
            return false;
        }
    }
    true
}

/// Whether two rows of tags are the same.
pub fn are_same_tags(one: &[Tag], other: &[Tag]) -> bool
    ensures { result ≡ same_row (map tag_of one.now) (map tag_of other.now) }
{
    if one.len() != other.len() {
        return false;
    }
    for (index, tag) in one.iter().enumerate() {
        if !tag.const_eq(&other[index]) {
            return false;
        }
    }
    true
}

/// Whether a tag comes after another, if there is one (X.680 8.6).
pub fn stands_behind(last: Option<Tag>, tag: Tag) -> bool
    ensures { result ≡ is_behind (option_map tag_of last) (tag_of tag) }
{
    match last {
        None => true,
        Some(last) => last.const_less_than(tag),
    }
}

/// Whether a tag, if there is one, comes after another, if there is one (X.680 8.6).
pub fn may_follow(last: Option<Tag>, tag: Option<Tag>) -> bool
    ensures { result ≡ follows (option_map tag_of last) (option_map tag_of tag) }
{
    match tag {
        None => true,
        Some(tag) => stands_behind(last, tag),
    }
}

/// The smallest of some tags, if there is one (X.680 8.6).
pub fn least_tag(tags: &[Tag]) -> Option<Tag>
    ensures { least_with (option_map tag_of result) [] ≡ least_of (map tag_of tags.now) }
{
    let mut least: Option<Tag> = None;
    for tag in tags {
        least = Some(smaller(least, *tag));
    }
    least
}

/// The smaller of two tags, of which the first may be missing.
fn smaller(least: Option<Tag>, tag: Tag) -> Tag
    ensures { tag_of result ≡ smaller_of (option_map tag_of least) (tag_of tag) }
{
    match least {
        Some(least) if !tag.const_less_than(least) => least,
        _ => tag,
    }
}
