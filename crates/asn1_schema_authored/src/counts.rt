//! The number of extension additions, all of which `usize` counts.
ghost use Rattle.std.proofs.Common.{rules, arith};

use crate::{
    AddedGroupComponent, AddedOptionalComponent, AddedRequiredComponent, AdditionsOf, CountOf,
    Group, NoMore,
};
use asn1_schema_types::Described;

/// No addition. A type with an extension marker may have none.
#[derive(Drop)]
pub struct NoAddition;

/// One addition.
#[derive(Drop)]
pub struct OneAddition;

/// Two additions.
#[derive(Drop)]
pub struct TwoAdditions;

impl CountOf<NoMore> for NoAddition {
    ghost countable = { Prim.omega arith };
}

impl<T: Described> CountOf<AddedRequiredComponent<T, NoMore>> for OneAddition {
    ghost countable = { Prim.omega arith };
}

impl<T: Described> CountOf<AddedOptionalComponent<T, NoMore>> for OneAddition {
    ghost countable = { Prim.omega arith };
}

impl<G: Group> CountOf<AddedGroupComponent<G, NoMore>> for OneAddition {
    ghost countable = { Prim.omega arith };
}

impl<T: Described, U: Described> CountOf<
    AddedOptionalComponent<T, AddedOptionalComponent<U, NoMore>>,
> for TwoAdditions {
    ghost countable = { Prim.omega arith };
}
