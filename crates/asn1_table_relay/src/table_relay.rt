//! Streams of messages of a type of a table.
#![tactic(auto, using(std::proofs::lemmas::Grind::common_steps))]

ghost use Rattle.std.specs.Prelude.{◌≡◌, ◌↔◌, ◌≤◌, IfErr, IsOk, OnOk, [], false, length};
ghost use Rattle.asn1_relay_core.specs.Relaying.{IsFed, FaultOf, end_fault, starting};
ghost use Rattle.asn1_table_nodes.specs.Meaning.{type_at};

use crate::table_type::TableType;
use asn1_relay_core::{Codec, RelayFault, RelayOf};
use asn1_table_types::Types;
use std::alloc::Global;
use std::marker::Model;

/// Translates a stream of messages of a type of a table, one after another, which arrives in pieces of any length.
#[derive(Drop)]
pub struct TableRelay<'a> {
    relay: RelayOf<TableType<'a>>,
}

impl<'a> Model for TableRelay<'a> {
    ghost use Rattle.std.specs.Coded.{codes};
    ghost use Rattle.asn1_table_relay.specs.Streams.{TableRelaying};
    ghost use Rattle.asn1_table_nodes.specs.contracts.events.DefaultValue as default;

    ghost Value = { TableRelaying };

    ghost coded = { Prim.hlevel (codes, default.the_row.coded) };

    ghost view = { λ r. record {
      nodes = r.relay.message_type.types.now.nodes.items;
      place = r.relay.message_type.place;
      relaying = r.relay.relaying;
    } };
}

impl<'a> TableRelay<'a> {
    /// A relay that has read nothing. It accepts messages of 1 to `limit` octets of the type at this index of a table,
    /// by the rules `from`, and writes them by the rules `to`.
    pub fn new(
        alloc: Global,
        types: &'a Types,
        place: usize,
        from: Codec,
        to: Codec,
        limit: usize,
    ) -> TableRelay<'a>
        requires { 1 ≤ limit }
        ensures { result ≡ record {
          nodes = types.now.nodes.items;
          place = place;
          relaying = starting from to limit;
        } }
    {
        TableRelay {
            relay: RelayOf::new(alloc, TableType { types, place }, from, to, limit),
        }
    }

    /// The number of unread octets: those after the last message that was translated.
    pub fn unread_len(&self) -> usize
        ensures { result ≡ length self.now.relaying.unread }
    {
        self.relay.unread_len()
    }

    /// Whether a call of `feed` has failed.
    pub fn has_failed(&self) -> bool
        ensures { result ≡ self.now.relaying.failed }
    {
        self.relay.has_failed()
    }

    /// Accepts the next piece of the stream, appends the translation of each message that is then complete to `out`,
    /// one after another, and keeps the unread octets, at most `limit` of them.
    ///
    /// # Errors
    ///
    /// As for `RelayOf::feed`.
    pub fn feed(&mut self, piece: &[u8], out: &mut Vec<u8>) -> Result<(), RelayFault>
        ensures ok { OnOk result (IsFed (type_at self.old.nodes 128 self.old.place) self.old.relaying
            self.new.relaying piece.now out.old.items out.new.items) }
        ensures only { IfErr result (FaultOf (type_at self.old.nodes 128 self.old.place) self.old.relaying
            self.new.relaying piece.now out.old.items out.new.items) }
        ensures empty { self.old.relaying.failed ≡ false → self.old.relaying.unread ≡ [] → piece.now ≡ []
            → IsOk result }
        ensures nodes { self.new.nodes ≡ self.old.nodes }
        ensures place { self.new.place ≡ self.old.place }
    {
        self.relay.feed(piece, out)
    }

    /// Checks that the stream may end here, with no octets unread. It changes nothing.
    ///
    /// # Errors
    ///
    /// `NoForm` if octets are unread, and `AlreadyFailed` if the relay has stopped.
    pub fn finish(&self) -> Result<(), RelayFault>
        ensures end { IsOk result ↔ ((self.now.relaying.failed ≡ false) × (self.now.relaying.unread ≡ [])) }
        ensures only { IfErr result (λ fault. fault ≡ end_fault self.now.relaying) }
    {
        self.relay.finish()
    }
}
