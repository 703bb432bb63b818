//! A client's pass, and what publisher and clients tell each other of what they have seen.

ghost use Rattle.std.specs.Prelude.{◌≡◌};
ghost use Rattle.claim_rule.specs.Views.{note, noted};
ghost use Rattle.claim_word.specs.Faces.{IsClientOf, IsPublisherOf};
ghost use Rattle.claim_word.specs.States.{IsState, having_seen};

use crate::publisher::Publisher;
use crate::span::Span;
use crate::state::State;
use crate::table::ClaimTable;
use atomic_table::Seat;
use claim_rule::{Notes, NotesIn, Sees, View};
use map_entry::Entries;
use std::marker::Model;

/// A client's pass, which knows the states that it saw and those of which it was told.
#[derive(Drop)]
pub struct ClientPass {
    pub(crate) seat: Seat<Entries, View>,
    pub(crate) span: Span,
}

impl Model for ClientPass {
    ghost use Rattle.std.specs.Prelude.{◌≡◌, []};
    ghost use Rattle.claim_word.specs.Faces.{ClientFace};
    ghost use Rattle.claim_word.specs.Passes.{IsClient};

    ghost Value = { ClientFace };

    ghost view = { λ p. record { id = p.seat.table_id; view = p.seat.me.0 } };

    ghost invariant = { λ p. IsClient p.seat.me.0 p.span × (p.seat.me.1 ≡ []) };
}

impl ClientPass {
    /// Looks at the table, by one load. The state is not below what the pass saw, nor what it was
    /// told.
    pub fn load(&mut self, table: &ClaimTable) -> State
        requires { IsClientOf table.now self.old }
        ensures pass { self.new ≡ record self.old { view = having_seen self.old.view result } }
        ensures of { IsClientOf table.now self.new }
        ensures state { IsState self.old.view result }
    {
        let word = table.table.shared.load::<Sees>(&mut self.seat, 0);
        self.span.state(word)
    }

    /// Is told of all that the publisher has seen.
    pub fn hear(&mut self, table: &ClaimTable, publisher: &mut Publisher)
        requires pass { IsClientOf table.now self.old }
        requires publisher { IsPublisherOf table.now publisher.old }
        ensures pass { self.new ≡ record self.old
            { view = noted self.old.view (note publisher.old.view) } }
        ensures of { IsClientOf table.now self.new }
        ensures publisher { publisher.new ≡ publisher.old }
    {
        let shared = &table.table.shared;
        let told = shared.split_seat::<Notes>(&mut publisher.seat);
        shared.join_seat::<NotesIn>(&mut self.seat, told);
    }
}

impl Publisher {
    /// Is told of all that a client has seen.
    pub fn hear(&mut self, table: &ClaimTable, pass: &mut ClientPass)
        requires publisher { IsPublisherOf table.now self.old }
        requires pass { IsClientOf table.now pass.old }
        ensures publisher { self.new ≡ record self.old
            { view = noted self.old.view (note pass.old.view) } }
        ensures of { IsPublisherOf table.now self.new }
        ensures pass { pass.new ≡ pass.old }
    {
        let shared = &table.table.shared;
        let told = shared.split_seat::<Notes>(&mut pass.seat);
        shared.join_seat::<NotesIn>(&mut self.seat, told);
    }
}
