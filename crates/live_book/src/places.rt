//! The places of a table.

ghost use Rattle.std.specs.Prelude.{◌≡◌, ◌+◌, ◌≤◌, ◌<◌, true, false};
ghost use Rattle.io_caps.specs.declared.limits.TheConstants.{CLIENTS, MOST_OUTPUTS, PLACES};
ghost use Rattle.live_book.specs.Places.{aside_sum, is_aside, may_reserve, none_aside, spent};
ghost use Rattle.live_book.specs.Places.{with_aside};

use io_caps::limits::{CLIENTS, PLACES};
use std::marker::Model;

/// How many places of a table are used, and for which clients some are set aside.
#[derive(Drop)]
pub(crate) struct Places {
    used: u64,
    each: u64,
    /// How many are set aside.
    held: u64,
    aside: [bool; CLIENTS as usize],
}

impl Model for Places {
    ghost use Rattle.std.specs.Prelude.{◌≡◌, length};
    ghost use Rattle.io_caps.specs.declared.limits.TheConstants.{CLIENTS};
    ghost use Rattle.live_book.specs.Places.{PlacesFace, aside_sum};

    ghost Value = { PlacesFace };

    ghost view = { λ p. record { used = p.used; each = p.each; aside = p.aside } };

    ghost invariant = { λ p. (p.held ≡ aside_sum p.each p.aside) × (length p.aside ≡ CLIENTS) };
}

impl Places {
    /// The given number of places is used, and none is set aside.
    pub(crate) fn new(used: u64, each: u64) -> Places
        ensures { result ≡ record { used = used; each = each; aside = none_aside } }
    {
        Places {
            used,
            each,
            held: 0,
            aside: [false; CLIENTS as usize],
        }
    }

    /// Sets places aside for a client's next request, unless they are. False comes exactly where
    /// there are too few; then nothing changes.
    pub(crate) fn reserve(&mut self, client: u8) -> bool
        requires client { client < CLIENTS }
        requires room { self.old.used + aside_sum self.old.each self.old.aside ≤ PLACES }
        requires few { self.old.each ≤ PLACES }
        ensures answer { result ≡ may_reserve self.old client }
        ensures set { result ≡ true → self.new ≡ with_aside self.old client true }
        ensures none { result ≡ false → self.new ≡ self.old }
        ensures there { result ≡ true → is_aside self.new client ≡ true }
    {
        let place = usize::from(client);
        if self.aside[place] {
            return true;
        }
        if self.used + (self.held + self.each) > u64::from(PLACES) {
            return false;
        }
        self.aside[place] = true;
        self.held += self.each;
        true
    }

    /// Drops what is set aside for a client.
    pub(crate) fn release(&mut self, client: u8)
        requires client { client < CLIENTS }
        ensures { self.new ≡ with_aside self.old client false }
    {
        let place = usize::from(client);
        if self.aside[place] {
            self.held -= self.each;
            self.aside[place] = false;
        }
    }

    /// The given number of those set aside for a client is used.
    pub(crate) fn spend(&mut self, client: u8, more: u64)
        requires aside { is_aside self.old client ≡ true }
        requires room { self.old.used + aside_sum self.old.each self.old.aside ≤ PLACES }
        requires few { more ≤ self.old.each }
        ensures { self.new ≡ spent self.old client more }
    {
        self.held -= self.each;
        self.aside[usize::from(client)] = false;
        self.used += more;
    }
}
