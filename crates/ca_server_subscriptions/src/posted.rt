//! What a post brings to the subscriptions of a circuit.
ghost use Rattle.std.specs.Prelude.{◌≡◌, ◌≤◌, option_map};
ghost use Rattle.std.specs.Arc.{arc_value};
ghost use Rattle.ca_text.specs.Limits.{element_limit};
ghost use Rattle.ca_dbr.specs.Elements.{count_of};
ghost use Rattle.ca_server_subscriptions.specs.Sharing.{IsCopy};

use crate::shared_update::SharedUpdate;
use ca_dbr::Meta;
use ca_display::Held;
use std::marker::Model;
use std::sync::Arc;

/// What a record holds as it is posted, with its alarm and its time stamp, and the copy of it that
/// the circuits share, if there is one.
#[derive(Drop)]
pub struct Posted<'a> {
    held: &'a Held,
    meta: &'a Meta,
    shared: &'a Option<Arc<SharedUpdate>>,
}

impl<'a> Model for Posted<'a> {
    ghost use Rattle.ca_model.specs.Speech.{Stored};

    ghost Value = { Stored };

    ghost use Rattle.std.specs.Coded.{codes};
    ghost use Rattle.ca_dbr.specs.Codes.{elements_code};

    ghost coded = { Prim.hlevel (codes, elements_code) };

    ghost use Rattle.std.specs.Prelude.{◌≤◌, option_map};
    ghost use Rattle.std.specs.Arc.{arc_value};
    ghost use Rattle.ca_text.specs.Limits.{element_limit};
    ghost use Rattle.ca_dbr.specs.Elements.{count_of};
    ghost use Rattle.ca_server_subscriptions.specs.Sharing.{IsCopy};

    ghost view = { λ p. record { value = p.held.now; meta = p.meta.now } };

    ghost invariant = { λ p. (count_of p.held.now ≤ element_limit)
        × IsCopy (record { value = p.held.now; meta = p.meta.now })
        (option_map arc_value p.shared.now) };
}

impl<'a> Posted<'a> {
    /// This, and the copy of it that is shared.
    pub fn of(held: &'a Held, meta: &'a Meta, shared: &'a Option<Arc<SharedUpdate>>) -> Posted<'a>
        requires few { count_of held.now ≤ element_limit }
        requires same { IsCopy (record { value = held.now; meta = meta.now })
            (option_map arc_value shared.now) }
        ensures { result ≡ record { value = held.now; meta = meta.now } }
    {
        Posted { held, meta, shared }
    }

    // What the record holds.
    pub(crate) fn held(&self) -> &Held
        ensures held { result.now ≡ self.now.value }
        ensures limit { count_of self.now.value ≤ element_limit }
    {
        self.held
    }

    // Its alarm and its time stamp.
    pub(crate) fn meta(&self) -> &Meta
        ensures { result.now ≡ self.now.meta }
    {
        self.meta
    }

    // The copy that is shared, if there is one.
    pub(crate) fn shared(&self) -> &Option<Arc<SharedUpdate>>
        ensures copy { IsCopy self.now (option_map arc_value result.now) }
        ensures limit { count_of self.now.value ≤ element_limit }
    {
        self.shared
    }
}
