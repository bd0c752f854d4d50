//! Histories that are safe although they look odd: crossing updates, a record that comes back, a
//! put that outlasts its client. Those that break a part are in `unsafe_worlds.rt`.
ghost use Rattle.ca_dbr.specs.declared.value.Outcome.{Outcome};
ghost use Rattle.ca_wire.specs.Fields.{Fields};
ghost use Rattle.ca_model.specs.Known.{IsSafe};
ghost use Rattle.ca_model.specs.Headline.{ActsOnRecord};
ghost use Rattle.ca_model.specs.Legal.{Legal};
ghost use Rattle.ca_requests.specs.Meaning.{Means};
ghost use Rattle.ca_model.specs.Updates.{Shows};
ghost use Rattle.ca_model_examples.specs.Worlds.{AnyDue, ports, rules};
ghost use Rattle.ca_model_examples.specs.Moved.{moved_world};
ghost use Rattle.ca_model_examples.specs.Safe.{SeesCrossed, first_update, reopened_world};
ghost use Rattle.ca_model_examples.specs.Safe.{shared_id, unread, unread_entries, unread_lines};
ghost use Rattle.ca_model_examples.specs.Safe.{used_world};
ghost use Rattle.ca_model_examples.specs.Waited.{waited_world};

/// A channel on which a put was done, a read answered and an update sent is safe, with all that was
/// due.
pub fn a_channel_in_use_is_safe()
    ensures { IsSafe ports rules used_world }
{}

/// Updates of two circuits may be reported in the order in which they were read, also if the later
/// circuit's came first.
pub fn updates_of_two_circuits_may_cross()
    ensures { (m : Fields) (o p : Outcome) → SeesCrossed m o p }
{}

/// A channel whose record was removed is live at its client until the client reads the
/// SERVER_DISCONN: the server still acts on the
/// record that it names.
pub fn a_channel_is_live_until_its_disconnection_is_read()
    ensures { ActsOnRecord AnyDue Shows Means 0 unread unread_lines unread_entries }
{}

/// An id that is given again while it may still come back is illegal at once, and safe as long as
/// no message speaks of it.
pub fn a_shared_id_is_safe_but_not_legal()
    ensures safe { IsSafe ports rules shared_id }
    ensures illegal { Legal shared_id → ⊥ }
{}

/// A channel whose record is removed and added again is created twice on one circuit under one SID,
/// and its subscription goes out
/// twice under one id: that is safe, with all that was due, and legal. The outcome is that of the
/// first update.
pub fn a_channel_that_comes_back_is_safe_and_legal()
    ensures safe { (o : Outcome) → Means (first_update 1 21).message o
        → IsSafe ports rules (reopened_world o) }
    ensures legal { (o : Outcome) → Legal (reopened_world o) }
{}

/// A channel is live and subscribed on circuit 1, which ends; it is found again at another server,
/// on circuit 0, and is created and subscribed
/// there under the same ids, so that the updates of circuit 1 come first in the log. That is safe,
/// with all that was due, and legal.
/// The outcomes are those of the two updates.
pub fn a_channel_that_moves_to_an_earlier_circuit_is_safe_and_legal()
    ensures safe { (o p : Outcome) → Means (first_update 1 7).message o
        → Means (first_update 1 5).message p → IsSafe ports rules (moved_world o p) }
    ensures legal { (o p : Outcome) → Legal (moved_world o p) }
{}

/// A put waits for a slow record while its client begins again. The put that made the record busy
/// is finished, and the put that waited
/// is applied, once; no caller is told of either. That is safe, with all that was due, and legal.
pub fn a_put_that_waited_is_applied_after_its_client_began_again()
    ensures safe { IsSafe ports rules waited_world }
    ensures legal { Legal waited_world }
{}
