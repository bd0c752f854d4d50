//! What an end may not send: each history breaks one part of what is legal, beside a legal one that
//! differs in one place (`specs/Illegal.antt`).
ghost use Rattle.std.specs.Prelude.{◌∷◌, [], false, true};
ghost use Rattle.ca_model.specs.History.{Nothing, Opened, ToRead, ToWatch, World};
ghost use Rattle.ca_model.specs.Legal.{Legal};
ghost use Rattle.ca_model_examples.specs.Worlds.{putting, clearing, adding, created_told};
ghost use Rattle.ca_model_examples.specs.Worlds.{creating, disconnected, reading, step, world};
ghost use Rattle.ca_model_examples.specs.Parts.{Anew, Apart, Cancels, Confirmations, Disconnects};
ghost use Rattle.ca_model_examples.specs.Parts.{Ended, HasAdd, HasCall, Ids, MaySend, OnChannel};
ghost use Rattle.ca_model_examples.specs.Parts.{IdsApart, Sending};
ghost use Rattle.ca_model_examples.specs.Parts.{SendsWrong, Sids, ToldRemoved, Updates};
ghost use Rattle.ca_model_examples.specs.Unsafe.{cancelling, opened, temp_removed, temp_there};
ghost use Rattle.ca_model_examples.specs.Unsafe.{updated};
ghost use Rattle.ca_model_examples.specs.Illegal.{added_again, both_asked, both_created, called_at};
ghost use Rattle.ca_model_examples.specs.Illegal.{called_in, calls, cancel_called, clears_lost};
ghost use Rattle.ca_model_examples.specs.Illegal.{confirm_out, created_read, write_called};
ghost use Rattle.ca_model_examples.specs.Illegal.{goes_out, live_again, read_out, reads_out, alone};
ghost use Rattle.ca_model_examples.specs.Illegal.{writing, unasked, sent_in, subscribed_in};
ghost use Rattle.ca_model_examples.specs.Illegal.{added_after, asked_after, never_cleared};
ghost use Rattle.ca_model_examples.specs.Illegal.{cancelled_between, echo_first, reread_after};
ghost use Rattle.ca_model_examples.specs.Illegal.{refused_out};
ghost use Rattle.ca_model_examples.specs.Illegal.{read_for, two_circuits, watch_for};
ghost use Rattle.ca_model_examples.specs.Illegal.{told_closed, told_so, uncalled_in, update_out};

/// The parts are those of what is legal, and no more.
pub fn the_parts_are_all_that_is_legal()
    ensures whole { (w : World) → ((p : Sending) → MaySend p w) → Legal w }
    ensures parts { (w : World) → Legal w → (p : Sending) → MaySend p w }
{}

/// A read goes out once it was called and the creation's reply was read; a cancel is for an
/// EVENT_ADD; and two ids of a kind that are in use have two indexes. A reply that was read before
/// the read was sent frees no id, nor does a confirmation that was read before the cancel was sent,
/// nor the reply to a clear that was not sent by then, whatever else was.
pub fn what_a_client_may_send()
    ensures read { Legal (sent_in (read_out (created_read ∷ []))) }
    ensures read_uncalled { SendsWrong HasCall (uncalled_in (read_out (created_read ∷ []))) }
    ensures read_too_soon { SendsWrong OnChannel (sent_in (read_out [])) }
    ensures put_alone { SendsWrong OnChannel (sent_in (alone (putting 0 8 22))) }
    ensures write_alone { SendsWrong OnChannel (sent_in (alone writing)) }
    ensures add_alone { SendsWrong OnChannel (sent_in (alone (adding 0 9))) }
    ensures clear_alone { SendsWrong OnChannel (sent_in (alone clearing)) }
    ensures subs_shared { SendsWrong Ids (sent_in (goes_out (adding 0 9 ∷ adding 1 9 ∷ []))) }
    ensures unasked { SendsWrong OnChannel (sent_in unasked) }
    ensures cancel { Legal (sent_in (goes_out (adding 0 9 ∷ cancelling ∷ []))) }
    ensures cancel_of_nothing { SendsWrong Cancels (sent_in (goes_out (cancelling ∷ []))) }
    ensures ids { Legal (sent_in (both_asked 2)) }
    ensures reads { Legal (sent_in (reads_out 8)) }
    ensures id_reused { SendsWrong Ids (sent_in (reads_out 7)) }
    ensures id_shared { SendsWrong Ids (sent_in (both_asked 1)) }
    ensures answered { Legal (sent_in (reread_after 2)) }
    ensures answered_before { SendsWrong Ids (sent_in (reread_after 1)) }
    ensures cancelled { Legal (sent_in (added_after 3)) }
    ensures confirmed_before { SendsWrong Ids (sent_in (added_after 2)) }
    ensures cleared { Legal (sent_in (asked_after 2)) }
    ensures cleared_before { SendsWrong Ids (sent_in (asked_after 1)) }
    ensures never_cleared { SendsWrong Ids (sent_in never_cleared) }
{}

/// What goes out for a channel was called: a write with its value, a cancel, a clear, unless it
/// answers a SERVER_DISCONN; and a channel is created under the name under which it was opened.
pub fn what_goes_out_was_called()
    ensures write { Legal (called_in (write_called 22) (goes_out (writing ∷ []))) }
    ensures write_of_another_value { SendsWrong HasCall
        (called_in (write_called 23) (goes_out (writing ∷ []))) }
    ensures cancel { Legal (sent_in (goes_out (adding 0 9 ∷ cancelling ∷ []))) }
    ensures cancel_uncalled { SendsWrong HasCall
        (called_in (calls (creating ∷ adding 0 9 ∷ []))
        (goes_out (adding 0 9 ∷ cancelling ∷ []))) }
    ensures clear { Legal (sent_in (goes_out (clearing ∷ []))) }
    ensures clear_uncalled { SendsWrong HasCall (uncalled_in (goes_out (clearing ∷ []))) }
    ensures clear_answers { Legal (uncalled_in (clears_lost (created_read ∷ created_read ∷ []))) }
    ensures clear_too_soon { SendsWrong HasCall (uncalled_in (clears_lost (created_read ∷ []))) }
    ensures create { Legal (called_in opened (alone creating)) }
    ensures create_under_another_name { SendsWrong HasCall
        (called_in (Opened 0 (84 ∷ []) ∷ []) (alone creating)) }
{}

/// A read goes out for the type and the count that its call asked for, and a subscription also by
/// its mask.
pub fn what_goes_out_asks_for_what_its_call_did()
    ensures read { Legal (called_in (read_for (ToRead 5 1)) (goes_out (reading 0 7 ∷ []))) }
    ensures read_of_another_type { SendsWrong HasCall
        (called_in (read_for (ToRead 6 1)) (goes_out (reading 0 7 ∷ []))) }
    ensures read_of_another_count { SendsWrong HasCall
        (called_in (read_for (ToRead 5 2)) (goes_out (reading 0 7 ∷ []))) }
    ensures read_for_nothing { SendsWrong HasCall
        (called_in (read_for Nothing) (goes_out (reading 0 7 ∷ []))) }
    ensures add { Legal (called_in (watch_for (ToWatch 5 1 1)) (goes_out (adding 0 9 ∷ []))) }
    ensures add_of_another_type { SendsWrong HasCall
        (called_in (watch_for (ToWatch 6 1 1)) (goes_out (adding 0 9 ∷ []))) }
    ensures add_of_another_count { SendsWrong HasCall
        (called_in (watch_for (ToWatch 5 2 1)) (goes_out (adding 0 9 ∷ []))) }
    ensures add_by_another_mask { SendsWrong HasCall
        (called_in (watch_for (ToWatch 5 1 4)) (goes_out (adding 0 9 ∷ []))) }
{}

/// Two ids of one index are not in use on two circuits of one client whose ends there are open. Two
/// of two indexes may be, whatever goes out before.
pub fn ids_are_in_use_on_one_circuit()
    ensures apart { Legal (two_circuits 2 true) }
    ensures apart_later { Legal echo_first }
    ensures shared { SendsWrong IdsApart (two_circuits 1 true) }
    ensures ended { Legal (two_circuits 1 false) }
{}

/// Two open channels have two SIDs; an update is for an EVENT_ADD that was read and not refused,
/// and a confirmation for an EVENT_CANCEL that was read; and a channel that was created has a
/// SERVER_DISCONN once.
pub fn what_a_server_may_send()
    ensures sids { Legal (sent_in (both_created 6)) }
    ensures sid_shared { SendsWrong Sids (sent_in (both_created 5)) }
    ensures update { Legal (sent_in (update_out (step 0 0 0 ∷ step 1 0 0 ∷ []))) }
    ensures update_too_soon { SendsWrong Updates (sent_in (update_out (step 0 0 0 ∷ []))) }
    ensures refused { Legal (sent_in (refused_out [])) }
    ensures update_of_refused { SendsWrong Updates (sent_in (refused_out (updated 0 21 ∷ []))) }
    ensures confirmation { Legal
        (sent_in (confirm_out (step 0 0 0 ∷ step 1 0 0 ∷ step 1 0 0 ∷ []))) }
    ensures confirmation_too_soon { SendsWrong Confirmations
        (sent_in (confirm_out (step 0 0 0 ∷ step 1 0 0 ∷ []))) }
    ensures gone { Legal (sent_in (told_so (created_told ∷ disconnected ∷ []))) }
    ensures gone_uncreated { SendsWrong Disconnects (sent_in (told_so (disconnected ∷ []))) }
    ensures gone_twice { SendsWrong Disconnects
        (sent_in (told_so (created_told ∷ disconnected ∷ disconnected ∷ []))) }
{}

/// A channel whose record is removed has its SERVER_DISCONN, unless its server's end closed.
pub fn what_must_be_sent()
    ensures closed { Legal (world (told_closed (created_told ∷ []) ∷ []) opened temp_removed) }
    ensures untold { SendsWrong ToldRemoved
        (world (told_so (created_told ∷ []) ∷ []) opened temp_removed) }
{}

/// A subscription has an EVENT_ADD if it was called, and only then: one for each creation of its
/// channel after which that is live, and none once it was cancelled, also if the channel is live
/// again.
pub fn a_subscription_has_one_event_add()
    ensures two { Legal (sent_in (goes_out (adding 0 9 ∷ adding 1 10 ∷ []))) }
    ensures uncalled { SendsWrong HasCall
        (uncalled_in (goes_out (adding 0 9 ∷ adding 1 10 ∷ []))) }
    ensures one_twice { SendsWrong Apart (sent_in (goes_out (adding 0 9 ∷ adding 0 10 ∷ []))) }
    ensures called { Legal (subscribed_in (called_at 1 (adding 1 9 ∷ []))) }
    ensures unsent { SendsWrong HasAdd (subscribed_in (called_at 1 [])) }
    ensures cancelled_later { Legal
        (world (called_at 2 (adding 1 9 ∷ []) ∷ []) cancel_called temp_there) }
    ensures cancelled_before { SendsWrong Ended
        (world (called_at 3 (adding 1 9 ∷ []) ∷ []) cancel_called temp_there) }
    ensures again { Legal (subscribed_in (live_again (added_again ∷ []))) }
    ensures not_again { SendsWrong Anew (subscribed_in (live_again [])) }
    ensures cancelled_between { Legal (world (cancelled_between ∷ []) cancel_called temp_there) }
{}
