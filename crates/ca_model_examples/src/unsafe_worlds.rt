//! What may not happen: each history breaks one part of what is safe, beside a safe one that
//! differs in one place (`specs/Unsafe.antt`).
ghost use Rattle.std.specs.Prelude.{◌∷◌, [], None, false, true};
ghost use Rattle.ca_text.specs.Status.{normal};
ghost use Rattle.ca_dbr.specs.declared.value.Outcome.{Outcome};
ghost use Rattle.ca_dbr.specs.declared.value.Outcome.TheVariants as outcome;
ghost use Rattle.ca_requests.specs.Meaning.{Means};
ghost use Rattle.ca_model.specs.History.{GaveUp, Opened, Update, World};
ghost use Rattle.ca_model.specs.History as history;
ghost use Rattle.ca_model.specs.Origins.{ComeFromEvents};
ghost use Rattle.ca_model_examples.specs.Worlds.{AnyDue, reading, reply, step, temp_name, world};
ghost use Rattle.ca_model_examples.specs.Parts.{BreaksOnly, Holds, IsSafeNow, Part, Acts, Answered};
ghost use Rattle.ca_model_examples.specs.Parts.{AppliedOnce, Asked, AtOne, CameToWait, Caused};
ghost use Rattle.ca_model_examples.specs.Parts.{CompletedOnce};
ghost use Rattle.ca_model_examples.specs.Parts.{DisconnectedOnce, Done, Dropped, Failed, Finished};
ghost use Rattle.ca_model_examples.specs.Parts.{HandledEach, HandledRise, HandledWithin, HeardEach};
ghost use Rattle.ca_model_examples.specs.Parts.{HeardRise, HeardWithin, Live, Lost, Matches};
ghost use Rattle.ca_model_examples.specs.Parts.{Newest, OneAtOnce, OneCall, OneName, OneRecord};
ghost use Rattle.ca_model_examples.specs.Parts.{Own, OwnWrite, Refused, Retired, Rising};
ghost use Rattle.ca_model_examples.specs.Parts.{SeesInOrder, SeesOwn, SentOnce, ShowsPost, Told};
ghost use Rattle.ca_model_examples.specs.Parts.{WasThere};
ghost use Rattle.ca_model_examples.specs.Unsafe.{added_again, both_updated, called_again};
ghost use Rattle.ca_model_examples.specs.Unsafe.{cancelled, closing, created, created_closed};
ghost use Rattle.ca_model_examples.specs.Unsafe.{disconnected, echo, echoed, echoes, fails};
ghost use Rattle.ca_model_examples.specs.Unsafe.{finished, gone, its_step, live, lost, made_23};
ghost use Rattle.ca_model_examples.specs.Unsafe.{made_alarmed, made_gone, made_once, made_twice};
ghost use Rattle.ca_model_examples.specs.Unsafe.{misasked, no_channel, of_created, one_server};
ghost use Rattle.ca_model_examples.specs.Unsafe.{opened, other_name, posted, posted_again, posting};
ghost use Rattle.ca_model_examples.specs.Unsafe.{put_called, put_closing, put_made, put_read};
ghost use Rattle.ca_model_examples.specs.Unsafe.{put_told, put_waits, read_at, read_called};
ghost use Rattle.ca_model_examples.specs.Unsafe.{read_lost, removed_again, rights_for, saw};
ghost use Rattle.ca_model_examples.specs.Unsafe.{sid_given_again, silent, status_of, subscribed};
ghost use Rattle.ca_model_examples.specs.Unsafe.{subscriber, temp_removed, temp_there};
ghost use Rattle.ca_model_examples.specs.Unsafe.{two_of_a_name, uncreated_read, unhandled, unread};
ghost use Rattle.ca_model_examples.specs.Unsafe.{updated, value_21};

/// The parts are those of what is safe, and no more. That the server takes a step only for a
/// message that came is in `Answered` already, so no history breaks it alone.
pub fn the_parts_are_the_whole()
    ensures whole { (w : World) → ((p : Part) → Holds AnyDue p w) → IsSafeNow w }
    ensures parts { (w : World) → IsSafeNow w → (p : Part) → Holds AnyDue p w }
    ensures implied { (w : World) → Holds AnyDue Answered w → Holds AnyDue HandledEach w }
{}

/// A channel is opened once; a record is added once, while no other has its name, and removed
/// while it is there.
pub fn names_are_of_one_record()
    ensures opened { IsSafeNow (silent opened temp_there) }
    ensures opened_twice { BreaksOnly OneName (silent (Opened 0 temp_name ∷ opened) temp_there) }
    ensures two_of_a_name { BreaksOnly OneAtOnce (silent opened two_of_a_name) }
    ensures removed { IsSafeNow (silent opened temp_removed) }
    ensures added_again { BreaksOnly OneRecord (silent opened added_again) }
    ensures removed_again { BreaksOnly WasThere (silent opened removed_again) }
{}

/// A read that was called is one READ_NOTIFY; it is not a WRITE, called twice, never sent, or
/// sent twice.
pub fn a_call_is_sent_once()
    ensures sent { IsSafeNow (unread (reading 0 7 ∷ []) read_called) }
    ensures as_a_write { BreaksOnly Asked (unread (misasked ∷ []) read_called) }
    ensures called_twice { BreaksOnly OneCall (unread (reading 0 7 ∷ []) called_again) }
    ensures never_sent { BreaksOnly SentOnce (unread [] read_called) }
    ensures sent_twice { BreaksOnly AtOne (unread (reading 0 7 ∷ reading 0 8 ∷ []) read_called) }
{}

/// A read is told as disconnected once.
pub fn a_read_completes_once()
    ensures once { IsSafeNow (disconnected (read_lost ∷ [])) }
    ensures twice { BreaksOnly CompletedOnce (disconnected (read_lost ∷ read_lost ∷ [])) }
{}

/// A put on which its server's end closed is made once, with its caller's value and no alarm but
/// the value's own, on a record that is there; not if nobody called it, nor while the server's end
/// is open and did not handle it.
pub fn a_put_is_made_once()
    ensures once { IsSafeNow (put_closing made_once) }
    ensures twice { BreaksOnly AppliedOnce (put_closing made_twice) }
    ensures another_value { BreaksOnly OwnWrite (put_closing made_23) }
    ensures alarmed { BreaksOnly OwnWrite (put_closing made_alarmed) }
    ensures removed_record { BreaksOnly OwnWrite (put_closing made_gone) }
    ensures not_called { BreaksOnly OwnWrite (world (closing ∷ []) opened made_once) }
    ensures not_handled { BreaksOnly OwnWrite (world (unhandled ∷ []) put_called made_once) }
{}

/// A put comes to wait in its step, and not without one, also if its server's end closed. It is
/// dropped if that end closed, and not while it is open. A put is finished once, and only if it
/// made its record busy.
pub fn a_put_ends_once()
    ensures waits { IsSafeNow (put_waits true its_step []) }
    ensures waits_unhandled { BreaksOnly CameToWait (put_waits true [] []) }
    ensures closed { IsSafeNow (put_waits false its_step []) }
    ensures closed_unhandled { BreaksOnly CameToWait (put_waits false [] []) }
    ensures dropped { IsSafeNow (put_waits false its_step (history.Withdrawn 0 1 ∷ [])) }
    ensures dropped_for_nothing { BreaksOnly Dropped
        (put_waits true its_step (history.Withdrawn 0 1 ∷ [])) }
    ensures finished { IsSafeNow (put_closing (finished true [])) }
    ensures finished_twice { BreaksOnly Finished
        (put_closing (finished true (history.Finished 0 0 ∷ []))) }
    ensures finished_unbusy { BreaksOnly Finished (put_closing (finished false [])) }
{}

/// An ECHO is answered once it was handled, in its own step.
pub fn an_echo_is_answered_in_its_step()
    ensures answered { IsSafeNow (echoes (echo ∷ []) (echoed 0 ∷ []) (step 0 0 0 ∷ []) []) }
    ensures invented { BreaksOnly Caused (echoes (echo ∷ []) (echoed 0 ∷ []) [] []) }
    ensures both { IsSafeNow
        (echoes (echo ∷ echo ∷ []) (echoed 0 ∷ echoed 1 ∷ []) (step 0 0 0 ∷ step 1 0 0 ∷ []) []) }
    ensures out_of_step { BreaksOnly Answered
        (echoes (echo ∷ echo ∷ []) (echoed 0 ∷ echoed 1 ∷ []) (step 0 0 0 ∷ step 0 0 0 ∷ []) []) }
{}

/// An end takes a step for a message that came, after what it sent and logged in the steps
/// before.
pub fn steps_are_in_order()
    ensures handled { IsSafeNow (echoes (echo ∷ []) [] (step 0 0 0 ∷ []) []) }
    ensures handled_after_unsent { BreaksOnly HandledWithin
        (echoes (echo ∷ []) [] (step 1 0 0 ∷ []) []) }
    ensures logged { IsSafeNow (echoes (echo ∷ echo ∷ []) [] (step 0 0 1 ∷ step 0 1 1 ∷ []) []) }
    ensures logged_by_two { BreaksOnly HandledRise
        (echoes (echo ∷ echo ∷ []) [] (step 0 0 1 ∷ step 0 0 1 ∷ []) []) }
    ensures heard { IsSafeNow
        (echoes (echo ∷ []) (echoed 0 ∷ []) (step 0 0 0 ∷ []) (step 1 0 0 ∷ [])) }
    ensures heard_unsent { BreaksOnly HeardEach
        (echoes (echo ∷ []) (echoed 0 ∷ []) (step 0 0 0 ∷ []) (step 1 0 0 ∷ step 1 0 0 ∷ [])) }
    ensures heard_after_unsent { BreaksOnly HeardWithin
        (echoes (echo ∷ []) (echoed 0 ∷ []) (step 0 0 0 ∷ []) (step 2 0 0 ∷ [])) }
    ensures heard_backwards { BreaksOnly HeardWithin
        (echoes (echo ∷ []) (echoed 0 ∷ []) (step 0 0 0 ∷ []) (step 1 1 0 ∷ [])) }
    ensures both_heard { IsSafeNow
        (echoes (echo ∷ echo ∷ []) (echoed 0 ∷ echoed 1 ∷ []) (step 0 0 0 ∷ step 1 0 0 ∷ [])
        (step 2 0 0 ∷ step 2 0 0 ∷ [])) }
    ensures heard_back { BreaksOnly HeardRise
        (echoes (echo ∷ echo ∷ []) (echoed 0 ∷ echoed 1 ∷ []) (step 0 0 0 ∷ step 1 0 0 ∷ [])
        (step 2 0 0 ∷ step 1 0 0 ∷ [])) }
{}

/// A live channel's record is there, or its SERVER_DISCONN is unread; that has a cause, and is
/// sent once.
pub fn a_live_channel_has_its_record()
    ensures live { IsSafeNow (of_created (created [] (step 1 1 1 ∷ [])) [] temp_there) }
    ensures live_on_nothing { BreaksOnly Live
        (of_created (created [] (step 1 1 1 ∷ [])) [] temp_removed) }
    ensures live_after_gone { BreaksOnly Live
        (of_created (created (gone ∷ []) (step 1 1 1 ∷ step 1 1 1 ∷ [])) [] temp_removed) }
    ensures gone { IsSafeNow (of_created (created (gone ∷ []) []) [] temp_removed) }
    ensures gone_for_nothing { BreaksOnly Caused
        (of_created (created (gone ∷ []) []) [] temp_there) }
    ensures gone_twice { BreaksOnly DisconnectedOnce
        (of_created (created (gone ∷ gone ∷ []) []) [] temp_removed) }
{}

/// A channel is told live once its creation's reply was read, and lost once it was live;
/// ACCESS_RIGHTS have its own CID.
pub fn a_notice_is_of_its_own_message()
    ensures live { IsSafeNow
        (of_created (created_closed (step 1 1 2 ∷ [])) (live ∷ []) temp_there) }
    ensures unread { BreaksOnly Told (of_created (created_closed []) (live ∷ []) temp_there) }
    ensures lost { IsSafeNow
        (of_created (created_closed (step 1 1 2 ∷ [])) (live ∷ lost ∷ []) temp_there) }
    ensures lost_before_live { BreaksOnly Lost
        (of_created (created_closed (step 1 1 2 ∷ [])) (lost ∷ []) temp_there) }
    ensures rights { IsSafeNow (of_created (rights_for 1) [] temp_there) }
    ensures rights_of_another { BreaksOnly Own (of_created (rights_for 2) [] temp_there) }
{}

/// A read is handled on the record of its channel's name. BADCHID answers it once that was
/// removed, and only then.
pub fn a_read_is_of_the_record_that_its_channel_names()
    ensures answered { IsSafeNow (of_created (read_at 1 value_21) [] temp_removed) }
    ensures of_another { BreaksOnly Acts
        (world (read_at 1 value_21 ∷ []) (Opened 0 other_name ∷ []) temp_removed) }
    ensures uncreated { BreaksOnly Acts (of_created uncreated_read [] temp_there) }
    ensures sid_given_again { Holds AnyDue Acts sid_given_again → ⊥ }
    ensures refused { IsSafeNow (of_created (read_at 2 no_channel) [] temp_removed) }
    ensures refused_too_soon { BreaksOnly Retired
        (of_created (read_at 1 no_channel) [] temp_removed) }
    ensures not_refused { BreaksOnly Refused (of_created (read_at 2 value_21) [] temp_removed) }
{}

/// A put that is told Done was made; one that is told Failed was not.
pub fn a_put_is_told_as_it_went()
    ensures done { IsSafeNow
        (world (put_read (status_of normal) 2 ∷ []) (put_told outcome.Done) put_made) }
    ensures failed { IsSafeNow
        (world (put_read (status_of 160) 1 ∷ []) (put_told fails) temp_there) }
    ensures done_unmade { BreaksOnly Done
        (world (put_read (status_of normal) 1 ∷ []) (put_told outcome.Done) temp_there) }
    ensures failed_made { BreaksOnly Failed
        (world (put_read (status_of 160) 2 ∷ []) (put_told fails) put_made) }
{}

/// The updates of an EVENT_ADD rise, are of posts that there are, show them, and have the newest
/// while its record is there. One that a reply refused has none.
pub fn updates_follow_their_record()
    ensures followed { IsSafeNow (of_created (subscribed (updated 0 21 ∷ []) []) [] temp_there) }
    ensures repeated { BreaksOnly Rising
        (of_created (subscribed (updated 0 21 ∷ updated 0 21 ∷ []) []) [] temp_there) }
    ensures of_no_post { BreaksOnly Matches
        (of_created (subscribed (updated 0 21 ∷ []) ((1, Update 1) ∷ [])) [] temp_there) }
    ensures another_value { BreaksOnly ShowsPost
        (of_created (subscribed (updated 0 22 ∷ []) []) [] temp_there) }
    ensures none { BreaksOnly Newest (of_created (subscribed [] []) [] temp_there) }
    ensures removed { IsSafeNow (of_created (subscribed [] []) [] temp_removed) }
    ensures refused { BreaksOnly Caused
        (of_created (subscribed (reply 1 (updated 0 21).message ∷ updated 0 21 ∷ []) []) []
        temp_there) }
    ensures cancelled { IsSafeNow (of_created (cancelled 9) [] temp_there) }
    ensures confirmed_another { BreaksOnly Own (of_created (cancelled 8) [] temp_there) }
{}

/// An update that is told was read, and the one before it was told. The outcomes are those of the
/// updates.
pub fn a_subscriber_sees_each_update()
    ensures seen { (o : Outcome) → Means (updated 0 21).message o → IsSafeNow
        (of_created (subscriber (updated 0 21 ∷ []) (step 1 1 1 ∷ step 2 1 2 ∷ [])) (saw o ∷ [])
        temp_there) }
    ensures unread { (o : Outcome) → BreaksOnly SeesOwn
        (of_created (subscriber (updated 0 21 ∷ []) (step 1 1 1 ∷ [])) (saw o ∷ []) temp_there) }
    ensures all_seen { (o p : Outcome) → Means (updated 0 21).message o
        → Means (updated 1 22).message p → IsSafeNow
        (of_created both_updated (saw o ∷ saw p ∷ []) posted) }
    ensures passed_over { (p : Outcome) → Means (updated 1 22).message p → BreaksOnly SeesInOrder
        (of_created both_updated (GaveUp 0 None ∷ saw p ∷ []) posted) }
{}

/// A post in a server's log is from an event of its own, which posts that value.
pub fn a_post_comes_from_an_event()
    ensures posted { ComeFromEvents one_server (posting 22 ∷ []) (posted ∷ []) }
    ensures unposted { ComeFromEvents one_server [] (posted ∷ []) → ⊥ }
    ensures another_value { ComeFromEvents one_server (posting 23 ∷ []) (posted ∷ []) → ⊥ }
    ensures twice { ComeFromEvents one_server (posting 22 ∷ []) (posted_again ∷ []) → ⊥ }
{}
