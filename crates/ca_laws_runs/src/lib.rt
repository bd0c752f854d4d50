//! Laws of runs: every run is safe and legal (`runs_are_safe`), and what that is built on.
//!
//! First what is held of all circuits, over every run: the ids in flight, the clients' tables, the
//! SIDs under which clients speak, what servers keep for circuits, and what became of each
//! message. Then how all that follows the log of a server's life: what a server counts for a
//! subscription, the numbers of its updates, which record each message acts on; and the clauses of
//! the promise, one by one.
#![tactic(auto)]

mod act_laws;
mod answer_laws;
mod answered_laws;
mod await_laws;
mod cause_laws;
mod complete_laws;
mod follow_laws;
mod full_laws;
mod gone_laws;
mod heard_laws;
mod held_laws;
mod id_laws;
mod knew_laws;
mod late_laws;
mod legal_laws;
mod live_laws;
mod name_laws;
mod once_laws;
mod order_laws;
mod post_laws;
mod promise_laws;
mod refused_laws;
mod sent_laws;
mod sid_laws;
mod step_laws;
mod told_laws;
mod write_laws;

pub use act_laws::{
    a_channel_is_opened_once, channels_are_created_for_their_records, live_channels_are_open,
    messages_act_on_the_record_that_is_named,
};
pub use answer_laws::{
    messages_have_their_causes, servers_know_their_records, what_stands_was_not_ended,
};
pub use answered_laws::{messages_are_answered, messages_are_answered_as_is_due};
pub use await_laws::puts_wait_for_records;
pub use cause_laws::{channels_are_removed_once, messages_come_after_what_they_are_about};
pub use complete_laws::{
    callers_are_told_what_became_of_their_writes, calls_complete_once, creations_are_told,
    live_channels_were_not_lost, lost_channels_were_live, notices_are_told_of_their_own,
    requests_are_told_of_their_own, uses_are_told_of_once,
};
pub use follow_laws::{
    follows_record_in_runs, listed_records_are_there, what_was_added_stands_or_is_over,
    what_was_sent_shows_its_posts,
};
pub use full_laws::servers_know_when_they_are_full;
pub use gone_laws::retired_channels_lost_their_records;
pub use heard_laws::{
    each_notice_tells_of_its_own_message, what_is_held_by_what_servers_take,
    what_is_read_is_about_what_it_finds, what_was_sent_is_as_channels_are,
};
pub use held_laws::{
    all_circuits_are_held, clients_go_by_their_sids, messages_mean_their_own,
    what_clients_take_is_told_of_its_own, what_servers_take_is_handled_as_it_was_meant,
};
pub use id_laws::clients_give_free_ids;
pub use knew_laws::{
    servers_keep_their_settings, servers_know_their_channels, servers_know_their_keys,
    servers_know_their_peers,
};
pub use late_laws::late_replies_are_those_due;
pub use legal_laws::{
    accepted_subscriptions_were_sent, clients_cancel_what_was_added,
    clients_send_on_channels_that_they_have, ended_subscriptions_are_not_added,
    live_channels_are_subscribed_to, live_subscriptions_are_held_by_logs,
    live_subscriptions_were_added, servers_confirm_at_once, servers_disconnect_open_channels,
    servers_give_free_sids, subscriptions_are_added_apart,
    subscriptions_were_held_as_they_were_added, what_a_client_sends_was_called,
};
pub use live_laws::{
    live_channels_have_their_records, servers_act_on_records, what_lost_its_record_is_cleared,
};
pub use name_laws::{entries_come_from_events, names_are_kept, records_keep_their_names};
pub use once_laws::{a_call_is_accepted_once, a_request_is_at_one_place, what_was_called_was_sent};
pub use order_laws::{circuits_join_lives, steps_are_in_order, steps_of_servers_are_in_order};
pub use post_laws::{subscriptions_follow_their_posts, what_stands_follows_its_record};
pub use promise_laws::{
    each_answer_is_its_own_requests, each_message_is_answered, runs_are_safe, what_is_sent_is_legal,
};
pub use refused_laws::{bad_channels_lost_their_records, channels_of_removed_records_are_bad};
pub use sent_laws::{
    clients_go_by_their_channels, servers_send_what_they_may, servers_tell_of_removals,
    servers_update_what_stands,
};
pub use sid_laws::{
    a_message_is_handled_as_it_was_meant, created_channels_are_open_or_cleared,
    what_clients_say_grows, writes_are_handled_on_their_channel,
};
pub use step_laws::{
    a_servers_step_keeps_what_is_held, events_keep_what_is_held, open_channels_were_told,
    puts_came_on_their_channels, replies_answer_their_kind, what_is_awaited_is_kept,
    what_is_held_in_runs, what_is_held_is_what_was_meant,
};
pub use told_laws::{
    channels_and_subscriptions_are_told_of_their_own, subscribers_see_their_updates,
    updates_are_told_of_their_own,
};
pub use write_laws::{
    what_is_applied_is_what_callers_gave, writes_are_not_made_twice,
    writes_are_of_the_record_that_is_named, writes_carry_what_callers_gave,
};
