//! Laws of the parts of a world: what each call, message and event keeps of one circuit, of the
//! records and the log of a server, of the updates of a subscription, and of the bytes between two
//! ends; and what one core alone sends.
//!
//! - Updates: what their numbers say of what a subscriber saw, and what a queue does to them.
//! - Writes: the records of a server beside the log of its life, in which each write is applied
//!   once and as it came.
//! - One circuit: what the ids in flight mean as its two lists grow, what a client's tables
//!   hold of it, and for which of a client's messages a server may still send others; and that
//!   each event keeps it.
//! - Bytes: what an end of a circuit takes next is the next message that was sent to it.
//! - One core alone, with any peer: over any row of its calls, with any answers and any bytes that
//!   come, what it sends is legal, said by the ids in its messages.
#![tactic(auto)]

mod byte_laws;
mod calm;
mod channel_laws;
mod circuit;
mod circuits;
mod client_calls;
mod client_laws;
mod kept;
mod other_laws;
mod sending;
mod server_calls;
mod update_laws;
mod write_laws;
mod writes_in_runs;
mod written;

pub use byte_laws::{a_client_sends_messages, bytes_are_messages_in_runs, ends_take_what_was_sent};
pub use calm::calm_events_keep_each_circuit;
pub use channel_laws::{
    a_clear_before_live_keeps_what_is_held, a_created_channel_keeps_what_is_held,
    a_new_circuit_holds_what_it_creates, a_refusal_keeps_what_is_held,
    a_servers_events_keep_what_is_held, a_write_keeps_what_is_held,
    other_circuits_keep_what_is_held,
};
pub use circuit::{
    a_clear_keeps_what_is_held, a_request_keeps_what_is_held, a_servers_events_keep_meanings,
    an_id_is_free_again, due_replies_speak_of_their_message, ids_mean_their_own,
    requests_hold_their_ids, sids_mean_their_channel,
    subscriptions_and_creations_keep_what_is_held, tables_hold_what_was_put_there,
    what_ends_keeps_what_is_held, what_is_read_keeps_what_is_held, what_is_told_speaks_of_its_own,
};
pub use circuits::{
    a_clients_step_keeps_each_circuit, a_servers_step_keeps_each_circuit, calls_keep_each_circuit,
    moves_keep_each_circuit,
};
pub use client_calls::{
    a_clients_steps_are_those_of_rows, what_a_client_sends_is_legal, which_call_sends_what,
};
pub use client_laws::clients_stand_in_runs;
pub use kept::{
    calm_events_keep_what_is_held, channels_are_those_that_were_created,
    finishes_keep_what_is_held, removals_keep_what_is_held, steps_keep_what_others_hold,
    updates_keep_what_is_held, what_is_kept_was_kept, what_stands_came_by_messages,
};
pub use other_laws::{a_clients_life_keeps_each_circuit, quiet_events_keep_each_circuit};
pub use sending::{a_server_sends_messages, servers_send_messages_in_runs};
pub use server_calls::{a_servers_steps_are_those_of_rows, what_a_server_sends_is_legal};
pub use update_laws::{
    a_queue_keeps_numbers_rising, a_subscriber_sees_posts, a_subsequence_begins_with_one,
    an_end_and_its_circuit_stay_in_step, values_and_numbers_stay_in_step,
};
pub use write_laws::{
    a_log_has_each_write_once, a_message_keeps_records_and_log, due_replies_say_what_is_done,
    ends_of_circuits_withdraw_puts, events_at_a_server_keep_writes, no_write_is_applied_twice,
    records_agree_with_their_log, what_a_reply_says_stays_so, writes_stay_as_a_world_goes_on,
};
pub use writes_in_runs::{
    callers_are_told_what_became_of_writes, each_event_keeps_what_replies_say,
    each_event_keeps_writes, ends_and_circuits_stay_in_step, sound_writes_are_applied_once,
};
pub use written::{callers_are_told_right_in_runs, writes_are_applied_once_in_runs};
