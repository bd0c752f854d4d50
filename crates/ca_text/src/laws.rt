//! The constants of the code are the numbers that definitions cite.
ghost use Rattle.std.specs.Prelude.{◌≡◌, ◌∷◌, [], List, ℕ};
ghost use Rattle.ca_text.specs.declared.limits.TheConstants.{APPLIED_LIMIT, ARENA_SLOTS};
ghost use Rattle.ca_text.specs.declared.limits.TheConstants.{BEACON_SERVERS, BOARD_CELLS};
ghost use Rattle.ca_text.specs.declared.limits.TheConstants.{CHANNEL_LIMIT, CHANNEL_NAME_LIMIT};
ghost use Rattle.ca_text.specs.declared.limits.TheConstants.{CIRCUIT_QUEUES, CLOSE_SILENCE};
ghost use Rattle.ca_text.specs.declared.limits.TheConstants.{DATAGRAM_LIMIT, DATAGRAM_REPLIES};
ghost use Rattle.ca_text.specs.declared.limits.TheConstants.{ECHO_SILENCE, ELEMENT_LIMIT};
ghost use Rattle.ca_text.specs.declared.limits.TheConstants.{ENGINE_TURNS, FLOW_READS};
ghost use Rattle.ca_text.specs.declared.limits.TheConstants.{LAST_GENERATION, MINOR_VERSION};
ghost use Rattle.ca_text.specs.declared.limits.TheConstants.{OUTPUT_LIMIT, PAYLOAD_LIMIT};
ghost use Rattle.ca_text.specs.declared.limits.TheConstants.{PRIORITY_LIMIT, QUEUE_LOW_PLACES};
ghost use Rattle.ca_text.specs.declared.limits.TheConstants.{QUEUE_PLACES, QUEUE_SUBSCRIPTIONS};
ghost use Rattle.ca_text.specs.declared.limits.TheConstants.{RECORD_NAME_LIMIT, REPEATER_MEMBERS};
ghost use Rattle.ca_text.specs.declared.limits.TheConstants.{REPEATER_PORT, SERVER_PORT};
ghost use Rattle.ca_text.specs.declared.limits.TheConstants.{WAITING_PUTS};
ghost use Rattle.ca_text.specs.Limits.{applied_limit, arena_slots, beacon_servers, board_cells};
ghost use Rattle.ca_text.specs.Limits.{channel_limit, channel_name_limit, circuit_queues};
ghost use Rattle.ca_text.specs.Limits.{close_silence, datagram_limit, datagram_replies};
ghost use Rattle.ca_text.specs.Limits.{echo_silence, element_limit, engine_turns, flow_reads};
ghost use Rattle.ca_text.specs.Limits.{last_generation, minor_version, output_limit, payload_limit};
ghost use Rattle.ca_text.specs.Limits.{priority_limit, queue_low_places, queue_places};
ghost use Rattle.ca_text.specs.Limits.{queue_subscriptions, record_name_limit, repeater_members};
ghost use Rattle.ca_text.specs.Limits.{repeater_port, server_port, waiting_puts};
ghost use Rattle.ca_text.specs.declared.status.TheConstants.Status.{ADDFAIL, ALLOCMEM, BADCHID};
ghost use Rattle.ca_text.specs.declared.status.TheConstants.Status.{BADCOUNT, BADTYPE, DISCONN};
ghost use Rattle.ca_text.specs.declared.status.TheConstants.Status.{GETFAIL, INTERNAL, NOCONVERT};
ghost use Rattle.ca_text.specs.declared.status.TheConstants.Status.{NORDACCESS, NORMAL, NOWTACCESS};
ghost use Rattle.ca_text.specs.declared.status.TheConstants.Status.{PUTFAIL};
ghost use Rattle.ca_text.specs.Status.{add_fail, alloc_mem, bad_channel, bad_count, bad_type};
ghost use Rattle.ca_text.specs.Status.{disconn, get_fail, internal, no_convert, no_read_access};
ghost use Rattle.ca_text.specs.Status.{no_write_access, normal, put_fail};

/// Each limit of the code is the one of the table.
pub fn limits_are_these()
    ensures protocol { (MINOR_VERSION ≡ minor_version) × (PRIORITY_LIMIT ≡ priority_limit)
        × (SERVER_PORT ≡ server_port) × (REPEATER_PORT ≡ repeater_port) }
    ensures bytes { (PAYLOAD_LIMIT ≡ payload_limit) × (DATAGRAM_LIMIT ≡ datagram_limit)
        × (DATAGRAM_REPLIES ≡ datagram_replies) × (OUTPUT_LIMIT ≡ output_limit) }
    ensures names { (CHANNEL_NAME_LIMIT ≡ channel_name_limit)
        × (RECORD_NAME_LIMIT ≡ record_name_limit) }
    ensures values { ELEMENT_LIMIT ≡ element_limit }
    ensures tables { (CHANNEL_LIMIT ≡ channel_limit) × (ARENA_SLOTS ≡ arena_slots)
        × (LAST_GENERATION ≡ last_generation) × (BOARD_CELLS ≡ board_cells) }
    ensures queues { (QUEUE_PLACES ≡ queue_places) × (QUEUE_LOW_PLACES ≡ queue_low_places)
        × (QUEUE_SUBSCRIPTIONS ≡ queue_subscriptions) × (CIRCUIT_QUEUES ≡ circuit_queues) }
    ensures puts { (WAITING_PUTS ≡ waiting_puts) × (APPLIED_LIMIT ≡ applied_limit) }
    ensures peers { (REPEATER_MEMBERS ≡ repeater_members) × (BEACON_SERVERS ≡ beacon_servers) }
    ensures turns { ENGINE_TURNS ≡ engine_turns }
    ensures flow { FLOW_READS ≡ flow_reads }
    ensures silence { (ECHO_SILENCE ≡ echo_silence) × (CLOSE_SILENCE ≡ close_silence) }
{}

/// Each status of the code has the number of the table.
pub fn statuses_are_these()
    ensures well { NORMAL.number ≡ normal }
    ensures peer { (ALLOCMEM.number ≡ alloc_mem) × (INTERNAL.number ≡ internal)
        × (DISCONN.number ≡ disconn) }
    ensures asked { (BADTYPE.number ≡ bad_type) × (BADCOUNT.number ≡ bad_count)
        × (BADCHID.number ≡ bad_channel) }
    ensures access { (NORDACCESS.number ≡ no_read_access) × (NOWTACCESS.number ≡ no_write_access) }
    ensures failed { (GETFAIL.number ≡ get_fail) × (PUTFAIL.number ≡ put_fail)
        × (ADDFAIL.number ≡ add_fail) × (NOCONVERT.number ≡ no_convert) }
{}
