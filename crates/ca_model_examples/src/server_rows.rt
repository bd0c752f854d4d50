//! Worked values of a server: payloads, conversions, which fault decides, access rights, waiting
//! puts and queued posts; and its replies byte by byte.
ghost use Rattle.ca_model_examples.specs.ServerRows.{BigSubscription, CancelSpelled};
ghost use Rattle.ca_model_examples.specs.ServerRows.{CancelledEntries, ClearSpelled, Converts};
ghost use Rattle.ca_model_examples.specs.ServerRows.{CreationSpelled, DisconnectSpelled};
ghost use Rattle.ca_model_examples.specs.ServerRows.{DisplayReadFaults, DisplaySubscriptionFaults};
ghost use Rattle.ca_model_examples.specs.ServerRows.{DisplayUpdateSpelled};
ghost use Rattle.ca_model_examples.specs.ServerRows.{EarlyPutFaults, EarlyPutFaultsInOrder};
ghost use Rattle.ca_model_examples.specs.ServerRows.{EchoSpelled, ErrorSpelled, FinishedPuts};
ghost use Rattle.ca_model_examples.specs.ServerRows.{GainAsTimeDouble, LatePutFaults};
ghost use Rattle.ca_model_examples.specs.ServerRows.{LatePutFaultsInOrder, ManyPosts};
ghost use Rattle.ca_model_examples.specs.ServerRows.{MasksShareBits, NoCid, NotFoundSpelled};
ghost use Rattle.ca_model_examples.specs.ServerRows.{PausedPosts, PausedTakes, PutSpelled};
ghost use Rattle.ca_model_examples.specs.ServerRows.{ReadFaults, ReadFaultsInOrder, ReadSpelled};
ghost use Rattle.ca_model_examples.specs.ServerRows.{ReadsUpToTheLimit, RightsAreBits, RulesDecide};
ghost use Rattle.ca_model_examples.specs.ServerRows.{SearchSpelled, ShortSubscription, SixteenWait};
ghost use Rattle.ca_model_examples.specs.ServerRows.{SubscriptionFaults, SubscriptionFaultsInOrder};
ghost use Rattle.ca_model_examples.specs.ServerRows.{TempAsStatusChar, TempAsString};
ghost use Rattle.ca_model_examples.specs.ServerRows.{TempAsTimeLong, UpdateSpelled, VersionSpelled};
ghost use Rattle.ca_model_examples.specs.ServerRows.{VoltAsControlLong, VoltAsDouble};
ghost use Rattle.ca_model_examples.specs.ServerRows.{VoltAsGraphicLong, VoltAsString};
ghost use Rattle.ca_model_examples.specs.ServerRows.{WaitingAfterCut, WaveAsChars};
ghost use Rattle.ca_model_examples.specs.ServerRows.{WrittenAsTimeLong};

/// Images: TEMP, which is 21, as TIME_LONG, STRING and STS_CHAR; GAIN, which is 1.0, as
/// TIME_DOUBLE; elements of WAVE, which has one,
/// as CHAR; and TEMP after a write, with its stamp.
pub fn images_are_as_worked()
    ensures temp_as_time_long { TempAsTimeLong }
    ensures temp_as_string { TempAsString }
    ensures temp_as_status_char { TempAsStatusChar }
    ensures gain_as_time_double { GainAsTimeDouble }
    ensures wave_as_chars { WaveAsChars }
    ensures written_as_time_long { WrittenAsTimeLong }
{}

/// Images of a record with display data: VOLT, which is 21 V, as GR_LONG, CTRL_LONG, DOUBLE and
/// STRING.
pub fn display_images_are_as_worked()
    ensures volt_as_graphic_long { VoltAsGraphicLong }
    ensures volt_as_control_long { VoltAsControlLong }
    ensures volt_as_double { VoltAsDouble }
    ensures volt_as_string { VoltAsString }
{}

/// Conversions of texts and numbers.
pub fn conversions_are_as_worked()
    ensures { Converts }
{}

/// Faults of reads and puts, and for each two that follow each other which one decides.
pub fn request_faults_are_as_worked()
    ensures reads { ReadFaults }
    ensures reads_in_order { ReadFaultsInOrder }
    ensures display_reads { DisplayReadFaults }
    ensures reads_up_to_the_limit { ReadsUpToTheLimit }
    ensures early_puts { EarlyPutFaults }
    ensures early_puts_in_order { EarlyPutFaultsInOrder }
    ensures late_puts { LatePutFaults }
    ensures late_puts_in_order { LatePutFaultsInOrder }
{}

/// Faults of subscriptions, and for each two that follow each other which one decides.
pub fn subscription_faults_are_as_worked()
    ensures faults { SubscriptionFaults }
    ensures short { ShortSubscription }
    ensures in_order { SubscriptionFaultsInOrder }
    ensures display { DisplaySubscriptionFaults }
    ensures big { BigSubscription }
{}

/// Access rights, by the first rule that meets.
pub fn rights_are_as_worked()
    ensures rules_decide { RulesDecide }
    ensures bits { RightsAreBits }
{}

/// The replies to VERSION, ECHO, SEARCH and CREATE_CHAN, byte by byte.
pub fn spelled_greetings_are_as_worked()
    ensures version { VersionSpelled }
    ensures echo { EchoSpelled }
    ensures search { SearchSpelled }
    ensures not_found { NotFoundSpelled }
    ensures creation { CreationSpelled }
{}

/// The messages of an open channel, byte by byte.
pub fn spelled_replies_are_as_worked()
    ensures read { ReadSpelled }
    ensures put { PutSpelled }
    ensures update { UpdateSpelled }
    ensures display_update { DisplayUpdateSpelled }
    ensures cancel { CancelSpelled }
    ensures clear { ClearSpelled }
    ensures error { ErrorSpelled }
    ensures no_cid { NoCid }
    ensures disconnect { DisconnectSpelled }
{}

/// The queue after many posts, while events are off, and after a cancel; and whom a post concerns.
pub fn queued_posts_are_as_worked()
    ensures many_posts { ManyPosts }
    ensures paused_posts { PausedPosts }
    ensures paused_takes { PausedTakes }
    ensures cancelled { CancelledEntries }
    ensures masks { MasksShareBits }
{}

/// Puts that wait on a busy record, the end of their circuit, and their finish.
pub fn waiting_puts_are_as_worked()
    ensures sixteen_wait { SixteenWait }
    ensures after_cut { WaitingAfterCut }
    ensures finished { FinishedPuts }
{}
