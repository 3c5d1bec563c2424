#![tactic(auto)]

ghost use Rattle.ledger.specs.Cases.{KnownAnswers};
ghost use Rattle.ledger.specs.Laws.{SizeRule, SizeLaws, Openings, WouldWrite, Refusals, NumbersGiven, EmptyWrite};
ghost use Rattle.ledger.specs.Laws.{StaysSound, EachEventOnce, Registrations, ReadersHold, EqualTotals, EqualWaiting, RunIsOneWrite, EqualAfterWrites};
ghost use Rattle.ledger.specs.Port.{PortsKeepLaws};

// Each function's contract is a law of the ledger, for every kind of event `E`. Nothing is computed.

// The ledger gives each known answer.
pub fn known_answers_hold()
    ensures { KnownAnswers }
{}

// A size below the need becomes the smallest of 2, 4, 8 and so on times itself that is at least the need; any other stays.
pub fn size_is_smallest_doubling()
    ensures { SizeRule }
{}

// The new size is at least the need and the old size, and the same in two steps as in one.
pub fn size_in_steps_is_size_at_once()
    ensures { SizeLaws }
{}

// The figures of an `Opening` are exactly those that no refusal of an opening applies to.
pub fn openings_are_exactly_the_unrefused_figures<E>()
    ensures { Openings E }
{}

// Would-write says yes exactly when some number is open.
pub fn would_write_exactly_when_a_reader_is_open<E>()
    ensures { WouldWrite E }
{}

// A call is refused exactly when one of its conditions holds; it answers its number then, and changes nothing.
pub fn refused_exactly_when_a_condition_holds<E>()
    ensures { Refusals E }
{}

// A number just closed is the next to be given out; a number given out was shut, and begins with nothing unread.
pub fn last_freed_number_is_given_out_first<E>()
    ensures { NumbersGiven E }
{}

// An empty write is accepted, answers the size and changes nothing.
pub fn empty_write_changes_nothing<E>()
    ensures { EmptyWrite E }
{}

// Every ledger reached is sound: sizes, numbers and unread lists keep their bounds.
pub fn every_reached_ledger_is_sound<E>()
    ensures { StaysSound E }
{}

// An open reader gets each accepted event once and in order.
pub fn each_event_once_and_in_order<E>()
    ensures { EachEventOnce E }
{}

// Each accepted registration is one reader's, and each open number is an open reader's.
pub fn each_registration_is_one_reader<E>()
    ensures { Registrations E }
{}

// A reader was handed all that was accepted up to its last read, and what was accepted since waits for it.
pub fn readers_are_handed_all_up_to_their_last_read<E>()
    ensures { ReadersHold E }
{}

// Two readers have equal totals exactly when equal events were accepted from registration to last read.
pub fn equal_totals_exactly_when_equal_events_accepted<E>()
    ensures { EqualTotals E }
{}

// Two open readers have equal lists waiting exactly when equally many events were accepted since the last read of each.
pub fn equal_waiting_lists_exactly_when_equally_many_accepted<E>()
    ensures { EqualWaiting E }
{}

// A run of accepted writes leaves what one write of their joined events leaves.
pub fn run_of_writes_is_one_write<E>()
    ensures { RunIsOneWrite E }
{}

// Two equal channels, each after a run of accepted writes, are equal exactly when the joined events are.
pub fn equal_channels_exactly_when_equal_joined_events<E>()
    ensures { EqualAfterWrites E }
{}

// Every program whose calls answer as the ledger's do keeps the laws.
pub fn programs_that_answer_as_the_ledger_keep_its_laws<E, S>()
    ensures { PortsKeepLaws E S }
{}
