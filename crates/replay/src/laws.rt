ghost use Rattle.replay.specs.Steps.{CallsAnswer, ChannelsKeepLaws};

// Each function's contract is a law of the channel, for every kind of event `E`. Nothing is computed.

// Register, write, read and close answer as the ledger does: with the channel's own slots, and with others, which are
// refused.
pub fn public_calls_answer_as_the_ledger<E>()
    ensures { CallsAnswer E }
{}

// Every list of public calls from an opening keeps the laws of the ledger, in terms of what its reads and writes answer.
pub fn channels_keep_the_laws<E>()
    ensures { ChannelsKeepLaws E }
{}
