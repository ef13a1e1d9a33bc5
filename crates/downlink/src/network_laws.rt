//! What the queue of a network promises, over any list of calls.

ghost use Rattle.downlink.specs.NetworkLaws.{IsReceiverAlone};

/// What waits for a receiver, and what is answered of it, is as if it were alone with the calls that go to it.
pub fn each_receiver_alone()
    ensures { IsReceiverAlone }
{}
