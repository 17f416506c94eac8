// States changed in one part.
ghost use Rattle.std.specs.Prelude.{◌≡◌};
ghost use Rattle.t1_state.specs.Changes.{at_phase, sending, with_numbers, with_sizes, with_message, with_received};

use crate::{Counts, Last, Message, Numbers, Phase, Sizes, State};

impl State {
    pub fn at_phase(mut self, phase: Phase) -> State
        ensures { result ≡ at_phase phase self }
    {
        self.phase = phase;
        self
    }

    // A block is the last one out.
    pub fn sends(mut self, last: Last, counts: Counts) -> State
        ensures { result ≡ sending last counts self }
    {
        self.last = last;
        self.counts = counts;
        self
    }

    pub fn with_numbers(mut self, next: bool, expected: bool) -> State
        ensures { result ≡ with_numbers next expected self }
    {
        self.numbers = Numbers { next, expected };
        self
    }

    pub fn with_sizes(mut self, theirs: u8, ours: u8) -> State
        ensures { result ≡ with_sizes theirs ours self }
    {
        self.sizes = Sizes { theirs, ours };
        self
    }

    pub fn with_message(mut self, message: Message) -> State
        ensures { result ≡ with_message message self }
    {
        self.message = message;
        self
    }

    pub fn with_received(mut self, received: usize) -> State
        ensures { result ≡ with_received received self }
    {
        self.received = received;
        self
    }
}
