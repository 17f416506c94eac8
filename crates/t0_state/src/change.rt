// States changed in one part.
ghost use Rattle.std.specs.Prelude.{◌≡◌};
ghost use Rattle.t0_state.specs.Changes.{at_phase, with_header, with_counts, with_trailer, with_received, asking as asking_for};

use crate::{Counts, Header, Phase, Sent, State};
use apdu::Trailer;

impl State {
    pub fn at_phase(mut self, phase: Phase) -> State
        ensures { result ≡ at_phase phase self }
    {
        self.phase = phase;
        self
    }

    pub fn with_header(mut self, header: Header) -> State
        ensures { result ≡ with_header header self }
    {
        self.header = header;
        self
    }

    pub fn with_counts(mut self, counts: Counts) -> State
        ensures { result ≡ with_counts counts self }
    {
        self.counts = counts;
        self
    }

    pub fn with_received(mut self, received: usize) -> State
        ensures { result ≡ with_received received self }
    {
        self.received = received;
        self
    }

    // A status that is to end the answer is kept.
    pub fn with_trailer(mut self, status: Trailer) -> State
        ensures { result ≡ with_trailer status self }
    {
        self.trailer = Some(status);
        self
    }

    // A header goes out, with which so many bytes are moved.
    pub fn asking(self, sent: Sent, size: usize) -> State
        ensures { result ≡ asking_for sent size self }
    {
        let header = Header {
            sent,
            size,
            left: size,
        };
        self.with_header(header).at_phase(Phase::Procedure)
    }
}
